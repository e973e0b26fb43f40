//! The proof of a refuted tree as a list of steps.
ghost use Rattle.std.specs.Prelude.{◌≡◌, ℕ, map, All, IfOk};
ghost use Rattle.theory.specs.Plans as plans;
ghost use Rattle.theory.specs.Beginnings.{begun};
ghost use Rattle.cdcl.specs.Plans.{search_of, beginning_of};
ghost use Rattle.theory.specs.ProofReading.{IsStep};
ghost use Rattle.lrat_text.specs.Steps.{step_of};
ghost use Rattle.cubes.specs.Result.{IsCheckedResultOf};
ghost use Rattle.join.specs.Numbered.{AreStepsOf, AreAccepted};

use crate::proof_lines::Lines;
use cdcl::{Refutation, Search};
use cnf::Formula;
use cubes::{Node, Tree};
use lines::Row;
use lrat::Step;
use std::alloc::{AllocError, Global};

/// The lines of a refuted cube as a row.
fn row_of(alloc: Global, refutation: &Refutation) -> Result<Row, AllocError>
    ensures { IfOk result (λ row. row ≡ refutation.now) }
{
    let mut row = Row::new(alloc);
    for line in &refutation.lines {
        row.push(line.clause(), line.hints(), line.forgets())?;
    }
    Ok(row)
}

/// The nodes with the lines of refuted cubes as rows.
fn rows_of(alloc: Global, nodes: Vec<Node>) -> Result<Vec<Node<Row>>, AllocError>
    ensures { IfOk result (λ rows. rows.items ≡ nodes.items) }
{
    let mut rows = Vec::with_capacity(alloc, nodes.len())?;
    for node in nodes {
        match node {
            Node::Split(var) => rows.push(Node::Split(var))?,
            Node::Leaf(refutation) => rows.push(Node::Leaf(row_of(alloc, &refutation)?))?,
        }
    }
    Ok(rows)
}

/// The proof of a formula's tree of splits that has no satisfied leaf, if the tree was checked or is
/// the formula's own; a model has no proof. It fails only where a request for memory is refused, or
/// where a number would be above its limit. The checker accepts the steps of a refuted tree.
pub fn join(
    alloc: Global,
    formula: &Formula,
    search: Search,
    tree: Tree,
) -> Result<Vec<Step>, AllocError>
    requires { (constants : plans.Constants) × IsCheckedResultOf (search_of search constants) (begun formula.now (beginning_of search)) tree }
    ensures steps { IfOk result (λ steps. AreStepsOf formula.now (beginning_of search) tree (map step_of steps.items)) }
    ensures within { IfOk result (λ steps. All IsStep (map step_of steps.items)) }
    ensures accepted { IfOk result (λ steps. AreAccepted formula.now tree (map step_of steps.items)) }
{
    let Tree::Refuted(nodes) = tree else {
        return Ok(Vec::new(alloc));
    };
    let rows = Tree::Refuted(rows_of(alloc, nodes)?);
    let mut lines = Lines::of(alloc, formula, search, rows)?;
    let mut steps = Vec::new(alloc);
    while lines.next_line()? {
        steps.push(lines.line().to_step(alloc)?)?;
    }
    Ok(steps)
}

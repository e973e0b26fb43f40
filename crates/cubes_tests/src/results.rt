//! Results of cubes, and trees, as rows name them, with a budget of one conflict for the root.
ghost use Rattle.std.specs.Prelude.{IfOk, OnOk};
ghost use Rattle.theory.specs.Truth.{IsOver};
ghost use Rattle.theory.specs.Plans as plans;
ghost use Rattle.theory.specs.Plans.{ordered_within};
ghost use Rattle.theory.specs.Pure.{searched};
ghost use Rattle.theory.specs.Beginnings.{begun_by};
ghost use Rattle.theory.specs.Runs.{Runs};
ghost use Rattle.theory.specs.Results.{OutcomeSays};
ghost use Rattle.cdcl.specs.Outcome.{outcome_of};
ghost use Rattle.cubes.specs.Solved.{AreTrueResults};

use cdcl::{Outcome, Plan, Refutation, Unwatched};
use cnf::Formula;
use cubes::{CubeSolver, Node, Root, Solved, Tree, What, gather_by_plan};
use kernel::Cube;
use lines::Row as LineRow;
use std::alloc::{AllocError, Global};
use test_samples::{cube_of, reads};

/// What a cube comes to.
#[derive(Clone, Copy)]
pub enum Given {
    Model(&'static [bool]),
    Refuted,
    Exhausted(u32),
    Skipped(u64),
}

/// A line of a leaf, which forgets nothing: its clause, and its hints.
pub type WantedLine = (&'static [i32], &'static [u64]);

/// What a node has to be.
#[derive(Clone, Copy)]
pub enum Wanted {
    Split(u32),
    Leaf(&'static [WantedLine]),
}

/// What a tree has to be.
#[derive(Clone, Copy)]
pub enum WantedTree {
    Refuted(&'static [Wanted]),
    Model(&'static [bool]),
}

/// Whether an outcome is the one that a row names.
pub fn is_given<L>(outcome: &Outcome<L>, given: Given) -> bool {
    match outcome {
        Outcome::Model(values) =>
            matches!(given, Given::Model(wanted) if values.as_slice() == wanted),
        Outcome::Refuted(_) => matches!(given, Given::Refuted),
        Outcome::Exhausted(var) => matches!(given, Given::Exhausted(wanted) if wanted == *var),
    }
}

/// What a cube comes to by a plan.
pub fn solved(
    alloc: Global,
    formula: &Formula,
    plan: Plan,
    cube: &Cube,
) -> Result<Outcome<LineRow>, AllocError>
    requires { IsOver formula.now.vars cube.now }
    ensures runs { IfOk result (λ o. Runs (begun_by plan.search formula.now) plan cube.now (outcome_of o)) }
    ensures says { IfOk result (λ o. OutcomeSays plan.search (begun_by plan.search formula.now) cube.now (outcome_of o)) }
{
    let mut solver = CubeSolver::open(alloc, formula, plan, Root::Unknown, true)?;
    solver.solve(plan, cube, &Unwatched)
}

/// Adds a cube's result. The answer is `false` where it isn't the one that the row names.
fn put_result(
    alloc: Global,
    formula: &Formula,
    numbers: &[i32],
    given: Given,
    results: &mut Vec<Solved<LineRow>>,
) -> Result<bool, AllocError>
    requires { AreTrueResults (searched formula.now) (ordered_within 1) results.old.items }
    ensures { OnOk result (AreTrueResults (searched formula.now) (ordered_within 1) results.new.items) }
{
    let cube = cube_of(alloc, formula.vars(), numbers)?;
    if let Given::Skipped(place) = given {
        let what = What::Skipped(place);
        results.push(Solved { cube, what })?;
        return Ok(true);
    }
    let outcome = solved(alloc, formula, Plan::ordered(1), &cube)?;
    let is_as_named = is_given(&outcome, given);
    let what = What::Done(outcome);
    results.push(Solved { cube, what })?;
    Ok(is_as_named)
}

/// The tree that is gathered from the results of these cubes, if they are the ones that the row
/// names.
pub fn gathered(
    alloc: Global,
    formula: &Formula,
    rows: &[(&[i32], Given)],
) -> Result<Option<Tree<LineRow>>, AllocError> {
    let mut results = Vec::new(alloc);
    for row in rows {
        if !put_result(alloc, formula, row.0, row.1, &mut results)? {
            return Ok(None);
        }
    }
    let _vars = formula.vars(); // it ensures what the proof needs of the formula
    Ok(Some(gather_by_plan(alloc, formula, Plan::ordered(1), results)?))
}

/// Tells whether the lines of a refuted cube are those that a row names.
pub trait HasLines {
    fn has_lines(&self, wanted: &[WantedLine]) -> Result<bool, AllocError>;
}

impl HasLines for LineRow {
    fn has_lines(&self, wanted: &[WantedLine]) -> Result<bool, AllocError> {
        let mut lines = self.lines();
        let mut clause = Vec::new(self.allocator());
        let mut hints = Vec::new(self.allocator());
        let mut forgets = Vec::new(self.allocator());
        for want in wanted {
            let is_there = lines.next(&mut clause, &mut hints, &mut forgets)?;
            let is_wanted = reads(&clause, want.0) && hints.as_slice() == want.1;
            if !is_there || !is_wanted || !forgets.is_empty() {
                return Ok(false);
            }
        }
        Ok(lines.len() == 0)
    }
}

impl HasLines for Refutation {
    fn has_lines(&self, wanted: &[WantedLine]) -> Result<bool, AllocError> {
        if self.lines.len() != wanted.len() {
            return Ok(false);
        }
        for (line, want) in self.lines.iter().zip(wanted) {
            let is_wanted = reads(line.clause(), want.0) && line.hints() == want.1;
            if !is_wanted || !line.forgets().is_empty() {
                return Ok(false);
            }
        }
        Ok(true)
    }
}

fn is_node<L: HasLines>(node: &Node<L>, wanted: Wanted) -> Result<bool, AllocError> {
    match (node, wanted) {
        (Node::Split(var), Wanted::Split(wanted)) => Ok(*var == wanted),
        (Node::Leaf(kept), Wanted::Leaf(lines)) => kept.has_lines(lines),
        _ => Ok(false),
    }
}

fn are_nodes<L: HasLines>(nodes: &[Node<L>], wanted: &[Wanted]) -> Result<bool, AllocError> {
    if nodes.len() != wanted.len() {
        return Ok(false);
    }
    for (node, wanted) in nodes.iter().zip(wanted) {
        if !is_node(node, *wanted)? {
            return Ok(false);
        }
    }
    Ok(true)
}

/// Whether a tree is the one that a row names.
pub fn is_tree<L: HasLines>(tree: &Tree<L>, wanted: WantedTree) -> Result<bool, AllocError> {
    match (tree, wanted) {
        (Tree::Model(values), WantedTree::Model(model)) => Ok(values.as_slice() == model),
        (Tree::Refuted(nodes), WantedTree::Refuted(wanted)) => are_nodes(nodes, wanted),
        _ => Ok(false),
    }
}

// the tree of the eight clauses
pub const NODES: [Wanted; 3] = [
    Wanted::Split(1),
    Wanted::Leaf(&[(&[2], &[1, 2]), (&[], &[9, 3, 4])]),
    Wanted::Leaf(&[(&[2], &[5, 6]), (&[], &[9, 7, 8])]),
];

pub const OF_EIGHT: WantedTree = WantedTree::Refuted(&NODES);

// the tree of the sixteen clauses
pub const NODES_OF_SIXTEEN: [Wanted; 7] = [
    Wanted::Split(1),
    Wanted::Split(2),
    Wanted::Leaf(&[(&[3], &[1, 2]), (&[], &[17, 3, 4])]),
    Wanted::Leaf(&[(&[3], &[5, 6]), (&[], &[17, 7, 8])]),
    Wanted::Split(2),
    Wanted::Leaf(&[(&[3], &[9, 10]), (&[], &[17, 11, 12])]),
    Wanted::Leaf(&[(&[3], &[13, 14]), (&[], &[17, 15, 16])]),
];

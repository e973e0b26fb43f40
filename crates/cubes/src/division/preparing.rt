//! What is done before hands begin: where the plan may divide the formula, the cube without
//! literals is solved, so that each hand can be told what it comes to.
ghost use Rattle.std.specs.Prelude.{◌≡◌, IfOk};
ghost use Rattle.cubes.specs.declared.division.preparing.Beginning.TheVariants.{Decided};
ghost use Rattle.cubes.specs.Preparing.{Begins, Told};
ghost use Rattle.theory.specs.Beginnings.{begun_by};

use crate::division::cube_solver::CubeSolver;
use crate::division::root::Root;
use crate::gate::{Gate, Prepared};
use crate::tree::{Node, Tree};
use cdcl::{KeepsLines, Outcome, Plan};
use cnf::Formula;
use kernel::Cube;
use std::alloc::{AllocError, Global};

/// What is known before hands begin.
#[derive(Drop)]
pub(crate) enum Beginning<L> {
    /// The formula's result.
    Decided(Tree<L>),
    /// What hands are told of the cube without literals.
    Open(Root),
}

/// The result is known, and no hand gets the cube without literals: so the gate is told of it here.
fn decided<L, G: Gate>(alloc: Global, gate: &G, tree: Tree<L>) -> Beginning<L>
    ensures { result ≡ Decided tree }
{
    let root = Cube::root(alloc);
    gate.before(0, &root);
    if let Tree::Refuted(_) = &tree {
        gate.refuted(0, &root);
    }
    gate.after(0, &root);
    Beginning::Decided(tree)
}

/// Solves the cube without literals where the plan may divide the formula. Otherwise that is left
/// to the hand that takes it, while others wait for its halves.
pub(crate) fn prepare<L: KeepsLines, G: Gate>(
    alloc: Global,
    formula: &Formula,
    plan: Plan,
    gate: &G,
) -> Result<Beginning<L>, AllocError>
    ensures begins { IfOk result (λ b. Begins L.lines (begun_by plan.search formula.now) plan b) }
    ensures says { IfOk result (λ b. Told plan.search formula.now b) }
{
    if !plan.may_divide() {
        return Ok(Beginning::Open(Root::Unknown));
    }
    let _vars = formula.vars(); // it ensures what the proof needs of the formula
    let root = Cube::root(alloc);
    let mut solver = CubeSolver::open(alloc, formula, plan, Root::Unknown, L::keeps())?;
    match solver.solve::<L, _>(plan, &root, &Prepared { gate })? {
        Outcome::Exhausted(var) => Ok(Beginning::Open(solver.root(var))),
        Outcome::Model(values) => Ok(decided(alloc, gate, Tree::Model(values))),
        Outcome::Refuted(lines) => {
            let mut nodes = Vec::new(alloc);
            nodes.push(Node::Leaf(lines))?;
            Ok(decided(alloc, gate, Tree::Refuted(nodes)))
        }
    }
}

//! Going through the tree of a formula from left to right, where outcomes come one after the other
//! and somebody else takes the nodes, so that no more than one of them is in memory.
ghost use Rattle.std.specs.Prelude.{◌≡◌, ◌∷◌, ◌++◌, [], ⊤, List, IfOk, OnOk, IfSome};
ghost use Rattle.theory.specs.Literals.{Literal};
ghost use Rattle.theory.specs.Truth.{Formula, IsOver};
ghost use Rattle.theory.specs.Plans as plans;
ghost use Rattle.theory.specs.Trees as trees;
ghost use Rattle.theory.specs.Runs.{Runs};
ghost use Rattle.theory.specs.Results.{done};
ghost use Rattle.theory.specs.Checked.{IsCheckedOf};
ghost use Rattle.theory.specs.Beginnings.{begun_by};
ghost use Rattle.cdcl.specs.Outcome.{outcome_of};
ghost use Rattle.cubes.specs.Result.{node_of, IsResultOf, IsCheckedResultOf, Says};
ghost use Rattle.cubes.specs.Streaming.{nodes_from, nodes_in, IsCheckedNode, AreTaken};

use crate::gathering::Gathering;
use crate::tree::{Node, Tree};
use cdcl::{Outcome, Plan, Unkept};
use cnf::Formula;
use kernel::Cube;
use lines::Row;
use std::alloc::{AllocError, Global};

/// Gives the outcome of each cube that it is asked for, wherever it comes from.
pub trait GivesOutcomes {
    // it gives outcomes of the formula's cubes that are checked by the plan's search
    ghost gives: { Self → Formula → plans.Plan → Type 0 };

    // and each of them is the cube's by the plan
    ghost gives_own: { Self → Formula → plans.Plan → Type 0 };

    /// The outcome of a cube. It fails only where a request for memory is refused, and isn't asked
    /// again then.
    fn outcome(
        &mut self,
        alloc: Global,
        formula: &Formula,
        plan: Plan,
        cube: &Cube,
    ) -> Result<Outcome<Row>, AllocError>
        requires over { IsOver formula.now.vars cube.now }
        requires gives { gives self.old formula.now plan }
        ensures checked { IfOk result (λ o. IsCheckedOf plan.search (begun_by plan.search formula.now) cube.now (done (outcome_of o))) }
        ensures own { gives_own self.old formula.now plan → IfOk result (λ o. Runs (begun_by plan.search formula.now) plan cube.now (outcome_of o)) }
        ensures still { OnOk result (gives self.new formula.now plan) }
        ensures still_own { gives_own self.old formula.now plan → OnOk result (gives_own self.new formula.now plan) };
}

/// Takes the nodes of a formula's tree, in the order node, left subtree, right subtree, and makes of
/// them what it does, in an `Out`.
pub trait TakesNodes<Out> {
    // it takes nodes of the tree of this formula by this search
    ghost is_for: { Self → plans.Search → Formula → Type 0 };

    // by taking these nodes, it came from the first state, and what was made by then, to the last
    // one, and what is made now
    ghost takes: { Self → Out → List trees.Node → Self → Out → Type 0 };

    /// Takes the next node. A failure ends the way through the tree, and it isn't asked again then.
    fn take(&mut self, out: &mut Out, formula: &Formula, node: Node<Row>) -> Result<(), AllocError>
        requires node { (search : plans.Search) × (Q : List Literal) × is_for self.old search formula.now × IsCheckedNode search (begun_by search formula.now) Q (node_of node) }
        ensures takes { (first : Self) (begun : Out) (nodes : List trees.Node) → takes first begun nodes self.old out.old
            → OnOk result (takes first begun (nodes ++ node_of node ∷ []) self.new out.new) }
        ensures still { (search : plans.Search) → is_for self.old search formula.now → OnOk result (is_for self.new search formula.now) };
}

/// Takes nodes, and makes nothing of them.
#[derive(Clone, Copy)]
pub struct Untaken;

impl TakesNodes<()> for Untaken {
    ghost is_for = { λ _ _ _. ⊤ };

    ghost takes = { λ _ _ _ _ _. ⊤ };

    fn take(
        &mut self,
        _out: &mut (),
        _formula: &Formula,
        _node: Node<Row>,
    ) -> Result<(), AllocError> {
        Ok(())
    }
}

/// The outcome without its lines; and the node that it is, if it is one, with them.
fn parted(outcome: Outcome<Row>) -> (Outcome<Unkept>, Option<Node<Row>>)
    ensures outcome { result.0 ≡ outcome }
    ensures node { nodes_in result.1 ≡ nodes_from (outcome_of outcome) }
{
    match outcome {
        Outcome::Model(values) => (Outcome::Model(values), None),
        Outcome::Exhausted(var) => (Outcome::Exhausted(var), Some(Node::Split(var))),
        Outcome::Refuted(row) => {
            let unkept = Unkept::of(&row);
            (Outcome::Refuted(unkept), Some(Node::Leaf(row)))
        }
    }
}

/// Hands a node on, if there is one.
fn hand_on<Out, T: TakesNodes<Out>>(
    taker: &mut T,
    out: &mut Out,
    formula: &Formula,
    node: Option<Node<Row>>,
) -> Result<(), AllocError>
    requires node { IfSome node (λ n. (search : plans.Search) × (Q : List Literal) × T.is_for taker.old search formula.now × IsCheckedNode search (begun_by search formula.now) Q (node_of n)) }
    ensures takes { (first : T) (begun : Out) (nodes : List trees.Node) → T.takes first begun nodes taker.old out.old
        → OnOk result (T.takes first begun (nodes ++ nodes_in node) taker.new out.new) }
    ensures still { (search : plans.Search) → T.is_for taker.old search formula.now → OnOk result (T.is_for taker.new search formula.now) }
{
    if let Some(node) = node {
        taker.take(out, formula, node)?;
    }
    Ok(())
}

/// A checked result of the formula, from the outcomes of its cubes: it goes through the tree from
/// left to right, asks for each cube's outcome once, and hands its node on before it asks for the
/// next one. Where each outcome is the plan's own, so is the result. It keeps a few bytes of each
/// node, and no lines. It fails where a request for memory is refused, or where the taker fails.
pub fn go_through<Out, S: GivesOutcomes, T: TakesNodes<Out>>(
    alloc: Global,
    formula: &Formula,
    plan: Plan,
    source: &mut S,
    taker: &mut T,
    out: &mut Out,
) -> Result<Tree<Unkept>, AllocError>
    requires gives { S.gives source.old formula.now plan }
    requires is_for { T.is_for taker.old plan.search formula.now }
    requires begun { T.takes taker.old out.old [] taker.old out.old }
    ensures checked { IfOk result (λ t. IsCheckedResultOf plan.search (begun_by plan.search formula.now) t) }
    ensures own { S.gives_own source.old formula.now plan → IfOk result (λ t. IsResultOf (begun_by plan.search formula.now) plan t) }
    ensures says { IfOk result (λ t. Says plan.search formula.now t) }
    ensures taken { IfOk result (λ t. AreTaken (λ nodes. T.takes taker.old out.old nodes taker.new out.new) t) }
    ensures still { OnOk result (S.gives source.new formula.now plan) }
    ensures still_own { S.gives_own source.old formula.now plan → OnOk result (S.gives_own source.new formula.now plan) }
    ensures is_for { OnOk result (T.is_for taker.new plan.search formula.now) }
{
    let _vars = formula.vars(); // it ensures what the proof needs of the formula
    let mut gathering = Gathering::start(alloc);
    'cubes: loop {
        let outcome = source.outcome(alloc, formula, plan, &gathering.at.cube)?;
        let (kept, node) = parted(outcome);
        hand_on(taker, out, formula, node)?;
        if let Some(tree) = gathering.go_on(kept)? {
            return Ok(tree);
        }
    }
}

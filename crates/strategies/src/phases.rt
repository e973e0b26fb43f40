//! How a formula is decided: the phases, in their order.
ghost use Rattle.std.specs.Prelude.{◌≡◌, [], length, IfOk, MatchOption};
ghost use Rattle.theory.specs.Beginnings.{begun_by};
ghost use Rattle.theory.specs.Runs.{Runs};
ghost use Rattle.cdcl.specs.Outcome.{outcome_by};
ghost use Rattle.cubes.specs.Result.{IsResultBy};
ghost use Rattle.strategies.specs.declared.begun_formula.Begun.TheVariants.{Given};
ghost use Rattle.strategies.specs.Begun.{formula_in, model_in, HasVariables, IsBegunBy, IsFinal};
ghost use Rattle.strategies.specs.Strategies.{by_plan};
ghost use Rattle.strategies.specs.Choosing.{IsChosen};
ghost use Rattle.strategies.specs.Deciding.{IsDecidedBy, IsPlannedBy};

use crate::beginning::{Beginning, begin};
use crate::begun_formula::Begun;
use crate::context::Context;
use crate::observer::{Observer, Unobserved};
use crate::ordered_search::{decides, first_outcome, tell};
use crate::strategy::Strategy;
use cdcl::{KeepsLines, Outcome, Plan};
use cnf::Formula;
use cubes::{Gate, Node, OpenGate, Tree, solve_by_plan, solve_one_by_plan};
use lines::Row;
use std::alloc::{AllocError, Global};
use std::sync::Wait;
use std::thread::Threads;
use std::time::Clock;

/// A formula that is decided.
#[derive(Drop)]
pub struct Decided<L> {
    /// The plan that decided it.
    pub plan: Plan,
    /// What the plan's search began with.
    pub begun: Begun,
    /// The formula's model that the plan found, or the refuted tree of what its search began with.
    pub tree: Tree<L>,
}

/// Decides a formula by a strategy, in these phases, of which each is made only where those before it
/// leave the formula open:
///
/// 1. the ordered search of the whole formula, with few conflicts, if the strategy has one first;
/// 2. a short focused search, if the plan may simplify the formula;
/// 3. simplification;
/// 4. the cubes, by hands: whether to divide the formula is said by the search of the first one.
///
/// The model that was found is made the first one by `lower`, where `is_lowered` says so. Whatever
/// the hands, the gate, the observer and the schedule, the result is the same. `L` says whether lines
/// of refuted cubes are kept, for a proof. It fails only where a request for memory is refused or the
/// gate stops it.
pub fn decide<L: KeepsLines + Send, R: Threads + Wait + Clock + Sync, G: Gate + Sync, O: Observer>(
    context: &Context<'_, R, G, O>,
    formula: &Formula,
    strategy: Strategy,
) -> Result<Decided<L>, AllocError>
    ensures { IfOk result (IsDecidedBy L.lines formula.now strategy) }
{
    let first = ordered_first(context, formula, strategy)?;
    if let Some(decided) = first {
        return Ok(decided);
    }
    let plan = strategy.plan();
    decide_by_plan(context, formula, plan)
}

/// What the ordered search comes to that the strategy has first, if it decides the formula.
fn ordered_first<L: KeepsLines, R, G: Gate, O: Observer>(
    context: &Context<'_, R, G, O>,
    formula: &Formula,
    strategy: Strategy,
) -> Result<Option<Decided<L>>, AllocError>
    ensures { IfOk result (λ found. MatchOption found (IsChosen formula.now strategy strategy.plan) (IsDecidedBy L.lines formula.now strategy)) }
{
    let (alloc, gate, observer) = (context.alloc, context.gate, context.observer);
    let Some(budget) = strategy.first_within(formula) else {
        return Ok(None);
    };
    let outcome = first_outcome::<L, _, _>(alloc, formula, budget, gate, observer)?;
    if !decides(&outcome) {
        return Ok(None);
    }
    let decided = decided_at_root(alloc, formula, Plan::ordered(budget), outcome)?;
    Ok(Some(decided))
}

/// What the plan comes to, by the phases behind the ordered search.
fn decide_by_plan<
    L: KeepsLines + Send,
    R: Threads + Wait + Clock + Sync,
    G: Gate + Sync,
    O: Observer,
>(context: &Context<'_, R, G, O>, formula: &Formula, plan: Plan) -> Result<Decided<L>, AllocError>
    ensures { IfOk result (IsPlannedBy L.lines formula.now plan) }
{
    let (alloc, gate, observer) = (context.alloc, context.gate, context.observer);
    let (rt, hands) = (context.rt, context.hands);
    match begin::<L, _, _>(alloc, formula, plan, gate, observer)? {
        Beginning::Decided(outcome) => {
            tell(alloc, gate, &outcome);
            decided_at_root(alloc, formula, plan, outcome)
        }
        Beginning::Open(begun) => {
            let tree = solve_by_plan(rt, alloc, begun.formula(formula), plan, hands, gate)?;
            Ok(decided_from(formula, plan, begun, tree))
        }
    }
}

/// What the outcome of the cube without literals decides.
fn decided_at_root<L: KeepsLines>(
    alloc: Global,
    formula: &Formula,
    plan: Plan,
    outcome: Outcome<L>,
) -> Result<Decided<L>, AllocError>
    requires begun { IsBegunBy formula.now plan Given }
    requires runs { Runs (begun_by plan.search formula.now) plan [] (outcome_by L.lines outcome) }
    requires decides { IsFinal (outcome_by L.lines outcome) }
    ensures { IfOk result (IsPlannedBy L.lines formula.now plan) }
{
    let _vars = formula.vars(); // it ensures what the proof needs of the formula
    let begun = Begun::Given;
    match outcome {
        Outcome::Model(values) => {
            let tree = Tree::Model(values);
            Ok(Decided { plan, begun, tree })
        }
        Outcome::Refuted(lines) => {
            let mut nodes = Vec::new(alloc);
            nodes.push(Node::Leaf(lines))?;
            let tree = Tree::Refuted(nodes);
            Ok(Decided { plan, begun, tree })
        }
        Outcome::Exhausted(_) => unreachable!(),
    }
}

/// What the plan's result for what its search began with decides: a model becomes one of the formula.
fn decided_from<L: KeepsLines>(
    formula: &Formula,
    plan: Plan,
    begun: Begun,
    tree: Tree<L>,
) -> Decided<L>
    requires begun { IsBegunBy formula.now plan begun }
    requires result { IsResultBy L.lines (begun_by plan.search (formula_in begun formula.now)) plan tree }
    ensures { IsPlannedBy L.lines formula.now plan result }
{
    let _vars = formula.vars(); // it ensures what the proof needs of the formula
    match tree {
        Tree::Model(values) => {
            let tree = Tree::Model(extended(&begun, values));
            Decided { plan, begun, tree }
        }
        Tree::Refuted(nodes) => {
            let tree = Tree::Refuted(nodes);
            Decided { plan, begun, tree }
        }
    }
}

/// A model of what is searched, made one of the formula.
pub(crate) fn extended(begun: &Begun, values: Vec<bool>) -> Vec<bool>
    requires { HasVariables begun.now (length values.items) }
    ensures { result.items ≡ model_in begun.now values.items }
{
    let mut values = values;
    begun.extend(&mut values);
    values
}

/// Decides a formula by a plan alone, without threads. It fails only where a request for memory is
/// refused.
pub fn solve_one(alloc: Global, formula: &Formula, plan: Plan) -> Result<Decided<Row>, AllocError>
    ensures { IfOk result (IsDecidedBy (λ row. row) formula.now (by_plan plan)) }
{
    match begin::<Row, _, _>(alloc, formula, plan, &OpenGate, &Unobserved)? {
        Beginning::Decided(outcome) => decided_at_root(alloc, formula, plan, outcome),
        Beginning::Open(begun) => {
            let tree = solve_one_by_plan(alloc, begun.formula(formula), plan)?;
            Ok(decided_from(formula, plan, begun, tree))
        }
    }
}

//! Which model is the answer: the one that a plan found, or the first one.
ghost use Rattle.std.specs.Prelude.{◌≡◌, ◌⊎◌, true, false, None, IfOk};
ghost use Rattle.theory.specs.Plans.{ordered};
ghost use Rattle.theory.specs.Beginnings.{begun_by};
ghost use Rattle.cdcl.specs.Plans.{search_from};
ghost use Rattle.cubes.specs.Result.{IsResultOf, IsCheckedResultOf, Says};
ghost use Rattle.strategies.specs.Begun.{formula_in, IsBegunBy};
ghost use Rattle.strategies.specs.Strategies.{search_by};
ghost use Rattle.strategies.specs.Deciding.{IsDecidedAs};

use crate::begun_formula::Begun;
use crate::lowering::settling::{Lowered, lower};
use crate::observer::Observer;
use crate::phases::extended;
use crate::strategy::Strategy;
use cdcl::{Plan, Search, Unkept};
use cnf::Formula;
use cubes::{Gate, Tree};
use std::alloc::{AllocError, Global};

/// Whether a model that the plan finds has to be lowered: the ordered search finds the first.
pub fn is_lowered(strategy: Strategy, plan: Plan) -> bool
    ensures kept { result ≡ false → (strategy.lowers ≡ false) ⊎ (plan.search ≡ ordered) }
    ensures lowered { result ≡ true → strategy.lowers ≡ true }
{
    if !strategy.lowers() {
        return false;
    }
    match plan.search() {
        Search::Ordered => false,
        Search::Focused => true,
    }
}

/// A checked result of what the strategy's plan begins with, with the model that is the answer in
/// the place of the one that was found. There is no search before the plan. It fails only where a
/// request for memory is refused or the gate stops it.
pub fn answered<G: Gate, O: Observer>(
    alloc: Global,
    formula: &Formula,
    begun: &Begun,
    strategy: Strategy,
    tree: Tree<Unkept>,
    gate: &G,
    observer: &O,
) -> Result<Tree<Unkept>, AllocError>
    requires alone { strategy.first ≡ None }
    requires begun { IsBegunBy formula.now strategy.plan begun.now }
    requires checked { IsCheckedResultOf strategy.plan.search (begun_by strategy.plan.search (formula_in begun.now formula.now)) tree }
    ensures says { IfOk result (λ t. Says (search_by strategy) formula.now t) }
    ensures own { IsResultOf (begun_by strategy.plan.search (formula_in begun.now formula.now)) strategy.plan tree → IfOk result (IsDecidedAs formula.now strategy (search_from strategy.plan.search) begun.now) }
{
    let _vars = formula.vars(); // it ensures what the proof needs of the formula
    let plan = strategy.plan();
    match tree {
        Tree::Model(values) => {
            let model = extended(begun, values);
            if !is_lowered(strategy, plan) {
                return Ok(Tree::Model(model));
            }
            match lower(alloc, formula, model, gate, observer)? {
                Lowered::First(answer) => Ok(Tree::Model(answer)),
                Lowered::Stopped(..) => Err(AllocError),
            }
        }
        Tree::Refuted(nodes) => Ok(Tree::Refuted(nodes)),
    }
}

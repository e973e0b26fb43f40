//! How a plan's search of a formula begins: where the plan wants it, and a short search doesn't
//! decide the formula, that is simplified.
ghost use Rattle.std.specs.Prelude.{◌≡◌, IfOk};
ghost use Rattle.strategies.specs.Begun.{IsBegunBy, IsBeginningOf};

use crate::begun_formula::Begun;
use crate::observer::Observer;
use crate::short_search::short_outcome;
use crate::simplification::simplified;
use cdcl::{KeepsLines, Outcome, Plan, Unkept};
use cnf::Formula;
use cubes::Gate;
use std::alloc::{AllocError, Global};

/// How a plan's search of a formula begins.
#[derive(Drop)]
pub(crate) enum Beginning<L> {
    /// A short search has decided the formula: this is its model or its refutation, by the plan,
    /// whose search begins with the formula itself.
    Decided(Outcome<L>),
    /// This is what the search begins with.
    Open(Begun),
}

/// The beginning of a plan's search of a formula. Where the plan simplifies formulas, it makes a
/// search of up to 1000 conflicts, and where these are used up it simplifies the formula, once. It
/// takes memory by the formula for either, and keeps what is left of the formula. It fails where
/// that is refused, and where the gate stops it.
pub(crate) fn begin<L: KeepsLines, G: Gate, O: Observer>(
    alloc: Global,
    formula: &Formula,
    plan: Plan,
    gate: &G,
    observer: &O,
) -> Result<Beginning<L>, AllocError>
    ensures { IfOk result (IsBeginningOf L.lines formula.now plan) }
{
    let _vars = formula.vars(); // it ensures what the proof needs of the formula
    let _budget = plan.budget(); // and this of the plan
    if !plan.may_simplify() {
        return Ok(Beginning::Open(Begun::Given));
    }
    match short_outcome(alloc, formula, plan, gate, observer)? {
        Outcome::Model(values) => {
            observer.ended_try(true);
            Ok(Beginning::Decided(Outcome::Model(values)))
        }
        Outcome::Refuted(lines) => {
            observer.ended_try(true);
            Ok(Beginning::Decided(Outcome::Refuted(lines)))
        }
        Outcome::Exhausted(_) => {
            observer.ended_try(false);
            let left = simplified(alloc, formula, gate, observer)?;
            Ok(Beginning::Open(Begun::Simplified(left)))
        }
    }
}

/// What a plan's search of a formula begins with, whether or not the short search decides it. It
/// takes as much as the phases before the cubes, and fails where a request for memory is refused or
/// the gate stops it.
pub fn begun<G: Gate, O: Observer>(
    alloc: Global,
    formula: &Formula,
    plan: Plan,
    gate: &G,
    observer: &O,
) -> Result<Begun, AllocError>
    ensures { IfOk result (IsBegunBy formula.now plan) }
{
    match begin::<Unkept, _, _>(alloc, formula, plan, gate, observer)? {
        Beginning::Decided(_) => Ok(Begun::Given),
        Beginning::Open(begun) => Ok(begun),
    }
}

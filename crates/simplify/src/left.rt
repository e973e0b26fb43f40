//! The formula that is left.
ghost use Rattle.std.specs.Prelude.{◌≡◌, ◌≤◌, length, IfOk};
ghost use Rattle.theory.specs.Truth.{IsOver};
ghost use Rattle.theory.specs.Forgetting.{forgotten};
ghost use Rattle.simplify.specs.Left.{left_at, left_clauses};

use crate::database::Database;
use cnf::{Formula, Lit};
use std::alloc::{AllocError, Global};

/// The clause of a number: the formula's own, as it stands there, one that was added, or, where none
/// is there, the gap.
fn clause_left<'a>(
    formula: &'a Formula,
    database: &'a Database,
    gap: &'a [Lit],
    number: u32,
) -> &'a [Lit]
    requires vars { (1 ≤ formula.now.vars) × (database.now.vars ≡ formula.now.vars) }
    requires number { (1 ≤ number) × (number ≤ length database.now.entries) }
    requires gap { gap.now ≡ forgotten }
    ensures clause { result.now ≡ left_at formula.now database.now.entries number }
    ensures over { IsOver formula.now.vars result.now }
{
    let place = number as usize - 1;
    if !database.is_there(number) {
        return gap;
    }
    if place < formula.clause_count() {
        return formula.clause(place);
    }
    database.clause(number)
}

/// The clauses that are left under their numbers; a number that no clause has any more has one with
/// both signs of a variable.
pub(crate) fn left_formula(
    alloc: Global,
    formula: &Formula,
    database: &Database,
) -> Result<Formula, AllocError>
    requires { (1 ≤ formula.now.vars) × (database.now.vars ≡ formula.now.vars) }
    ensures { IfOk result (λ f. f ≡ record { vars = database.now.vars; clauses = left_clauses formula.now database.now.entries }) }
{
    let _vars = database.vars(); // it ensures that they are few
    let gap = [Lit::of(1, true), Lit::of(1, false)];
    let mut left = Formula::without_clauses(alloc, formula.vars());
    for before in 0..database.last() {
        left.push(clause_left(formula, database, &gap, before + 1))?;
    }
    Ok(left)
}

/// How many clauses are there.
pub(crate) fn count_left(database: &Database) -> u32 {
    let mut count: u32 = 0;
    for before in 0..database.last() {
        if database.is_there(before + 1) {
            count = count.saturating_add(1);
        }
    }
    count
}

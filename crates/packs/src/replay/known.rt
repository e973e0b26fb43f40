//! The clauses that hints can name, by their numbers.
ghost use Rattle.std.specs.Prelude.{◌≡◌, ◌<◌, All, length, slice_get, Some, MatchOption};
ghost use Rattle.std.specs.Option.{option_map};
ghost use Rattle.theory.specs.Truth.{IsOver};
ghost use Rattle.theory.specs.Pure.{unit_clauses};
ghost use Rattle.packs.specs.Known.{known, numbered};

use crate::replay::line_clauses::LineClauses;
use cnf::{Formula, Lit};

/// The clauses of one literal each.
fn unit_at(units: &[Lit], place: usize) -> &[Lit]
    requires { place < length units.now }
    ensures { slice_get (unit_clauses units.now) place ≡ Some result.now }
{
    &units[place..place + 1]
}

/// The literals of the clause with a number, if there is one. Those of the formula come first, by
/// the numbers from 1 on, then the units, then the lines' clauses.
pub(crate) fn clause_of<'a>(
    formula: &'a Formula,
    units: &'a [Lit],
    lines: &'a LineClauses,
    number: u64,
) -> Option<&'a [Lit]>
    requires units { IsOver formula.now.vars units.now }
    requires lines { All (IsOver formula.now.vars) lines.now }
    ensures clause { option_map (λ c. c.now) result ≡ numbered (known formula.now units.now lines.now) number }
    ensures over { MatchOption result (Unit {0}) (λ c. IsOver formula.now.vars c.now) }
{
    if number == 0 {
        return None;
    }
    let place = number as usize - 1;
    let first = formula.clause_count();
    if place < first {
        return Some(formula.clause(place));
    }
    let behind = place - first;
    if behind < units.len() {
        return Some(unit_at(units, behind));
    }
    let line = behind - units.len();
    if line < lines.len() {
        Some(lines.get(line))
    } else {
        None
    }
}

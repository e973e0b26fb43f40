//! What the hints of a line come to.
ghost use Rattle.std.specs.Prelude.{◌≡◌, ℕ, List, All, IfOk};
ghost use Rattle.theory.specs.Literals.{Literal};
ghost use Rattle.theory.specs.Truth.{IsOver};
ghost use Rattle.theory.specs.Replaying.{carrying_from};
ghost use Rattle.theory.specs.Checking.{take_hints};
ghost use Rattle.lrat.specs.Held.{Extends};
ghost use Rattle.packs.specs.Known.{known, is_conflict, AreHeld};

use crate::replay::known::clause_of;
use crate::replay::line_clauses::LineClauses;
use cnf::{Formula, Lit};
use lrat::{Held, Hint, status_of};
use std::alloc::AllocError;

/// Whether hints, taken in order, come to a conflict with the last one: each before it is unit, and
/// puts its literal to those held true. Where a cube's literals are held, the clauses of lines may
/// as well carry their negations. It takes time by the literals of the clauses named.
pub(crate) fn come_to_conflict(
    held: &mut Held,
    formula: &Formula,
    units: &[Lit],
    lines: &LineClauses,
    hints: &[u64],
) -> Result<bool, AllocError>
    requires vars { held.old.vars ≡ formula.now.vars }
    requires units { IsOver formula.now.vars units.now }
    requires lines { All (IsOver formula.now.vars) lines.now }
    ensures conflict { IfOk result (λ b. (N : ℕ) (Q : List Literal) → AreHeld Q held.old.literals →
        b ≡ is_conflict (take_hints (carrying_from 1 N Q (known formula.now units.now lines.now)) held.old.literals hints.now)) }
    ensures extends { Extends held.old.literals held.new.literals }
    ensures vars { held.new.vars ≡ held.old.vars }
{
    for index in 0..hints.len() {
        let Some(clause) = clause_of(formula, units, lines, hints[index]) else {
            return Ok(false);
        };
        match status_of(held, clause) {
            Hint::False => return Ok(index + 1 == hints.len()),
            Hint::NotUnit => return Ok(false),
            Hint::Implies(lit) => held.push(lit)?,
        }
    }
    Ok(false)
}

//! One line of a cube, and lines one behind the other.
ghost use Rattle.std.specs.Prelude.{◌≡◌, ◌↔◌, ◌≤◌, ℕ, List, [], All, IsTrue, IfOk, length, true};
ghost use Rattle.theory.specs.Literals.{Literal};
ghost use Rattle.theory.specs.Truth.{IsOver};
ghost use Rattle.theory.specs.Replaying.{IsReplayed, AreRefutation};
ghost use Rattle.lrat.specs.Held.{Extends};
ghost use Rattle.packs.specs.Known.{begun, known, IsHolding};
ghost use Rattle.packs.specs.Replayed as replayed;

use crate::replay::forgotten::Forgotten;
use crate::replay::holding::{hold, is_over, negate};
use crate::replay::line_clauses::LineClauses;
use crate::replay::taking::come_to_conflict;
use cnf::{Formula, Lit};
use lines::Row;
use lrat::Held;
use std::alloc::AllocError;
use trail::Cube;

/// Whether a line replays, where a cube's literals are held true. It leaves more of them.
fn passes(
    held: &mut Held,
    formula: &Formula,
    units: &[Lit],
    lines: &LineClauses,
    clause: &[Lit],
    hints: &[u64],
) -> Result<bool, AllocError>
    requires vars { held.old.vars ≡ formula.now.vars }
    requires units { IsOver formula.now.vars units.now }
    requires lines { All (IsOver formula.now.vars) lines.now }
    ensures passes { IfOk result (λ b. (N : ℕ) (Q : List Literal) (forgets : List ℕ) → IsOver formula.now.vars Q → IsHolding Q held.old.literals →
        (IsTrue b ↔ IsReplayed formula.now.vars N Q (known formula.now units.now lines.now) (record { clause = clause.now; hints = hints.now; forgets = forgets }))) }
    ensures over { IfOk result (λ b. b ≡ true → IsOver formula.now.vars clause.now) }
    ensures extends { Extends held.old.literals held.new.literals }
    ensures vars { held.new.vars ≡ held.old.vars }
{
    if !is_over(held.vars(), clause) {
        return Ok(false);
    }
    if negate(held, clause)? {
        return Ok(false);
    }
    let conflict = come_to_conflict(held, formula, units, lines, hints)?;
    Ok(conflict)
}

/// Whether a line may be the last one: its clause is empty, and it forgets nothing.
fn is_end(clause: &[Lit], forgets: &[u64]) -> bool
    ensures { result ≡ replayed.is_end clause.now forgets.now }
{
    clause.is_empty() && forgets.is_empty()
}

/// Whether the lines of a row replay as a refutation of a cube, also where what they forget is
/// deleted. What is held true and the clauses of the lines are left as they come.
pub(crate) fn refute(
    held: &mut Held,
    lines: &mut LineClauses,
    formula: &Formula,
    units: &[Lit],
    cube: &Cube,
    row: &Row,
) -> Result<bool, AllocError>
    requires vars { held.old.vars ≡ formula.now.vars }
    requires none { held.old.literals ≡ [] }
    requires no_lines { lines.old ≡ [] }
    requires units { IsOver formula.now.vars units.now }
    requires few { length units.now ≤ formula.now.vars }
    ensures refutes { IfOk result (λ b. IsTrue b ↔
        AreRefutation formula.now.vars (length (begun formula.now units.now)) cube.now (begun formula.now units.now) row.now) }
    ensures vars { held.new.vars ≡ held.old.vars }
{
    let literals = cube.lits();
    if !is_over(held.vars(), literals) {
        return Ok(false);
    }
    hold(held, literals)?;
    let count = held.len();
    let mut left = row.lines();
    let mut clause = Vec::new(row.allocator());
    let mut hints = Vec::new(row.allocator());
    let mut forgets = Vec::new(row.allocator());
    let first = formula.clause_count() + units.len();
    let mut forgotten = Forgotten::behind(row.allocator(), first as u64);
    let mut ends = false;
    'lines: loop {
        if !left.next(&mut clause, &mut hints, &mut forgets)? {
            return Ok(ends);
        }
        if !forgotten.add_line(&hints, &forgets)? {
            return Ok(false);
        }
        if !passes(held, formula, units, lines, &clause, &hints)? {
            return Ok(false);
        }
        held.go_back(count);
        lines.push(&clause)?;
        ends = is_end(&clause, &forgets);
    }
}

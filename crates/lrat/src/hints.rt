//! Hints: what a hinted clause is under the literals held true, and what taking hints in order
//! comes to.
ghost use Rattle.std.specs.Prelude.{◌≡◌, Some, IfOk};
ghost use Rattle.theory.specs.Truth.{IsOver};
ghost use Rattle.theory.specs.Checking.{hint, take_hints};
ghost use Rattle.lrat.specs.Held.{Extends};
ghost use Rattle.lrat.specs.Slots.{there};
ghost use Rattle.lrat.specs.Taken.{hint_of, taken_of, NamesOneOf};

use crate::check_fault::Fault;
use crate::clauses::Clauses;
use crate::held::Held;
use cnf::Lit;
use std::alloc::AllocError;

/// What a clause is under literals that are held true: false, unit in a literal, or neither.
pub enum Hint {
    False,
    Implies(Lit),
    NotUnit,
}

/// What taking hints comes to: the conflict with the last one, no conflict, or a fault.
pub(crate) enum Taken {
    Conflict,
    Open,
    Fails(Fault),
}

/// What a clause is under literals that are held true, in one walk over its own.
pub fn status_of(held: &Held, clause: &[Lit]) -> Hint
    requires { IsOver held.now.vars clause.now }
    ensures { hint_of result ≡ hint held.now.literals (Some clause.now) }
{
    let mut free = None;
    for lit in clause {
        let lit = *lit;
        match held.value(lit.var()) {
            Some(value) => {
                if value == lit.positive() {
                    return Hint::NotUnit;
                }
            }
            None => match free {
                None => free = Some(lit),
                Some(other) => {
                    if !lit.same(&other) {
                        return Hint::NotUnit;
                    }
                }
            },
        }
    }
    match free {
        Some(lit) => Hint::Implies(lit),
        None => Hint::False,
    }
}

/// Takes hints in order: each but the last is unit, and puts its literal to those held true. It
/// takes time by the literals of the clauses named.
pub(crate) fn take_hints(
    held: &mut Held,
    clauses: &Clauses,
    hints: &[u64],
) -> Result<Taken, AllocError>
    requires { clauses.now.vars ≡ held.old.vars }
    ensures taken { IfOk result (λ t. taken_of t held.new.literals ≡ take_hints (there clauses.now) held.old.literals hints.now) }
    ensures named { IfOk result (λ t. NamesOneOf (there clauses.now) hints.now t) }
    ensures extends { Extends held.old.literals held.new.literals }
    ensures vars { held.new.vars ≡ held.old.vars }
{
    for index in 0..hints.len() {
        let id = hints[index];
        let Some(clause) = clauses.get(id) else {
            return Ok(Taken::Fails(Fault::NoSuchClause(id)));
        };
        match status_of(held, clause) {
            Hint::False => {
                return Ok(if index + 1 == hints.len() {
                    Taken::Conflict
                } else {
                    Taken::Fails(Fault::HintAfterConflict)
                });
            }
            Hint::NotUnit => return Ok(Taken::Fails(Fault::HintNotUnit(id))),
            Hint::Implies(lit) => held.push(lit)?,
        }
    }
    Ok(Taken::Open)
}

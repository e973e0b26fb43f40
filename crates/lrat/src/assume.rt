//! The negations of a clause's literals, as they are put to those held true.
ghost use Rattle.std.specs.Prelude.{◌≡◌, true, false, IfOk};
ghost use Rattle.theory.specs.Literals.{has};
ghost use Rattle.theory.specs.Truth.{IsOver};
ghost use Rattle.theory.specs.Checking.{is_closed};
ghost use Rattle.lrat.specs.Held.{Extends};
ghost use Rattle.lrat.specs.Assumed.{IsAssumed};

use crate::held::Held;
use cnf::Lit;
use std::alloc::AllocError;

/// Puts the negations of a clause's literals other than `pivot`, which it has, unless the clause is
/// closed: it has both signs of a variable, or a literal other than `pivot` that is held true.
/// Answers whether it is. It takes one walk over the literals.
pub(crate) fn assume(held: &mut Held, clause: &[Lit], pivot: Lit) -> Result<bool, AllocError>
    requires over { IsOver held.old.vars clause.now }
    requires pivot { has clause.now pivot ≡ true }
    ensures closed { IfOk result (λ b. b ≡ is_closed held.old.literals pivot clause.now) }
    ensures assumed { IfOk result (λ b. b ≡ false → IsAssumed held.old.literals pivot clause.now held.new.literals) }
    ensures extends { Extends held.old.literals held.new.literals }
    ensures vars { held.new.vars ≡ held.old.vars }
{
    for lit in clause {
        let lit = *lit;
        if lit.var() == pivot.var() {
            if !pivot.same(&lit) {
                return Ok(true);
            }
        } else {
            match held.value(lit.var()) {
                None => held.push(lit.negated())?,
                Some(value) => {
                    if value == lit.positive() {
                        return Ok(true);
                    }
                }
            }
        }
    }
    Ok(false)
}

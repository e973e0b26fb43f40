//! The literals of a cube, and the negations of a clause's, as they are put to those held true.
ghost use Rattle.std.specs.Prelude.{◌≡◌, [], ◌++◌, List, true, false, IfOk};
ghost use Rattle.theory.specs.Literals.{Literal, IsCube, has_both_signs, negations};
ghost use Rattle.theory.specs.Truth.{IsOver};
ghost use Rattle.lrat.specs.Held.{Extends};
ghost use Rattle.packs.specs.Known.{IsHolding};

use cnf::Lit;
use lrat::Held;
use std::alloc::AllocError;

/// Whether each literal is of one of the variables 1 to `vars`. It is one walk over the literals.
pub fn is_over(vars: u32, clause: &[Lit]) -> bool
    ensures over { result ≡ true → IsOver vars clause.now }
    ensures beyond { result ≡ false → ¬ (IsOver vars clause.now) }
{
    for lit in clause {
        if lit.var() > vars {
            return false;
        }
    }
    true
}

/// Holds a cube's literals true.
pub(crate) fn hold(held: &mut Held, cube: &[Lit]) -> Result<(), AllocError>
    requires none { held.old.literals ≡ [] }
    requires cube { IsCube cube.now }
    requires over { IsOver held.old.vars cube.now }
    ensures held { IfOk result (λ _. IsHolding cube.now held.new.literals) }
    ensures vars { held.new.vars ≡ held.old.vars }
{
    for lit in cube {
        held.push(*lit)?;
    }
    Ok(())
}

/// Holds the negations of a clause's literals true, where the literals of a cube are, unless the
/// clause and the negations of the cube have both signs of a variable. Answers whether they have.
pub(crate) fn negate(held: &mut Held, clause: &[Lit]) -> Result<bool, AllocError>
    requires over { IsOver held.old.vars clause.now }
    ensures both { IfOk result (λ b. (Q : List Literal) → IsHolding Q held.old.literals → b ≡ has_both_signs (clause.now ++ negations Q)) }
    ensures negated { IfOk result (λ b. (Q : List Literal) → IsHolding Q held.old.literals → b ≡ false →
        IsHolding (negations (clause.now ++ negations Q)) held.new.literals) }
    ensures extends { Extends held.old.literals held.new.literals }
    ensures vars { held.new.vars ≡ held.old.vars }
{
    for lit in clause {
        let lit = *lit;
        match held.value(lit.var()) {
            None => held.push(lit.negated())?,
            Some(value) => {
                if value == lit.positive() {
                    return Ok(true);
                }
            }
        }
    }
    Ok(false)
}

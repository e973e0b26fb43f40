//! The literals of a clause, each once.
ghost use Rattle.std.specs.Prelude.{◌≡◌, ◌<◌, [], true, false, length, nat_lt, IfOk, OnOk};
ghost use Rattle.theory.specs.Literals.{has_both_signs};
ghost use Rattle.theory.specs.Truth.{IsOver};
ghost use Rattle.tidying.specs.Tidied as tidied;
ghost use Rattle.tidying.specs.Tidied.{once};

use cnf::{Formula, Lit};
use lrat::Held;
use std::alloc::{AllocError, Global};

/// Puts the literals of a clause, each where it stands first, unless it has both signs of a variable.
/// Answers whether it has.
fn put_once(held: &mut Held, clause: &[Lit], literals: &mut Vec<Lit>) -> Result<bool, AllocError>
    requires over { IsOver held.old.vars clause.now }
    requires none { held.old.literals ≡ [] }
    requires empty { literals.old.items ≡ [] }
    ensures both { IfOk result (λ b. b ≡ has_both_signs clause.now) }
    ensures once { IfOk result (λ b. b ≡ false → literals.new.items ≡ once clause.now) }
    ensures vars { held.new.vars ≡ held.old.vars }
{
    for lit in clause {
        let lit = *lit;
        match held.value(lit.var()) {
            None => {
                held.push(lit)?;
                literals.push(lit)?;
            }
            Some(positive) => {
                if positive != lit.positive() {
                    return Ok(true);
                }
            }
        }
    }
    Ok(false)
}

/// Clauses one after the other, over so many variables, and the literals of the one that came last.
#[derive(Drop)]
pub(crate) struct Distinct {
    held: Held,
    literals: Vec<Lit>,
}

impl Distinct {
    /// No clause came.
    pub(crate) fn over(alloc: Global, vars: u32) -> Result<Distinct, AllocError>
        ensures { IfOk result (λ d. d.held.vars ≡ vars) }
    {
        Ok(Distinct {
            held: Held::new(alloc, vars)?,
            literals: Vec::new(alloc),
        })
    }

    /// Takes the next clause; whether it has both signs of a variable.
    pub(crate) fn take(&mut self, clause: &[Lit]) -> Result<bool, AllocError>
        requires { IsOver self.old.held.vars clause.now }
        ensures both { IfOk result (λ b. b ≡ has_both_signs clause.now) }
        ensures once { IfOk result (λ b. b ≡ false → self.new.literals.items ≡ once clause.now) }
        ensures vars { self.new.held.vars ≡ self.old.held.vars }
    {
        self.held.go_back(0);
        self.literals.clear();
        put_once(&mut self.held, clause, &mut self.literals)
    }

    /// The literals of the last clause, each once, unless it has both signs of a variable.
    pub(crate) fn literals(&self) -> &[Lit]
        ensures { result.now ≡ self.now.literals.items }
    {
        &self.literals
    }
}

/// Whether a literal stands twice in a clause that isn't always true. It takes memory by the
/// variables, and time by the literals.
pub fn has_repeats(alloc: Global, formula: &Formula) -> Result<bool, AllocError>
    ensures { IfOk result (λ b. b ≡ tidied.has_repeats formula.now) }
{
    let mut distinct = Distinct::over(alloc, formula.vars())?;
    for place in 0..formula.clause_count() {
        let clause = formula.clause(place);
        let is_open = !distinct.take(clause)?;
        if is_open && distinct.literals().len() < clause.len() {
            return Ok(true);
        }
    }
    Ok(false)
}

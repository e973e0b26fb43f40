//! The pure literals of a formula: the negations of the variables that stand in no clause without
//! one.
ghost use Rattle.std.specs.Prelude.{◌≡◌, ℕ, ◌<◌, ◌≤◌, ◌^◌, ◌||◌, not, length, IfOk};
ghost use Rattle.theory.specs.Literals.{IsVariable, has, positive};
ghost use Rattle.theory.specs.Truth.{value, IsOver};
ghost use Rattle.theory.specs.Reading.{large, max_vars};
ghost use Rattle.theory.specs.Pure.{occurs, pure_literals};
ghost use Rattle.theory.proofs.searching.PureVariables.{negatives};

use crate::formula::Formula;
use crate::lit::Lit;
use std::alloc::{AllocError, Global};

/// Marks the variables of a clause's positive literals. A variable's place in `seen` is one below
/// its number.
fn mark_clause(seen: &mut [bool], clause: &[Lit])
    requires { IsOver (length seen.old) clause.now }
    ensures { (v : ℕ) → IsVariable (length seen.old) v → value seen.new v ≡ (value seen.old v || has clause.now (positive v)) }
{
    for lit in clause {
        if lit.positive() {
            seen[lit.var() as usize - 1] = true;
        }
    }
}

/// Marks the variables of all clauses' positive literals.
fn mark_clauses(seen: &mut [bool], formula: &Formula)
    requires { length seen.old ≡ formula.now.vars }
    ensures { (v : ℕ) → IsVariable (length seen.old) v →
        value seen.new v ≡ (value seen.old v || occurs formula.now.clauses (positive v)) }
{
    for place in 0..formula.clause_count() {
        mark_clause(seen, formula.clause(place));
    }
}

/// Whether each variable stands in a clause without a negation; its place is one below its number.
fn marks(alloc: Global, formula: &Formula) -> Result<Vec<bool>, AllocError>
    ensures length { IfOk result (λ m. length m.items ≡ formula.now.vars) }
    ensures few { IfOk result (λ m. length m.items ≤ max_vars large) }
    ensures marks { IfOk result (λ m. (v : ℕ) → IsVariable formula.now.vars v → value m.items v ≡ occurs formula.now.clauses (positive v)) }
{
    let mut seen = vec![in alloc; false; formula.vars() as usize]?;
    mark_clauses(&mut seen, formula);
    Ok(seen)
}

/// The negations of the variables that aren't marked, by rising variable.
fn unmarked(alloc: Global, marks: &[bool]) -> Result<Vec<Lit>, AllocError>
    requires { length marks.now < 2 ^ 31 }
    ensures { IfOk result (λ v. v.items ≡ negatives (λ w. not (value marks.now w)) (length marks.now)) }
{
    let mut literals = Vec::new(alloc);
    for index in 0..marks.len() {
        if !marks[index] {
            literals.push(Lit::of(index as u32 + 1, false))?;
        }
    }
    Ok(literals)
}

impl Formula {
    /// The negations of the pure variables, which stand in no clause without a negation (unused
    /// ones too), by rising variable. A clause with both signs of a variable counts as any other.
    /// The error comes where memory is refused. It takes time by the literals and the variables.
    pub fn pure(&self, alloc: Global) -> Result<Vec<Lit>, AllocError>
        ensures { IfOk result (λ v. v.items ≡ pure_literals self.now) }
    {
        let marks = marks(alloc, self)?;
        unmarked(alloc, &marks)
    }
}

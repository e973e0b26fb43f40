//! How clauses are put into a kernel one by one, between two questions: on the trail of the negations
//! of all literals but the last each clause is a unit, so that the kernel can learn it.
ghost use Rattle.std.specs.Prelude.{◌≡◌, ◌≤◌, ◌<◌, ◌-◌, ◌^◌, ◌++◌, ◌∷◌, ◌&&◌, ℕ, Bool, [], true, false, length, take, IfOk, OnOk};
ghost use Rattle.theory.specs.Literals.{are_distinct, has_both_signs, negations};
ghost use Rattle.theory.specs.Truth.{IsOver, is_true_clause, are_true};
ghost use Rattle.session.specs.Loading.{IsGathered, IsAttached, IsSameKernel};

use crate::growing::GrowingFormula;
use cnf::Lit;
use kernel::{Cube, Entry, SearchKernel};
use std::alloc::{AllocError, Global};
use trail::Trail;

/// Puts the literals of a clause, each once; whether it has both signs of a variable.
fn gather(held: &mut Trail, lits: &mut Vec<Lit>, clause: &[Lit]) -> Result<bool, AllocError>
    requires over { IsOver held.old.vars clause.now }
    requires empty { (held.old.entries ≡ []) × (lits.old.items ≡ []) }
    ensures both { IfOk result (λ b. b ≡ true → has_both_signs clause.now ≡ true) }
    ensures once { IfOk result (λ b. b ≡ false → IsGathered clause.now lits.new.items held.new.entries) }
    ensures vars { held.new.vars ≡ held.old.vars }
{
    for lit in clause {
        let lit = *lit;
        match held.truth(lit) {
            Some(true) => {}
            Some(false) => return Ok(true),
            None => {
                held.push(Entry {
                    lit,
                    reason: None,
                    level: 0,
                });
                lits.push(lit)?;
            }
        }
    }
    Ok(false)
}

/// The negations of all literals but the last.
fn negations_but_last(alloc: Global, lits: &[Lit]) -> Result<Cube, AllocError>
    requires some { 1 ≤ length lits.now }
    requires distinct { are_distinct lits.now ≡ true }
    ensures { IfOk result (λ q. q ≡ negations (take (length lits.now - 1) lits.now)) }
{
    let mut cube = Cube::root(alloc);
    for place in 0..lits.len() - 1 {
        let lit = lits[place];
        cube.push(lit.negated())?;
    }
    Ok(cube)
}

/// Puts a clause of distinct variables behind the others. It takes time by its literals, by the
/// trail, and by the kernel's clauses of one literal.
fn attach(alloc: Global, kernel: &mut SearchKernel, lits: &[Lit]) -> Result<(), AllocError>
    requires memory { kernel.old.out_of_memory ≡ false }
    requires some { 1 ≤ length lits.now }
    requires distinct { are_distinct lits.now ≡ true }
    requires over { IsOver kernel.old.vars lits.now }
    ensures clauses { OnOk result (kernel.new.clauses ≡ kernel.old.clauses ++ lits.now ∷ []) }
    ensures kept { OnOk result (IsSameKernel kernel.old kernel.new) }
{
    let cube = negations_but_last(alloc, lits)?;
    kernel.keep_learnt()?;
    kernel.restart(&cube)?;
    kernel.learn(lits)?;
    Ok(())
}

/// Puts a clause behind the others, unless it is true whatever the values are.
fn put_clause(
    alloc: Global,
    kernel: &mut SearchKernel,
    held: &mut Trail,
    lits: &mut Vec<Lit>,
    clause: &[Lit],
) -> Result<(), AllocError>
    requires memory { kernel.old.out_of_memory ≡ false }
    requires some { 1 ≤ length clause.now }
    requires over { IsOver kernel.old.vars clause.now }
    requires room { held.old.vars ≡ kernel.old.vars }
    ensures clauses { OnOk result ((m : ℕ → Bool) → are_true m kernel.new.clauses ≡ (are_true m kernel.old.clauses && is_true_clause m clause.now)) }
    ensures kept { OnOk result (IsSameKernel kernel.old kernel.new) }
    ensures room { held.new.vars ≡ held.old.vars }
{
    held.clear();
    lits.clear();
    if gather(held, lits, clause)? {
        return Ok(());
    }
    let _vars = held.vars(); // it ensures that the literals are distinct
    attach(alloc, kernel, lits)?;
    Ok(())
}

/// Makes a trail one of so many variables, unless it is.
fn make_room(alloc: Global, held: &mut Trail, vars: u32) -> Result<(), AllocError>
    requires { vars < 2 ^ 31 }
    ensures { OnOk result (held.new.vars ≡ vars) }
{
    if held.vars() != vars {
        *held = Trail::with_room(alloc, vars)?;
    }
    Ok(())
}

/// Puts the clauses of a formula from one on into a kernel, as far as the first empty one. Whether
/// all are put. The trail is room for that: made once, it serves until the kernel has more variables.
pub(crate) fn put_from(
    alloc: Global,
    kernel: &mut SearchKernel,
    held: &mut Trail,
    formula: &GrowingFormula,
    from: usize,
) -> Result<bool, AllocError>
    requires memory { kernel.old.out_of_memory ≡ false }
    requires room { formula.now.vars ≤ kernel.old.vars }
    requires few { kernel.old.vars < 2 ^ 31 }
    ensures all { IfOk result (λ all. all ≡ true → IsAttached formula.now.clauses from (length formula.now.clauses) kernel.old.clauses kernel.new.clauses) }
    ensures part { IfOk result (λ all. all ≡ false → IsAttached formula.now.clauses from from kernel.old.clauses kernel.new.clauses) }
    ensures kept { OnOk result (IsSameKernel kernel.old kernel.new) }
{
    make_room(alloc, held, kernel.vars())?;
    let mut lits = Vec::new(alloc);
    for place in from..formula.clause_count() {
        let clause = formula.clause(place);
        if clause.is_empty() {
            return Ok(false);
        }
        put_clause(alloc, kernel, held, &mut lits, clause)?;
    }
    Ok(true)
}

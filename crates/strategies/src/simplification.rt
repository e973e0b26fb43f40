//! Simplification as a phase: who is told how far it is, and what it has made.
ghost use Rattle.std.specs.Prelude.{◌≤◌, List, IfOk};
ghost use Rattle.theory.specs.Simplifying.{Change};
ghost use Rattle.theory.specs.Trying.{IsSimplification};
ghost use Rattle.simplify.specs.Made.{IsMadeBy};

use crate::observer::Observer;
use cnf::Formula;
use cubes::Gate;
use simplify::{Simplification, Watcher, simplify};
use std::alloc::{AllocError, Global};

/// What a simplification has made of a formula.
#[derive(Clone, Copy, Debug, PartialEq, Eq)]
pub struct SimplifiedCounts {
    /// The formula's variables, and how many of them weren't eliminated.
    pub vars: u32,
    pub vars_left: u32,
    /// The formula's clauses, and how many are there behind the simplification.
    pub clauses: u64,
    pub clauses_left: u64,
    /// How many literals were looked at.
    pub literals: u64,
}

/// Watches a simplification.
#[derive(Drop)]
struct Simplifies<'a, G, O> {
    gate: &'a G,
    observer: &'a O,
}

impl<G: Gate, O: Observer> Watcher for Simplifies<'_, G, O> {
    fn looked_at(&self, literals: u64) {
        self.observer.simplifying(literals);
    }

    fn stops(&self) -> bool {
        self.gate.stops()
    }
}

/// What a simplification has made of a formula.
fn counts_of(formula: &Formula, simplification: &Simplification) -> SimplifiedCounts {
    let vars = formula.vars();
    SimplifiedCounts {
        vars,
        vars_left: vars.saturating_sub(simplification.eliminated_count()),
        clauses: formula.clause_count() as u64,
        clauses_left: u64::from(simplification.clause_count()),
        literals: simplification.looked_at(),
    }
}

/// Simplifies a formula that has a variable. It fails where a request for memory is refused or the
/// gate stops it.
pub(crate) fn simplified<G: Gate, O: Observer>(
    alloc: Global,
    formula: &Formula,
    gate: &G,
    observer: &O,
) -> Result<Simplification, AllocError>
    requires { 1 ≤ formula.now.vars }
    ensures { IfOk result (λ s. (cs : List Change) × IsSimplification formula.now cs × IsMadeBy formula.now cs s) }
{
    let simplification = simplify(alloc, formula, &Simplifies { gate, observer })?;
    observer.simplified(counts_of(formula, &simplification));
    Ok(simplification)
}

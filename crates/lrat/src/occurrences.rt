//! Where the clauses are that have a literal: for each literal a chain of places, to which clauses
//! are entered one after the other.
ghost use Rattle.std.specs.Prelude.{◌≡◌, ◌≢◌, ◌<◌, ◌≤◌, ◌+◌, ◌*◌, ℕ, true, length, IfOk, OnOk, vec_len, []};
ghost use Rattle.theory.specs.Literals.{Literal, has};
ghost use Rattle.theory.specs.Truth.{IsOver};
ghost use Rattle.lrat.specs.Chained.{IsOn, IsIn, AreChains, IsThereAt};
ghost use Rattle.cnf.specs.Lits.{code};
ghost use Rattle.lrat.specs.Occurrences.{slots_with};
ghost use Rattle.lrat.specs.Indexed.{IsIndexed};

use crate::chains::Chains;
use crate::clauses::Clauses;
use crate::counts::Counts;
use cnf::Lit;
use std::alloc::{AllocError, Global};

/// Puts the place of a clause to the chain of each of its literals.
pub(crate) fn enter(
    chains: &mut Chains,
    vars: u32,
    clause: &[Lit],
    place: usize,
) -> Result<(), AllocError>
    requires over { IsOver vars clause.now }
    requires room { 2 * vars + 2 ≤ vec_len chains.old.heads }
    requires chains { AreChains chains.old }
    ensures entered { OnOk result ((l : Literal) → has clause.now l ≡ true → IsIn chains.new (code l) place) }
    ensures chains { AreChains chains.new }
    ensures keeps { (n i : ℕ) → IsIn chains.old n i → IsIn chains.new n i }
    ensures len { vec_len chains.new.heads ≡ vec_len chains.old.heads }
{
    for lit in clause {
        chains.put(lit.code(), place)?;
    }
    Ok(())
}

/// The places of the clauses that have a literal, for each literal. Clauses are entered when the
/// places are asked for: steps that don't ask cost nothing. It takes 4 bytes for each literal of a
/// variable, and, once clauses are entered, 4 more and 8 for each literal of a clause.
#[derive(Drop)]
pub(crate) struct Occurrences {
    counts: Counts,
    chains: Chains,
    // the clauses in the slots before this place are entered
    entered: usize,
}

impl Occurrences {
    /// No clauses are entered.
    pub(crate) fn new(alloc: Global) -> Occurrences
        ensures { IsIndexed [] result }
    {
        Occurrences {
            counts: Counts::new(alloc),
            chains: Chains::new(alloc),
            entered: 0,
        }
    }

    /// How many clauses have a literal, at most: those that were taken away may still count. It
    /// takes one walk over the literals of those that came since the last time.
    pub(crate) fn count(&mut self, clauses: &Clauses, lit: Lit) -> Result<usize, AllocError>
        requires { IsIndexed clauses.now.slots self.old }
        ensures indexed { IsIndexed clauses.now.slots self.new }
        ensures most { IfOk result (λ n. slots_with lit clauses.now.slots ≤ n) }
    {
        self.counts.count_all(clauses)?;
        Ok(self.counts.of(lit))
    }

    /// Enters the clauses that came since the last time, and are there. More than 4,294,967,295
    /// literals, or clauses, are refused like memory.
    pub(crate) fn enter_all(&mut self, clauses: &Clauses) -> Result<(), AllocError>
        requires { IsIndexed clauses.now.slots self.old }
        ensures indexed { IsIndexed clauses.now.slots self.new }
        ensures all { OnOk result (self.new.entered ≡ length clauses.now.slots) }
    {
        let vars = clauses.vars();
        self.chains
            .make_room(2 * vars as usize + 2, clauses.literal_count())?;
        while self.entered < clauses.len() {
            if let Some((_, clause)) = clauses.at(self.entered) {
                enter(&mut self.chains, vars, clause, self.entered)?;
            }
            self.entered += 1;
        }
        Ok(())
    }

    /// Drops the places of clauses that aren't there any more from a literal's chain. Each is met
    /// once, so that taking many clauses away costs later steps nothing.
    pub(crate) fn sweep(&mut self, lit: Lit, clauses: &Clauses)
        requires { IsIndexed clauses.now.slots self.old }
        ensures indexed { IsIndexed clauses.now.slots self.new }
        ensures swept { (i : ℕ) → IsIn self.new.chains (code lit) i → IsThereAt clauses.now.slots i }
        ensures entered { self.new.entered ≡ self.old.entered }
    {
        self.chains.sweep(lit.code(), clauses);
    }

    /// The link to the first place of the clauses entered that have a literal; some may not be
    /// there any more.
    pub(crate) fn first(&self, lit: Lit) -> u32
        requires { AreChains self.now.chains }
        ensures within { result ≤ vec_len self.now.chains.entries }
        ensures first { (i : ℕ) → IsIn self.now.chains (code lit) i → IsOn self.now.chains.entries.items result i }
    {
        self.chains.head(lit.code())
    }

    /// The place that a link leads to, and the link to the next one.
    pub(crate) fn at(&self, link: u32) -> (usize, u32)
        requires chains { AreChains self.now.chains }
        requires some { 0 < link }
        requires within { link ≤ vec_len self.now.chains.entries }
        ensures down { result.1 < link }
        ensures next { (i : ℕ) → IsOn self.now.chains.entries.items link i → result.0 ≢ i → IsOn self.now.chains.entries.items result.1 i }
    {
        self.chains.entry(link)
    }
}

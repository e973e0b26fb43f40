//! How many clauses have a literal, at most: where as many candidates are named, these are all.
ghost use Rattle.std.specs.Prelude.{◌≡◌, ◌<◌, ◌≤◌, ◌+◌, ◌*◌, ℕ, true, length, OnOk, [], vec_len};
ghost use Rattle.theory.specs.Literals.{Literal, has};
ghost use Rattle.theory.specs.Truth.{IsOver};
ghost use Rattle.lrat.specs.Indexed.{AreCounted};
ghost use Rattle.cnf.specs.Lits.{code};
ghost use Rattle.lrat.specs.Occurrences.{count_at};

use crate::clauses::Clauses;
use cnf::Lit;
use std::alloc::{AllocError, Global};

/// Counts a clause for each of its literals, and again for one that is repeated.
fn count(counts: &mut Vec<u32>, vars: u32, clause: &[Lit]) -> Result<(), AllocError>
    requires over { IsOver vars clause.now }
    requires room { 2 * vars + 2 ≤ vec_len counts.old }
    ensures counted { OnOk result ((l : Literal) → has clause.now l ≡ true → count_at counts.old.items (code l) < count_at counts.new.items (code l)) }
    ensures keeps { (n : ℕ) → count_at counts.old.items n ≤ count_at counts.new.items n }
    ensures len { vec_len counts.new ≡ vec_len counts.old }
{
    for lit in clause {
        let code = lit.code();
        let count = counts[code];
        if count == u32::MAX {
            return Err(AllocError);
        }
        counts[code] = count + 1;
    }
    Ok(())
}

/// For each literal, by its code, how many of the clauses that were counted have it. Those that
/// were taken away since still count. It takes 4 bytes a literal.
#[derive(Drop)]
pub(crate) struct Counts {
    counts: Vec<u32>,
    // the clauses in the slots before this place are counted
    counted: usize,
}

impl Counts {
    /// No clauses are counted.
    pub(crate) fn new(alloc: Global) -> Counts
        ensures { AreCounted [] result }
    {
        Counts {
            counts: Vec::new(alloc),
            counted: 0,
        }
    }

    /// Makes a count for each code below a number, where they aren't there.
    fn make_room(&mut self, codes: usize) -> Result<(), AllocError>
        ensures room { OnOk result (codes ≤ vec_len self.new.counts) }
        ensures keeps { (n : ℕ) → count_at self.old.counts.items n ≤ count_at self.new.counts.items n }
        ensures counted { self.new.counted ≡ self.old.counted }
    {
        if self.counts.len() < codes {
            self.counts.resize(codes, 0)?;
        }
        Ok(())
    }

    /// Counts the clauses that came since the last time, and are there. It takes one walk over
    /// their literals. More than 4,294,967,295 of a literal are refused like memory.
    pub(crate) fn count_all(&mut self, clauses: &Clauses) -> Result<(), AllocError>
        requires { AreCounted clauses.now.slots self.old }
        ensures counted { AreCounted clauses.now.slots self.new }
        ensures all { OnOk result (self.new.counted ≡ length clauses.now.slots) }
    {
        let vars = clauses.vars();
        self.make_room(2 * vars as usize + 2)?;
        while self.counted < clauses.len() {
            if let Some((_, clause)) = clauses.at(self.counted) {
                count(&mut self.counts, vars, clause)?;
            }
            self.counted += 1;
        }
        Ok(())
    }

    /// How many of the clauses that were counted have a literal.
    pub(crate) fn of(&self, lit: Lit) -> usize
        ensures { result ≡ count_at self.now.counts.items (code lit) }
    {
        let code = lit.code();
        if code < self.counts.len() {
            self.counts[code] as usize
        } else {
            0
        }
    }
}

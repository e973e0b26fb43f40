//! The clauses of a kernel, in the order of their numbers. Their literals lie in one list, so that
//! looking at one clause after the other goes through memory from front to back. A clause that was
//! forgotten keeps its number, and no literal.
ghost use Rattle.std.specs.Prelude.{◌≡◌, ◌<◌, ◌≤◌, [], ◌∷◌, ◌++◌, length, take, IfOk, OnOk, OnErr, slice_get, slice_set, Some, ℕ, List, false};
ghost use Rattle.std.specs.List.Sorted.{IsPermutation};
ghost use Rattle.theory.specs.Literals.{Clause};
ghost use Rattle.theory.specs.Forgetting.{forget};
ghost use Rattle.cnf.specs.Pieces.{pieces, AreEnds};
ghost use Rattle.kernel.specs.Shown.{emptied};
ghost use Rattle.theory.specs.Trails.{literals};
ghost use Rattle.kernel.specs.Watching.{At, IsPair};
ghost use Rattle.kernel.specs.Forgetting.{Tells, names};
ghost use Rattle.kernel.specs.Arranging.{front};
ghost use Rattle.kernel.specs.Seeing.{CanSee, IsSeen};
ghost use Rattle.kernel.specs.TruthTables.{AreTruths};

use crate::clauses::arrange::lead;
use crate::clauses::ends::{literals_at, start_of};
use crate::clauses::named::Named;
use crate::room::and_a_quarter;
use crate::watches::replacement::Starts;
use crate::watches::truths::Truths;
use crate::watches::watch::Watched;
use crate::watches::watch_visit::{WatchVisit, visit_literals};
use cnf::{Lit, put_literals};
use std::alloc::{AllocError, Global};
use std::marker::Model;

/// Clauses, which are named by their places, from 0 on. One that was forgotten is `1 -1`, and takes
/// 4 bytes.
#[derive(Drop)]
pub struct Clauses {
    // the literals of the first clause, then those of the second and so on
    lits: Vec<Lit>,
    // where the literals of each clause end; in four bytes each, since a visit reads two of them
    ends: Vec<u32>,
    // behind so many clauses, one without literals was forgotten
    first: usize,
    // what such a one stands for
    tautology: [Lit; 2],
}

impl Model for Clauses {
    ghost use Rattle.std.specs.Prelude.{◌≡◌, List, length};
    ghost use Rattle.theory.specs.Literals.{Clause};
    ghost use Rattle.theory.specs.Forgetting.{forgotten};
    ghost use Rattle.cnf.specs.Pieces.{pieces, AreEnds};
    ghost use Rattle.kernel.specs.Shown.{shown};

    ghost Value = { List Clause };

    ghost view = { λ a. shown a.first (pieces 0 a.lits.items a.ends.items) };

    ghost invariant = { λ a. AreEnds 0 a.ends.items (length a.lits.items) × (a.tautology ≡ forgotten) };
}

/// All clauses together have at most so many literals, so that four bytes name each place.
const MOST_LITERALS: usize = u32::MAX as usize;

/// Moves the literals of the clauses from `first` on together, without those of the clauses that
/// are named. The answer is how many literals stay.
fn move_together(lits: &mut [Lit], ends: &mut [u32], first: usize, named: &Named) -> usize
    requires ends { AreEnds 0 ends.old (length lits.old) }
    requires within { first ≤ length ends.old }
    requires learnt { (n : ℕ) → n < first → names named.now n ≡ false }
    ensures within { result ≤ length lits.new }
    ensures ends { AreEnds 0 ends.new result }
    ensures left { pieces 0 (take result lits.new) ends.new ≡ emptied (names named.now) 0 (pieces 0 lits.old ends.old) }
{
    let mut start = start_of(ends, first);
    let mut to = start;
    for index in first..ends.len() {
        let end = ends[index] as usize;
        if !named.has(index) {
            lits.copy_within(start..end, to);
            to += end - start;
        }
        ends[index] = to as u32;
        start = end;
    }
    to
}

impl Clauses {
    /// No clauses, with room for so many, of so many literals. It fails where a request for memory
    /// is refused.
    pub fn with_room(alloc: Global, clauses: usize, lits: usize) -> Result<Clauses, AllocError>
        ensures { IfOk result (λ k. k ≡ []) }
    {
        Ok(Clauses {
            lits: Vec::with_capacity(alloc, and_a_quarter(lits))?,
            ends: Vec::with_capacity(alloc, and_a_quarter(clauses))?,
            first: usize::MAX,
            tautology: [Lit::of(1, true), Lit::of(1, false)],
        })
    }

    /// How many clauses there are.
    pub fn len(&self) -> usize
        ensures { result ≡ length self.now }
    {
        self.ends.len()
    }

    /// The literals of the clause at a place.
    pub fn get(&self, index: usize) -> &[Lit]
        requires { index < length self.now }
        ensures { slice_get self.now index ≡ Some result.now }
    {
        let kept = literals_at(&self.lits, &self.ends, index);
        if kept.is_empty() && self.first <= index {
            &self.tautology
        } else {
            kept
        }
    }

    /// Puts a clause at the end. Where a request for memory is refused, nothing has changed. An
    /// empty clause counts as such a request once clauses were forgotten, and so does a literal
    /// above the most that there is room for.
    pub fn push(&mut self, clause: &[Lit]) -> Result<(), AllocError>
        ensures ok { OnOk result (self.new ≡ self.old ++ clause.now ∷ []) }
        ensures err { OnErr result (self.new ≡ self.old) }
    {
        if clause.is_empty() && self.first <= self.ends.len() {
            return Err(AllocError);
        }
        let count = self.lits.len();
        if count + clause.len() > MOST_LITERALS {
            return Err(AllocError);
        }
        put_literals(&mut self.lits, clause)?;
        let end = self.lits.len();
        match self.ends.push(end as u32) {
            Ok(()) => Ok(()),
            Err(_) => {
                self.lits.truncate(count);
                Err(AllocError)
            }
        }
    }

    /// Puts a clause at the end, with two of its literals in front, or the only one. Where a
    /// request for memory is refused, nothing has changed.
    pub fn push_led(&mut self, clause: &[Lit], watched: Watched) -> Result<(), AllocError>
        requires { IsPair clause.now watched }
        ensures ok { OnOk result ((d : Clause) × (self.new ≡ self.old ++ d ∷ []) × IsPermutation clause.now d × (front d ≡ watched)) }
        ensures err { OnErr result (self.new ≡ self.old) }
    {
        let start = self.lits.len();
        if start + clause.len() > MOST_LITERALS {
            return Err(AllocError);
        }
        put_literals(&mut self.lits, clause)?;
        lead(&mut self.lits[start..], watched);
        let end = self.lits.len();
        match self.ends.push(end as u32) {
            Ok(()) => Ok(()),
            Err(_) => {
                self.lits.truncate(start);
                Err(AllocError)
            }
        }
    }

    /// Visits the clause at a place, of more than two literals, in which `gone`, one of the two
    /// front ones, became false.
    pub fn visit_clause(
        &mut self,
        truths: Truths,
        gone: Lit,
        index: usize,
        starts: &mut Starts,
    ) -> WatchVisit
        requires table { AreTruths truths.trail.now truths.table.now }
        requires within { index < length self.old }
        requires clause { (c : Clause) → At self.old index c → (2 < length c) × CanSee truths.trail.now.vars (literals truths.trail.now.entries) gone c }
        ensures { (c : Clause) → At self.old index c → (d : Clause) × (self.new ≡ slice_set self.old index d) × IsSeen (literals truths.entry.trail.now.entries) gone c d result }
    {
        let start = start_of(&self.ends, index);
        let end = self.ends[index] as usize;
        visit_literals(truths, &mut self.lits[start..end], gone, starts, index)
    }

    /// Cuts off the clauses from a place on. It takes no memory, and leaves the room of the
    /// literals for the next ones.
    pub fn truncate(&mut self, count: usize)
        requires { count ≤ length self.old }
        ensures { self.new ≡ take count self.old }
    {
        let end = start_of(&self.ends, count);
        self.lits.truncate(end);
        self.ends.truncate(count);
    }

    /// Puts `1 -1` in place of the clauses that are named, which are from `first` on; no clause
    /// from there on is empty. The literals of the others move together, so that those of the next
    /// clauses take the room. It takes no memory, and time by the literals of the clauses from
    /// `first` on.
    pub fn forget(&mut self, first: usize, named: &Named)
        requires within { first ≤ length self.old }
        requires learnt { (n : ℕ) → n < first → names named.now n ≡ false }
        requires some { (n : ℕ) → first ≤ n → At self.old n [] → ⊥ }
        ensures { (numbers : List ℕ) → Tells (names named.now) numbers → self.new ≡ forget numbers 1 self.old }
    {
        self.first = self.first.min(first);
        let left = move_together(&mut self.lits, &mut self.ends, first, named);
        self.lits.truncate(left);
    }
}

//! Unit clauses that wait, each with its literal and the place of its last false one.
ghost use Rattle.std.specs.Prelude.{◌≡◌, [], ◌∷◌, ◌++◌, All, OnOk, IfSome, IfNone, nat_eq};
ghost use Rattle.std.proofs.Common.{rules};
ghost use Rattle.std.specs.Cmp.{partial_order_from_own_ties};
ghost use Rattle.std.specs.Cmp.Rules.{comparing};
ghost use Rattle.std.specs.Ordering.{nat_cmp, on, eq_of_both, then_cmp, as_partial_cmp};
ghost use Rattle.std.specs.List.Sorted.{IsPermutation};
ghost use Rattle.kernel.specs.Placing.{GoesFirst};
ghost use Rattle.kernel.specs.declared.units.unit_queue.Waiting.{Waiting};

use crate::units::unit_overflow::UnitOverflow;
use crate::units::waiting_queue::WaitingQueue;
use cnf::Lit;
use std::alloc::{AllocError, Global};
use std::cmp::Ordering;
use std::marker::Model;

/// A clause that was found unit. Which one goes first is a matter of place and clause.
#[derive(Clone, Copy)]
pub struct Waiting {
    /// The place of its last false literal on the trail, counted from 1; 0 where it has none, and
    /// where clauses go by number alone.
    pub place: usize,
    /// The place of the clause.
    pub clause: u32,
    /// The literal that it was unit in.
    pub lit: Lit,
}

impl PartialEq for Waiting {
    ghost eq = { eq_of_both (on (λ w. w.place) nat_eq) (on (λ w. w.clause) nat_eq) };

    ghost laws = { Prim.search (comparing, rules) };

    fn eq(&self, other: &Waiting) -> bool {
        self.place == other.place && self.clause == other.clause
    }
}

impl Eq for Waiting {
    ghost laws = { Prim.search (comparing, rules) };
}

impl PartialOrd for Waiting {
    ghost partial_cmp = { as_partial_cmp (then_cmp (on (λ w. w.place) nat_cmp) (on (λ w. w.clause) nat_cmp)) };

    ghost laws = { partial_order_from_own_ties (Prim.search (comparing, rules)) (Prim.search (comparing, rules)) };

    fn partial_cmp(&self, other: &Waiting) -> Option<Ordering> {
        Some(self.cmp(other))
    }
}

impl Ord for Waiting {
    ghost cmp = { then_cmp (on (λ w. w.place) nat_cmp) (on (λ w. w.clause) nat_cmp) };

    ghost total = { Prim.search (comparing, rules) };

    ghost matches_partial_cmp = { Prim.search (comparing, rules) };

    ghost matches_eq = { Prim.search (comparing, rules) };

    fn cmp(&self, other: &Waiting) -> Ordering {
        self.place
            .cmp(&other.place)
            .then(self.clause.cmp(&other.clause))
    }
}

/// Clauses that wait, of which the one of least place goes first, and of several the one of least
/// number. One that goes behind those of the queue goes there, and one with a place that goes
/// before a few of them alone; the others go into an overflow. Clauses that one entry of the trail made
/// unit come with its place, which is the greatest so far, so of these the overflow is touched only
/// where an entry makes many clauses unit in another order than that of their numbers, and where
/// several entries were served at once. With a heap alone a quarter of the time of some searches
/// went into it. Where clauses go by number they come in no order, and most go into the overflow.
#[derive(Drop)]
pub struct UnitQueue {
    queue: WaitingQueue,
    overflow: UnitOverflow,
}

impl Model for UnitQueue {
    ghost use Rattle.std.specs.Prelude.{List, ◌++◌};
    ghost use Rattle.kernel.specs.declared.units.unit_queue.Waiting.{Waiting};

    ghost Value = { List Waiting };

    ghost view = { λ l. l.queue ++ l.overflow };
}

impl UnitQueue {
    /// Nothing waits.
    pub fn new(alloc: Global) -> UnitQueue
        ensures { result ≡ [] }
    {
        UnitQueue {
            queue: WaitingQueue::new(alloc),
            overflow: UnitOverflow::new(alloc),
        }
    }

    /// Puts a clause in. It fails where a request for memory is refused.
    #[inline]
    pub fn push(&mut self, waiting: Waiting) -> Result<(), AllocError>
        ensures { OnOk result (IsPermutation (waiting ∷ self.old) self.new) }
    {
        if self.queue.put_behind(&waiting) {
            return Ok(());
        }
        self.push_elsewhere(waiting.place, waiting.clause, waiting.lit)
    }

    /// Puts a clause in that goes before one of the queue, or behind it where room is to be made.
    // A call, and the last thing that `push` does, which mostly puts a clause behind the queue: so
    // `push` is small enough to be inlined, and saves no registers. It takes a clause's parts, which
    // then stay in registers. In memory they would be written one by one and read together, and a
    // processor waits for that: a search by number over a chain of pigeonholes took a tenth longer.
    #[inline(never)]
    fn push_elsewhere(&mut self, place: usize, clause: u32, lit: Lit) -> Result<(), AllocError>
        ensures { OnOk result (IsPermutation (record { place = place; clause = clause; lit = lit } ∷ self.old) self.new) }
    {
        let waiting = Waiting { place, clause, lit };
        if self.queue.takes(&waiting) {
            self.queue.push(waiting)?;
            return Ok(());
        }
        if place == 0 {
            self.overflow.push_numbered(clause, lit)?;
            return Ok(());
        }
        if self.queue.put(&waiting)? {
            return Ok(());
        }
        self.overflow.push_placed(waiting)?;
        Ok(())
    }

    /// Takes the clause out that goes first.
    #[inline]
    pub fn pop(&mut self) -> Option<Waiting>
        ensures none { IfNone result ((self.old ≡ []) × (self.new ≡ [])) }
        ensures taken { IfSome result (λ w. IsPermutation self.old (w ∷ self.new)) }
        ensures first { IfSome result (λ w. All (λ v. GoesFirst w v) self.old) }
    {
        let Some(first) = self.queue.first() else {
            return self.overflow.pop();
        };
        if self.overflow.has_before(&first) {
            return self.overflow.pop();
        }
        self.queue.skip();
        Some(first)
    }

    /// Takes all clauses out.
    pub fn clear(&mut self)
        ensures { self.new ≡ [] }
    {
        self.queue.clear();
        self.overflow.clear();
    }
}

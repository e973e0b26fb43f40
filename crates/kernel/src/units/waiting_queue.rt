//! Unit clauses that come in the order in which they go, and are taken out in it.
ghost use Rattle.std.specs.Prelude.{◌≡◌, ◌≤◌, ◌<◌, ℕ, true, false, [], ◌∷◌, ◌++◌, All, IfOk, OnOk, IfSome, IfNone, drop, length, slice_index_or};
ghost use Rattle.std.specs.List.Sorted.{IsPermutation};
ghost use Rattle.kernel.specs.declared.units.unit_queue.Waiting.{Waiting};
ghost use Rattle.kernel.specs.Placing.{GoesFirst, AreInOrder};

use crate::units::unit_queue::Waiting;
use cnf::put_last;
use std::alloc::{AllocError, Global};
use std::marker::Model;

/// Clauses that wait, each behind those that go before it. It begins anew at the front of its
/// memory each time that it becomes empty: `head` is inside, or 0.
#[derive(Drop)]
pub struct WaitingQueue {
    items: Vec<Waiting>,
    // how many were taken out
    head: usize,
}

impl Model for WaitingQueue {
    ghost use Rattle.std.specs.Prelude.{List, ◌≤◌, ◌-◌, length, drop};
    ghost use Rattle.kernel.specs.declared.units.unit_queue.Waiting.{Waiting};
    ghost use Rattle.kernel.specs.Placing.{AreInOrder};

    ghost Value = { List Waiting };

    ghost view = { λ q. drop q.head q.items.items };

    ghost invariant = { λ q. (q.head ≤ length q.items.items - 1) × AreInOrder (drop q.head q.items.items) };
}

/// Whether a clause goes before another, or with it.
pub fn goes_first(a: Waiting, b: Waiting) -> bool
    ensures yes { result ≡ true → GoesFirst a b }
    ensures no { result ≡ false → GoesFirst b a }
{
    a.place < b.place || (a.place == b.place && a.clause <= b.clause)
}

/// So many of the last clauses are looked at to find where one goes.
const FEW: usize = 16;

/// Where a clause goes among the last ones: behind those that go before it. None where that is
/// further to the front.
fn place_near(items: &[Waiting], head: usize, waiting: &Waiting) -> Option<usize>
    requires head { head ≤ length items.now }
    requires order { AreInOrder (drop head items.now) }
    ensures within { IfSome result (λ p. (head ≤ p) × (p ≤ length items.now)) }
    ensures behind { IfSome result (λ p. (k : ℕ) (d : Waiting) → head ≤ k → k < p → GoesFirst (slice_index_or items.now k d) waiting.now) }
    ensures before { IfSome result (λ p. (k : ℕ) (d : Waiting) → p ≤ k → k < length items.now → GoesFirst waiting.now (slice_index_or items.now k d)) }
{
    let mut at = items.len();
    let front = head.max(at.saturating_sub(FEW));
    while at > front {
        let before = items[at - 1];
        if goes_first(before, *waiting) {
            return Some(at);
        }
        at -= 1;
    }
    if at == head { Some(at) } else { None }
}

impl WaitingQueue {
    /// Nothing waits.
    pub fn new(alloc: Global) -> WaitingQueue
        ensures { result ≡ [] }
    {
        WaitingQueue {
            items: Vec::new(alloc),
            head: 0,
        }
    }

    /// Whether a clause goes behind all of these.
    pub fn takes(&self, waiting: &Waiting) -> bool
        ensures { result ≡ true → All (λ w. GoesFirst w waiting.now) self.now }
    {
        let count = self.items.len();
        if count == self.head {
            return true;
        }
        let last = self.items[count - 1];
        goes_first(last, *waiting)
    }

    /// Puts a clause at the end, where it goes behind the others and there is room for it; whether
    /// it was put there.
    pub fn put_behind(&mut self, waiting: &Waiting) -> bool
        ensures put { result ≡ true → self.new ≡ self.old ++ waiting.now ∷ [] }
        ensures left { result ≡ false → self.new ≡ self.old }
    {
        if self.items.len() == self.items.capacity() || !self.takes(waiting) {
            return false;
        }
        self.items.push_reserved(*waiting);
        true
    }

    /// Puts a clause at the end that goes behind the others.
    pub fn push(&mut self, waiting: Waiting) -> Result<(), AllocError>
        requires { All (λ w. GoesFirst w waiting) self.old }
        ensures { OnOk result (self.new ≡ self.old ++ waiting ∷ []) }
    {
        put_last(&mut self.items, waiting)?;
        Ok(())
    }

    /// Puts a clause in where it goes among the last ones; whether it does. It takes time by those
    /// that it goes before.
    pub fn put(&mut self, waiting: &Waiting) -> Result<bool, AllocError>
        ensures put { IfOk result (λ b. b ≡ true → IsPermutation (waiting.now ∷ self.old) self.new) }
        ensures left { IfOk result (λ b. b ≡ false → self.new ≡ self.old) }
    {
        match place_near(&self.items, self.head, waiting) {
            None => Ok(false),
            Some(place) => {
                self.items.insert(place, *waiting)?;
                Ok(true)
            }
        }
    }

    /// The clause that goes first.
    pub fn first(&self) -> Option<Waiting>
        ensures none { IfNone result (self.now ≡ []) }
        ensures begins { IfSome result (λ w. self.now ≡ w ∷ drop 1 self.now) }
        ensures first { IfSome result (λ w. All (λ v. GoesFirst w v) self.now) }
    {
        if self.head < self.items.len() {
            Some(self.items[self.head])
        } else {
            None
        }
    }

    /// Takes the clause out that goes first, if there is one.
    pub fn skip(&mut self)
        ensures { self.new ≡ drop 1 self.old }
    {
        if self.head + 1 < self.items.len() {
            self.head += 1;
        } else {
            self.clear();
        }
    }

    /// Takes all clauses out.
    pub fn clear(&mut self)
        ensures { self.new ≡ [] }
    {
        self.items.clear();
        self.head = 0;
    }
}

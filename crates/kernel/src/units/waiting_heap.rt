//! Unit clauses that wait in any order, of which the one that goes first is taken out.
ghost use Rattle.std.specs.Prelude.{◌≡◌, ◌<◌, [], ◌∷◌, ◌++◌, true, false, All, OnOk, IfSome, IfNone, map};
ghost use Rattle.std.specs.BinaryHeap.{IsHeap, heap_items};
ghost use Rattle.std.specs.List.{Contains};
ghost use Rattle.std.specs.List.Sorted.{IsPermutation};
ghost use Rattle.std.specs.Ordering.{nat_cmp, ordering_then};
ghost use Rattle.kernel.specs.declared.units.unit_queue.Waiting.{Waiting};
ghost use Rattle.kernel.specs.Placing.{GoesFirst, at_start};

use crate::units::numbered::Numbered;
use crate::units::unit_queue::Waiting;
use crate::units::waiting_queue::goes_first;
use std::alloc::{AllocError, Global};
use std::cmp::Reverse;
use std::collections::BinaryHeap;
use std::marker::Model;

/// Clauses that wait. Those of place 0, which are all of them where clauses go by number, are
/// compared by number alone and take half of the memory, since a search by number may keep very
/// many of them.
#[derive(Drop)]
pub struct WaitingHeap {
    // those of place 0, which go before the others
    numbered: BinaryHeap<Reverse<Numbered>>,
    placed: BinaryHeap<Reverse<Waiting>>,
}

impl Model for WaitingHeap {
    ghost use Rattle.std.specs.Prelude.{List, map, ◌++◌, ◌<◌, All};
    ghost use Rattle.std.specs.BinaryHeap.{IsHeap, heap_items};
    ghost use Rattle.std.specs.Ordering.{nat_cmp, ordering_then};
    ghost use Rattle.kernel.specs.declared.units.unit_queue.Waiting.{Waiting};
    ghost use Rattle.kernel.specs.Placing.{at_start};

    ghost Value = { List Waiting };

    ghost view = { λ h. map (λ r. at_start r.0) (heap_items h.numbered) ++ map (λ r. r.0) (heap_items h.placed) };

    ghost invariant = { λ h. IsHeap (λ x y. nat_cmp y.0.clause x.0.clause) (heap_items h.numbered)
        × IsHeap (λ x y. ordering_then (nat_cmp y.0.place x.0.place) (nat_cmp y.0.clause x.0.clause)) (heap_items h.placed)
        × All (λ r. 0 < r.0.place) (heap_items h.placed) };
}

/// The clause of a heap that goes first.
fn first_placed(heap: &BinaryHeap<Reverse<Waiting>>) -> Option<Waiting>
    requires heap { IsHeap (λ x y. ordering_then (nat_cmp y.0.place x.0.place) (nat_cmp y.0.clause x.0.clause)) (heap_items heap.now) }
    ensures none { IfNone result (map (λ r. r.0) (heap_items heap.now) ≡ []) }
    ensures there { IfSome result (λ w. Contains (map (λ r. r.0) (heap_items heap.now)) w) }
    ensures first { IfSome result (λ w. All (λ v. GoesFirst w v) (map (λ r. r.0) (heap_items heap.now))) }
{
    match heap.peek() {
        None => None,
        Some(first) => {
            let first = first.0;
            Some(first)
        }
    }
}

/// Takes the clause out of a heap that goes first.
fn take_first(heap: &mut BinaryHeap<Reverse<Waiting>>) -> Option<Waiting>
    requires heap { IsHeap (λ x y. ordering_then (nat_cmp y.0.place x.0.place) (nat_cmp y.0.clause x.0.clause)) (heap_items heap.old) }
    ensures heap { IsHeap (λ x y. ordering_then (nat_cmp y.0.place x.0.place) (nat_cmp y.0.clause x.0.clause)) (heap_items heap.new) }
    ensures none { IfNone result ((map (λ r. r.0) (heap_items heap.old) ≡ []) × (map (λ r. r.0) (heap_items heap.new) ≡ [])) }
    ensures taken { IfSome result (λ w. IsPermutation (map (λ r. r.0) (heap_items heap.old)) (w ∷ map (λ r. r.0) (heap_items heap.new))) }
    ensures first { IfSome result (λ w. All (λ v. GoesFirst w v) (map (λ r. r.0) (heap_items heap.old))) }
    ensures placed { All (λ r. 0 < r.0.place) (heap_items heap.old) → All (λ r. 0 < r.0.place) (heap_items heap.new) }
{
    match heap.pop() {
        None => None,
        Some(first) => Some(first.0),
    }
}

impl WaitingHeap {
    /// Nothing waits.
    pub fn new(alloc: Global) -> WaitingHeap
        ensures { result ≡ [] }
    {
        WaitingHeap {
            numbered: BinaryHeap::new(alloc),
            placed: BinaryHeap::new(alloc),
        }
    }

    /// Puts a clause in. It fails where a request for memory is refused.
    pub fn push(&mut self, waiting: Waiting) -> Result<(), AllocError>
        ensures { OnOk result (IsPermutation (waiting ∷ self.old) self.new) }
    {
        if waiting.place == 0 {
            self.numbered.push(Reverse(Numbered {
                clause: waiting.clause,
                lit: waiting.lit,
            }))?;
        } else {
            self.placed.push(Reverse(waiting))?;
        }
        Ok(())
    }

    /// The clause that goes first.
    fn first(&self) -> Option<Waiting>
        ensures none { IfNone result (self.now ≡ []) }
        ensures there { IfSome result (λ w. Contains self.now w) }
        ensures first { IfSome result (λ w. All (λ v. GoesFirst w v) self.now) }
    {
        match self.numbered.peek() {
            None => first_placed(&self.placed),
            Some(least) => Some(least.0.waiting()),
        }
    }

    /// Whether one of these goes before a clause.
    pub fn has_before(&self, waiting: &Waiting) -> bool
        ensures before { result ≡ true → (w : Waiting) × Contains self.now w × GoesFirst w waiting.now }
        ensures none { result ≡ false → All (λ w. GoesFirst waiting.now w) self.now }
    {
        match self.first() {
            None => false,
            Some(first) => !goes_first(*waiting, first),
        }
    }

    /// Takes the clause out that goes first.
    pub fn pop(&mut self) -> Option<Waiting>
        ensures none { IfNone result ((self.old ≡ []) × (self.new ≡ [])) }
        ensures taken { IfSome result (λ w. IsPermutation self.old (w ∷ self.new)) }
        ensures first { IfSome result (λ w. All (λ v. GoesFirst w v) self.old) }
    {
        match self.numbered.pop() {
            None => take_first(&mut self.placed),
            Some(least) => Some(least.0.waiting()),
        }
    }

    /// Takes all clauses out.
    pub fn clear(&mut self)
        ensures { self.new ≡ [] }
    {
        self.numbered.clear();
        self.placed.clear();
    }
}

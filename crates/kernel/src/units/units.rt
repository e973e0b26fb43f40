//! The clauses that wait as units between two propagations, the least first.
ghost use Rattle.std.specs.Prelude.{◌≡◌, ◌<◌, ◌≤◌, ℕ, true, false, [], ◌∷◌, IfOk, OnOk, IfSome, IfNone, All, map};
ghost use Rattle.std.specs.BinaryHeap.{IsHeap, heap_items};
ghost use Rattle.std.specs.List.{Contains};
ghost use Rattle.std.specs.Ordering.{nat_cmp};
ghost use Rattle.std.specs.List.Sorted.{IsPermutation};
ghost use Rattle.kernel.specs.Forgetting.{places_left, names};

use crate::clauses::named::Named;
use crate::units::queue::Queue;
use std::alloc::{AllocError, Global};
use std::cmp::Reverse;
use std::collections::BinaryHeap;
use std::marker::Model;

/// Places of clauses, each as often as it was put in. One that is no less than those of the queue
/// goes to its end, the others go into a heap. So the heap is touched only where a smaller one
/// comes while others wait; the clauses of one literal, which come by rising number when a cube
/// begins, take one step each.
#[derive(Drop)]
pub struct Units {
    queue: Queue,
    heap: BinaryHeap<Reverse<u32>>,
}

impl Model for Units {
    ghost use Rattle.std.specs.Prelude.{List, ℕ, map, ◌++◌};
    ghost use Rattle.std.specs.BinaryHeap.{IsHeap, heap_items};
    ghost use Rattle.std.specs.Ordering.{nat_cmp};

    ghost Value = { List ℕ };

    ghost view = { λ u. u.queue ++ map (λ r. r.0) (heap_items u.heap) };

    ghost invariant = { λ u. IsHeap (λ x y. nat_cmp y.0 x.0) (heap_items u.heap) };
}

/// Whether a number of the heap is less than this one.
fn has_below(heap: &BinaryHeap<Reverse<u32>>, number: u32) -> bool
    requires heap { IsHeap (λ x y. nat_cmp y.0 x.0) (heap_items heap.now) }
    ensures below { result ≡ true → (m : ℕ) × Contains (map (λ r. r.0) (heap_items heap.now)) m × (m < number) }
    ensures none { result ≡ false → All (λ m. number ≤ m) (map (λ r. r.0) (heap_items heap.now)) }
{
    match heap.peek() {
        None => false,
        Some(least) => least.0 < number,
    }
}

/// Takes the least number out of the heap.
fn take_least(heap: &mut BinaryHeap<Reverse<u32>>) -> Option<u32>
    requires heap { IsHeap (λ x y. nat_cmp y.0 x.0) (heap_items heap.old) }
    ensures heap { IsHeap (λ x y. nat_cmp y.0 x.0) (heap_items heap.new) }
    ensures none { IfNone result ((map (λ r. r.0) (heap_items heap.old) ≡ []) × (map (λ r. r.0) (heap_items heap.new) ≡ [])) }
    ensures taken { IfSome result (λ n. IsPermutation (map (λ r. r.0) (heap_items heap.old)) (n ∷ map (λ r. r.0) (heap_items heap.new))) }
    ensures least { IfSome result (λ n. All (λ m. n ≤ m) (map (λ r. r.0) (heap_items heap.old))) }
{
    match heap.pop() {
        None => None,
        Some(least) => Some(least.0),
    }
}

impl Units {
    /// No numbers, with room for so many that come by rising size. It fails where a request for
    /// memory is refused.
    pub fn with_room(alloc: Global, count: usize) -> Result<Units, AllocError>
        ensures { IfOk result (λ u. u ≡ []) }
    {
        Ok(Units {
            queue: Queue::with_room(alloc, count)?,
            heap: BinaryHeap::new(alloc),
        })
    }

    /// Puts a number in.
    pub fn push(&mut self, number: u32) -> Result<(), AllocError>
        ensures { OnOk result (IsPermutation (number ∷ self.old) self.new) }
    {
        if self.queue.takes(number) {
            self.queue.push(number)?;
        } else {
            self.heap.push(Reverse(number))?;
        }
        Ok(())
    }

    /// Takes the least number out.
    pub fn pop(&mut self) -> Option<u32>
        ensures none { IfNone result (self.old ≡ []) }
        ensures left { IfNone result (self.new ≡ []) }
        ensures taken { IfSome result (λ n. IsPermutation self.old (n ∷ self.new)) }
        ensures least { IfSome result (λ n. All (λ m. n ≤ m) self.old) }
    {
        let Some(first) = self.queue.first() else {
            return take_least(&mut self.heap);
        };
        if has_below(&self.heap, first) {
            take_least(&mut self.heap)
        } else {
            self.queue.pop()
        }
    }

    /// Takes those out that are named.
    pub fn drop_named(&mut self, named: &Named)
        ensures { IsPermutation (places_left (names named.now) self.old) self.new }
    {
        self.queue.drop_named(named);
        self.heap.retain(|number| !named.has(number.0 as usize));
    }

    /// Takes all numbers out.
    pub fn clear(&mut self)
        ensures { self.new ≡ [] }
    {
        self.queue.clear();
        self.heap.clear();
    }
}

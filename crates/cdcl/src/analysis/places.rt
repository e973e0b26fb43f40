//! The places on the trail that wait to be looked at, the last first.
ghost use Rattle.std.specs.Prelude.{◌≡◌, ◌<◌, ◌≤◌, ℕ, true, false, [], ◌∷◌, All, IfOk, OnOk, IfSome, IfNone};
ghost use Rattle.std.specs.BinaryHeap.{heap_items, IsHeap};
ghost use Rattle.std.specs.List.{Contains};
ghost use Rattle.std.specs.List.Sorted.{IsPermutation};
ghost use Rattle.std.specs.Ordering.{nat_cmp};

use crate::analysis::flags::Flags;
use std::alloc::{AllocError, Global};
use std::collections::BinaryHeap;
use std::marker::Model;

/// Places, each as often as it was put in. Those of the current level lie side by side at the
/// trail's end, so they are flags, which are passed over from the end. Those of level 0, which are
/// few and may be far apart, are in a heap.
#[derive(Drop)]
pub(crate) struct Places {
    near: Flags,
    far: BinaryHeap<usize>,
}

impl Model for Places {
    ghost use Rattle.std.specs.Prelude.{List, ℕ, ◌++◌};
    ghost use Rattle.std.specs.BinaryHeap.{heap_items, IsHeap};
    ghost use Rattle.std.specs.Ordering.{nat_cmp};

    ghost Value = { List ℕ };

    ghost view = { λ p. p.near ++ heap_items p.far };

    ghost invariant = { λ p. IsHeap nat_cmp (heap_items p.far) };
}

/// Whether a place of the heap is greater than this one.
fn has_above(heap: &BinaryHeap<usize>, place: usize) -> bool
    requires heap { IsHeap nat_cmp (heap_items heap.now) }
    ensures above { result ≡ true → (m : ℕ) × Contains (heap_items heap.now) m × (place < m) }
    ensures none { result ≡ false → All (λ m. m ≤ place) (heap_items heap.now) }
{
    match heap.peek() {
        None => false,
        Some(greatest) => place < *greatest,
    }
}

/// Takes the greatest place out of the heap.
fn take_greatest(heap: &mut BinaryHeap<usize>) -> Option<usize>
    requires heap { IsHeap nat_cmp (heap_items heap.old) }
    ensures heap { IsHeap nat_cmp (heap_items heap.new) }
    ensures none { IfNone result ((heap_items heap.old ≡ []) × (heap_items heap.new ≡ [])) }
    ensures taken { IfSome result (λ n. IsPermutation (heap_items heap.old) (n ∷ heap_items heap.new)) }
    ensures greatest { IfSome result (λ n. All (λ m. m ≤ n) (heap_items heap.old)) }
{
    match heap.pop() {
        None => None,
        Some(greatest) => Some(greatest),
    }
}

impl Places {
    /// No places, and room for those of so many entries that lie near one another.
    pub(crate) fn with_room(alloc: Global, count: usize) -> Result<Places, AllocError>
        ensures { IfOk result (λ p. p ≡ []) }
    {
        Ok(Places {
            near: Flags::with_room(alloc, count)?,
            far: BinaryHeap::new(alloc),
        })
    }

    /// Puts a place in that lies near the others put in so.
    pub(crate) fn push_near(&mut self, place: usize) -> Result<(), AllocError>
        ensures { OnOk result (IsPermutation (place ∷ self.old) self.new) }
    {
        if self.near.put(place) {
            return Ok(());
        }
        self.push_far(place)
    }

    /// Puts a place in that may lie far from the others.
    // A call, since places of level 0 are few: inlined, its heap had each literal of an analysis save
    // the registers that it needs.
    #[inline(never)]
    pub(crate) fn push_far(&mut self, place: usize) -> Result<(), AllocError>
        ensures { OnOk result (IsPermutation (place ∷ self.old) self.new) }
    {
        self.far.push(place)?;
        Ok(())
    }

    /// How many places are in that may lie far from the others.
    pub(crate) fn far_count(&self) -> usize {
        self.far.len()
    }

    /// Takes the greatest place out.
    pub(crate) fn pop(&mut self) -> Option<usize>
        ensures none { IfNone result ((self.old ≡ []) × (self.new ≡ [])) }
        ensures taken { IfSome result (λ n. IsPermutation self.old (n ∷ self.new)) }
        ensures greatest { IfSome result (λ n. All (λ m. m ≤ n) self.old) }
    {
        let Some(near) = self.near.greatest() else {
            return take_greatest(&mut self.far);
        };
        if has_above(&self.far, near) {
            return take_greatest(&mut self.far);
        }
        self.near.take(near);
        Some(near)
    }
}

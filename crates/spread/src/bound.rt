//! The bound of what is searched while a run is made.

use cdcl::Counts;
use cubes::{FirstSearch, Gate};
use kernel::Cube;
use std::sync::atomic::{AtomicU64, Ordering};

/// After so many conflicts in one cube the division of a run ends. By then the focused search has told
/// whether the formula is divided.
pub(crate) const MOST_CONFLICTS: u64 = 20_000;

/// How a division ended.
#[derive(Clone, Copy, Debug, PartialEq, Eq)]
pub(crate) enum End {
    /// As many cubes were open as were wanted, or none was.
    Done,
    /// The search of a cube came to the bound.
    AtBound,
    /// That of the whole formula did, which the focused search doesn't divide: else it would have been
    /// split before.
    Whole,
}

/// A gate that also stops the search of a cube at that bound.
#[derive(Drop)]
pub(crate) struct BoundedGate<'a, G> {
    gate: &'a G,
    /// How many conflicts were met in all cubes.
    conflicts: AtomicU64,
    /// And before the one that is searched.
    before: AtomicU64,
}

impl<'a, G> BoundedGate<'a, G> {
    pub(crate) fn of(gate: &'a G) -> BoundedGate<'a, G> {
        BoundedGate {
            gate,
            conflicts: AtomicU64::new(0),
            before: AtomicU64::new(0),
        }
    }

    pub(crate) fn conflicts(&self) -> u64 {
        self.conflicts.load(Ordering::SeqCst)
    }

    /// Whether the cube that is searched has had as many conflicts.
    pub(crate) fn is_reached(&self) -> bool {
        let before = self.before.load(Ordering::SeqCst);
        self.conflicts().saturating_sub(before) >= MOST_CONFLICTS
    }
}

impl<G: Gate> Gate for BoundedGate<'_, G> {
    fn before(&self, hand: usize, cube: &Cube) {
        self.before.store(self.conflicts(), Ordering::SeqCst);
        self.gate.before(hand, cube);
    }

    fn after(&self, hand: usize, cube: &Cube) {
        self.gate.after(hand, cube);
    }

    fn counted(&self, hand: usize, counts: Counts) {
        self.conflicts.store(counts.conflicts, Ordering::SeqCst);
        self.gate.counted(hand, counts);
    }

    fn prepared(&self, counts: Counts) {
        self.gate.prepared(counts);
    }

    fn asked(&self, first: FirstSearch) {
        self.gate.asked(first);
    }

    fn refuted(&self, hand: usize, cube: &Cube) {
        self.gate.refuted(hand, cube);
    }

    fn stops(&self) -> bool {
        self.is_reached() || self.gate.stops()
    }
}

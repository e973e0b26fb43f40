//! A gate with a limit.

use crate::options::Options;
use cdcl::Counts;
use cubes::{FirstSearch, Gate, Limit};
use kernel::Cube;

/// A gate that also stops the hands where a limit is reached.
#[derive(Drop)]
pub(crate) struct LimitedGate<'a, G, L> {
    gate: &'a G,
    limit: &'a L,
}

impl<'a, G, L> LimitedGate<'a, G, L> {
    pub(crate) fn of<O>(options: &Options<'a, G, L, O>) -> LimitedGate<'a, G, L> {
        LimitedGate {
            gate: options.gate,
            limit: options.limit,
        }
    }
}

impl<G: Gate, L: Limit> Gate for LimitedGate<'_, G, L> {
    fn before(&self, hand: usize, cube: &Cube) {
        self.gate.before(hand, cube);
    }

    fn after(&self, hand: usize, cube: &Cube) {
        self.gate.after(hand, cube);
    }

    fn prepared(&self, counts: Counts) {
        self.gate.prepared(counts);
    }

    fn asked(&self, first: FirstSearch) {
        self.gate.asked(first);
    }

    fn refuted(&self, hand: usize, cube: &Cube) {
        self.gate.refuted(hand, cube);
    }

    fn counted(&self, hand: usize, counts: Counts) {
        self.gate.counted(hand, counts);
    }

    fn stops(&self) -> bool {
        self.gate.stops() || self.limit.reached()
    }
}

//! What the solvers of all hands have done.

use crate::cube_counts::HANDS;
use cdcl::Counts;

/// What was done before hands began, and what each hand's solver has done since it began, as far as
/// a gate was told.
#[derive(Clone, Copy)]
pub struct SearchCounts {
    prepared: Counts,
    by_hand: [Counts; HANDS],
}

impl SearchCounts {
    /// Nothing was done.
    pub fn none() -> SearchCounts {
        SearchCounts {
            prepared: Counts::none(),
            by_hand: [Counts::none(); HANDS],
        }
    }

    /// Before hands began so much was done.
    pub fn set_prepared(&mut self, counts: Counts) {
        self.prepared = counts;
    }

    /// A hand's solver has done so much in all. There are hands 0 to 15.
    pub fn set(&mut self, hand: usize, counts: Counts) {
        if let Some(done) = self.by_hand.get_mut(hand) {
            *done = counts;
        }
    }

    /// What all solvers have done together.
    pub fn sum(&self) -> Counts {
        let mut sum = self.prepared;
        for done in self.by_hand {
            sum = sum.with(done);
        }
        sum
    }
}

/// So many in so many milliseconds, by the second and rounded down; none where no time passed.
pub(crate) fn a_second(count: u64, milliseconds: u64) -> Option<u64> {
    count.saturating_mul(1000).checked_div(milliseconds)
}

//! How far the search is that is made before that of hands.

use cdcl::Counts;

/// How that search has ended, if it has.
#[derive(Clone, Copy, Debug, PartialEq, Eq)]
enum FirstEnd {
    GoesOn,
    /// It has decided the formula.
    Decided,
    /// Its conflicts are used up.
    Undecided,
}

/// What it has done, and how it ended.
#[derive(Clone, Copy)]
pub struct FirstCounts {
    counts: Counts,
    end: FirstEnd,
}

impl FirstCounts {
    /// It hasn't begun.
    pub fn none() -> FirstCounts {
        FirstCounts {
            counts: Counts::none(),
            end: FirstEnd::GoesOn,
        }
    }

    /// It has done so much in all.
    pub fn count(&mut self, counts: Counts) {
        self.counts = counts;
    }

    /// It has ended, and decided the formula or not.
    pub fn end(&mut self, is_decided: bool) {
        self.end = if is_decided {
            FirstEnd::Decided
        } else {
            FirstEnd::Undecided
        };
    }

    pub(crate) fn counts(&self) -> Counts {
        self.counts
    }

    pub(crate) fn has_decided(&self) -> bool {
        self.end == FirstEnd::Decided
    }

    /// Whether it is past, and hands go on.
    pub(crate) fn is_used_up(&self) -> bool {
        self.end == FirstEnd::Undecided
    }
}

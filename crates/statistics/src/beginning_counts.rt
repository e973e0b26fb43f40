//! How far the beginning of a plan's search is: a short search of the formula, and where that doesn't
//! decide it a simplification.

use cdcl::Counts;
use strategies::SimplifiedCounts;

/// A formula that is simplified.
#[derive(Clone, Copy)]
pub struct Simplified {
    pub(crate) counts: SimplifiedCounts,
    /// How many milliseconds the simplification took.
    pub(crate) time: u64,
}

/// How far it is.
#[derive(Clone, Copy)]
enum BeginningStage {
    /// The short search hasn't ended.
    Tries,
    /// It has decided the formula.
    Decided,
    /// The simplification has looked at so many literals.
    Simplifies(u64),
    Simplified(Simplified),
}

/// What the short search has done, and how far the beginning is.
#[derive(Clone, Copy)]
pub struct BeginningCounts {
    search: Counts,
    stage: BeginningStage,
    /// When the simplification began, in milliseconds from the run's beginning on.
    began: u64,
}

impl BeginningCounts {
    /// The short search begins.
    pub fn none() -> BeginningCounts {
        BeginningCounts {
            search: Counts::none(),
            stage: BeginningStage::Tries,
            began: 0,
        }
    }

    /// The short search has done so much.
    pub fn count_try(&mut self, counts: Counts) {
        self.search = counts;
    }

    /// That search has ended now, and decided the formula or not.
    pub fn end_try(&mut self, is_decided: bool, now: u64) {
        self.began = now;
        self.stage = if is_decided {
            BeginningStage::Decided
        } else {
            BeginningStage::Simplifies(0)
        };
    }

    /// The simplification has looked at so many literals.
    pub fn count_literals(&mut self, literals: u64) {
        self.stage = BeginningStage::Simplifies(literals);
    }

    /// The formula is simplified now.
    pub fn end(&mut self, counts: SimplifiedCounts, now: u64) {
        let time = now.saturating_sub(self.began);
        self.stage = BeginningStage::Simplified(Simplified { counts, time });
    }

    pub(crate) fn search(&self) -> Counts {
        self.search
    }

    pub(crate) fn has_decided(&self) -> bool {
        match self.stage {
            BeginningStage::Decided => true,
            _ => false,
        }
    }

    /// How many conflicts the short search has had, while it goes on.
    pub(crate) fn tries(&self) -> Option<u64> {
        match self.stage {
            BeginningStage::Tries => Some(self.search.conflicts),
            _ => None,
        }
    }

    /// How many literals the simplification has looked at, while it goes on.
    pub(crate) fn literals(&self) -> Option<u64> {
        match self.stage {
            BeginningStage::Simplifies(literals) => Some(literals),
            _ => None,
        }
    }

    pub(crate) fn simplified(&self) -> Option<Simplified> {
        match self.stage {
            BeginningStage::Simplified(simplified) => Some(simplified),
            _ => None,
        }
    }
}

//! How much a kernel has done.

use crate::closed::Closed;

/// How much a kernel has done since it was opened, in all its cubes. Each number stays once it has
/// come to the greatest one.
#[derive(Clone, Copy, Debug, PartialEq, Eq)]
pub struct Counts {
    /// Propagations that ended at a false clause.
    pub conflicts: u64,
    pub decisions: u64,
    /// Entries of the trail that propagation went over, decisions among them.
    pub propagations: u64,
    /// Clauses that were learnt.
    pub learnt: u64,
    /// Learnt clauses that were forgotten.
    pub forgotten: u64,
}

impl Counts {
    pub(crate) fn none() -> Counts {
        Counts {
            conflicts: 0,
            decisions: 0,
            propagations: 0,
            learnt: 0,
            forgotten: 0,
        }
    }

    /// Propagation went over so many entries.
    pub(crate) fn add_propagation(&mut self, entries: usize, closed: Closed) {
        self.propagations = self.propagations.saturating_add(entries as u64);
        if let Closed::Conflict(_) = closed {
            self.conflicts = self.conflicts.saturating_add(1);
        }
    }

    pub(crate) fn add_decision(&mut self) {
        self.decisions = self.decisions.saturating_add(1);
    }

    pub(crate) fn add_learnt(&mut self) {
        self.learnt = self.learnt.saturating_add(1);
    }

    pub(crate) fn add_forgotten(&mut self, count: usize) {
        self.forgotten = self.forgotten.saturating_add(count as u64);
    }
}

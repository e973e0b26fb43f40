//! What is found out when the first search is asked whether the formula is divided, and who is told.

use cdcl::{Unwatched, Watcher};

/// What the first search answers.
#[derive(Clone, Copy, Debug, PartialEq, Eq)]
pub enum FirstAnswer {
    /// It wasn't asked, since it ended before.
    Ended,
    /// The formula isn't divided.
    Whole,
    /// It is, and so many cubes are wanted.
    Divided(u32),
}

/// What the first search had done when it was asked or ended, and what it answers.
#[derive(Clone, Copy, Debug, PartialEq, Eq)]
pub struct FirstSearch {
    /// Literals that were decided in stable mode, also those that were taken back.
    pub decisions: u64,
    /// Conflicts that were met. Where the search was asked, that was at the last of them.
    pub conflicts: u64,
    /// Those of stable mode among them: the search is asked by these and by its decisions.
    pub stable_conflicts: u64,
    /// Whether the formula is divided, if the search was asked.
    pub answer: FirstAnswer,
}

/// Who is told what a solver has done that may divide its formula.
pub trait DivisionWatcher: Watcher {
    /// The first search was asked whether the formula is divided, or ended before.
    fn asked(&self, _first: FirstSearch) {}
}

impl DivisionWatcher for Unwatched {}

//! What a focused search has done beside what its kernel counts.

use crate::api::counts::Counts;
use crate::api::outcome::Outcome;
use crate::search::line_log::LineLog;
use heuristics::Mode;
use std::marker::Model;

/// A count that no proof speaks of. It stays once it has come to the greatest number.
#[derive(Drop)]
pub(crate) struct Total {
    count: u64,
}

impl Model for Total {
    ghost Value = { Unit {0} };

    ghost view = { λ a. tt };
}

impl Total {
    pub(crate) fn none() -> Total {
        Total { count: 0 }
    }

    pub(crate) fn add(&mut self, count: usize) {
        self.count = self.count.saturating_add(count as u64);
    }

    pub(crate) fn count(&self) -> u64 {
        self.count
    }
}

/// Counts of rounds, units and looks, and of conflicts that were met twice. No proof speaks of them.
#[derive(Drop)]
pub(crate) struct Tally {
    /// Lines for literals of level 0.
    units: u64,
    /// Rounds that ended.
    rounds: u64,
    /// How often the mode has changed.
    switches: u64,
    /// Cubes that were looked at.
    looks: u64,
    /// Failed literals: decisions of looks whose propagation met a conflict.
    failed_literals: u64,
    /// How often a search went on from a conflict at which it had stopped, and met it again.
    resumed: u64,
}

impl Model for Tally {
    ghost Value = { Unit {0} };

    ghost view = { λ a. tt };
}

impl Tally {
    /// Nothing was done.
    pub(crate) fn none() -> Tally {
        Tally {
            units: 0,
            rounds: 0,
            switches: 0,
            looks: 0,
            failed_literals: 0,
            resumed: 0,
        }
    }

    /// A literal of level 0 has become a line.
    pub(crate) fn add_unit(&mut self) {
        self.units = self.units.saturating_add(1);
    }

    /// A round has ended, in one mode, and the next one is in another or in the same.
    pub(crate) fn add_round(&mut self, mode: Mode, next: Mode) {
        self.rounds = self.rounds.saturating_add(1);
        if mode != next {
            self.switches = self.switches.saturating_add(1);
        }
    }

    /// A cube was looked at, with this outcome and so many conflicts. Only that which refutes the
    /// cube is no decision's.
    pub(crate) fn add_look(&mut self, outcome: &Outcome<LineLog>, conflicts: u64) {
        self.looks = self.looks.saturating_add(1);
        if let Outcome::Exhausted(_) = outcome {
            self.failed_literals = self.failed_literals.saturating_add(conflicts);
        }
    }

    /// A search goes on from the conflict at which it had stopped.
    pub(crate) fn resume(&mut self) {
        self.resumed = self.resumed.saturating_add(1);
    }

    /// What was done in all, where the kernel has counted so much.
    pub(crate) fn counts(&self, kernel: kernel::Counts) -> Counts {
        let done = Counts::of(kernel);
        Counts {
            conflicts: done.conflicts.saturating_sub(self.resumed),
            units: self.units,
            rounds: self.rounds,
            switches: self.switches,
            looks: self.looks,
            failed_literals: self.failed_literals,
            ..done
        }
    }
}

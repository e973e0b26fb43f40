//! What a hand does while it finds no cube.

use std::thread;
use std::time::{Clock, Duration};

/// How often a hand yields its processor before it sleeps. Most cubes that are put are there within
/// so many turns.
const YIELDS: u32 = 100;

/// The first sleep, in microseconds: about the least that the system keeps to.
const SHORTEST: u64 = 50;

/// The longest sleep, in microseconds. It is as long as a cube that was put may wait for a hand
/// that sleeps.
const LONGEST: u64 = 1000;

/// The pauses of a hand since it last got a cube.
#[derive(Clone, Copy)]
pub(crate) struct Pauses {
    yields: u32,
    /// The next sleep, in microseconds.
    sleep: u64,
}

impl Pauses {
    /// None so far.
    pub(crate) fn none() -> Pauses {
        Pauses {
            yields: 0,
            sleep: SHORTEST,
        }
    }

    /// One more: yields the processor, or sleeps twice as long as the time before, up to the
    /// longest sleep.
    pub(crate) fn pause(&mut self, clock: &impl Clock) {
        if self.yields < YIELDS {
            self.yields += 1;
            thread::yield_now();
        } else {
            thread::sleep(clock, Duration::from_micros(self.sleep));
            self.sleep = self.sleep.saturating_mul(2).min(LONGEST);
        }
    }
}

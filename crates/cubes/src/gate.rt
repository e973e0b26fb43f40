//! What a hand passes as it solves cubes from the pool.

use crate::division::first_search::{DivisionWatcher, FirstSearch};
use cdcl::{Counts, Outcome, Watcher};
use kernel::Cube;

/// A gate that all hands share. A hand tells it of each cube from the pool that it solves, by the
/// hand's number.
pub trait Gate {
    /// Before the cube is solved.
    fn before(&self, hand: usize, cube: &Cube);

    /// Once it is solved, or given up: where memory is refused, or where the hands are to stop. So
    /// a gate that holds one hand until another one is done with its cube holds it no longer.
    fn after(&self, hand: usize, cube: &Cube);

    /// The hand's solver has done so much in all, since it began. It is told about each thousand
    /// conflicts or 100,000 entries of the trail, and at the end of each cube that it solves, one
    /// that it carries on too.
    fn counted(&self, _hand: usize, _counts: Counts) {}

    /// Before the hands begin, so much was done to find out whether the formula is divided. It is
    /// told as `counted` is.
    fn prepared(&self, _counts: Counts) {}

    /// The first search was asked whether the formula is divided, or ended before: this is what it
    /// had done by then, and its answer. The thread that called for the result tells it, at most
    /// once, before the hands begin; it is never told where the plan can't divide a formula.
    fn asked(&self, _first: FirstSearch) {}

    /// The hand of this number has refuted the cube. Its thread tells it once for each cube of the
    /// tree that is refuted: of a cube from the pool between `before` and `after`, of one that the
    /// hand carries on as soon as it is solved. What the thread that called for the result solves
    /// itself, it tells as the hand 0.
    fn refuted(&self, _hand: usize, _cube: &Cube) {}

    /// Whether the hands are to stop before all is solved. A solver asks before each cube, and
    /// inside one each time that the gate was told what is done.
    fn stops(&self) -> bool {
        false
    }
}

/// The gate that does nothing.
#[derive(Clone, Copy)]
pub struct OpenGate;

impl Gate for OpenGate {
    fn before(&self, _hand: usize, _cube: &Cube) {}

    fn after(&self, _hand: usize, _cube: &Cube) {}
}

/// Tells a gate of a cube that a hand has solved, where it is refuted.
pub(crate) fn tell_refuted<L, G: Gate>(gate: &G, hand: usize, cube: &Cube, outcome: &Outcome<L>) {
    if let Outcome::Refuted(_) = outcome {
        gate.refuted(hand, cube);
    }
}

/// Tells a gate what is done before the hands begin.
#[derive(Drop)]
pub(crate) struct Prepared<'a, G> {
    pub(crate) gate: &'a G,
}

impl<G: Gate> Watcher for Prepared<'_, G> {
    fn counted(&self, counts: Counts) {
        self.gate.prepared(counts);
    }

    fn stops(&self) -> bool {
        self.gate.stops()
    }
}

impl<G: Gate> DivisionWatcher for Prepared<'_, G> {
    fn asked(&self, first: FirstSearch) {
        self.gate.asked(first);
    }
}

/// Tells a gate what the solver of a hand has done.
#[derive(Drop)]
pub struct Watched<'a, G> {
    pub gate: &'a G,
    pub hand: usize,
}

impl<G: Gate> Watcher for Watched<'_, G> {
    fn counted(&self, counts: Counts) {
        self.gate.counted(self.hand, counts);
    }

    fn stops(&self) -> bool {
        self.gate.stops()
    }
}

impl<G: Gate> DivisionWatcher for Watched<'_, G> {}

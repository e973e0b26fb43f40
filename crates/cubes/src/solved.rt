//! Results of cubes.

use cdcl::{Outcome, Refutation};
use kernel::Cube;

/// What became of a cube.
#[derive(Drop)]
pub enum What<L = Refutation> {
    /// It was solved.
    Done(Outcome<L>),
    /// It was passed over, since it lies right of the place of a model.
    Skipped(u64),
}

/// A cube, and what became of it.
#[derive(Drop)]
pub struct Solved<L = Refutation> {
    pub cube: Cube,
    pub what: What<L>,
}

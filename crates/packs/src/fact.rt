//! What is said of cubes.

use kernel::Cube;
use lines::Row;

/// What is said of a cube.
#[derive(Drop)]
pub enum Claim {
    /// It is split on this variable.
    Split(u32),
    /// It is refuted: these lines replay.
    Refuted(Row),
    /// It has a model. Which, isn't said: who doubts it has to solve the cube again anyway.
    Model,
}

/// A cube, and what is said of it; nobody vouches for it.
#[derive(Drop)]
pub struct Fact {
    pub cube: Cube,
    pub claim: Claim,
}

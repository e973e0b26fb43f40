//! What lies in a deque, and what its owner and its thieves know of it.
use kernel::Cube;
use std::marker::Model;

/// A cube in a deque, with the number of variables that it is over. A rule of a deque can't speak
/// of a value of the run but by what lies in the deque: so it learns the number of variables.
#[derive(Drop)]
pub struct Task {
    pub vars: u32,
    pub cube: Cube,
}

/// What the owner or a thief of a deque knows, for contracts alone: no value of it is made.
pub struct DequeNotes;

impl Model for DequeNotes {
    ghost use Rattle.pool.specs.DequeNotes.{DequeNotes, spent};

    ghost Value = { DequeNotes };

    ghost view = { λ n. spent };
}

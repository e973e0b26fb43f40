//! What a steal answers.
use kernel::Cube;

/// What a steal answers.
#[must_use]
#[derive(Drop)]
pub enum Taken {
    /// The cube that was the front of the deque.
    Got(Cube),

    /// The deque was empty at a moment of the call.
    Empty,

    /// Another hand was quicker, and nothing was taken.
    Again,
}

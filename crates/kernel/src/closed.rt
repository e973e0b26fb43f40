//! The answer of propagation.

/// What propagation ends in: nothing more follows, or a clause is false, which is named by its
/// number, from 1 on.
#[derive(Clone, Copy, Debug, PartialEq, Eq)]
pub enum Closed {
    Quiet,
    Conflict(u64),
}

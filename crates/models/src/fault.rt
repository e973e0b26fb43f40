//! Why the models of a formula weren't all written.

use std::alloc::AllocError;

/// Why the models of a formula weren't all written.
#[derive(Clone, Copy, Debug, PartialEq, Eq)]
pub enum ModelsFault {
    /// A request for memory was refused.
    NoMemory,
    /// A write or a flush failed.
    NotWritten,
}

impl From<AllocError> for ModelsFault {
    fn from(_error: AllocError) -> ModelsFault {
        ModelsFault::NoMemory
    }
}

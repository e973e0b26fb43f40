//! A step of a proof, as it is read.

use crate::fault::Wrong;
use cnf::Lit;
use std::alloc::{AllocError, Global};

/// The greatest variable that a literal has.
const MAX_VARIABLE: u64 = 2_147_483_647;

/// What a byte comes to.
#[derive(Clone, Copy, PartialEq, Eq)]
pub(crate) enum ByteTaken {
    Inside,
    /// It ends the step.
    Ended,
    Fails(Wrong),
}

/// The literals of a step that is read, and what is done with their clause.
#[derive(Drop)]
pub(crate) struct StepRead {
    pub(crate) literals: Vec<Lit>,
    pub(crate) is_deletion: bool,
}

impl StepRead {
    /// An addition without literals.
    pub(crate) fn new(alloc: Global) -> StepRead {
        StepRead {
            literals: Vec::new(alloc),
            is_deletion: false,
        }
    }

    /// Begins the next step.
    pub(crate) fn begin(&mut self, is_deletion: bool) {
        self.literals.clear();
        self.is_deletion = is_deletion;
    }

    /// Takes a number of the step, by its sign and its size: 0 ends it.
    pub(crate) fn take(&mut self, positive: bool, size: u64) -> Result<ByteTaken, AllocError> {
        if size == 0 {
            return Ok(if positive {
                ByteTaken::Ended
            } else {
                ByteTaken::Fails(Wrong::BadNumber)
            });
        }
        if size > MAX_VARIABLE {
            return Ok(ByteTaken::Fails(Wrong::BadNumber));
        }
        self.literals.push(Lit::of(size as u32, positive))?;
        Ok(ByteTaken::Inside)
    }
}

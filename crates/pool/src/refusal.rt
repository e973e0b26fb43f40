//! Why a pool isn't opened.
ghost use Rattle.std.specs.Prelude.{◌≡◌};
ghost use Rattle.pool.specs.Refusals.{refusal_number};

use std::alloc::{AllocError, AllocFailed};
use thiserror::Error;

/// Why a pool isn't opened.
#[derive(Clone, Copy, Debug, PartialEq, Eq, Error)]
pub enum PoolRefusal {
    /// A growth was refused.
    #[error("out of memory")]
    NoMemory,

    /// The table of the shared words was refused, for a cause that it doesn't name.
    #[error("no table for the shared words")]
    NotOpened,
}

impl PoolRefusal {
    /// The refusal's number, 61 or 62.
    pub fn number(&self) -> u32
        ensures { result ≡ refusal_number self.now }
    {
        match self {
            PoolRefusal::NoMemory => 61,
            PoolRefusal::NotOpened => 62,
        }
    }
}

impl From<AllocError> for PoolRefusal {
    ghost use Rattle.pool.specs.declared.refusal.PoolRefusal.TheVariants.{NoMemory};

    ghost from_gives = { λ _ e. e ≡ NoMemory };

    fn from(_error: AllocError) -> PoolRefusal {
        PoolRefusal::NoMemory
    }
}

impl<T: Drop> From<AllocFailed<T>> for PoolRefusal {
    ghost use Rattle.pool.specs.declared.refusal.PoolRefusal.TheVariants.{NoMemory};

    ghost from_gives = { λ _ e. e ≡ NoMemory };

    fn from(_error: AllocFailed<T>) -> PoolRefusal {
        PoolRefusal::NoMemory
    }
}

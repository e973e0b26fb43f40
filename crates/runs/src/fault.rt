//! Why a run came to no verdict.
ghost use Rattle.std.specs.Prelude.{◌≡◌};
ghost use Rattle.runs.specs.Faults.{number_of_fault, fault_of_read};

use cnf::ReadFault;
use thiserror::Error;

/// Why a run came to no verdict.
#[derive(Clone, Copy, Debug, PartialEq, Eq, Error)]
pub enum RunFault {
    /// The formula wasn't read, for a cause other than memory. Nothing is written.
    #[error("the formula wasn't read: {0}")]
    Read(ReadFault),
    /// A growth was refused. Nothing is written, but that the status line of a satisfiable formula
    /// stands where that was while its model was made the first one.
    #[error("out of memory")]
    NoMemory,
    /// A write or flush of the proof failed. A beginning of the proof is written, and no answer.
    #[error("the proof couldn't be written")]
    ProofWriteFailed,
    /// A write or flush of the answer failed. The whole proof is written, and a beginning of the
    /// answer; of a check a beginning of its line, of `tidy` one of the formula.
    #[error("the answer couldn't be written")]
    AnswerWriteFailed,
    /// The proof that is to be checked wasn't read. Nothing is written.
    #[error("the proof couldn't be read")]
    ProofReadFailed,
}

impl RunFault {
    /// The fault's number, 51 to 55 in the order of the variants.
    pub fn number(&self) -> u32
        ensures { result ≡ number_of_fault self.now }
    {
        match self {
            RunFault::Read(_) => 51,
            RunFault::NoMemory => 52,
            RunFault::ProofWriteFailed => 53,
            RunFault::AnswerWriteFailed => 54,
            RunFault::ProofReadFailed => 55,
        }
    }

    /// The fault of a run whose formula wasn't read.
    pub(crate) fn of_read(fault: ReadFault) -> RunFault
        ensures { result ≡ fault_of_read fault }
    {
        match fault {
            ReadFault::NoMemory => RunFault::NoMemory,
            other => RunFault::Read(other),
        }
    }
}

//! Why a text is no proof.
ghost use Rattle.std.specs.Prelude.{◌≡◌};
ghost use Rattle.theory.specs.ProofReading.{line_fault};
ghost use Rattle.lrat_text.specs.Faults.{fault_number, fault_line, text_fault_at};
ghost use Rattle.lrat_text.specs.LineStates.{kind_of, IsFault};

use std::alloc::{AllocError, AllocFailed};
use thiserror::Error;

/// Why a text isn't read as a proof. A line is counted from 1.
#[derive(Clone, Copy, Debug, PartialEq, Eq, Error)]
pub enum TextFault {
    /// A word of this line is no number, or one above the limit of its place.
    #[error("line {0}: no number, or one above its limit")]
    BadNumber(u64),

    /// This line, the last, has no line feed at its end.
    #[error("line {0}: not ended")]
    LineNotEnded(u64),

    /// A number of this line stands where it can't, or the line ends too early.
    #[error("line {0}: not of a step's shape")]
    BadShape(u64),

    /// A growth was refused.
    #[error("out of memory")]
    NoMemory,

    /// The text has more than 4,294,967,296 bytes.
    #[error("the text is too long")]
    TooLong,
}

/// Why a line that is ended is at fault.
#[derive(Clone, Copy)]
pub(crate) enum LineFault {
    BadNumber,
    BadShape,
}

impl LineFault {
    /// The fault of the line of this number.
    pub(crate) fn at(self, number: u64) -> TextFault
        ensures fault { IsFault result (line_fault (kind_of self) number) }
        ensures same { result ≡ text_fault_at (kind_of self) number }
    {
        match self {
            LineFault::BadNumber => TextFault::BadNumber(number),
            LineFault::BadShape => TextFault::BadShape(number),
        }
    }
}

impl TextFault {
    /// The fault's number: 41 to 45, in the order of the variants.
    pub fn number(&self) -> u32
        ensures { result ≡ fault_number self.now }
    {
        match self {
            TextFault::BadNumber(_) => 41,
            TextFault::LineNotEnded(_) => 42,
            TextFault::BadShape(_) => 43,
            TextFault::NoMemory => 44,
            TextFault::TooLong => 45,
        }
    }

    /// The line at fault, from 1 on, where it is one line's.
    pub fn line(&self) -> Option<u64>
        ensures { result ≡ fault_line self.now }
    {
        match self {
            TextFault::BadNumber(line)
            | TextFault::LineNotEnded(line)
            | TextFault::BadShape(line) => Some(*line),
            TextFault::NoMemory | TextFault::TooLong => None,
        }
    }
}

impl From<AllocError> for TextFault {
    ghost use Rattle.lrat_text.specs.declared.fault.TextFault.TheVariants.{NoMemory};

    ghost from_gives = { λ _ e. e ≡ NoMemory };

    fn from(_error: AllocError) -> TextFault {
        TextFault::NoMemory
    }
}

impl<T: Drop> From<AllocFailed<T>> for TextFault {
    ghost use Rattle.lrat_text.specs.declared.fault.TextFault.TheVariants.{NoMemory};

    ghost from_gives = { λ _ e. e ≡ NoMemory };

    fn from(_error: AllocFailed<T>) -> TextFault {
        TextFault::NoMemory
    }
}

//! Places in a text, and why a text was not read as a formula.
ghost use Rattle.std.specs.Prelude.{◌≡◌};
ghost use Rattle.cnf.specs.Faults.{number_of_fault, place_of_fault};

use std::fmt;
use thiserror::Error;

/// Where a byte stands in a text: a line and a column, both from 1. The column counts bytes.
#[derive(Clone, Copy, Debug, PartialEq, Eq, Hash)]
pub struct Place {
    pub line: u64,
    pub column: u64,
}

impl fmt::Display for Place {
    fn fmt<W: fmt::Write>(&self, f: &mut fmt::Formatter<W>) -> fmt::Result {
        let line = self.line;
        let column = self.column;
        write!(f, "line {line}, column {column}")
    }
}

/// Why a text was not read as a formula, and where: the first token that no formula's text has
/// there, or the end.
#[derive(Clone, Copy, Debug, PartialEq, Eq, Error)]
pub enum ReadFault {
    /// The first token outside comments isn't `p`, or there is none.
    #[error("no header at {0}")]
    NoHeader(Place),
    /// A word of the header is wrong, missing or a fifth. A missing one is at the header line's
    /// end.
    #[error("wrong header at {0}")]
    BadHeader(Place),
    /// A token `p` behind the header.
    #[error("second header at {0}")]
    SecondHeader(Place),
    /// A token that isn't a number: `0`, or an optional `-` and digits without a leading zero.
    #[error("no number at {0}")]
    BadNumber(Place),
    /// A literal whose variable is above the header's number of variables.
    #[error("variable out of range at {0}")]
    VariableOutOfRange(Place),
    /// A number behind as many clauses as the header says.
    #[error("more clauses than the header says at {0}")]
    TooManyClauses(Place),
    /// The text ends with fewer clauses than the header says, and none begun.
    #[error("fewer clauses than the header says at {0}")]
    TooFewClauses(Place),
    /// The text ends inside a clause.
    #[error("clause not ended at {0}")]
    ClauseNotEnded(Place),
    /// A number of variables, clauses or literals above its limit, or a text that is too long (at
    /// line 1, column 1).
    #[error("over a limit at {0}")]
    OverLimit(Place),
    /// The reader answered an error.
    #[error("the text could not be read")]
    ReadFailed,
    /// A growth was refused.
    #[error("out of memory")]
    NoMemory,
}

impl ReadFault {
    /// The fault's number, 1 to 11 in the order of the variants.
    pub fn number(&self) -> u32
        ensures { result ≡ number_of_fault self.now }
    {
        match self {
            ReadFault::NoHeader(_) => 1,
            ReadFault::BadHeader(_) => 2,
            ReadFault::SecondHeader(_) => 3,
            ReadFault::BadNumber(_) => 4,
            ReadFault::VariableOutOfRange(_) => 5,
            ReadFault::TooManyClauses(_) => 6,
            ReadFault::TooFewClauses(_) => 7,
            ReadFault::ClauseNotEnded(_) => 8,
            ReadFault::OverLimit(_) => 9,
            ReadFault::ReadFailed => 10,
            ReadFault::NoMemory => 11,
        }
    }

    /// Where the fault is. `ReadFailed` and `NoMemory` have no place.
    pub fn place(&self) -> Option<Place>
        ensures { result ≡ place_of_fault self.now }
    {
        match self {
            ReadFault::NoHeader(place)
            | ReadFault::BadHeader(place)
            | ReadFault::SecondHeader(place)
            | ReadFault::BadNumber(place)
            | ReadFault::VariableOutOfRange(place)
            | ReadFault::TooManyClauses(place)
            | ReadFault::TooFewClauses(place)
            | ReadFault::ClauseNotEnded(place)
            | ReadFault::OverLimit(place) => Some(*place),
            ReadFault::ReadFailed | ReadFault::NoMemory => None,
        }
    }
}

//! What is wrong with a proof in DRAT, and where.

/// What is wrong with a proof.
#[derive(Clone, Copy, Debug, PartialEq, Eq)]
pub enum Wrong {
    /// An added clause follows neither by propagation nor by resolution on its first literal.
    NotImplied,

    /// A clause has a variable that no clause of the proof may have.
    OutOfRange,

    /// A word is no number, or a number is above its limit; a step in binary begins with another
    /// byte than `a` or `d`.
    BadNumber,

    /// The proof ends inside a step.
    NotEnded,
}

/// Where a proof is at fault, from 1 on.
#[derive(Clone, Copy, Debug, PartialEq, Eq)]
pub enum FaultPlace {
    /// The line of a text.
    Line(u64),

    /// The byte of a proof in binary.
    Byte(u64),
}

/// The first fault of a proof: the step at fault begins there, or what can't be read stands there.
#[derive(Clone, Copy, Debug, PartialEq, Eq)]
pub struct DratFault {
    pub wrong: Wrong,
    pub place: FaultPlace,
}

impl Wrong {
    /// The number of the fault, as `explain` knows it.
    pub fn number(self) -> u32 {
        match self {
            Wrong::OutOfRange => 31,
            Wrong::NotImplied => 33,
            Wrong::BadNumber => 41,
            Wrong::NotEnded => 42,
        }
    }
}

//! Which form a proof has, and where a binary one is broken.

/// The form of a proof that is read.
#[derive(Clone, Copy, Debug, PartialEq, Eq)]
pub enum Form {
    /// A text, of which each line is a step.
    Text,

    /// Steps in binary.
    Binary,
}

/// What is wrong with a binary proof that can't be read on.
#[derive(Clone, Copy, Debug, PartialEq, Eq)]
pub enum BrokenBy {
    /// A step begins with another byte than `a` or `d`.
    StepByte,

    /// A number is too large for any literal or clause.
    Number,

    /// It ends inside a step.
    End,
}

/// Where a binary proof can't be read on. The text that it is read as ends there, in a word that
/// no proof has.
#[derive(Clone, Copy, Debug, PartialEq, Eq)]
pub struct Broken {
    pub by: BrokenBy,

    /// The byte at fault, from 1 on; where the proof ends too early, the number of its bytes.
    pub byte: u64,

    /// The number of the step that it stands in, from 1 on.
    pub step: u64,
}

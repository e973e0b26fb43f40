//! What a run comes to, and how it ends.

/// Whether the formula is satisfiable.
#[derive(Clone, Copy, Debug, PartialEq, Eq)]
pub enum Verdict {
    Satisfiable,
    Unsatisfiable,
}

/// How a run with a limit ends that meets no fault.
#[derive(Clone, Copy, Debug, PartialEq, Eq)]
pub enum RunEnd {
    /// The formula is decided, and proof and answer are written.
    Decided(Verdict),
    /// The limit is reached before a model was the first one: the answer has the model at hand, and
    /// says so.
    NotFirst,
    /// The limit is reached before the formula is decided: the answer is `s UNKNOWN`.
    Unknown,
}

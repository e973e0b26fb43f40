//! What is passed over of a proof.

/// Deletions that were passed over.
#[derive(Clone, Copy, Debug, Default, PartialEq, Eq)]
pub struct Passed {
    /// Of clauses that are why a literal is true for good.
    pub of_units: u64,
    /// Of clauses that aren't there.
    pub of_missing: u64,
}

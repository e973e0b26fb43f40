//! Which unit clause propagation takes first.

/// The order in which propagation takes unit clauses.
#[derive(Clone, Copy, Debug, PartialEq, Eq)]
pub enum Order {
    /// The one of least number first.
    ByNumber,
    /// The one first whose last false literal stands first on the trail, and of several the one of
    /// least number.
    ByPlace,
}

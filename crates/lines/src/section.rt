//! The three lists that a line consists of.

/// The list of a line in which a number stands.
#[derive(Clone, Copy, PartialEq, Eq)]
pub(crate) enum Section {
    /// The literals of its clause.
    Literals,
    /// Its hints.
    Hints,
    /// The clauses that are forgotten behind it.
    Forgotten,
}

//! What a text of questions has in its lines.

/// What has ended with the byte that was taken last.
#[derive(Clone, Copy, Debug, PartialEq, Eq)]
pub enum Item {
    /// A clause: `LITERALS 0`.
    Clause,
    /// A question under assumptions: `a LITERALS 0`.
    Question,
    /// A limit of so many seconds for the next question: `t SECONDS`.
    Limit(u32),
}

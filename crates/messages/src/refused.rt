//! A proof's refusal.

/// Why a proof is refused, and where.
#[derive(Clone, Copy, Debug, PartialEq, Eq)]
pub struct Refused {
    /// The number of what is wrong, 21 to 45.
    pub number: u32,
    /// The line at fault, from 1 on, where it is one. Each line of a proof that is read is a step,
    /// so that this is a step's number too.
    pub line: Option<u64>,
    /// The number of the clause that the step names wrongly, where it is known: none is there under
    /// it, or it is neither false nor unit.
    pub named: Option<u64>,
}

//! What is passed over in a text.

/// How many variables and clauses a header counts, or a text has.
#[derive(Clone, Copy, Debug, PartialEq, Eq)]
pub struct Counts {
    pub vars: u64,
    pub clauses: u64,
}

impl Counts {
    pub(crate) fn none() -> Counts {
        Counts {
            vars: 0,
            clauses: 0,
        }
    }
}

/// What is wrong with the header of a text.
#[derive(Clone, Copy, Debug, PartialEq, Eq)]
pub enum PassedHeader {
    /// Nothing, or nothing that is passed over.
    Kept,
    /// It has other counts than the text.
    Corrected { header: Counts, text: Counts },
    /// There is none. A line with the counts of the text is put before the text.
    Added(Counts),
}

/// What is passed over in a text.
#[derive(Clone, Copy, Debug, PartialEq, Eq)]
pub struct PassedOver {
    pub header: PassedHeader,
    /// How many numbers aren't in plain digits.
    pub numbers: u64,
    /// How many comments don't begin a line.
    pub comments: u64,
    /// The line of the `%` at which the text is taken to end.
    pub end: Option<u64>,
}

impl PassedOver {
    /// Nothing is passed over.
    pub fn nothing() -> PassedOver {
        PassedOver {
            header: PassedHeader::Kept,
            numbers: 0,
            comments: 0,
            end: None,
        }
    }

    /// How many lines the strict text has before those of the text.
    pub fn added_lines(&self) -> u64 {
        match self.header {
            PassedHeader::Added(_) => 1,
            PassedHeader::Kept | PassedHeader::Corrected { .. } => 0,
        }
    }
}

//! The text of the proof in LRAT that is made.

use cnf::Lit;
use itoa::Buffer;
use std::alloc::{AllocError, Global};

/// A number of a line, behind its clause.
#[derive(Clone, Copy)]
pub(crate) enum NewHint {
    Clause(u64),
    /// A candidate, whose own hints come next.
    Candidate(u64),
}

/// Lines that nobody read yet.
#[derive(Drop)]
pub(crate) struct MadeLines {
    text: Vec<u8>,
    // the number that was given to a clause last
    last: u64,
}

impl MadeLines {
    /// No lines of the proof of a formula with so many clauses.
    pub(crate) fn new(alloc: Global, clauses: u64) -> MadeLines {
        MadeLines {
            text: Vec::new(alloc),
            last: clauses,
        }
    }

    pub(crate) fn text(&self) -> &[u8] {
        &self.text
    }

    /// Lets the text go.
    pub(crate) fn clear(&mut self) {
        self.text.clear();
    }

    fn number(&mut self, number: u64) -> Result<(), AllocError> {
        let mut buffer = Buffer::new();
        self.text
            .extend_from_slice(buffer.format(number).as_bytes())?;
        self.text.push(b' ')?;
        Ok(())
    }

    fn literal(&mut self, lit: Lit) -> Result<(), AllocError> {
        if !lit.positive() {
            self.text.push(b'-')?;
        }
        self.number(u64::from(lit.var()))
    }

    fn hint(&mut self, hint: NewHint) -> Result<(), AllocError> {
        match hint {
            NewHint::Clause(number) => self.number(number),
            NewHint::Candidate(number) => {
                self.text.push(b'-')?;
                self.number(number)
            }
        }
    }

    /// Adds a clause with its hints, and answers the number that it gets.
    pub(crate) fn add(&mut self, clause: &[Lit], hints: &[NewHint]) -> Result<u64, AllocError> {
        let number = self.last.saturating_add(1);
        self.last = number;
        self.number(number)?;
        for lit in clause {
            self.literal(*lit)?;
        }
        self.text.extend_from_slice(b"0 ")?;
        for hint in hints {
            self.hint(*hint)?;
        }
        self.text.extend_from_slice(b"0\n")?;
        Ok(number)
    }

    /// Takes the clause of a number away.
    pub(crate) fn delete(&mut self, number: u64) -> Result<(), AllocError> {
        self.number(self.last)?;
        self.text.extend_from_slice(b"d ")?;
        self.number(number)?;
        self.text.extend_from_slice(b"0\n")
    }
}

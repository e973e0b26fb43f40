//! Marks on literals, all of which are taken off at once.

use crate::cells::{at, put};
use cnf::Lit;
use std::alloc::{AllocError, Global};

/// Marks on literals. None lasts longer than until the next `clear`.
#[derive(Drop)]
pub(crate) struct LiteralMarks {
    // by literal: the round in which it was marked last
    rounds: Vec<u64>,
    round: u64,
}

impl LiteralMarks {
    /// No marks.
    pub(crate) fn new(alloc: Global) -> LiteralMarks {
        LiteralMarks {
            rounds: Vec::new(alloc),
            round: 1,
        }
    }

    /// Makes room for so many places by literal.
    pub(crate) fn widen(&mut self, codes: usize) -> Result<(), AllocError> {
        self.rounds.resize(codes, 0)
    }

    /// Takes all marks off.
    pub(crate) fn clear(&mut self) {
        self.round = self.round.wrapping_add(1); // 2^64 rounds take centuries
    }

    pub(crate) fn mark(&mut self, lit: Lit) {
        put(&mut self.rounds, lit.code(), self.round);
    }

    #[inline]
    pub(crate) fn has(&self, lit: Lit) -> bool {
        at(&self.rounds, lit.code(), 0) == self.round
    }

    /// Whether the literal or its negation is marked.
    #[inline]
    pub(crate) fn has_variable(&self, lit: Lit) -> bool {
        self.has(lit) || self.has(lit.negated())
    }
}

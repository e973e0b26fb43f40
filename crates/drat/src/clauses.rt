//! The clauses of a formula and of its proof: their literals lie one behind the other in one list.

use cnf::Lit;
use std::alloc::{AllocError, Global};

/// The place of no clause, and what ends a chain of places.
pub(crate) const NOWHERE: usize = usize::MAX;

/// A clause's number in the proof that is made, where its literals stand, and whether it is there.
#[derive(Clone, Copy)]
struct ClauseHead {
    number: u64,
    start: usize,
    end: usize,
    is_there: bool,
}

/// Clauses without repeated literals, by their places from 0 on. It takes memory by the literals of
/// all that were ever put there.
#[derive(Drop)]
pub(crate) struct ProofClauses {
    heads: Vec<ClauseHead>,
    lits: Vec<Lit>,
}

impl ProofClauses {
    /// No clauses.
    pub(crate) fn new(alloc: Global) -> ProofClauses {
        ProofClauses {
            heads: Vec::new(alloc),
            lits: Vec::new(alloc),
        }
    }

    /// How many clauses were put there.
    pub(crate) fn len(&self) -> usize {
        self.heads.len()
    }

    /// The literals of the clause at a place; none where there is no clause.
    #[inline]
    pub(crate) fn literals(&self, clause: usize) -> &[Lit] {
        match self.heads.get(clause) {
            Some(head) => self.lits.get(head.start..head.end).unwrap_or(&[]),
            None => &[],
        }
    }

    /// The number of the clause at a place.
    pub(crate) fn number(&self, clause: usize) -> u64 {
        match self.heads.get(clause) {
            Some(head) => head.number,
            None => 0,
        }
    }

    /// Whether the clause at a place is there.
    #[inline]
    pub(crate) fn is_there(&self, clause: usize) -> bool {
        match self.heads.get(clause) {
            Some(head) => head.is_there,
            None => false,
        }
    }

    /// Puts a clause behind the others, and answers its place.
    pub(crate) fn push(&mut self, number: u64, clause: &[Lit]) -> Result<usize, AllocError> {
        let place = self.heads.len();
        let start = self.lits.len();
        self.lits.extend_from_slice(clause)?;
        let end = self.lits.len();
        self.heads.push(ClauseHead {
            number,
            start,
            end,
            is_there: true,
        })?;
        Ok(place)
    }

    /// Takes the clause at a place away.
    pub(crate) fn remove(&mut self, clause: usize) {
        if let Some(head) = self.heads.get_mut(clause) {
            head.is_there = false;
        }
    }

    /// Swaps two literals of the clause at a place, by their places in it.
    pub(crate) fn swap(&mut self, clause: usize, one: usize, other: usize) {
        let Some(head) = self.heads.get(clause).copied() else {
            return;
        };
        let Some(lits) = self.lits.as_mut_slice().get_mut(head.start..head.end) else {
            return;
        };
        if one < lits.len() && other < lits.len() {
            lits.swap(one, other);
        }
    }
}

//! Which clauses watch a literal: chains through one table, so that a move takes no memory.

use crate::cells::{at, put};
use crate::clauses::NOWHERE;
use cnf::Lit;
use std::alloc::{AllocError, Global};

/// A chain of watches for each literal. A clause watches its first two literals, which are its
/// sides 0 and 1; a watch is twice the clause's place, and one more for side 1.
#[derive(Drop)]
pub(crate) struct Watches {
    // by literal
    firsts: Vec<usize>,
    // by watch
    nexts: Vec<usize>,
}

/// The watch of a clause's side.
#[inline]
pub(crate) fn watch_of(clause: usize, side: usize) -> usize {
    // clauses and their sides are in memory, so that nothing wraps
    clause.wrapping_mul(2).wrapping_add(side)
}

impl Watches {
    /// No watches.
    pub(crate) fn new(alloc: Global) -> Watches {
        Watches {
            firsts: Vec::new(alloc),
            nexts: Vec::new(alloc),
        }
    }

    /// Makes room for so many places by literal.
    pub(crate) fn widen(&mut self, codes: usize) -> Result<(), AllocError> {
        self.firsts.resize(codes, NOWHERE)
    }

    /// Makes room for the next clause, which watches nothing yet.
    pub(crate) fn push(&mut self) -> Result<(), AllocError> {
        self.nexts.push(NOWHERE)?;
        self.nexts.push(NOWHERE)?;
        Ok(())
    }

    /// The first watch of a literal, or nowhere.
    #[inline]
    pub(crate) fn first(&self, lit: Lit) -> usize {
        at(&self.firsts, lit.code(), NOWHERE)
    }

    /// The watch behind this one, or nowhere.
    #[inline]
    pub(crate) fn next(&self, watch: usize) -> usize {
        at(&self.nexts, watch, NOWHERE)
    }

    /// Puts a watch before the others of a literal.
    pub(crate) fn watch(&mut self, lit: Lit, watch: usize) {
        let first = self.first(lit);
        put(&mut self.nexts, watch, first);
        put(&mut self.firsts, lit.code(), watch);
    }

    /// Takes a watch out of a literal's chain, where it stands behind `before`, or first where that
    /// is nowhere.
    pub(crate) fn unwatch(&mut self, lit: Lit, before: usize, watch: usize) {
        let next = self.next(watch);
        if before == NOWHERE {
            put(&mut self.firsts, lit.code(), next);
        } else {
            put(&mut self.nexts, before, next);
        }
    }
}

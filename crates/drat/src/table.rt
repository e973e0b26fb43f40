//! Clauses by their literals, in whatever order these stand.

use crate::cells::{at, put};
use crate::clauses::NOWHERE;
use cnf::Lit;
use std::alloc::{AllocError, Global};

/// How many chains there are at first.
const FIRST: usize = 1024;

/// A multiplier with bits of all kinds: 2 to the power of 64 over the golden ratio.
const MULTIPLIER: u64 = 0x9E37_79B9_7F4A_7C15;

/// Chains of clauses whose hashes end alike.
#[derive(Drop)]
pub(crate) struct Table {
    alloc: Global,
    firsts: Vec<usize>,
    // by clause
    nexts: Vec<usize>,
    hashes: Vec<u64>,
}

/// A number by a clause's literals, which is the same in each order.
pub(crate) fn hash_of(clause: &[Lit]) -> u64 {
    let mut hash = 0u64;
    for lit in clause {
        let mixed = (lit.code() as u64).wrapping_mul(MULTIPLIER);
        hash = hash.wrapping_add((mixed ^ (mixed >> 29)).wrapping_mul(MULTIPLIER));
    }
    hash
}

/// The chain of a hash among so many.
fn chain_of(hash: u64, count: usize) -> usize {
    if count == 0 {
        return 0;
    }
    let mixed = hash ^ (hash >> 32);
    (mixed % count as u64) as usize
}

impl Table {
    /// No clauses.
    pub(crate) fn new(alloc: Global) -> Result<Table, AllocError> {
        Ok(Table {
            alloc,
            firsts: vec![in alloc; NOWHERE; FIRST]?,
            nexts: Vec::new(alloc),
            hashes: Vec::new(alloc),
        })
    }

    /// Puts the clause at a place before the others of its chain.
    fn link(&mut self, clause: usize) {
        let chain = chain_of(at(&self.hashes, clause, 0), self.firsts.len());
        let first = at(&self.firsts, chain, NOWHERE);
        put(&mut self.nexts, clause, first);
        put(&mut self.firsts, chain, clause);
    }

    /// Twice as many chains, and all clauses anew.
    fn grow(&mut self) -> Result<(), AllocError> {
        let count = self.firsts.len().saturating_mul(2);
        self.firsts = vec![in self.alloc; NOWHERE; count]?;
        for clause in 0..self.hashes.len() {
            self.link(clause);
        }
        Ok(())
    }

    /// Puts the next clause, which has this hash. Where that asks for more chains, clauses that were
    /// taken away come back too, and look-ups pass over them.
    pub(crate) fn push(&mut self, hash: u64) -> Result<(), AllocError> {
        let clause = self.hashes.len();
        self.hashes.push(hash)?;
        self.nexts.push(NOWHERE)?;
        self.link(clause);
        if clause > self.firsts.len() {
            self.grow()?;
        }
        Ok(())
    }

    /// The first clause in the chain of a hash, or nowhere.
    pub(crate) fn first(&self, hash: u64) -> usize {
        at(&self.firsts, chain_of(hash, self.firsts.len()), NOWHERE)
    }

    /// The clause behind this one in its chain, or nowhere.
    pub(crate) fn next(&self, clause: usize) -> usize {
        at(&self.nexts, clause, NOWHERE)
    }

    /// Whether a clause has this hash.
    pub(crate) fn has_hash(&self, clause: usize, hash: u64) -> bool {
        at(&self.hashes, clause, 0) == hash
    }

    /// Takes the clause behind `before` out of the chain of a hash; where that is nowhere, the first.
    pub(crate) fn unlink(&mut self, hash: u64, before: usize, clause: usize) {
        let next = self.next(clause);
        if before == NOWHERE {
            let chain = chain_of(hash, self.firsts.len());
            put(&mut self.firsts, chain, next);
        } else {
            put(&mut self.nexts, before, next);
        }
    }
}

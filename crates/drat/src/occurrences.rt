//! Which clauses have a literal: the candidates of RAT steps.

use crate::cells::{at, put};
use crate::clauses::{NOWHERE, ProofClauses};
use cnf::Lit;
use std::alloc::{AllocError, Global};

/// A clause that has a literal, and the next one in that literal's chain.
#[derive(Clone, Copy)]
struct OccurrenceNode {
    clause: usize,
    next: usize,
}

/// A chain of clauses for each literal. Clauses are entered once a step asks for candidates, so that
/// a proof without RAT steps pays nothing.
#[derive(Drop)]
pub(crate) struct ClausesByLiteral {
    // by literal
    firsts: Vec<usize>,
    nodes: Vec<OccurrenceNode>,
    entered: usize,
}

impl ClausesByLiteral {
    /// No clauses.
    pub(crate) fn new(alloc: Global) -> ClausesByLiteral {
        ClausesByLiteral {
            firsts: Vec::new(alloc),
            nodes: Vec::new(alloc),
            entered: 0,
        }
    }

    /// Makes room for so many places by literal.
    pub(crate) fn widen(&mut self, codes: usize) -> Result<(), AllocError> {
        self.firsts.resize(codes, NOWHERE)
    }

    /// Enters a clause under each of its literals.
    fn enter(&mut self, clause: usize, literals: &[Lit]) -> Result<(), AllocError> {
        for lit in literals {
            let node = self.nodes.len();
            self.nodes.push(OccurrenceNode {
                clause,
                next: at(&self.firsts, lit.code(), NOWHERE),
            })?;
            put(&mut self.firsts, lit.code(), node);
        }
        Ok(())
    }

    /// Enters the clauses that came since the last call.
    pub(crate) fn enter_new(&mut self, clauses: &ProofClauses) -> Result<(), AllocError> {
        for clause in self.entered..clauses.len() {
            if clauses.is_there(clause) {
                self.enter(clause, clauses.literals(clause))?;
            }
        }
        self.entered = clauses.len();
        Ok(())
    }

    /// The node behind this one.
    fn next(&self, node: usize) -> usize {
        match self.nodes.get(node) {
            Some(node) => node.next,
            None => NOWHERE,
        }
    }

    /// Takes the node behind `before` out of a literal's chain; where that is nowhere, the first.
    fn unlink(&mut self, lit: Lit, before: usize, node: usize) {
        let next = self.next(node);
        if before == NOWHERE {
            put(&mut self.firsts, lit.code(), next);
        } else if let Some(before) = self.nodes.get_mut(before) {
            before.next = next;
        }
    }

    /// Puts the clauses that have a literal and are there at the end of a list. Those that are gone
    /// leave the literal's chain.
    pub(crate) fn append(
        &mut self,
        lit: Lit,
        clauses: &ProofClauses,
        found: &mut Vec<usize>,
    ) -> Result<(), AllocError> {
        let mut before = NOWHERE;
        let mut node = at(&self.firsts, lit.code(), NOWHERE);
        for _ in 0..self.nodes.len() {
            let Some(entry) = self.nodes.get(node).copied() else {
                break;
            };
            if clauses.is_there(entry.clause) {
                found.push(entry.clause)?;
                before = node;
            } else {
                self.unlink(lit, before, node);
            }
            node = entry.next;
        }
        Ok(())
    }
}

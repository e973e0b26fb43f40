//! Propagation over two watched literals.

use crate::assignment::Assignment;
use crate::clauses::{NOWHERE, ProofClauses};
use crate::watches::{Watches, watch_of};
use cnf::Lit;
use std::alloc::{AllocError, Global};

/// Clauses and what is true by them.
#[derive(Drop)]
pub(crate) struct Propagation {
    pub(crate) clauses: ProofClauses,
    pub(crate) assignment: Assignment,
    watches: Watches,
}

/// What becomes of a watch whose literal is false.
#[derive(Clone, Copy)]
enum Visit {
    /// The clause is true.
    Stays,
    /// The clause is gone, or was never there.
    Ends,
    /// Another literal of the clause takes its place.
    Moves(Lit),
    /// All other literals of the clause are false.
    Implies(Lit),
    Conflicts,
}

/// What a clause comes to that was put to the others.
#[derive(Clone, Copy)]
pub(crate) struct Kept {
    pub(crate) clause: usize,
    pub(crate) is_false: bool,
}

impl Propagation {
    /// No clauses, over no variables.
    pub(crate) fn new(alloc: Global) -> Propagation {
        Propagation {
            clauses: ProofClauses::new(alloc),
            assignment: Assignment::new(alloc),
            watches: Watches::new(alloc),
        }
    }

    /// Makes room for so many variables, and so many places by literal.
    pub(crate) fn widen(&mut self, vars: usize, codes: usize) -> Result<(), AllocError> {
        self.assignment.widen(vars, codes)?;
        self.watches.widen(codes)
    }

    /// Looks at a clause whose watched literal on this side became false. A literal that isn't false
    /// takes that place, where there is one.
    fn visit(&mut self, clause: usize, side: usize) -> Visit {
        if !self.clauses.is_there(clause) {
            return Visit::Ends;
        }
        let lits = self.clauses.literals(clause);
        let other_side = if side == 0 { 1 } else { 0 };
        let Some(other) = lits.get(other_side).copied() else {
            return Visit::Ends;
        };
        if self.assignment.is_true(other) {
            return Visit::Stays;
        }
        for place in 2..lits.len() {
            let lit = lits[place];
            if !self.assignment.is_false(lit) {
                self.clauses.swap(clause, side, place);
                return Visit::Moves(lit);
            }
        }
        if self.assignment.is_false(other) {
            Visit::Conflicts
        } else {
            Visit::Implies(other)
        }
    }

    /// Looks at the clauses that watch a literal that became false; one that is false is a conflict.
    fn visit_all(&mut self, lit: Lit) -> Result<Option<usize>, AllocError> {
        let mut before = NOWHERE;
        let mut watch = self.watches.first(lit);
        for _ in 0..u64::MAX {
            if watch == NOWHERE {
                break;
            }
            let next = self.watches.next(watch);
            let clause = watch / 2;
            match self.visit(clause, watch % 2) {
                Visit::Stays => before = watch,
                Visit::Ends => self.watches.unwatch(lit, before, watch),
                Visit::Moves(other) => {
                    self.watches.unwatch(lit, before, watch);
                    self.watches.watch(other, watch);
                }
                Visit::Implies(other) => {
                    self.assignment.assign(other, clause)?;
                    before = watch;
                }
                Visit::Conflicts => return Ok(Some(clause)),
            }
            watch = next;
        }
        Ok(None)
    }

    /// Makes true what clauses imply, until one is false, which is the answer, or nothing is left.
    pub(crate) fn propagate(&mut self) -> Result<Option<usize>, AllocError> {
        for _ in 0..u64::MAX {
            let Some(lit) = self.assignment.next() else {
                break;
            };
            let conflict = self.visit_all(lit.negated())?;
            if conflict.is_some() {
                return Ok(conflict);
            }
        }
        Ok(None)
    }

    /// Brings literals of a clause that aren't false to its front, two at most; how many these are.
    fn bring_open(&mut self, clause: usize) -> usize {
        let mut open = 0usize;
        for place in 0..self.clauses.literals(clause).len() {
            let Some(lit) = self.clauses.literals(clause).get(place).copied() else {
                break;
            };
            if open < 2 && !self.assignment.is_false(lit) {
                self.clauses.swap(clause, open, place);
                open += 1;
            }
        }
        open
    }

    /// Watches a clause's first two literals, if it has so many.
    fn watch(&mut self, clause: usize) -> Result<(), AllocError> {
        self.watches.push()?;
        let lits = self.clauses.literals(clause);
        if lits.len() >= 2 {
            self.watches.watch(lits[0], watch_of(clause, 0));
            self.watches.watch(lits[1], watch_of(clause, 1));
        }
        Ok(())
    }

    /// Puts a clause behind the others, where nothing is assumed. Its literal is true from then on
    /// where all others are false.
    pub(crate) fn keep(&mut self, number: u64, clause: &[Lit]) -> Result<Kept, AllocError> {
        let place = self.clauses.push(number, clause)?;
        let open = self.bring_open(place);
        self.watch(place)?;
        if open == 1 {
            if let Some(lit) = self.clauses.literals(place).first().copied() {
                if !self.assignment.is_true(lit) {
                    self.assignment.assign(lit, place)?;
                }
            }
        }
        Ok(Kept {
            clause: place,
            is_false: open == 0,
        })
    }

    /// Whether a clause is why one of its literals is true.
    pub(crate) fn is_reason(&self, clause: usize) -> bool {
        self.clauses.literals(clause).iter().any(|lit| self.assignment.is_true(*lit)
            && self.assignment.reason(*lit) == clause)
    }
}

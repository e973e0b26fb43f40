//! What is true while hints are found: units for good, and above them what a step assumes.

use crate::cells::{at, put};
use crate::clauses::NOWHERE;
use cnf::Lit;
use std::alloc::{AllocError, Global};

/// Literals that are true, in the order in which they became so, with why.
#[derive(Drop)]
pub(crate) struct Assignment {
    // by literal
    truths: Vec<bool>,
    // by variable: the clause that made it true or false; nowhere: it was assumed
    reasons: Vec<usize>,
    // by variable: the number of the unit clause of its literal that is true for good; 0: none
    units: Vec<u64>,
    trail: Vec<Lit>,
    propagated: usize,
}

impl Assignment {
    /// Nothing is true, and there are no variables.
    pub(crate) fn new(alloc: Global) -> Assignment {
        Assignment {
            truths: Vec::new(alloc),
            reasons: Vec::new(alloc),
            units: Vec::new(alloc),
            trail: Vec::new(alloc),
            propagated: 0,
        }
    }

    /// Makes room for so many variables, and so many places by literal.
    pub(crate) fn widen(&mut self, vars: usize, codes: usize) -> Result<(), AllocError> {
        self.truths.resize(codes, false)?;
        self.reasons.resize(vars, NOWHERE)?;
        self.units.resize(vars, 0)
    }

    #[inline]
    pub(crate) fn is_true(&self, lit: Lit) -> bool {
        at(&self.truths, lit.code(), false)
    }

    #[inline]
    pub(crate) fn is_false(&self, lit: Lit) -> bool {
        at(&self.truths, lit.negated().code(), false)
    }

    /// The clause that made a literal's variable true or false, or nowhere.
    pub(crate) fn reason(&self, lit: Lit) -> usize {
        at(&self.reasons, lit.var() as usize, NOWHERE)
    }

    /// The number of the unit clause for a literal's variable, or 0.
    pub(crate) fn unit(&self, lit: Lit) -> u64 {
        at(&self.units, lit.var() as usize, 0)
    }

    /// Keeps that the clause of this number has nothing but the literal.
    pub(crate) fn set_unit(&mut self, lit: Lit, number: u64) {
        put(&mut self.units, lit.var() as usize, number);
    }

    /// How many literals are true.
    pub(crate) fn len(&self) -> usize {
        self.trail.len()
    }

    /// The literal that became true at a place in the order, from 0 on.
    pub(crate) fn literal(&self, place: usize) -> Option<Lit> {
        self.trail.get(place).copied()
    }

    /// Makes a literal true, by this clause, or by nowhere where it is assumed.
    pub(crate) fn assign(&mut self, lit: Lit, reason: usize) -> Result<(), AllocError> {
        self.trail.push(lit)?;
        put(&mut self.truths, lit.code(), true);
        put(&mut self.reasons, lit.var() as usize, reason);
        Ok(())
    }

    /// The next literal whose consequences aren't drawn; they count as drawn from then on.
    #[inline]
    pub(crate) fn next(&mut self) -> Option<Lit> {
        let lit = self.trail.get(self.propagated).copied()?;
        self.propagated = self.propagated.saturating_add(1);
        Some(lit)
    }

    /// Takes the latest literals back, until `count` are left, whose consequences are drawn.
    pub(crate) fn go_back(&mut self, count: usize) {
        for _ in count..self.trail.len() {
            if let Some(lit) = self.trail.pop() {
                put(&mut self.truths, lit.code(), false);
                put(&mut self.reasons, lit.var() as usize, NOWHERE);
            }
        }
        self.propagated = count;
    }
}

//! The finder of hints: the clauses of a formula and of its proof, step by step.

use crate::clauses::NOWHERE;
use crate::distinct::{greatest_variable, take_distinct};
use crate::lines::{MadeLines, NewHint};
use crate::marks::LiteralMarks;
use crate::occurrences::ClausesByLiteral;
use crate::passed::Passed;
use crate::propagation::{Kept, Propagation};
use crate::table::{Table, hash_of};
use crate::units::{derive_units, refute};
use cnf::{Formula, Lit};
use std::alloc::{AllocError, Global};
use std::mem;

/// What comes of a step's clause under what it assumes.
#[derive(Clone, Copy)]
enum Clash {
    /// None of its assumptions fails, nor what follows from them.
    Open,
    /// A literal is true for good, by the unit clause of this number.
    Unit(u64),
    /// The clause at this place is false.
    Clause(usize),
}

/// The clauses that are there, what is true by them, and the lines of the proof that is made.
#[derive(Drop)]
pub(crate) struct Finder {
    alloc: Global,
    vars: u32,
    propagation: Propagation,
    occurrences: ClausesByLiteral,
    table: Table,
    lines: MadeLines,
    // literals of the step's clause, of the candidate's, and those that an explanation has come to
    of_clause: LiteralMarks,
    of_candidate: LiteralMarks,
    seen: LiteralMarks,
    // the numbers behind the clause of the line that is made
    hints: Vec<NewHint>,
    // how many literals are true for good
    base: usize,
    is_refuted: bool,
    passed: Passed,
}

impl Finder {
    /// The finder for a formula's proof. It takes memory and time by the formula's literals.
    pub(crate) fn new(alloc: Global, formula: &Formula) -> Result<Finder, AllocError> {
        let mut finder = Finder {
            alloc,
            vars: 0,
            propagation: Propagation::new(alloc),
            occurrences: ClausesByLiteral::new(alloc),
            table: Table::new(alloc)?,
            lines: MadeLines::new(alloc, formula.clause_count() as u64),
            of_clause: LiteralMarks::new(alloc),
            of_candidate: LiteralMarks::new(alloc),
            seen: LiteralMarks::new(alloc),
            hints: Vec::new(alloc),
            base: 0,
            is_refuted: false,
            passed: Passed::default(),
        };
        finder.widen(formula.vars())?;
        finder.load(formula)?;
        Ok(finder)
    }

    /// Puts a formula's clauses, as long as they aren't refuted by propagation. A clause that has
    /// both signs of a variable is left out.
    fn load(&mut self, formula: &Formula) -> Result<(), AllocError> {
        let mut distinct = Vec::new(self.alloc);
        for place in 0..formula.clause_count() {
            if self.is_refuted {
                break;
            }
            if take_distinct(&mut self.of_clause, formula.clause(place), &mut distinct)? {
                self.keep((place as u64).saturating_add(1), &distinct)?;
            }
        }
        Ok(())
    }

    /// Makes room for so many variables.
    fn widen(&mut self, vars: u32) -> Result<(), AllocError> {
        let count = (vars as usize).saturating_add(1);
        let codes = count.saturating_mul(2);
        self.vars = vars;
        self.propagation.widen(count, codes)?;
        self.occurrences.widen(codes)?;
        self.of_clause.widen(codes)?;
        self.of_candidate.widen(codes)?;
        self.seen.widen(codes)
    }

    /// Makes room for the variables of a clause, where `most` are allowed; whether they are.
    pub(crate) fn make_room(&mut self, clause: &[Lit], most: u32) -> Result<bool, AllocError> {
        let greatest = greatest_variable(clause);
        if greatest > most {
            return Ok(false);
        }
        if greatest > self.vars {
            let vars = self.vars.saturating_mul(2).min(most).max(greatest);
            self.widen(vars)?;
        }
        Ok(true)
    }

    /// Whether the empty clause was added.
    pub(crate) fn is_refuted(&self) -> bool {
        self.is_refuted
    }

    /// The deletions that were passed over.
    pub(crate) fn passed(&self) -> Passed {
        self.passed
    }

    /// The lines that were made since the last `clear`.
    pub(crate) fn text(&self) -> &[u8] {
        self.lines.text()
    }

    /// Lets the lines go.
    pub(crate) fn clear(&mut self) {
        self.lines.clear();
    }

    /// Adds the empty clause, by a clause that is false for good.
    fn end(&mut self, conflict: usize) -> Result<(), AllocError> {
        self.is_refuted = true;
        refute(self.alloc, &self.propagation, &mut self.lines, conflict)
    }

    /// Puts a clause of this number, and draws what follows for good.
    fn keep(&mut self, number: u64, clause: &[Lit]) -> Result<(), AllocError> {
        self.table.push(hash_of(clause))?;
        let Kept { clause, is_false } = self.propagation.keep(number, clause)?;
        if is_false {
            return self.end(clause);
        }
        let conflict = self.propagation.propagate()?;
        derive_units(
            self.alloc,
            &mut self.propagation,
            &mut self.lines,
            self.base,
        )?;
        self.base = self.propagation.assignment.len();
        match conflict {
            Some(clause) => self.end(clause),
            None => Ok(()),
        }
    }

    /// Why a literal is true that was to be false.
    fn clash_at(&self, lit: Lit) -> Clash {
        match self.propagation.assignment.unit(lit) {
            0 => Clash::Clause(self.propagation.assignment.reason(lit)),
            number => Clash::Unit(number),
        }
    }

    /// Assumes the negations of a clause's literals but for `pivot`, and draws what follows.
    fn assume(&mut self, clause: &[Lit], pivot: Option<Lit>) -> Result<Clash, AllocError> {
        for lit in clause {
            if pivot == Some(*lit) || self.propagation.assignment.is_false(*lit) {
                continue;
            }
            if self.propagation.assignment.is_true(*lit) {
                return Ok(self.clash_at(*lit));
            }
            self.propagation.assignment.assign(lit.negated(), NOWHERE)?;
        }
        Ok(match self.propagation.propagate()? {
            Some(clause) => Clash::Clause(clause),
            None => Clash::Open,
        })
    }

    /// Whether the checker holds the literal or its negation before the first hint: the step's
    /// clause has its variable, or the candidate's.
    fn is_held(&self, lit: Lit) -> bool {
        self.of_clause.has_variable(lit) || self.of_candidate.has_variable(lit)
    }

    /// Takes the literals of a clause into an explanation. A unit clause for one that is true or
    /// false for good is a hint at once.
    fn see(&mut self, clause: usize) -> Result<(), AllocError> {
        for lit in self.propagation.clauses.literals(clause) {
            if self.of_clause.has_variable(*lit)
                || self.of_candidate.has_variable(*lit)
                || self.seen.has_variable(*lit)
            {
                continue;
            }
            self.seen.mark(*lit);
            let unit = self.propagation.assignment.unit(*lit);
            if unit != 0 {
                self.hints.push(NewHint::Clause(unit))?;
            }
        }
        Ok(())
    }

    /// The clauses by which literals became true that an explanation has come to, the latest first.
    fn reasons(&mut self) -> Result<Vec<usize>, AllocError> {
        let mut reasons = Vec::new(self.alloc);
        let count = self.propagation.assignment.len();
        for place in (self.base..count).rev() {
            let Some(lit) = self.propagation.assignment.literal(place) else {
                break;
            };
            let reason = self.propagation.assignment.reason(lit);
            if reason != NOWHERE && self.seen.has_variable(lit) && !self.is_held(lit) {
                reasons.push(reason)?;
                self.see(reason)?;
            }
        }
        Ok(reasons)
    }

    /// Puts the hints that lead to a clause that is false: unit clauses, then the clauses used, in
    /// the order in which their literals became true, then that clause.
    fn explain(&mut self, conflict: usize) -> Result<(), AllocError> {
        self.seen.clear();
        self.see(conflict)?;
        let reasons = self.reasons()?;
        for reason in reasons.iter().rev() {
            self.hints
                .push(NewHint::Clause(self.propagation.clauses.number(*reason)))?;
        }
        self.hints
            .push(NewHint::Clause(self.propagation.clauses.number(conflict)))?;
        Ok(())
    }

    /// Puts the hints for a clash; whether it is one.
    fn explain_clash(&mut self, clash: Clash) -> Result<bool, AllocError> {
        match clash {
            Clash::Open => return Ok(false),
            Clash::Unit(number) => self.hints.push(NewHint::Clause(number))?,
            Clash::Clause(clause) => self.explain(clause)?,
        }
        Ok(true)
    }

    /// Whether a candidate needs no hints: a literal other than `pivot` is the negation of one of the
    /// step's clause.
    fn is_closed(&self, candidate: &[Lit], pivot: Lit) -> bool {
        candidate
            .iter()
            .any(|lit| *lit != pivot && self.of_clause.has(lit.negated()))
    }

    /// Puts the hints for a candidate behind its number; whether they lead to a conflict.
    fn close(&mut self, number: u64, candidate: &[Lit], pivot: Lit) -> Result<bool, AllocError> {
        self.hints.push(NewHint::Candidate(number))?;
        for lit in candidate {
            if *lit != pivot {
                self.of_candidate.mark(*lit);
            }
        }
        let mark = self.propagation.assignment.len();
        let clash = self.assume(candidate, Some(pivot))?;
        let is_closed = self.explain_clash(clash)?;
        self.propagation.assignment.go_back(mark);
        self.of_candidate.clear();
        Ok(is_closed)
    }

    /// Puts hints for each candidate, a clause with the negation of the first literal; whether all
    /// lead to conflicts. The clause's negations are assumed, and give none.
    fn close_all(&mut self, clause: &[Lit]) -> Result<bool, AllocError> {
        let Some(first) = clause.first() else {
            return Ok(false);
        };
        let pivot = first.negated();
        if self.propagation.assignment.unit(pivot) != 0 {
            return Ok(false); // the unit clause of the pivot is a candidate
        }
        let mut candidates = Vec::new(self.alloc);
        self.occurrences.enter_new(&self.propagation.clauses)?;
        self.occurrences
            .append(pivot, &self.propagation.clauses, &mut candidates)?;
        let mut literals = Vec::new(self.alloc);
        for candidate in &candidates {
            literals.clear();
            literals.extend_from_slice(self.propagation.clauses.literals(*candidate))?;
            let number = self.propagation.clauses.number(*candidate);
            if !self.is_closed(&literals, pivot) && !self.close(number, &literals, pivot)? {
                return Ok(false);
            }
        }
        Ok(true)
    }

    /// Finds the hints of a clause, whose literals are distinct and marked; whether there are any.
    fn find(&mut self, clause: &[Lit]) -> Result<bool, AllocError> {
        self.hints.clear();
        self.of_candidate.clear();
        let clash = self.assume(clause, None)?;
        let is_found = self.explain_clash(clash)? || self.close_all(clause)?;
        self.propagation.assignment.go_back(self.base);
        Ok(is_found)
    }

    /// Adds a clause, if hints for it are found; whether they are. One that has both signs of a
    /// variable is true in any case, and is passed over.
    pub(crate) fn add(&mut self, clause: &[Lit]) -> Result<bool, AllocError> {
        let mut distinct = Vec::new(self.alloc);
        if !take_distinct(&mut self.of_clause, clause, &mut distinct)? {
            return Ok(true);
        }
        if !self.find(&distinct)? {
            return Ok(false);
        }
        let hints = mem::replace(&mut self.hints, Vec::new(self.alloc));
        let number = self.lines.add(&distinct, &hints)?;
        self.hints = hints;
        if distinct.is_empty() {
            self.is_refuted = true;
            return Ok(true);
        }
        self.keep(number, &distinct)?;
        Ok(true)
    }

    /// Whether a clause that is there has so many literals, all of which are marked.
    fn is_marked(&self, clause: usize, count: usize) -> bool {
        let literals = self.propagation.clauses.literals(clause);
        self.propagation.clauses.is_there(clause)
            && literals.len() == count
            && literals.iter().all(|lit| self.of_clause.has(*lit))
    }

    /// Takes the clause with these literals, which are distinct and marked, away.
    fn delete_distinct(&mut self, clause: &[Lit]) -> Result<(), AllocError> {
        let hash = hash_of(clause);
        let mut before = NOWHERE;
        let mut place = self.table.first(hash);
        for _ in 0..self.propagation.clauses.len() {
            if place == NOWHERE || self.is_marked(place, clause.len()) {
                break;
            }
            before = place;
            place = self.table.next(place);
        }
        if place == NOWHERE {
            self.passed.of_missing = self.passed.of_missing.saturating_add(1);
            return Ok(());
        }
        if self.propagation.is_reason(place) {
            self.passed.of_units = self.passed.of_units.saturating_add(1);
            return Ok(());
        }
        self.table.unlink(hash, before, place);
        self.propagation.clauses.remove(place);
        self.lines.delete(self.propagation.clauses.number(place))
    }

    /// Takes a clause away. It is passed over where it isn't there, or is why a literal is true for
    /// good; also, uncounted, where it has both signs of a variable.
    pub(crate) fn delete(&mut self, clause: &[Lit]) -> Result<(), AllocError> {
        let mut distinct = Vec::new(self.alloc);
        if take_distinct(&mut self.of_clause, clause, &mut distinct)? {
            self.delete_distinct(&distinct)?;
        }
        Ok(())
    }
}

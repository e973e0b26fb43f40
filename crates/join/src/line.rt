//! A line of a proof: what a pure literal, a leaf's line or a split gives, and what is deleted
//! behind them.
ghost use Rattle.std.specs.Prelude.{◌≡◌, ℕ, ◌≤◌, ◌<◌, ◌^◌, ◌+◌, ◌-◌, ◌++◌, [], List, map, All, IfOk, OnOk};
ghost use Rattle.std.specs.Vec.{vec_capacity};
ghost use Rattle.theory.specs.Literals.{IsVariable, negations};
ghost use Rattle.theory.specs.Truth.{IsOver};
ghost use Rattle.theory.specs.Reading.{large, max_vars, max_clauses};
ghost use Rattle.theory.specs.Steps.{delete};
ghost use Rattle.theory.specs.Proofs.{renumbered};
ghost use Rattle.theory.specs.ProofReading.{IsStep, max_number};
ghost use Rattle.lrat_text.specs.Steps.{step_of};
ghost use Rattle.cubes.specs.Traversal.{path};
ghost use Rattle.join.specs.Joining.{unit_line, learnt_line, split_line};
ghost use Rattle.join.specs.Numbered.{AreUpTo};
ghost use Rattle.join.specs.Rooms.{longest_text};
ghost use Rattle.join.specs.Walking.{line_of, learnt_in};

use cnf::Lit;
use cubes::Walk;
use lrat::{Addition, Deletion, Step};
use std::alloc::{AllocError, Global};
use std::mem;

/// What a line does.
#[derive(Clone, Copy)]
pub enum Kind {
    /// It adds a clause.
    Addition,

    /// It deletes clauses.
    Deletion,
}

/// A line of a proof. It takes up one line after the other, and so keeps its memory.
#[derive(Drop)]
pub struct ProofLine {
    pub kind: Kind,

    /// The number of the clause, or for a deletion that of the clause added last.
    pub id: u64,

    /// The clause that is added.
    pub clause: Vec<Lit>,

    /// The hints, or the numbers of the clauses to be deleted.
    pub numbers: Vec<u64>,
}

/// Puts the negations of the cube's literals behind a clause.
fn put_negations(place: &Walk<u64>, clause: &mut Vec<Lit>) -> Result<(), AllocError>
    requires { All (λ s. (1 ≤ s.var) × (s.var < 2 ^ 31)) place.now }
    ensures { OnOk result (clause.new.items ≡ clause.old.items ++ negations (path place.now)) }
{
    let splits = place.splits();
    for split in splits {
        // While the left half has no last line yet, the cube holds the variable as false.
        clause.push(Lit::of(split.var, split.left.is_none()))?;
    }
    Ok(())
}

/// The number in the proof of a clause or a line of the cube, where the cube's first line has the
/// number `first`.
fn renumbered(hint: u64, clauses: u64, first: u64) -> u64
    requires { hint + first < 2 ^ 64 }
    ensures { result ≡ renumbered clauses first hint }
{
    if hint <= clauses {
        hint
    } else {
        first + (hint - clauses - 1)
    }
}

/// Gives a cube's numbers those that they have in the proof.
pub(crate) fn renumber(numbers: &mut Vec<u64>, clauses: u64, first: u64)
    requires { All (λ h. h + first < 2 ^ 64) numbers.old.items }
    ensures { numbers.new.items ≡ map (renumbered clauses first) numbers.old.items }
{
    for index in 0..numbers.len() {
        numbers[index] = renumbered(numbers[index], clauses, first);
    }
}

impl ProofLine {
    /// A line that takes no more memory while clauses have no more literals, and hints or deletions
    /// no more numbers.
    pub(crate) fn with_room(
        alloc: Global,
        literals: usize,
        numbers: usize,
    ) -> Result<ProofLine, AllocError>
        ensures { IfOk result (λ l. (vec_capacity l.clause ≡ literals) × (vec_capacity l.numbers ≡ numbers)) }
    {
        Ok(ProofLine {
            kind: Kind::Addition,
            id: 0,
            clause: Vec::with_capacity(alloc, literals)?,
            numbers: Vec::with_capacity(alloc, numbers)?,
        })
    }

    /// The most bytes that the text of a line has while none takes more memory: 12 a literal, 21 a
    /// hint or a number to be deleted, 25 for the line's own number and the marks. A size stops at
    /// the greatest one.
    pub(crate) fn size(&self) -> usize
        ensures { result ≡ longest_text self.now }
    {
        let literals = self.clause.capacity().saturating_mul(12);
        let numbers = self.numbers.capacity().saturating_mul(21);
        literals.saturating_add(numbers).saturating_add(25)
    }

    /// Becomes the line of a pure variable's negation. It has no hints: no clause there has the
    /// variable itself, so nothing is to be shown.
    pub(crate) fn unit(&mut self, id: u64, literal: Lit) -> Result<(), AllocError>
        requires { (1 ≤ id) × (id ≤ max_number) }
        ensures line { OnOk result (line_of self.new ≡ unit_line id literal) }
        ensures within { OnOk result (IsStep (line_of self.new)) }
    {
        self.kind = Kind::Addition;
        self.id = id;
        self.clause.clear();
        self.clause.push(literal)?;
        self.numbers.clear();
        Ok(())
    }

    /// Becomes the line for the one that it holds of a leaf, whose first one has the number
    /// `first`.
    pub(crate) fn learn(
        &mut self,
        id: u64,
        place: &Walk<u64>,
        clauses: u64,
        first: u64,
    ) -> Result<(), AllocError>
        requires id { (first ≤ id) × (id ≤ max_number) }
        requires first { (clauses < first) × (clauses ≤ max_clauses large + max_vars large) }
        requires splits { All (λ s. IsVariable (max_vars large) s.var) place.now }
        requires clause { IsOver (max_vars large) self.old.clause.items }
        requires hints { AreUpTo (clauses + (id - first)) self.old.numbers.items }
        ensures line { (forgets : List ℕ) → OnOk result (line_of self.new ≡ learnt_line clauses first id (path place.now) (learnt_in self.old forgets)) }
        ensures within { OnOk result (IsStep (line_of self.new)) }
    {
        self.kind = Kind::Addition;
        self.id = id;
        put_negations(place, &mut self.clause)?;
        renumber(&mut self.numbers, clauses, first);
        Ok(())
    }

    /// Becomes the line of a split, behind the last line of the right half; `left` is the number of
    /// the left half's last line.
    pub(crate) fn split(&mut self, id: u64, left: u64, place: &Walk<u64>) -> Result<(), AllocError>
        requires id { id ≤ max_number }
        requires left { (1 ≤ left) × (left < id) }
        requires splits { All (λ s. IsVariable (max_vars large) s.var) place.now }
        ensures line { OnOk result (line_of self.new ≡ split_line id (path place.now) left (id - 1)) }
        ensures within { OnOk result (IsStep (line_of self.new)) }
    {
        self.kind = Kind::Addition;
        self.id = id;
        self.clause.clear();
        put_negations(place, &mut self.clause)?;
        self.numbers.clear();
        self.numbers.push(left)?;
        self.numbers.push(id - 1)?;
        Ok(())
    }

    /// Becomes the line that deletes the clauses of these numbers behind the line of the number
    /// `last`. It takes the numbers, and leaves none.
    pub(crate) fn delete(&mut self, last: u64, numbers: &mut Vec<u64>)
        ensures line { line_of self.new ≡ delete (record { id = last; ids = numbers.old.items }) }
        ensures none { numbers.new.items ≡ [] }
    {
        self.kind = Kind::Deletion;
        self.id = last;
        self.clause.clear();
        mem::swap(&mut self.numbers, numbers);
        numbers.clear();
    }

    /// The line as a step with memory of its own.
    pub(crate) fn to_step(&self, alloc: Global) -> Result<Step, AllocError>
        requires { IsStep (line_of self.now) }
        ensures { IfOk result (λ step. step_of step ≡ line_of self.now) }
    {
        let numbers = Vec::from_slice(alloc, &self.numbers)?;
        match self.kind {
            Kind::Addition => {
                let clause = Vec::from_slice(alloc, &self.clause)?;
                let addition = Addition::new(self.id, clause, numbers, Vec::new(alloc));
                Ok(Step::Add(addition))
            }
            Kind::Deletion => Ok(Step::Delete(Deletion::new(self.id, numbers))),
        }
    }
}

//! A line while it is read, word by word.
ghost use Rattle.std.specs.Prelude.{◌≡◌, ◌≤◌, [], ◌∷◌, ◌++◌, length, IfOk, OnOk};
ghost use Rattle.theory.specs.ProofReading.{IsGroup, IsAddition, IsDeletion};
ghost use Rattle.lrat_text.specs.LineWords.{IsCounting};
ghost use Rattle.lrat_text.specs.LineMachine.{at_id, on, fault_in, at_end, IsWithin};
ghost use Rattle.lrat_text.specs.LineStates.{addition_of, group_of, deletion_of, state_at, state_of, IsTaken, kind_of, reading_of};
ghost use Rattle.lrat_text.specs.Runs.{TakesRun};

use crate::fault::LineFault;
use crate::run::{take_literals, take_numbers};
use crate::step::{Addition, Deletion, Group, Step};
use crate::word::{MAX_LITERAL, MAX_NUMBER, Word};
use cnf::Lit;
use std::alloc::{AllocError, Global};
use std::mem;

/// What may come next in a line.
#[derive(Clone, Copy)]
pub enum Part {
    Id,
    Literals,
    Hints,
    GroupHints,
    Ids,
    AdditionEnd,
    DeletionEnd,
}

/// The parts of a line so far. Its lists are used again for each line, so that a step's own are
/// made once, in their size.
#[derive(Drop)]
pub struct Line {
    alloc: Global,
    part: Part,
    id: u64,
    clause: Vec<Lit>,

    /// The hints before the groups, or the numbers to delete.
    hints: Vec<u64>,

    /// The groups before the one that is read.
    groups: Vec<Group>,
    candidate: u64,
    group_hints: Vec<u64>,
}

impl Line {
    /// A line of which nothing is read.
    pub fn new(alloc: Global) -> Line
        ensures { state_of result ≡ at_id }
    {
        Line {
            alloc,
            part: Part::Id,
            id: 1,
            clause: Vec::new(alloc),
            hints: Vec::new(alloc),
            groups: Vec::new(alloc),
            candidate: 1,
            group_hints: Vec::new(alloc),
        }
    }

    /// Begins a line.
    pub fn begin(&mut self)
        ensures { self.new ≡ record self.old { part = Part.Id } }
    {
        self.part = Part::Id;
    }

    /// IsTaken the line's number.
    fn take_id(&mut self, word: Word) -> bool
        requires { self.old.part ≡ Part.Id }
        ensures { IsTaken (on (state_at Part.Id self.old) word) result self.old self.new }
    {
        let Some(id) = word.number() else {
            return false;
        };
        self.id = id;
        self.clause.clear();
        self.part = Part::Literals;
        true
    }

    /// IsTaken a literal, the `0` behind the clause, or the `d` of a deletion.
    fn take_literal(&mut self, word: Word) -> Result<bool, AllocError>
        requires part { self.old.part ≡ Part.Literals }
        requires counting { IsCounting word }
        ensures { IfOk result (λ taken. IsTaken (on (state_at Part.Literals self.old) word) taken self.old self.new) }
    {
        if let Some(lit) = word.literal() {
            self.clause.push(lit)?;
            return Ok(true);
        }
        match word {
            Word::Zero => self.part = Part::Hints,
            Word::Mark if self.clause.is_empty() => self.part = Part::Ids,
            _ => return Ok(false),
        }
        self.hints.clear();
        Ok(true)
    }

    /// Begins the group of a candidate.
    fn begin_group(&mut self, candidate: u64)
        ensures others { self.new
            ≡ record self.old { part = Part.GroupHints; candidate = candidate; group_hints = self.new.group_hints } }
        ensures empty { self.new.group_hints.items ≡ [] }
    {
        self.candidate = candidate;
        self.group_hints.clear();
        self.part = Part::GroupHints;
    }

    /// Puts the group that was read behind the others.
    fn end_group(&mut self) -> Result<(), AllocError>
        requires { IsGroup (group_of self.old) }
        ensures groups { OnOk result (self.new.groups.items ≡ self.old.groups.items ++ group_of self.old ∷ []) }
        ensures others { OnOk result (self.new ≡ record self.old { groups = self.new.groups }) }
    {
        let hints = Vec::from_slice(self.alloc, &self.group_hints)?;
        self.groups.push(Group::new(self.candidate, hints))?;
        Ok(())
    }

    /// IsTaken a hint before the groups, the first candidate, or the last `0`.
    fn take_hint(&mut self, word: Word) -> Result<bool, AllocError>
        requires { self.old.part ≡ Part.Hints }
        ensures { IfOk result (λ taken. IsTaken (on (state_at Part.Hints self.old) word) taken self.old self.new) }
    {
        if let Some(hint) = word.number() {
            self.hints.push(hint)?;
            return Ok(true);
        }
        if let Some(candidate) = word.candidate() {
            self.groups.clear();
            self.begin_group(candidate);
            return Ok(true);
        }
        if let Word::Zero = word {
            self.groups.clear();
            self.part = Part::AdditionEnd;
            return Ok(true);
        }
        Ok(false)
    }

    /// IsTaken a hint of a group, the next candidate, or the last `0`.
    fn take_group_hint(&mut self, word: Word) -> Result<bool, AllocError>
        requires part { self.old.part ≡ Part.GroupHints }
        requires within { IsWithin (state_at Part.GroupHints self.old) }
        ensures { IfOk result (λ taken. IsTaken (on (state_at Part.GroupHints self.old) word) taken self.old self.new) }
    {
        if let Some(hint) = word.number() {
            self.group_hints.push(hint)?;
            return Ok(true);
        }
        if let Some(candidate) = word.candidate() {
            self.end_group()?;
            self.begin_group(candidate);
            return Ok(true);
        }
        if let Word::Zero = word {
            self.end_group()?;
            self.part = Part::AdditionEnd;
            return Ok(true);
        }
        Ok(false)
    }

    /// IsTaken a number to delete, or the last `0`.
    fn take_deleted(&mut self, word: Word) -> Result<bool, AllocError>
        requires { self.old.part ≡ Part.Ids }
        ensures { IfOk result (λ taken. IsTaken (on (state_at Part.Ids self.old) word) taken self.old self.new) }
    {
        if let Some(id) = word.number() {
            self.hints.push(id)?;
            return Ok(true);
        }
        if let Word::Zero = word {
            self.part = Part::DeletionEnd;
            return Ok(true);
        }
        Ok(false)
    }

    /// IsTaken the next word, and says whether it can stand there. If it can't, the line stays as
    /// it was.
    pub fn take(&mut self, word: Word) -> Result<bool, AllocError>
        requires within { IsWithin (state_of self.old) }
        requires counting { IsCounting word }
        ensures { IfOk result (λ taken. IsTaken (on (state_of self.old) word) taken self.old self.new) }
    {
        match self.part {
            Part::Id => Ok(self.take_id(word)),
            Part::Literals => self.take_literal(word),
            Part::Hints => self.take_hint(word),
            Part::GroupHints => self.take_group_hint(word),
            Part::Ids => self.take_deleted(word),
            Part::AdditionEnd | Part::DeletionEnd => Ok(false),
        }
    }

    /// IsTaken the literals, hints or numbers to delete that stand whole among the bytes from
    /// `start` on, where such come next, and says where the first byte stands that wasn't taken.
    pub(crate) fn take_run(&mut self, bytes: &[u8], start: usize) -> Result<usize, AllocError>
        requires within { IsWithin (state_of self.old) }
        requires inside { start ≤ length bytes.now }
        ensures within { OnOk result (IsWithin (state_of self.new)) }
        ensures taken { IfOk result (TakesRun bytes.now (state_of self.old) start (state_of self.new)) }
        ensures forward { IfOk result (λ end. (start ≤ end) × (end ≤ length bytes.now)) }
    {
        match self.part {
            Part::Literals => Ok(take_literals(&mut self.clause, bytes, start)?),
            Part::Hints => Ok(take_numbers(&mut self.hints, bytes, start)?),
            Part::GroupHints => Ok(take_numbers(&mut self.group_hints, bytes, start)?),
            Part::Ids => Ok(take_numbers(&mut self.hints, bytes, start)?),
            Part::Id | Part::AdditionEnd | Part::DeletionEnd => Ok(start),
        }
    }

    /// The fault of a word that can't stand next.
    pub(crate) fn fault(&self, word: Word) -> LineFault
        ensures { kind_of result ≡ fault_in (state_of self.now) word }
    {
        let size = match word {
            Word::Zero => return LineFault::BadShape,
            Word::Positive(size) | Word::Negative(size) => size,
            Word::Mark | Word::Other => return LineFault::BadNumber,
        };
        let limit = match self.part {
            Part::Literals => MAX_LITERAL,
            Part::AdditionEnd | Part::DeletionEnd => return LineFault::BadShape,
            _ => MAX_NUMBER,
        };
        if size > limit {
            LineFault::BadNumber
        } else {
            LineFault::BadShape
        }
    }

    /// The step of the line, where it may end here.
    pub fn finish(&mut self) -> Result<Option<Step>, AllocError>
        requires { IsWithin (state_of self.old) }
        ensures step { IfOk result (λ found. at_end (state_of self.old) ≡ reading_of found) }
        ensures others { self.new ≡ record self.old { groups = self.new.groups } }
    {
        match self.part {
            Part::AdditionEnd => Ok(Some(Step::Add(self.addition()?))),
            Part::DeletionEnd => Ok(Some(Step::Delete(self.deletion()?))),
            _ => Ok(None),
        }
    }

    /// The addition that was read.
    fn addition(&mut self) -> Result<Addition, AllocError>
        requires { IsAddition (addition_of self.old) }
        ensures addition { IfOk result (λ a. a ≡ addition_of self.old) }
        ensures others { self.new ≡ record self.old { groups = self.new.groups } }
    {
        let clause = Vec::from_slice(self.alloc, &self.clause)?;
        let hints = Vec::from_slice(self.alloc, &self.hints)?;
        let groups = mem::replace(&mut self.groups, Vec::new(self.alloc));
        Ok(Addition::new(self.id, clause, hints, groups))
    }

    /// The deletion that was read.
    fn deletion(&self) -> Result<Deletion, AllocError>
        requires { IsDeletion (deletion_of self.now) }
        ensures { IfOk result (λ d. d ≡ deletion_of self.now) }
    {
        let ids = Vec::from_slice(self.alloc, &self.hints)?;
        Ok(Deletion::new(self.id, ids))
    }
}

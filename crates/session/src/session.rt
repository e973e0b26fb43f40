//! Sessions: many questions of one growing formula.
ghost use Rattle.std.specs.Prelude.{◌≡◌, ◌≤◌, ◌++◌, ◌∷◌, ◌⊎◌, ◌-◌, ◌^◌, [], true, false, length, IfOk, OnOk, OnErr, IsErr};
ghost use Rattle.theory.specs.Truth.{IsOver};
ghost use Rattle.session.specs.Answers.{Says};

use crate::answer::Answer;
use crate::growing::GrowingFormula;
use crate::interrupt::Interrupt;
use crate::names::Names;
use crate::search::Search;
use cdcl::Counts;
use cnf::Lit;
use std::alloc::{AllocError, Global};
use std::marker::Model;

/// Clauses that are added one after the other, and questions of them under assumptions. What a
/// question learns and the last values of variables stay for the next ones; so do the variables'
/// scores, until more variables come than there is room for. New clauses go into the kernel one by
/// one when the next question is asked; where that would take longer, it is opened anew, in time by
/// all clauses. Variables that no clause and no assumption has take four bytes each up to the greatest
/// one, and a model has them false. Once a call has failed, each of them fails.
pub struct Session {
    names: Names,
    // the literals of a call, by the numbers of their variables
    numbered: Vec<Lit>,
    // the clauses added, by the numbers of their variables
    formula: GrowingFormula,
    search: Search,
    // how many of the clauses the search has, the first ones
    loaded: usize,
    // how many steps were made in all questions
    steps: u64,
    // whether a call has failed
    out_of_memory: bool,
}

// written out, so that proofs of its owners stay short (docs/PROVING.md)
impl Drop for Session {
    fn drop(self) {
        let Session {
            names: _,
            numbered: _,
            formula: _,
            search: _,
            loaded: _,
            steps: _,
            out_of_memory: _,
        } = self;
    }
}

impl Model for Session {
    ghost use Rattle.std.specs.Prelude.{◌≡◌, ◌≤◌, false, take, length};
    ghost use Rattle.session.specs.State.{State};
    ghost use Rattle.session.specs.Naming.{IsNumbered, formula_outward};
    ghost use Rattle.session.specs.Loading.{IsLoaded};

    ghost Value = { State };

    ghost view = { λ a. record { formula = formula_outward a.names a.formula; steps = a.steps; out_of_memory = a.out_of_memory } };

    ghost invariant = { λ a. IsNumbered a.names a.formula × (a.out_of_memory ≡ false →
        IsLoaded a.formula.clauses (take a.loaded a.formula.clauses) a.search × (a.loaded ≤ length a.formula.clauses)) };
}

impl Session {
    /// No clauses over no variables. It fails where a request for memory is refused.
    pub fn open(alloc: Global) -> Result<Session, AllocError>
        ensures { IfOk result (λ s. s ≡ record { formula = record { vars = 0; clauses = [] }; steps = 0; out_of_memory = false }) }
    {
        Ok(Session {
            names: Names::new(alloc),
            numbered: Vec::new(alloc),
            formula: GrowingFormula::new(alloc),
            search: Search::open(alloc)?,
            loaded: 0,
            steps: 0,
            out_of_memory: false,
        })
    }

    /// Adds a clause. Its variables become variables of the formula; literals may stand in it more
    /// than once, or with both signs, and the empty clause is one too. It takes time by its literals,
    /// and by the variables up to them that are above all before. It fails where a request for memory is refused, or a variable is above 100,000,000.
    pub fn add_clause(&mut self, clause: &[Lit]) -> Result<(), AllocError>
        ensures added { OnOk result (self.new.formula.clauses ≡ self.old.formula.clauses ++ clause.now ∷ []) }
        ensures over { OnOk result (IsOver self.new.formula.vars clause.now) }
        ensures vars { self.old.formula.vars ≤ self.new.formula.vars }
        ensures refused { OnErr result ((self.new.out_of_memory ≡ true) × (self.new.formula.clauses ≡ self.old.formula.clauses)) }
        ensures stays { self.old.out_of_memory ≡ true → IsErr result }
        ensures steps { self.new.steps ≡ self.old.steps }
    {
        if self.out_of_memory {
            return Err(AllocError);
        }
        self.out_of_memory = true; // until nothing was refused
        self.numbered.clear();
        self.names.put_numbers(clause, &mut self.numbered)?;
        self.formula.widen(self.names.count());
        self.formula.push(&self.numbered)?;
        self.out_of_memory = false;
        Ok(())
    }

    /// Lets the search of the next question begin with these values of the variables 1, 2 and so on,
    /// which may be those of a model: what answers say is the same. It takes time by the clauses that were
    /// added since the last question. It fails where a request for memory is refused.
    pub fn prefer(&mut self, values: &[bool]) -> Result<(), AllocError>
        ensures formula { self.new.formula ≡ self.old.formula }
        ensures steps { self.new.steps ≡ self.old.steps }
        ensures refused { OnErr result (self.new.out_of_memory ≡ true) }
        ensures stays { self.old.out_of_memory ≡ true → IsErr result }
    {
        if self.out_of_memory {
            return Err(AllocError);
        }
        self.out_of_memory = true; // until nothing was refused
        let values = self.names.by_number(values)?;
        self.search
            .prefer(&self.formula, &mut self.loaded, &values)?;
        self.out_of_memory = false;
        Ok(())
    }

    /// Asks whether the clauses have a model that makes the assumptions true, and gives one, or a
    /// core. The assumptions may repeat or contradict one another, and their variables become
    /// variables of the formula. There is no answer only where the question is interrupted, or where
    /// 2 ^ 64 - 1 steps were made in all questions. It fails where a request for memory is refused,
    /// or a variable is above 100,000,000.
    pub fn solve<I: Interrupt>(
        &mut self,
        assumptions: &[Lit],
        interrupt: &I,
    ) -> Result<Answer, AllocError>
        ensures says { IfOk result (Says self.new.formula assumptions.now ((I.may_interrupt interrupt.now ≡ true) ⊎ (2 ^ 64 - 1 ≤ self.new.steps))) }
        ensures clauses { self.new.formula.clauses ≡ self.old.formula.clauses }
        ensures vars { self.old.formula.vars ≤ self.new.formula.vars }
        ensures refused { OnErr result (self.new.out_of_memory ≡ true) }
        ensures stays { self.old.out_of_memory ≡ true → IsErr result }
    {
        if self.out_of_memory {
            return Err(AllocError);
        }
        self.out_of_memory = true; // until nothing was refused
        self.numbered.clear();
        self.names.put_numbers(assumptions, &mut self.numbered)?;
        self.formula.widen(self.names.count());
        let numbered = self.search.answer(
            &self.formula,
            &mut self.loaded,
            &self.numbered,
            interrupt,
            &mut self.steps,
        )?;
        let answer = self.names.answer(numbered)?;
        self.out_of_memory = false;
        Ok(answer)
    }

    /// The number of variables: those of the clauses and of the assumptions so far are 1 up to it.
    pub fn vars(&self) -> u32
        ensures { result ≡ self.now.formula.vars }
    {
        self.names.vars()
    }

    /// How much the searches of all questions have done.
    pub fn counts(&self) -> Counts {
        self.search.counts()
    }

    /// How many clauses were added.
    pub fn clause_count(&self) -> usize
        ensures { result ≡ length self.now.formula.clauses }
    {
        self.formula.clause_count()
    }
}

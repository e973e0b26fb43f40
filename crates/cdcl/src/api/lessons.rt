//! Analysis of conflicts for searches of other crates.
ghost use Rattle.std.specs.Prelude.{◌≡◌, ◌≤◌, ℕ, true, false, Some, All, IfOk, OnOk, OnErr, IsErr};
ghost use Rattle.theory.specs.Literals.{IsVariable};
ghost use Rattle.theory.specs.Trails.{literals, current_level};
ghost use Rattle.theory.specs.Propagation.{least_false};
ghost use Rattle.theory.specs.Learning.{back_level};
ghost use Rattle.theory.specs.Lessons.{lesson_of};
ghost use Rattle.theory.specs.Scores.{is_seen};
ghost use Rattle.heuristics.specs.Rankings.{AreDistinct};
ghost use Rattle.cdcl.specs.Numbers.{is_one_of};

use crate::analysis::analyze::Analysis;
use cnf::Lit;
use kernel::SearchKernel;
use std::alloc::{AllocError, Global};
use std::marker::Model;

/// What conflicts above level 0 teach, one after the other: a clause each time, by the first unique
/// implication point and without removable literals, and the variables that the conflict has seen.
pub struct Lessons {
    analysis: Analysis,
    // the number of variables
    vars: u32,
    // whether a request for memory was refused
    out_of_memory: bool,
}

// written out, so that proofs of its owners stay short (docs/PROVING.md)
impl Drop for Lessons {
    fn drop(self) {
        let Lessons {
            analysis: _,
            vars: _,
            out_of_memory: _,
        } = self;
    }
}

impl Model for Lessons {
    ghost use Rattle.std.specs.Prelude.{◌≡◌, ◌<◌, false};
    ghost use Rattle.cdcl.specs.Removing.{HasRoomFor};
    ghost use Rattle.cdcl.specs.Taught.{Taught};

    ghost Value = { Taught };

    ghost view = { λ a. record {
      vars = a.vars;
      out_of_memory = a.out_of_memory;
      clause = a.analysis.learnt.clause.items;
      level = a.analysis.learnt.level;
      seen = a.analysis.seen.numbers;
    } };

    ghost invariant = { λ a. (a.vars < a.analysis.seen.bound) × (a.vars < a.analysis.levels.bound)
        × (a.out_of_memory ≡ false → HasRoomFor a.vars a.analysis.removing) };
}

impl Lessons {
    /// Room for the conflicts of kernels with so many variables; nothing is learnt yet.
    pub fn open(alloc: Global, vars: u32) -> Result<Lessons, AllocError>
        ensures vars { IfOk result (λ a. a.vars ≡ vars) }
        ensures memory { IfOk result (λ a. a.out_of_memory ≡ false) }
    {
        Ok(Lessons {
            analysis: Analysis::open(alloc, vars)?,
            vars,
            out_of_memory: false,
        })
    }

    /// Takes up what the conflict of this number teaches, and answers the glue of the clause. It takes
    /// time by the literals of the clauses that it resolves, and of the reasons behind the clause that
    /// is left. It fails where a request for memory is refused, and from then on.
    pub fn learn_from(&mut self, kernel: &SearchKernel, conflict: u64) -> Result<u32, AllocError>
        requires conflict { least_false (literals kernel.now.trail) kernel.now.clauses ≡ Some conflict }
        requires above { 1 ≤ current_level kernel.now.trail }
        requires vars { kernel.now.vars ≡ self.old.vars }
        ensures clause { OnOk result (self.new.clause ≡ (lesson_of kernel.now.clauses kernel.now.trail conflict).line.clause) }
        ensures level { OnOk result (self.new.level ≡ back_level kernel.now.trail (lesson_of kernel.now.clauses kernel.now.trail conflict).line.clause) }
        ensures glue { IfOk result (λ g. g ≡ (lesson_of kernel.now.clauses kernel.now.trail conflict).glue) }
        ensures few { IfOk result (λ g. g ≤ kernel.now.vars) }
        ensures seen { OnOk result ((v : ℕ) → is_one_of self.new.seen v
            ≡ is_seen kernel.now.clauses kernel.now.trail (lesson_of kernel.now.clauses kernel.now.trail conflict).seen v) }
        ensures variables { OnOk result (All (IsVariable kernel.now.vars) self.new.seen) }
        ensures vars { self.new.vars ≡ self.old.vars }
        ensures memory { OnOk result (self.new.out_of_memory ≡ false) }
        ensures refused { OnErr result (self.new.out_of_memory ≡ true) }
        ensures stays { self.old.out_of_memory ≡ true → IsErr result }
        ensures was { OnOk result (self.old.out_of_memory ≡ false) }
    {
        let _trail = kernel.trail(); // it ensures what the proof needs of the trail
        if self.out_of_memory {
            return Err(AllocError);
        }
        self.out_of_memory = true;
        let glue = self.analysis.lesson(kernel, conflict)?;
        self.out_of_memory = false;
        Ok(glue)
    }

    /// The clause that was learnt last.
    pub fn clause(&self) -> &[Lit]
        ensures { result.now ≡ self.now.clause }
    {
        &self.analysis.learnt.clause
    }

    /// The level to go back to from the last conflict.
    pub fn level(&self) -> u32
        ensures { result ≡ self.now.level }
    {
        self.analysis.learnt.level
    }

    /// The variables that the last conflict has seen, each once.
    pub fn seen(&self) -> &[u32]
        ensures seen { result.now ≡ self.now.seen }
        ensures distinct { AreDistinct result.now }
    {
        self.analysis.seen.list()
    }
}

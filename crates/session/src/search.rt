//! The search that answers a session's questions.
ghost use Rattle.std.specs.Prelude.{◌≡◌, ◌≤◌, [], length, nat_lt, false, IfOk, OnOk, if◌then◌else◌};
ghost use Rattle.theory.specs.Truth.{IsOver};
ghost use Rattle.theory.specs.Trails.{literals, current_level, up_to};
ghost use Rattle.kernel.specs.declared.order.Order.TheVariants.{ByPlace};
ghost use Rattle.session.specs.Loading.{IsFit, IsLoaded};
ghost use Rattle.session.specs.Asking.{IsAsked};

use crate::choice::Choice;
use crate::growing::GrowingFormula;
use crate::restarts::Restarts;
use cdcl::{Counts, Lessons};
use cnf::{Formula, Lit};
use kernel::{Cube, Order, SearchKernel};
use std::alloc::{AllocError, Global};
use trail::Trail;

/// What stays from question to question, and how far a question is.
pub(crate) struct Search {
    /// The clauses, of which some were learnt.
    pub(crate) kernel: SearchKernel,
    /// Literals that follow from the clauses. They are on the trail at level 0 without reasons.
    pub(crate) facts: Cube,
    /// Room for the analysis of conflicts.
    pub(crate) lessons: Lessons,
    /// By what variables are decided.
    pub(crate) choice: Choice,
    /// Marks by variable, none of which is set between two questions.
    pub(crate) marked: Vec<bool>,
    /// Room for the literals of a clause that is put in.
    pub(crate) held: Trail,
    /// The glues of the kernel's clauses, 0 of those that were added.
    pub(crate) glues: Vec<u32>,
    /// How many of the kernel's clauses have one literal, at least.
    pub(crate) units: usize,
    /// When it restarts.
    pub(crate) restarts: Restarts,
    /// With more clauses than these the kernel is opened anew.
    pub(crate) limit: usize,
    /// How many of the assumptions are true, the first ones.
    pub(crate) assumed: usize,
    /// Up to this level all that is decided is an assumption.
    pub(crate) base: u32,
    /// What kernels have done that were there before this one.
    pub(crate) before: Counts,
}

// written out, so that proofs of its owners stay short (docs/PROVING.md)
impl Drop for Search {
    fn drop(self) {
        let Search {
            kernel: _,
            facts: _,
            lessons: _,
            choice: _,
            marked: _,
            held: _,
            glues: _,
            units: _,
            restarts: _,
            limit: _,
            assumed: _,
            base: _,
            before: _,
        } = self;
    }
}

/// A kernel over some clauses, with nothing on its trail.
pub(crate) fn open_kernel(alloc: Global, clauses: &Formula) -> Result<SearchKernel, AllocError>
    ensures { IfOk result (λ k. k ≡ record {
      vars = clauses.now.vars;
      order = ByPlace;
      first = length clauses.now.clauses;
      clauses = clauses.now.clauses;
      trail = [];
      out_of_memory = false;
    }) }
{
    let root = Cube::root(alloc);
    let kernel = SearchKernel::open(alloc, clauses, &[], &root, Order::ByPlace)?;
    Ok(kernel)
}

/// The literals of a trail.
fn known(kernel: &SearchKernel, alloc: Global) -> Result<Cube, AllocError>
    ensures { IfOk result (λ q. q ≡ literals kernel.now.trail) }
{
    let mut cube = Cube::root(alloc);
    for entry in kernel.trail() {
        let entry = *entry;
        cube.push(entry.lit)?;
    }
    Ok(cube)
}

/// Goes back to a level, unless it is the current one.
fn back_to(kernel: &mut SearchKernel, level: u32)
    requires memory { kernel.old.out_of_memory ≡ false }
    requires level { level ≤ current_level kernel.old.trail }
    ensures { kernel.new ≡ record kernel.old { trail = up_to kernel.old.trail level } }
{
    let _trail = kernel.trail(); // it ensures what the proof needs of the trail
    if level < kernel.level() {
        kernel.back_to(level);
    }
}

/// How many assumptions are known to be true once the search went back to a level, where so many are
/// at levels up to the base.
fn assumed_at(level: u32, base: u32, assumed: usize) -> usize
    ensures { result ≡ (if nat_lt level base then 0 else assumed) }
{
    if level < base { 0 } else { assumed }
}

impl Search {
    /// Before the first clause.
    pub(crate) fn open(alloc: Global) -> Result<Search, AllocError>
        ensures { IfOk result (IsLoaded [] []) }
    {
        let clauses = Formula::without_clauses(alloc, 0);
        Ok(Search {
            kernel: open_kernel(alloc, &clauses)?,
            facts: Cube::root(alloc),
            lessons: Lessons::open(alloc, 0)?,
            choice: Choice::open(alloc, 0)?,
            marked: vec![in alloc; false; 1]?,
            held: Trail::with_room(alloc, 0)?,
            glues: Vec::new(alloc),
            units: 0,
            restarts: Restarts::first(),
            limit: 0,
            assumed: 0,
            base: 0,
            before: Counts::none(),
        })
    }

    /// How much was done in all questions.
    pub(crate) fn counts(&self) -> Counts {
        let kernel = self.kernel.counts();
        self.before.with(Counts {
            conflicts: kernel.conflicts,
            decisions: kernel.decisions,
            propagations: kernel.propagations,
            learnt: kernel.learnt,
            forgotten: kernel.forgotten,
            ..Counts::none()
        })
    }

    /// Begins a question: the facts are on the trail, and nothing else.
    pub(crate) fn begin(
        &mut self,
        formula: &GrowingFormula,
        assumptions: &[Lit],
    ) -> Result<(), AllocError>
        requires loaded { IsLoaded formula.now.clauses formula.now.clauses self.old }
        requires vars { formula.now.vars ≤ self.old.kernel.vars }
        requires assumptions { IsOver formula.now.vars assumptions.now }
        ensures { OnOk result (IsAsked formula.now assumptions.now self.new) }
    {
        let _vars = formula.vars(); // it ensures what the proof needs of the clauses
        self.kernel.keep_learnt()?;
        self.kernel.restart(&self.facts)?;
        self.assumed = 0;
        self.base = 0;
        Ok(())
    }

    /// Goes back to a level, and saves the values of what is above it.
    pub(crate) fn go_back(&mut self, formula: &GrowingFormula, assumptions: &[Lit], level: u32)
        requires asked { IsAsked formula.now assumptions.now self.old }
        requires level { level ≤ current_level self.old.kernel.trail }
        ensures asked { IsAsked formula.now assumptions.now self.new }
        ensures kernel { self.new.kernel ≡ record self.old.kernel { trail = up_to self.old.kernel.trail level } }
        ensures lessons { self.new.lessons ≡ self.old.lessons }
        ensures facts { self.new.facts ≡ self.old.facts }
    {
        let (_formula, _assumptions) = (formula, assumptions); // they are there for the contract alone
        self.choice.release(&self.kernel, level);
        back_to(&mut self.kernel, level);
        self.assumed = assumed_at(level, self.base, self.assumed);
        self.base = self.base.min(level);
    }

    /// Takes up as facts what is known at level 0, to which it goes back.
    pub(crate) fn settle(
        &mut self,
        formula: &GrowingFormula,
        assumptions: &[Lit],
    ) -> Result<(), AllocError>
        requires { IsAsked formula.now assumptions.now self.old }
        ensures loaded { OnOk result (IsLoaded formula.now.clauses formula.now.clauses self.new) }
        ensures vars { OnOk result (self.new.kernel.vars ≡ self.old.kernel.vars) }
    {
        self.go_back(formula, assumptions, 0);
        if self.kernel.trail().len() > self.facts.lits().len() {
            self.facts = known(&self.kernel, *self.marked.allocator())?;
        }
        Ok(())
    }
}

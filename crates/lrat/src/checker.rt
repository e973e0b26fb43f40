//! The checker of proofs: reverse unit propagation and resolution asymmetric tautologies, by hints.
ghost use Rattle.std.specs.Prelude.{◌≡◌, ◌<◌, ◌≤◌, ◌^◌, ℕ, [], ◌∷◌, true, false, not, None, Some, map, IfOk, OnOk, MatchOption, MatchResult, nat_le, nat_lt};
ghost use Rattle.std.specs.List.{list_any};
ghost use Rattle.theory.specs.Literals.{has_both_signs, negations};
ghost use Rattle.theory.specs.Truth.{IsOver, Satisfiable};
ghost use Rattle.theory.specs.ProofReading.{IsLiteral};
ghost use Rattle.theory.specs.Checking.{accepted, addition_fault, checks, deleted, test};
ghost use Rattle.theory.specs.Steps.{add, delete};
ghost use Rattle.lrat.specs.Assumed.{AreSame};
ghost use Rattle.lrat.specs.CheckFaults.{faults_of, IsRefused};
ghost use Rattle.lrat.specs.Flat.{AreUpTo};
ghost use Rattle.lrat.specs.Indexed.{IsIndexed};
ghost use Rattle.lrat.specs.Occurrences.{StayThere};
ghost use Rattle.lrat.specs.Slots.{there};
ghost use Rattle.lrat_text.specs.Steps.{step_of};
ghost use Rattle.lrat.specs.Tested.{IsReady, Tests, IsDeleted, checker_of, start};

use crate::assume::assume;
use crate::check_fault::{CheckFault, Fault};
use crate::clauses::Clauses;
use crate::groups::rat_fault;
use crate::held::Held;
use crate::hints::{Taken, take_hints};
use crate::occurrences::Occurrences;
use cnf::{Formula, Lit};
use lrat_text::{Addition, Deletion, Step};
use std::alloc::{AllocError, Global};

/// The clauses there, the last number given away, and whether an empty clause was added. Nothing is
/// held true between steps.
#[derive(Drop)]
pub(crate) struct Checker {
    // how many variables clauses may have; there are tables for those that they had so far
    vars: u32,
    clauses: Clauses,
    occurrences: Occurrences,
    held: Held,
    last: u64,
    empty: bool,
}

/// Whether each variable is one of the first `vars`.
fn is_over(vars: u32, clause: &[Lit]) -> bool
    ensures { not result ≡ list_any (λ l. not (nat_le l.var vars)) clause.now }
{
    for lit in clause {
        if lit.var() > vars {
            return false;
        }
    }
    true
}

/// The greatest variable of a clause, or 0.
fn greatest_variable(clause: &[Lit]) -> u32
    ensures { (vars : ℕ) → list_any (λ l. not (nat_le l.var vars)) clause.now ≡ nat_lt vars result }
{
    let mut greatest = 0;
    for lit in clause {
        if lit.var() > greatest {
            greatest = lit.var();
        }
    }
    greatest
}

/// Puts the negations of a clause's literals to none, unless it has both signs of a variable.
/// Answers whether it has.
fn negate(held: &mut Held, clause: &[Lit]) -> Result<bool, AllocError>
    requires none { held.old.literals ≡ [] }
    requires over { IsOver held.old.vars clause.now }
    ensures both { IfOk result (λ b. b ≡ has_both_signs clause.now) }
    ensures negated { IfOk result (λ b. b ≡ false → AreSame (negations clause.now) held.new.literals) }
    ensures vars { held.new.vars ≡ held.old.vars }
{
    if clause.is_empty() {
        return Ok(false);
    }
    let pivot = clause[0];
    if assume(held, clause, pivot)? {
        return Ok(true);
    }
    held.push(pivot.negated())?;
    Ok(false)
}

/// The fault of an addition, where the numbers up to `last` are given away.
fn addition_fault(
    alloc: Global,
    held: &mut Held,
    clauses: &Clauses,
    occurrences: &mut Occurrences,
    last: u64,
    addition: &Addition,
) -> Result<Option<Fault>, AllocError>
    requires vars { clauses.now.vars ≡ held.old.vars }
    requires indexed { IsIndexed clauses.now.slots occurrences.old }
    requires none { held.old.literals ≡ [] }
    ensures indexed { IsIndexed clauses.now.slots occurrences.new }
    ensures fault { IfOk result (λ o. faults_of o ≡ addition_fault held.old.vars last (there clauses.now) addition.now) }
    ensures vars { held.new.vars ≡ held.old.vars }
{
    if addition.id() <= last {
        return Ok(Some(Fault::IdNotRising));
    }
    let clause = addition.clause();
    if !is_over(held.vars(), clause) {
        return Ok(Some(Fault::LiteralOutOfRange));
    }
    if negate(held, clause)? {
        return Ok(Some(Fault::BothSigns));
    }
    match take_hints(held, clauses, addition.hints())? {
        Taken::Conflict => Ok(if addition.groups().is_empty() {
            None
        } else {
            Some(Fault::HintAfterConflict)
        }),
        Taken::Open => rat_fault(alloc, held, clauses, occurrences, clause, addition.groups()),
        Taken::Fails(fault) => Ok(Some(fault)),
    }
}

/// Takes clauses away, if each is there in its turn. Answers whether each was.
fn delete(clauses: &mut Clauses, ids: &[u64]) -> bool
    ensures deleted { IsDeleted (deleted (there clauses.old) ids.now) result (there clauses.new) }
    ensures stay { StayThere clauses.old.slots clauses.new.slots }
    ensures up_to { (n : ℕ) → AreUpTo n clauses.old.slots → AreUpTo n clauses.new.slots }
    ensures vars { clauses.new.vars ≡ clauses.old.vars }
{
    for id in ids {
        if !clauses.remove(*id) {
            return false;
        }
    }
    true
}

impl Checker {
    /// The checker of a formula, whose clauses have the numbers from 1 on, where clauses may have so
    /// many variables.
    pub(crate) fn new(alloc: Global, formula: &Formula, vars: u32) -> Result<Checker, AllocError>
        requires { formula.now.vars ≤ vars }
        ensures start { IfOk result (λ s. checker_of s ≡ start formula.now) }
        ensures ready { IfOk result (λ s. IsReady vars s) }
    {
        Ok(Checker {
            vars,
            clauses: Clauses::new(alloc, formula)?,
            occurrences: Occurrences::new(alloc),
            held: Held::new(alloc, formula.vars())?,
            last: formula.clause_count() as u64,
            empty: false,
        })
    }

    /// Makes room for the variables of a clause, if it may have them.
    fn make_room(&mut self, clause: &[Lit]) -> Result<(), AllocError>
        requires { IsReady self.old.vars self.old }
        ensures same { checker_of self.new ≡ checker_of self.old }
        ensures ready { IsReady self.old.vars self.new }
        ensures room { OnOk result (list_any (λ l. not (nat_le l.var self.new.held.vars)) clause.now ≡ list_any (λ l. not (nat_le l.var self.old.vars)) clause.now) }
    {
        if self.held.vars() == self.vars {
            return Ok(());
        }
        let vars = greatest_variable(clause);
        if self.held.vars() < vars && vars <= self.vars {
            self.held.widen(vars)?;
            self.clauses.widen(vars);
        }
        Ok(())
    }

    /// Adds a clause, or answers the addition's fault.
    fn add(&mut self, alloc: Global, addition: &Addition) -> Result<Option<Fault>, AllocError>
        requires { IsReady self.old.vars self.old }
        ensures tested { IfOk result (λ o. Tests (test self.old.vars (checker_of self.old) (add addition.now)) self.old.vars o self.new) }
        ensures vars { self.new.vars ≡ self.old.vars }
    {
        self.make_room(addition.clause())?;
        let fault = addition_fault(
            alloc,
            &mut self.held,
            &self.clauses,
            &mut self.occurrences,
            self.last,
            addition,
        )?;
        if fault.is_some() {
            return Ok(fault);
        }
        self.held.go_back(0);
        let clause = addition.clause();
        self.clauses.push(addition.id(), clause)?;
        self.last = addition.id();
        if clause.is_empty() {
            self.empty = true;
        }
        Ok(None)
    }

    /// Takes clauses away, or answers the deletion's fault.
    fn remove(&mut self, deletion: &Deletion) -> Option<Fault>
        requires { IsReady self.old.vars self.old }
        ensures tested { Tests (test self.old.vars (checker_of self.old) (delete deletion.now)) self.old.vars result self.new }
        ensures vars { self.new.vars ≡ self.old.vars }
    {
        if delete(&mut self.clauses, deletion.ids()) {
            None
        } else {
            Some(Fault::NoSuchDeletion)
        }
    }

    /// Gives the memory of clauses that were taken away free, where they outnumber the others. Then
    /// the places change, so that the occurrences are gathered anew when they are asked for next:
    /// that costs a chain for each literal, and so is what has to be gained.
    fn tidy(&mut self, alloc: Global) -> Result<(), AllocError>
        requires { IsReady self.old.vars self.old }
        ensures same { OnOk result (checker_of self.new ≡ checker_of self.old) }
        ensures ready { OnOk result (IsReady self.old.vars self.new) }
        ensures vars { self.new.vars ≡ self.old.vars }
    {
        let chains = 2 * self.held.vars() as usize + 2;
        if self.clauses.is_sparse(chains) {
            self.clauses.pack(alloc)?;
            self.occurrences = Occurrences::new(alloc);
        }
        Ok(())
    }

    /// Whether an empty clause was added.
    pub(crate) fn is_refutation(&self) -> bool
        ensures { result ≡ self.now.empty }
    {
        self.empty
    }

    /// Takes a step, or answers its fault.
    pub(crate) fn test(&mut self, alloc: Global, step: &Step) -> Result<Option<Fault>, AllocError>
        requires { IsReady self.old.vars self.old }
        ensures tested { IfOk result (λ o. Tests (test self.old.vars (checker_of self.old) (step_of step.now)) self.old.vars o self.new) }
        ensures vars { self.new.vars ≡ self.old.vars }
    {
        match step {
            Step::Add(addition) => self.add(alloc, addition),
            Step::Delete(deletion) => {
                let fault = self.remove(deletion);
                if fault.is_none() {
                    self.tidy(alloc)?;
                }
                Ok(fault)
            }
        }
    }
}

/// Checks that steps are a proof that a formula isn't satisfiable, one step after the other; the
/// first fault decides. With none, a step has to add the empty clause. It takes time by the
/// literals of the clauses that the steps name, and memory by the clauses there.
pub fn check(alloc: Global, formula: &Formula, steps: &[Step]) -> Result<(), CheckFault>
    ensures checked { MatchResult result
        (λ _. checks formula.now (map step_of steps.now) ≡ accepted)
        (λ e. IsRefused formula.now (map step_of steps.now) e) }
    ensures sound { IfOk result (λ _. ¬ (Satisfiable formula.now)) }
{
    let mut checker = match Checker::new(alloc, formula, formula.vars()) {
        Ok(checker) => checker,
        Err(_) => return Err(CheckFault::NoMemory),
    };
    for index in 0..steps.len() {
        match checker.test(alloc, &steps[index]) {
            Ok(None) => {}
            Ok(Some(fault)) => return Err(CheckFault::at(fault, index as u64 + 1)),
            Err(_) => return Err(CheckFault::NoMemory),
        }
    }
    if checker.is_refutation() {
        Ok(())
    } else {
        Err(CheckFault::NoEmptyClause)
    }
}

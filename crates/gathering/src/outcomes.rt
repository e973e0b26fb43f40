//! The outcomes of cubes, from facts that are kept elsewhere, or solved on the spot.
ghost use Rattle.std.specs.Prelude.{◌≡◌, ◌↔◌, IsTrue, IfOk, OnOk, IfSome, MatchOption};
ghost use Rattle.theory.specs.Truth.{Formula, IsOver};
ghost use Rattle.theory.specs.Plans as plans;
ghost use Rattle.theory.specs.Runs.{Runs};
ghost use Rattle.theory.specs.Beginnings.{begun_by};
ghost use Rattle.theory.specs.Results.{done};
ghost use Rattle.theory.specs.Checked.{IsCheckedOf};
ghost use Rattle.cdcl.specs.Outcome.{outcome_of};
ghost use Rattle.packs.specs.Checking.{IsChecking};
ghost use Rattle.gathering.specs.Facts.{IsDoneAs};
ghost use Rattle.gathering.specs.Stored.{IsCheckedOfCube, AreTrueFacts, Gives};

use crate::checked::open_checker;
use crate::facts::outcome_of_claim;
use crate::store::KeepsFacts;
use cdcl::{Outcome, Plan, Unwatched};
use cnf::Formula;
use cubes::{GivesOutcomes, LazySolver, Root};
use kernel::Cube;
use lines::Row;
use packs::{Fact, FactChecker};
use std::alloc::{AllocError, Global};

/// The outcomes of a formula's cubes: of the facts that are kept of a cube the last one that is
/// checked, or, where there is none, what solving it on the spot gives.
pub struct StoredOutcomes<S> {
    pub(crate) store: S,
    checker: FactChecker,
    solver: LazySolver,
    /// So many facts were taken.
    pub taken: u64,
    /// So many cubes were solved on the spot.
    pub solved: u64,
}

// written out, so that proofs of its owners stay short (docs/PROVING.md)
impl<S: Drop> Drop for StoredOutcomes<S> {
    fn drop(self) {
        let StoredOutcomes {
            store: _,
            checker: _,
            solver: _,
            taken: _,
            solved: _,
        } = self;
    }
}

/// Whether two cubes are one.
pub(crate) fn is_same(one: &Cube, other: &Cube) -> bool
    ensures { IsTrue result ↔ (one.now ≡ other.now) }
{
    one.lits() == other.lits()
}

/// What a fact says of a cube, if it is one of this cube and is checked.
fn outcome_by_fact(
    checker: &mut FactChecker,
    formula: &Formula,
    cube: &Cube,
    fact: Fact,
) -> Result<Option<Outcome<Row>>, AllocError>
    requires { (search : plans.Search) × IsChecking search formula.now checker.old }
    ensures says { (search : plans.Search) → IsChecking search formula.now checker.old → IfOk result (λ o. MatchOption o
        (¬ (IsCheckedOfCube search formula.now cube.now fact))
        (λ o. IsCheckedOfCube search formula.now cube.now fact × IsDoneAs fact.claim (done (outcome_of o)))) }
    ensures checking { (search : plans.Search) → IsChecking search formula.now checker.old → IsChecking search formula.now checker.new }
{
    if !is_same(&fact.cube, cube) {
        return Ok(None);
    }
    if !checker.is_checked(formula, &fact)? {
        return Ok(None);
    }
    Ok(outcome_of_claim(fact.claim))
}

impl<S: KeepsFacts> StoredOutcomes<S> {
    /// Opened for a formula and the search of a plan. It takes time and memory by the formula, and
    /// fails where a request for memory is refused.
    pub fn open(
        alloc: Global,
        formula: &Formula,
        plan: Plan,
        store: S,
    ) -> Result<StoredOutcomes<S>, AllocError>
        ensures gives { IfOk result (Gives formula.now plan) }
        ensures own { IfOk result (λ o. o.store ≡ store) }
    {
        Ok(StoredOutcomes {
            store,
            checker: open_checker(alloc, formula, plan)?,
            solver: LazySolver::none(Root::Unknown),
            taken: 0,
            solved: 0,
        })
    }

    /// What the last fact of a cube says that is checked, if there is one.
    fn stored(&mut self, formula: &Formula, cube: &Cube) -> Result<Option<Outcome<Row>>, AllocError>
        requires { (plan : plans.Plan) × Gives formula.now plan self.old }
        ensures checked { (plan : plans.Plan) → Gives formula.now plan self.old → IfOk result (λ o. IfSome o (λ o. IsCheckedOf plan.search (begun_by plan.search formula.now) cube.now (done (outcome_of o)))) }
        ensures own { (plan : plans.Plan) → Gives formula.now plan self.old → AreTrueFacts S.facts formula.now plan self.old.store → IfOk result (λ o. IfSome o (λ o. Runs (begun_by plan.search formula.now) plan cube.now (outcome_of o))) }
        ensures still { (plan : plans.Plan) → Gives formula.now plan self.old → Gives formula.now plan self.new }
        ensures kept { S.facts self.new.store ≡ S.facts self.old.store }
    {
        let mut left = self.store.count(cube);
        'facts: while left > 0 {
            left -= 1;
            if let Some(fact) = self.store.fact(cube, left)? {
                let outcome = outcome_by_fact(&mut self.checker, formula, cube, fact)?;
                if outcome.is_some() {
                    return Ok(outcome);
                }
            }
        }
        Ok(None)
    }
}

impl<S: KeepsFacts> GivesOutcomes for StoredOutcomes<S> {
    ghost gives = { λ o F plan. Gives F plan o };

    ghost gives_own = { λ o F plan. AreTrueFacts S.facts F plan o.store };

    fn outcome(
        &mut self,
        alloc: Global,
        formula: &Formula,
        plan: Plan,
        cube: &Cube,
    ) -> Result<Outcome<Row>, AllocError> {
        if let Some(outcome) = self.stored(formula, cube)? {
            self.taken = self.taken.saturating_add(1);
            return Ok(outcome);
        }
        let outcome = self.solver.solve(alloc, formula, plan, cube, &Unwatched)?;
        self.solved = self.solved.saturating_add(1);
        Ok(outcome)
    }
}

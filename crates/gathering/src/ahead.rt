//! The outcomes of cubes, from facts that several threads check before they are asked for.
ghost use Rattle.std.specs.Prelude.{◌≡◌, ◌∷◌, ◌++◌, [], All, IfOk, IfSome, OnOk, MatchOption};
ghost use Rattle.std.specs.Thread.{IsSync};
ghost use Rattle.theory.specs.Truth as truth;
ghost use Rattle.theory.specs.Plans as plans;
ghost use Rattle.theory.specs.Runs.{Runs};
ghost use Rattle.theory.specs.Beginnings.{begun_by};
ghost use Rattle.theory.specs.Results.{done};
ghost use Rattle.theory.specs.Checked.{IsCheckedOf};
ghost use Rattle.cdcl.specs.Outcome.{outcome_of};
ghost use Rattle.cubes.specs.Solved.{what_by, AreCheckedResults, AreTrueResults};
ghost use Rattle.packs.specs.Checking.{IsChecking};
ghost use Rattle.gathering.specs.Facts.{IsTrueFact};
ghost use Rattle.gathering.specs.Stored.{AreTrueFacts};
ghost use Rattle.gathering.specs.Ahead.{IsTrueLoad, IsHome, IsOwnHome, AreReady, GivesAhead, GivesOwnAhead};

use crate::checked::open_checker;
use crate::loads::{Home, Load, check_loads};
use crate::outcomes::{StoredOutcomes, is_same};
use crate::store::KeepsFacts;
use crate::tree_order::tree_order;
use cdcl::{Outcome, Plan};
use cnf::Formula;
use cubes::{GivesOutcomes, Solved, What};
use kernel::Cube;
use lines::Row;
use packs::{Claim, Fact, FactChecker};
use std::alloc::{AllocError, Global};
use std::thread::Threads;

/// A thread has enough to check where its facts have so many bytes. At first it has one fact, and then
/// twice as much each time, so that the facts of a small tree are spread over all threads too.
const MOST: usize = 1 << 20;

/// The outcomes of a formula's cubes, as `StoredOutcomes` gives them, where several threads check
/// facts that the store has in the order of the tree before they are asked for. Where the order is
/// another one than that of the cubes that are asked for, it takes longer.
pub struct AheadOutcomes<'a, R, S> {
    rt: &'a R,
    pub(crate) stored: StoredOutcomes<S>,
    // one for each thread
    checkers: Vec<FactChecker>,
    // what was checked ahead, that of the last cube first
    ahead: Vec<Solved<Row>>,
    // the number of the next fact in the store's order
    next: usize,
    // so many bytes of facts are enough for each thread
    enough: usize,
    // so many outcomes were taken of those
    pub(crate) taken: u64,
}

// written out, so that proofs of its owners stay short (docs/PROVING.md)
impl<R, S: Drop> Drop for AheadOutcomes<'_, R, S> {
    fn drop(self) {
        let AheadOutcomes {
            rt: _,
            stored: _,
            checkers: _,
            ahead: _,
            next: _,
            enough: _,
            taken: _,
        } = self;
    }
}

fn open_checkers(
    alloc: Global,
    formula: &Formula,
    plan: Plan,
    count: usize,
) -> Result<Vec<FactChecker>, AllocError>
    ensures { IfOk result (λ cs. All (IsChecking plan.search formula.now) cs.items) }
{
    let mut checkers = Vec::new(alloc);
    for _ in 0..count {
        checkers.push(open_checker(alloc, formula, plan)?)?;
    }
    Ok(checkers)
}

/// About so many bytes a fact has.
fn size_of(fact: &Fact) -> usize {
    let lines = match &fact.claim {
        Claim::Refuted(row) => row.size(),
        Claim::Split(_) | Claim::Model => 0,
    };
    fact.cube.lits().len().saturating_add(lines)
}

/// Puts a fact, if there is one, behind others; about so many bytes it has.
fn put_fact(facts: &mut Vec<Fact>, fact: Option<Fact>) -> Result<usize, AllocError>
    ensures { OnOk result (MatchOption fact (facts.new.items ≡ facts.old.items) (λ f. facts.new.items ≡ facts.old.items ++ f ∷ [])) }
{
    let Some(fact) = fact else {
        return Ok(0);
    };
    let size = size_of(&fact);
    facts.push(fact)?;
    Ok(size)
}

/// The facts of a store from a number of its order on, until they have enough bytes; the number moves
/// behind them.
fn facts_from<S: KeepsFacts>(
    alloc: Global,
    store: &mut S,
    next: &mut usize,
    enough: usize,
) -> Result<Vec<Fact>, AllocError>
    ensures own { (F : truth.Formula) (plan : plans.Plan) → AreTrueFacts S.facts F plan store.old → IfOk result (λ fs. All (IsTrueFact F plan) fs.items) }
    ensures kept { S.facts store.new ≡ S.facts store.old }
{
    let mut facts = Vec::new(alloc);
    let mut bytes: usize = 0;
    for number in *next..store.ordered() {
        if bytes >= enough {
            break;
        }
        *next = number + 1;
        let fact = store.in_order(number)?;
        bytes = bytes.saturating_add(put_fact(&mut facts, fact)?);
    }
    Ok(facts)
}

/// The facts that come next, for each of these checkers, the last one first.
fn next_loads<S: KeepsFacts>(
    alloc: Global,
    store: &mut S,
    next: &mut usize,
    enough: usize,
    checkers: &mut Vec<FactChecker>,
) -> Result<Vec<Load>, AllocError>
    ensures checkers { (search : plans.Search) (F : truth.Formula) → All (IsChecking search F) checkers.old.items → IfOk result (λ ls. All (λ l. IsChecking search F l.checker) ls.items) }
    ensures own { (F : truth.Formula) (plan : plans.Plan) → AreTrueFacts S.facts F plan store.old → IfOk result (λ ls. All (IsTrueLoad F plan) ls.items) }
    ensures kept { S.facts store.new ≡ S.facts store.old }
    ensures none { OnOk result (checkers.new.items ≡ []) }
{
    let mut loads = Vec::new(alloc);
    'checkers: while let Some(checker) = checkers.pop() {
        let facts = facts_from(alloc, store, next, enough)?;
        loads.push(Load { checker, facts })?;
    }
    Ok(loads)
}

/// Puts results behind others, the last one first.
fn put_reversed(
    ahead: &mut Vec<Solved<Row>>,
    mut results: Vec<Solved<Row>>,
) -> Result<(), AllocError>
    ensures checked { (search : plans.Search) (F : truth.Formula) → AreCheckedResults search F ahead.old.items → AreCheckedResults search F results.items
        → OnOk result (AreCheckedResults search F ahead.new.items) }
    ensures own { (F : truth.Formula) (plan : plans.Plan) → AreTrueResults F plan ahead.old.items → AreTrueResults F plan results.items
        → OnOk result (AreTrueResults F plan ahead.new.items) }
{
    results.reverse();
    ahead.append(&mut results)?;
    Ok(())
}

/// Puts what threads handed back to what was checked ahead, that of the last cube first, and their
/// checkers to the others.
fn take_home(
    checkers: &mut Vec<FactChecker>,
    ahead: &mut Vec<Solved<Row>>,
    mut homes: Vec<Home>,
) -> Result<(), AllocError>
    ensures checked { (F : truth.Formula) (plan : plans.Plan) → All (IsHome F plan) homes.items → AreReady F plan checkers.old.items ahead.old.items
        → OnOk result (AreReady F plan checkers.new.items ahead.new.items) }
    ensures own { (F : truth.Formula) (plan : plans.Plan) → All (IsOwnHome F plan) homes.items → AreTrueResults (begun_by plan.search F) plan ahead.old.items
        → OnOk result (AreTrueResults (begun_by plan.search F) plan ahead.new.items) }
{
    'homes: while let Some(home) = homes.pop() {
        let Home { checker, results } = home;
        let results = results?;
        checkers.push(checker)?;
        put_reversed(ahead, results)?;
    }
    Ok(())
}

/// Takes away what was checked ahead of cubes that come before this one: nobody asks for it any
/// more.
fn drop_passed(ahead: &mut Vec<Solved<Row>>, cube: &Cube)
    ensures checked { (search : plans.Search) (F : truth.Formula) → AreCheckedResults search F ahead.old.items → AreCheckedResults search F ahead.new.items }
    ensures own { (F : truth.Formula) (plan : plans.Plan) → AreTrueResults F plan ahead.old.items → AreTrueResults F plan ahead.new.items }
{
    let left = ahead.partition_point(|next| tree_order(&next.cube, cube).is_ge());
    ahead.truncate(left);
}

/// The number of the next fact to check: the first one where a way through the tree begins, which is
/// at the root.
fn number_at(cube: &Cube, next: usize) -> usize {
    if cube.lits().is_empty() { 0 } else { next }
}

/// Whether the next outcome that was checked ahead is this cube's.
fn is_next(ahead: &[Solved<Row>], cube: &Cube) -> bool {
    match ahead.last() {
        Some(next) => is_same(&next.cube, cube),
        None => false,
    }
}

/// The outcome of a result, if it is this cube's.
fn outcome_in(solved: Solved<Row>, cube: &Cube) -> Option<Outcome<Row>>
    ensures { IfSome result (λ o. (solved.cube ≡ cube.now) × (what_by (λ lines. lines) solved.what ≡ done (outcome_of o))) }
{
    let Solved { cube: own, what } = solved;
    if !is_same(&own, cube) {
        return None;
    }
    match what {
        What::Done(outcome) => Some(outcome),
        What::Skipped(_) => None,
    }
}

/// Takes the next outcome that was checked ahead, if it is this cube's.
fn take_of(ahead: &mut Vec<Solved<Row>>, cube: &Cube) -> Option<Outcome<Row>>
    ensures checked { (search : plans.Search) (F : truth.Formula) → AreCheckedResults search F ahead.old.items
        → IfSome result (λ o. IsCheckedOf search F cube.now (done (outcome_of o))) × AreCheckedResults search F ahead.new.items }
    ensures own { (F : truth.Formula) (plan : plans.Plan) → AreTrueResults F plan ahead.old.items
        → IfSome result (λ o. Runs F plan cube.now (outcome_of o)) × AreTrueResults F plan ahead.new.items }
{
    if !is_next(ahead, cube) {
        return None;
    }
    match ahead.pop() {
        Some(next) => outcome_in(next, cube),
        None => None,
    }
}

/// Takes away what was checked ahead of another way through the tree, where a way begins, which is
/// at the root.
fn forget_others(ahead: &mut Vec<Solved<Row>>, cube: &Cube)
    ensures checked { (search : plans.Search) (F : truth.Formula) → AreCheckedResults search F ahead.old.items → AreCheckedResults search F ahead.new.items }
    ensures own { (F : truth.Formula) (plan : plans.Plan) → AreTrueResults F plan ahead.old.items → AreTrueResults F plan ahead.new.items }
{
    if cube.lits().is_empty() {
        ahead.clear();
    }
}

impl<'a, R, S: KeepsFacts> AheadOutcomes<'a, R, S> {
    /// Opened for a formula and the search of a plan, with so many threads. It takes time and memory
    /// by the formula, once for each of them and once more, and fails where a request for memory is
    /// refused.
    pub fn open(
        rt: &'a R,
        alloc: Global,
        formula: &Formula,
        plan: Plan,
        store: S,
        threads: usize,
    ) -> Result<AheadOutcomes<'a, R, S>, AllocError>
        ensures gives { IfOk result (GivesAhead formula.now plan) }
        ensures own { AreTrueFacts S.facts formula.now plan store → IfOk result (GivesOwnAhead S.facts formula.now plan) }
    {
        Ok(AheadOutcomes {
            rt,
            stored: StoredOutcomes::open(alloc, formula, plan, store)?,
            checkers: open_checkers(alloc, formula, plan, threads)?,
            ahead: Vec::new(alloc),
            next: 0,
            enough: 1,
            taken: 0,
        })
    }

    /// Whether there is an outcome that was checked ahead, or no fact to check.
    fn is_stocked(&self) -> bool {
        !self.ahead.is_empty() || self.next >= self.stored.store.ordered()
    }
}

impl<R: Threads + Sync, S: KeepsFacts> AheadOutcomes<'_, R, S> {
    /// Lets the threads check the facts that come next.
    fn check_next(&mut self, alloc: Global, formula: &Formula, plan: Plan) -> Result<(), AllocError>
        requires { GivesAhead formula.now plan self.old }
        ensures gives { OnOk result (GivesAhead formula.now plan self.new) }
        ensures own { GivesOwnAhead S.facts formula.now plan self.old → OnOk result (GivesOwnAhead S.facts formula.now plan self.new) }
    {
        let loads = next_loads(
            alloc,
            &mut self.stored.store,
            &mut self.next,
            self.enough,
            &mut self.checkers,
        )?;
        self.enough = self.enough.saturating_mul(2).min(MOST);
        let homes = check_loads(self.rt, alloc, formula, plan, loads)?;
        take_home(&mut self.checkers, &mut self.ahead, homes)
    }

    /// Comes to a cube, which comes behind the one before in the order of the tree, or is the root,
    /// where a way through the tree begins.
    fn come_to(
        &mut self,
        alloc: Global,
        formula: &Formula,
        plan: Plan,
        cube: &Cube,
    ) -> Result<(), AllocError>
        requires { GivesAhead formula.now plan self.old }
        ensures gives { OnOk result (GivesAhead formula.now plan self.new) }
        ensures own { GivesOwnAhead S.facts formula.now plan self.old → OnOk result (GivesOwnAhead S.facts formula.now plan self.new) }
    {
        self.next = number_at(cube, self.next);
        forget_others(&mut self.ahead, cube);
        drop_passed(&mut self.ahead, cube);
        if self.is_stocked() {
            return Ok(());
        }
        self.check_next(alloc, formula, plan)?;
        drop_passed(&mut self.ahead, cube);
        Ok(())
    }
}

impl<R: Threads + Sync, S: KeepsFacts> GivesOutcomes for AheadOutcomes<'_, R, S> {
    // that threads may share R is said here, since a trait's method isn't told of it
    ghost gives = { λ o F plan. IsSync R.row × GivesAhead F plan o };

    ghost gives_own = { λ o F plan. GivesOwnAhead S.facts F plan o };

    fn outcome(
        &mut self,
        alloc: Global,
        formula: &Formula,
        plan: Plan,
        cube: &Cube,
    ) -> Result<Outcome<Row>, AllocError> {
        self.come_to(alloc, formula, plan, cube)?;
        if let Some(outcome) = take_of(&mut self.ahead, cube) {
            self.taken = self.taken.saturating_add(1);
            return Ok(outcome);
        }
        self.stored.outcome(alloc, formula, plan, cube)
    }
}

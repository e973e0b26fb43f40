//! The results of cubes that facts come to.
ghost use Rattle.std.specs.Prelude.{◌≡◌, ◌++◌, ◌∷◌, [], IfOk, OnOk, MatchOption};
ghost use Rattle.theory.specs.Plans as plans;
ghost use Rattle.packs.specs.Checking.{IsCheckedFact, IsChecking};
ghost use Rattle.gathering.specs.Facts.{IsSolvedAs};
ghost use Rattle.gathering.specs.Kept.{Keeps};

use crate::facts::solved_of;
use cdcl::{Plan, Search};
use cnf::Formula;
use cubes::Solved;
use lines::Row;
use packs::{Fact, FactChecker};
use std::alloc::{AllocError, Global};

/// What checks facts of a formula by the search of a plan.
pub(crate) fn open_checker(
    alloc: Global,
    formula: &Formula,
    plan: Plan,
) -> Result<FactChecker, AllocError>
    ensures { IfOk result (IsChecking plan.search formula.now) }
{
    match plan.search() {
        Search::Ordered => FactChecker::ordered(alloc, formula),
        Search::Focused => FactChecker::focused(alloc, formula),
    }
}

/// What became of a fact's cube, if the fact is checked.
fn solved(
    checker: &mut FactChecker,
    formula: &Formula,
    fact: Fact,
) -> Result<Option<Solved<Row>>, AllocError>
    requires { (search : plans.Search) × IsChecking search formula.now checker.old }
    ensures solved { (search : plans.Search) → IsChecking search formula.now checker.old → IfOk result (λ o. MatchOption o
        (¬ (IsCheckedFact search formula.now fact))
        (λ s. IsCheckedFact search formula.now fact × IsSolvedAs fact s)) }
    ensures checking { (search : plans.Search) → IsChecking search formula.now checker.old → IsChecking search formula.now checker.new }
{
    if !checker.is_checked(formula, &fact)? {
        return Ok(None);
    }
    Ok(solved_of(fact))
}

/// Puts a result, if there is one, behind the others.
fn put(results: &mut Vec<Solved<Row>>, solved: Option<Solved<Row>>) -> Result<(), AllocError>
    ensures { OnOk result (MatchOption solved (results.new.items ≡ results.old.items) (λ s. results.new.items ≡ results.old.items ++ s ∷ [])) }
{
    if let Some(solved) = solved {
        results.push(solved)?;
    }
    Ok(())
}

/// The results of those facts that are checked, in their order; the others are left out. It fails
/// where a request for memory is refused, and so may what is checked from then on.
pub(crate) fn kept_results(
    alloc: Global,
    checker: &mut FactChecker,
    formula: &Formula,
    facts: Vec<Fact>,
) -> Result<Vec<Solved<Row>>, AllocError>
    requires { (search : plans.Search) × IsChecking search formula.now checker.old }
    ensures keeps { (search : plans.Search) → IsChecking search formula.now checker.old → IfOk result (λ rs. Keeps search formula.now facts.items rs.items) }
    ensures checking { (search : plans.Search) → IsChecking search formula.now checker.old → IsChecking search formula.now checker.new }
{
    let mut results = Vec::new(alloc);
    for fact in facts {
        let result = solved(checker, formula, fact)?;
        put(&mut results, result)?;
    }
    Ok(results)
}

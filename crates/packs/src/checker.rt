//! Facts that nobody vouches for, one after the other.
ghost use Rattle.std.specs.Prelude.{◌≡◌, ◌↔◌, IsTrue, IfOk};
ghost use Rattle.theory.specs.Truth.{IsOver};
ghost use Rattle.theory.specs.Plans.{Search, Constants, ordered, focused};
ghost use Rattle.theory.specs.Beginnings.{begun_by};
ghost use Rattle.theory.specs.Checked.{IsCheckedSplit, AreCheckedLines};
ghost use Rattle.packs.specs.Opened.{opened};
ghost use Rattle.packs.specs.Checking.{IsCheckedFact, IsSplitting, IsChecking, units_by};

use crate::fact::{Claim, Fact};
use crate::replay::holding::is_over;
use crate::replay::replayer::Replayer;
use crate::replay::splits::{LeastSplits, is_fit_split};
use cnf::Formula;
use kernel::Cube;
use lines::Row;
use std::alloc::{AllocError, Global};

/// Checks facts of a formula's cubes, one after the other. It takes memory by the formula's
/// variables, with the ordered search by its literals too, and by the longest fact.
#[derive(Drop)]
pub struct FactChecker {
    replayer: Replayer,
    // by the ordered search, whose splits are least ones
    splits: Option<LeastSplits>,
}

/// Whether a split of a cube is checked, by the search that `splits` is opened for.
fn is_checked_split(
    splits: &mut Option<LeastSplits>,
    formula: &Formula,
    cube: &Cube,
    var: u32,
) -> Result<bool, AllocError>
    requires over { IsOver formula.now.vars cube.now }
    requires splitting { (search : Search) × IsSplitting search formula.now splits.old }
    ensures split { (search : Search) → IsSplitting search formula.now splits.old →
        IfOk result (λ b. IsTrue b ↔ IsCheckedSplit search (begun_by search formula.now) cube.now var) }
    ensures splitting { (search : Search) → IsSplitting search formula.now splits.old → IsSplitting search formula.now splits.new }
{
    match splits {
        Some(splits) => splits.is_least(formula, cube, var),
        None => Ok(is_fit_split(formula, cube, var)),
    }
}

/// Whether the lines of a row replay as a refutation of a cube, over the clauses that the search
/// begins with that `replayer` is opened for.
fn are_checked_lines(
    replayer: &mut Replayer,
    formula: &Formula,
    cube: &Cube,
    row: &Row,
) -> Result<bool, AllocError>
    requires { (search : Search) × (replayer.old ≡ opened formula.now (units_by search formula.now)) }
    ensures lines { (search : Search) → replayer.old ≡ opened formula.now (units_by search formula.now) →
        IfOk result (λ b. IsTrue b ↔ AreCheckedLines (begun_by search formula.now) cube.now row.now) }
    ensures stays { replayer.new ≡ replayer.old }
{
    replayer.replays(formula, cube, row)
}

impl FactChecker {
    /// Opened for a formula and the ordered search. It takes time by the formula's literals, and
    /// fails where a request for memory is refused.
    pub fn ordered(alloc: Global, formula: &Formula) -> Result<FactChecker, AllocError>
        ensures { IfOk result (IsChecking ordered formula.now) }
    {
        let units = formula.pure(alloc)?;
        Ok(FactChecker {
            replayer: Replayer::open(alloc, formula, units)?,
            splits: Some(LeastSplits::open(alloc, formula)?),
        })
    }

    /// Opened for a formula and the focused search. It takes time by the formula's literals, and
    /// fails where a request for memory is refused.
    pub fn focused(alloc: Global, formula: &Formula) -> Result<FactChecker, AllocError>
        ensures { (constants : Constants) → IfOk result (IsChecking (focused constants) formula.now) }
    {
        Ok(FactChecker {
            replayer: Replayer::open(alloc, formula, Vec::new(alloc))?,
            splits: None,
        })
    }

    /// Whether a fact is checked: its cube is one over the formula's variables, and either its lines
    /// replay, or its split is one that is checked by the search: with the ordered search the least
    /// variable that propagation leaves free, else any variable that isn't in the cube. A claimed
    /// model isn't: the cube has to be solved. It takes time by the fact and by the clauses that its
    /// hints name or that propagation visits, and none by the formula. It fails where a request for
    /// memory is refused, and may fail from then on.
    pub fn is_checked(&mut self, formula: &Formula, fact: &Fact) -> Result<bool, AllocError>
        requires { (search : Search) × IsChecking search formula.now self.old }
        ensures fact { (search : Search) → IsChecking search formula.now self.old →
            IfOk result (λ b. IsTrue b ↔ IsCheckedFact search formula.now fact.now) }
        ensures checking { (search : Search) → IsChecking search formula.now self.old → IsChecking search formula.now self.new }
    {
        if !is_over(formula.vars(), fact.cube.lits()) {
            return Ok(false);
        }
        let answer = match &fact.claim {
            Claim::Split(var) => is_checked_split(&mut self.splits, formula, &fact.cube, *var)?,
            Claim::Refuted(row) => are_checked_lines(&mut self.replayer, formula, &fact.cube, row)?,
            Claim::Model => false,
        };
        Ok(answer)
    }
}

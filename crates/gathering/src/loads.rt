//! Facts that several threads check side by side, each with a checker of its own.
ghost use Rattle.std.specs.Prelude.{◌≡◌, All, IfOk};
ghost use Rattle.packs.specs.Checking.{IsChecking};
ghost use Rattle.gathering.specs.Ahead.{IsTrueLoad, IsHome, IsOwnHome};

use crate::checked::kept_results;
use cdcl::Plan;
use cnf::Formula;
use cubes::Solved;
use lines::Row;
use packs::{Fact, FactChecker};
use std::alloc::{AllocError, Global};
use std::thread;
use std::thread::Threads;

/// What a thread checks, and with what.
#[derive(Drop)]
pub(crate) struct Load {
    pub(crate) checker: FactChecker,
    pub(crate) facts: Vec<Fact>,
}

/// What a thread hands back: its checker, and the results of those of its facts that are checked.
#[derive(Drop)]
pub(crate) struct Home {
    pub(crate) checker: FactChecker,
    /// In the facts' order; or that a request for memory was refused.
    pub(crate) results: Result<Vec<Solved<Row>>, AllocError>,
}

/// Checks a load.
fn check_load(alloc: Global, formula: &Formula, plan: Plan, load: Load) -> Home
    requires { IsChecking plan.search formula.now load.checker }
    ensures home { IsHome formula.now plan result }
    ensures own { IsTrueLoad formula.now plan load → IsOwnHome formula.now plan result }
{
    let Load { mut checker, facts } = load;
    let results = kept_results(alloc, &mut checker, formula, facts);
    Home { checker, results }
}

/// Checks loads, each in a thread of its own where one can be started. It fails where a request for
/// memory is refused.
pub(crate) fn check_loads<R: Threads + Sync>(
    rt: &R,
    alloc: Global,
    formula: &Formula,
    plan: Plan,
    loads: Vec<Load>,
) -> Result<Vec<Home>, AllocError>
    requires { All (λ l. IsChecking plan.search formula.now l.checker) loads.items }
    ensures home { IfOk result (λ hs. All (IsHome formula.now plan) hs.items) }
    ensures own { All (IsTrueLoad formula.now plan) loads.items → IfOk result (λ hs. All (IsOwnHome formula.now plan) hs.items) }
{
    thread::map_vec(
        rt,
        loads,
        &|load: Load| -> Home
            requires { IsChecking plan.search formula.now load.checker }
            ensures home { IsHome formula.entry.now plan result }
            ensures own { IsTrueLoad formula.entry.now plan load → IsOwnHome formula.entry.now plan result }
        { check_load(alloc, formula, plan, load) },
    )
}

//! Runs within the standard limits that nothing watches.
ghost use Rattle.std.specs.Prelude.{◌≡◌, None};

use cdcl::Plan;
use cnf::Limits;
use cubes::{HandCount, OpenGate};
use runs::{Gathering, Options, RunEnd, RunFault, TimeLimit, run_with};
use std::alloc::Global;
use std::io::Write;
use std::sync::Wait;
use std::thread::Threads;
use std::time::Clock;
use strategies::{Strategy, Unobserved};

/// What `run_with` does of a text by a plan.
pub(crate) fn run_plainly<R: Threads + Wait + Clock + Sync, W: Write, P: Write>(
    rt: &R,
    alloc: Global,
    text: &str,
    plan: Plan,
    hands: HandCount,
    answer: &mut W,
    proof: &mut P,
) -> Result<RunEnd, RunFault> {
    let options = Options {
        limits: Limits::Standard,
        strategy: Strategy::of(plan),
        hands,
        gate: &OpenGate,
        limit: &TimeLimit::begin(rt, None),
        observer: &Unobserved,
    };
    run_with(rt, alloc, text.as_bytes(), &options, answer, proof)
}

/// A store's facts, which so many hands gather by a plan.
pub(crate) fn gathering_of<S>(store: S, plan: Plan, hands: HandCount) -> Gathering<S>
    ensures { result.strategy.first ≡ None }
{
    Gathering {
        store,
        limits: Limits::Standard,
        strategy: Strategy::of(plan),
        hands,
    }
}

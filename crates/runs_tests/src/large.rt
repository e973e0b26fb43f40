//! Calls within the large limits, and the standard ones beside them.

use cdcl::Plan;
use cnf::{Limits, Place, ReadFault};
use cubes::{HandCount, OpenGate};
use runs::{
    CheckRules, Checked, Options, RunEnd, RunFault, TimeLimit, Verdict, answer_with, check_run,
    check_with, run_with,
};
use std::alloc::Global;
use std::sync::Wait;
use std::test::Fail;
use std::thread::Threads;
use std::time::Clock;
use strategies::{Strategy, Unobserved};
use test_samples::{FOUR, FOUR_PROOF};

/// One more variable than the standard limits allow, and two clauses that refute it.
const WIDE: &[u8] = b"p cnf 262144 2\n1 0\n-1 0\n";

/// What the standard limits say of it.
const REFUSED: RunFault = RunFault::Read(ReadFault::OverLimit(Place { line: 1, column: 7 }));

/// Whether a run within the large limits writes the four clauses' proof.
fn runs(rt: &(impl Threads + Wait + Clock + Sync), alloc: Global) -> Result<bool, RunFault> {
    let (mut said, mut lines) = (Vec::new(alloc), Vec::new(alloc));
    let options = Options {
        limits: Limits::Large,
        strategy: Strategy::of(Plan::ordered(1)),
        hands: HandCount::of(2),
        gate: &OpenGate,
        limit: &TimeLimit::begin(rt, None),
        observer: &Unobserved,
    };
    let formula = FOUR.as_bytes();
    let end = run_with(rt, alloc, formula, &options, &mut said, &mut lines)?;
    Ok(
        end == RunEnd::Decided(Verdict::Unsatisfiable)
            && lines.as_slice() == FOUR_PROOF.as_bytes()
            && said.as_slice() == b"s UNSATISFIABLE\n".as_slice(),
    )
}

/// Whether a fault is what the standard limits say; an error where memory was refused.
fn is_refusal(fault: RunFault) -> Result<bool, RunFault> {
    if fault == RunFault::NoMemory {
        return Err(fault);
    }
    Ok(fault == REFUSED)
}

/// The answer to the wide formula within limits.
fn answer_of<R: Threads + Wait + Clock + Sync>(
    rt: &R,
    alloc: Global,
    limits: Limits,
    said: &mut Vec<u8>,
) -> Result<RunEnd, RunFault> {
    let options = Options {
        limits,
        strategy: Strategy::of(Plan::ordered(1000)),
        hands: HandCount::of(1),
        gate: &OpenGate,
        limit: &TimeLimit::begin(rt, None),
        observer: &Unobserved,
    };
    answer_with(rt, alloc, WIDE, &options, said)
}

/// Whether the wide formula is refused within the standard limits, and answered within the large
/// ones.
fn answers(rt: &(impl Threads + Wait + Clock + Sync), alloc: Global) -> Result<bool, RunFault> {
    let mut said = Vec::new(alloc);
    let Err(fault) = answer_of(rt, alloc, Limits::Standard, &mut said) else {
        return Ok(false);
    };
    let is_refused = is_refusal(fault)? && said.is_empty();
    let end = answer_of(rt, alloc, Limits::Large, &mut said)?;
    Ok(
        is_refused
            && end == RunEnd::Decided(Verdict::Unsatisfiable)
            && said.as_slice() == b"s UNSATISFIABLE\n".as_slice(),
    )
}

/// Whether its proof is refused and accepted so.
fn checks(alloc: Global) -> Result<bool, RunFault> {
    let mut said = Vec::new(alloc);
    let proof: &[u8] = b"3 0 1 2 0\n";
    let Err(fault) = check_run(alloc, WIDE, proof, &mut said) else {
        return Ok(false);
    };
    let is_refused = is_refusal(fault)? && said.is_empty();
    let rules = CheckRules::within(Limits::Large);
    let told = check_with(alloc, WIDE, proof, rules, &mut said, &Unobserved)?;
    Ok(
        is_refused
            && told.checked == Checked::Accepted
            && said.as_slice() == b"accepted\n".as_slice(),
    )
}

#[test]
fn large_limits(rt: HostRuntime) -> Result<(), Fail> {
    assert!(rt; runs(&rt, rt.alloc())?, "run");
    assert!(rt; answers(&rt, rt.alloc())?, "answer");
    assert!(rt; checks(rt.alloc())?, "check");
    Ok(())
}

//! What stands after a fault of a run over stored facts that goes through the tree once.

use crate::facts_in_memory::FactsInMemory;
use crate::plainly::gathering_of;
use cdcl::Plan;
use cubes::HandCount;
use runs::{RunFault, gather_at_once, run_one};
use std::alloc::{AllocError, Global};
use std::fmt::Write;
use std::test::Fail;
use std::thread::Threads;
use test_samples::faulty::{Limited, Limits, ROOMY, UNFLUSHED};
use test_samples::{FOUR, FOUR_PROOF};

const REFUTED: &[u8] = b"s UNSATISFIABLE\n";

/// What a run's fault leaves at its writers.
#[derive(Clone, Copy)]
struct Left<'a> {
    fault: RunFault,
    proof: &'a [u8],
    answer: &'a [u8],
}

/// Whether a run at budget 1 without facts leaves just this at writers of these limits.
fn leaves<R: Threads + Sync>(
    rt: &R,
    alloc: Global,
    text: &str,
    proof: Limits,
    answer: Limits,
    left: &Left,
) -> Result<bool, AllocError> {
    let store = FactsInMemory::new(alloc, Vec::new(alloc))?;
    let mut proof = Limited::new(alloc, proof);
    let mut answer = Limited::new(alloc, answer);
    let gathering = gathering_of(store, Plan::ordered(1), HandCount::of(1));
    let input = text.as_bytes();
    let result = gather_at_once(rt, alloc, input, gathering, &mut answer, &mut proof);
    Ok(
        result == Err(left.fault)
            && proof.taken.as_slice() == left.proof
            && answer.taken.as_slice() == left.answer,
    )
}

/// Whether a run whose proof has room for so many bytes stops in it, before its answer.
fn stops_in_proof<R: Threads + Sync>(
    rt: &R,
    alloc: Global,
    text: &str,
    proof: &[u8],
    room: usize,
) -> Result<bool, AllocError> {
    let left = Left {
        fault: RunFault::ProofWriteFailed,
        proof: &proof[..room.min(proof.len())],
        answer: b"",
    };
    leaves(rt, alloc, text, Limits::of(room), ROOMY, &left)
}

/// Whether a run whose answer has room for so many bytes stops in it, behind its whole proof.
fn stops_in_answer<R: Threads + Sync>(
    rt: &R,
    alloc: Global,
    room: usize,
) -> Result<bool, AllocError> {
    let left = Left {
        fault: RunFault::AnswerWriteFailed,
        proof: FOUR_PROOF.as_bytes(),
        answer: &REFUTED[..room.min(REFUTED.len())],
    };
    leaves(rt, alloc, FOUR, ROOMY, Limits::of(room), &left)
}

/// Whether a run whose proof can't be flushed has no answer.
fn stops_in_flush(rt: &(impl Threads + Sync), alloc: Global) -> Result<bool, AllocError> {
    let left = Left {
        fault: RunFault::ProofWriteFailed,
        proof: FOUR_PROOF.as_bytes(),
        answer: b"",
    };
    leaves(rt, alloc, FOUR, UNFLUSHED, ROOMY, &left)
}

#[test]
fn writes_that_fail_leave_no_verdict(rt: HostRuntime) -> Result<(), Fail> {
    let proof = FOUR_PROOF.as_bytes();
    for room in 0..proof.len() {
        let stops = stops_in_proof(&rt, rt.alloc(), FOUR, proof, room)?;
        assert!(rt; stops, "room for {room} bytes of a proof");
    }
    assert!(rt; stops_in_flush(&rt, rt.alloc())?, "no flush");
    for room in 0..REFUTED.len() {
        let stops = stops_in_answer(&rt, rt.alloc(), room)?;
        assert!(rt; stops, "room for {room} bytes of an answer");
    }
    Ok(())
}

/// So many holes, and one pigeon more.
const HOLES: u32 = 7;

/// The variable that says that a pigeon is in a hole.
fn variable(pigeon: u32, hole: u32) -> u32 {
    pigeon.min(HOLES) * HOLES + hole.min(HOLES) + 1
}

/// No two pigeons are in one hole.
fn write_pairs(text: &mut String, hole: u32) -> Result<(), AllocError> {
    for pigeon in 0..=HOLES {
        for other in 0..pigeon {
            write!(
                text,
                "-{} -{} 0\n",
                variable(other, hole),
                variable(pigeon, hole)
            )?;
        }
    }
    Ok(())
}

/// Each pigeon is in a hole, and no two in one.
fn pigeons(alloc: Global) -> Result<String, AllocError> {
    let mut text = String::new(alloc);
    write!(text, "p cnf 56 204\n")?;
    for pigeon in 0..=HOLES {
        for hole in 0..HOLES {
            write!(text, "{} ", variable(pigeon, hole))?;
        }
        write!(text, "0\n")?;
    }
    for hole in 0..HOLES {
        write_pairs(&mut text, hole)?;
    }
    Ok(text)
}

/// The proof of a formula by a run at budget 1.
fn proof_of(alloc: Global, text: &str) -> Result<Vec<u8>, RunFault> {
    let mut proof = Vec::new(alloc);
    let mut answer = Vec::new(alloc);
    run_one(alloc, text.as_bytes(), &mut answer, &mut proof, 1)?;
    Ok(proof)
}

/// A proof that is written in pieces on the way through the tree: a write that fails there isn't
/// taken for want of memory.
#[test]
fn a_write_on_the_way_may_fail(rt: HostRuntime) -> Result<(), Fail> {
    let text = pigeons(rt.alloc())?;
    let proof = proof_of(rt.alloc(), text.as_str())?;
    assert!(rt; proof.len() > 150_000);
    for room in [0, 100_000] {
        let stops = stops_in_proof(&rt, rt.alloc(), text.as_str(), &proof, room)?;
        assert!(rt; stops, "room for {room} bytes");
    }
    Ok(())
}

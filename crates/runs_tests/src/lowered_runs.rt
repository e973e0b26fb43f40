//! Runs that lower a model, in memory: what is written where the limit is reached before each question,
//! and where the writer of the answer takes fewer bytes.

use crate::limited_runs::Asked;
use cdcl::Plan;
use cubes::{HandCount, OpenGate};
use runs::{Options, RunEnd, RunFault, Verdict, answer_with, run_with};
use std::alloc::Global;
use std::sync::Wait;
use std::thread::Threads;
use std::time::Clock;
use strategies::{Strategy, Unobserved};
use test_samples::faulty::{Limited, Limits};

/// The ordered search comes to -1 2 -3 after a conflict, and the focused one to 1 2 3. Of the questions,
/// the first assumes -1, and its model is -1 2 3; the second assumes -2, and has none; the third assumes
/// -3, and has one.
const HIGHER: &[u8] = b"p cnf 3 4\n1 2 3 0\n1 2 -3 0\n-1 2 3 0\n-1 2 -3 0\n";

/// How often the limit is asked before it is reached: once before each of the two searches, and once
/// before each question. Then how the run ends, and its answer.
type Row = (u64, RunEnd, &'static str);

const LOWERED: &str = "s SATISFIABLE\nv -1 2 -3 0\n";

static ROWS: [Row; 6] = [
    (0, RunEnd::Unknown, "s UNKNOWN\n"),
    (1, RunEnd::Unknown, "s UNKNOWN\n"),
    (
        2,
        RunEnd::NotFirst,
        "s SATISFIABLE\nc this model satisfies the formula, and need not be the first: time was up (variable 0 of 3 is settled)\nv 1 2 3 0\n",
    ),
    (
        3,
        RunEnd::NotFirst,
        "s SATISFIABLE\nc this model satisfies the formula, and need not be the first: time was up (variable 1 of 3 is settled)\nv -1 2 3 0\n",
    ),
    (
        4,
        RunEnd::NotFirst,
        "s SATISFIABLE\nc this model satisfies the formula, and need not be the first: time was up (variable 2 of 3 is settled)\nv -1 2 3 0\n",
    ),
    (5, RunEnd::Decided(Verdict::Satisfiable), LOWERED),
];

/// Whether a run, with a proof if one is wanted, ends so and leaves this in a writer of the answer
/// that takes so many bytes.
fn ends<R: Threads + Wait + Clock + Sync>(
    rt: &R,
    alloc: Global,
    often: u64,
    room: usize,
    has_proof: bool,
    wanted: (Result<RunEnd, RunFault>, &[u8]),
) -> bool {
    let mut answer = Limited::new(alloc, Limits::of(room));
    let mut proof = Vec::new(alloc);
    let options = Options {
        limits: cnf::Limits::Standard,
        strategy: Strategy::automatic(1, Plan::focused(1000)),
        hands: HandCount::of(1),
        gate: &OpenGate,
        limit: &Asked::new(often),
        observer: &Unobserved,
    };
    let end = if has_proof {
        run_with(rt, alloc, HIGHER, &options, &mut answer, &mut proof)
    } else {
        answer_with(rt, alloc, HIGHER, &options, &mut answer)
    };
    end == wanted.0 && answer.taken.as_slice() == wanted.1
}

#[test]
fn a_limit_ends_a_lowering(rt: HostRuntime) {
    for row in &ROWS {
        let (often, end, text) = *row;
        for has_proof in [true, false] {
            let wanted = (Ok(end), text.as_bytes());
            assert!(rt;
                ends(&rt, rt.alloc(), often, 200, has_proof, wanted),
                "asked {often} times"
            );
        }
    }
}

#[test]
fn a_writer_that_fails_has_a_beginning(rt: HostRuntime) {
    for room in 0..LOWERED.len() {
        for has_proof in [true, false] {
            let wanted = (
                Err(RunFault::AnswerWriteFailed),
                &LOWERED.as_bytes()[..room],
            );
            assert!(rt;
                ends(&rt, rt.alloc(), u64::MAX, room, has_proof, wanted),
                "{room} bytes"
            );
        }
    }
}

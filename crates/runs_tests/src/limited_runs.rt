//! `run_with` in memory: what it writes, and what it comes to, by how often its limit is asked
//! before it is reached.
ghost use Rattle.std.specs.Prelude.{⊤};

use cdcl::Plan;
use cnf::{Place, ReadFault};
use cubes::{HandCount, OpenGate};
use runs::{Limit, Options, RunEnd, RunFault, Verdict, run_with};
use std::alloc::Global;
use std::sync::Wait;
use std::sync::atomic::{AtomicU64, Ordering};
use std::thread::Threads;
use std::time::Clock;
use strategies::{Strategy, Unobserved};
use test_samples::faulty::{Limited, Limits};
use test_samples::{FOUR, FOUR_PROOF};

/// A limit that is reached once it was asked so often.
#[derive(Drop)]
pub(crate) struct Asked {
    often: u64,
    asked: AtomicU64,
}

impl Asked {
    pub(crate) fn new(often: u64) -> Asked {
        Asked {
            often,
            asked: AtomicU64::new(0),
        }
    }
}

impl Limit for Asked {
    ghost is_reached = { λ _. ⊤ };

    fn reached(&self) -> bool {
        self.asked.fetch_add(1, Ordering::SeqCst) >= self.often
    }
}

type Outcome = Result<RunEnd, RunFault>;

/// A formula, how often the limit is asked before it is reached, how many bytes of the answer are
/// taken, what the run comes to, and what its writers have taken.
#[derive(Clone, Copy)]
struct Row {
    formula: &'static str,
    often: u64,
    room: usize,
    result: Outcome,
    answer: &'static str,
    proof: &'static str,
}

/// The limit is reached before the root.
const ENDED: Row = Row {
    formula: FOUR,
    often: 0,
    room: 100,
    result: Ok(RunEnd::Unknown),
    answer: "s UNKNOWN\n",
    proof: "",
};

/// It isn't asked again once the second half of the root is begun.
const SOLVED: Row = Row {
    often: 3,
    result: Ok(RunEnd::Decided(Verdict::Unsatisfiable)),
    answer: "s UNSATISFIABLE\n",
    proof: FOUR_PROOF,
    ..ENDED
};

static ROWS: [Row; 9] = [
    ENDED,
    Row { often: 1, ..ENDED },
    Row { often: 2, ..ENDED },
    SOLVED,
    Row {
        often: u64::MAX,
        ..SOLVED
    },
    Row {
        room: 3,
        result: Err(RunFault::AnswerWriteFailed),
        answer: "s U",
        ..ENDED
    },
    Row {
        room: 0,
        result: Err(RunFault::AnswerWriteFailed),
        answer: "",
        ..ENDED
    },
    // a formula with a model
    Row {
        formula: "p cnf 2 1\n1 2 0\n",
        ..ENDED
    },
    // the formula is read first
    Row {
        formula: "p cnf 2 1\n1 3 0\n",
        result: Err(RunFault::Read(ReadFault::VariableOutOfRange(Place { line: 2, column: 3 }))),
        answer: "",
        ..ENDED
    },
];

/// Whether a run by so many hands, with a budget of one conflict for the root, comes to what a row
/// says.
fn holds<R: Threads + Wait + Clock + Sync>(
    rt: &R,
    alloc: Global,
    row: &Row,
    hands: HandCount,
) -> bool {
    let limit = Asked::new(row.often);
    let mut answer = Limited::new(alloc, Limits::of(row.room));
    let mut proof = Vec::new(alloc);
    let input = row.formula.as_bytes();
    let options = Options {
        limits: cnf::Limits::Standard,
        strategy: Strategy::of(Plan::ordered(1)),
        hands,
        gate: &OpenGate,
        limit: &limit,
        observer: &Unobserved,
    };
    let result = run_with(rt, alloc, input, &options, &mut answer, &mut proof);
    result == row.result
        && answer.taken.as_slice() == row.answer.as_bytes()
        && proof.as_slice() == row.proof.as_bytes()
}

#[test]
fn a_limit_ends_a_run(rt: HostRuntime) {
    for row in &ROWS {
        for hands in [1, 2, 8] {
            assert!(rt;
                holds(&rt, rt.alloc(), row, HandCount::of(hands)),
                "{hands} hands, asked {} times",
                row.often
            );
        }
    }
}

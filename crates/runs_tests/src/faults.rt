//! What stands after a fault of solving: readers and writers that fail at each place.

use cnf::{Place, ReadFault};
use cubes::{HandCount, OpenGate};
use runs::{RunFault, Verdict, run, run_one};
use std::alloc::Global;
use std::sync::Wait;
use std::thread::Threads;
use std::time::Clock;
use test_samples::faulty::{Full, Limited, Limits, ROOMY, Trickle, UNFLUSHED};
use test_samples::{FOUR, FOUR_PROOF};

const REFUTED: &[u8] = b"s UNSATISFIABLE\n";

/// A formula with a model, whose answer begins with `s S`.
const SATISFIABLE: &str = "p cnf 2 1\n1 2 0\n";

/// What a run comes to, and what its writers have taken.
#[derive(Clone, Copy)]
struct Left<'a> {
    result: Result<Verdict, RunFault>,
    proof: &'a [u8],
    answer: &'a [u8],
}

/// Nothing but a fault.
fn nothing_but(fault: RunFault) -> Left<'static> {
    Left {
        result: Err(fault),
        proof: b"",
        answer: b"",
    }
}

/// Whether a run without threads, at budget 1, leaves just this at writers of these limits.
fn leaves(alloc: Global, input: Trickle<'_>, proof: Limits, answer: Limits, left: &Left) -> bool {
    let mut proof = Limited::new(alloc, proof);
    let mut answer = Limited::new(alloc, answer);
    let result = run_one(alloc, input, &mut answer, &mut proof, 1);
    result == left.result
        && proof.taken.as_slice() == left.proof
        && answer.taken.as_slice() == left.answer
}

/// Whether a proof's writer with these limits, which has less room than the proof, stops in it.
fn proof_stops_at(alloc: Global, limits: Limits) -> bool {
    let Some(taken) = FOUR_PROOF.as_bytes().get(..limits.room) else {
        return false;
    };
    let left = Left {
        result: Err(RunFault::ProofWriteFailed),
        proof: taken,
        answer: b"",
    };
    let input = Trickle::at_once(FOUR.as_bytes());
    leaves(alloc, input, limits, ROOMY, &left)
}

/// Whether a proof's writer stops in it wherever its room ends, and however.
fn proof_stops(alloc: Global) -> bool {
    for room in 0..FOUR_PROOF.len() {
        for full in [Full::Fails, Full::TakesNothing] {
            let limits = Limits {
                full,
                ..Limits::of(room)
            };
            if !proof_stops_at(alloc, limits) {
                return false;
            }
        }
    }
    true
}

/// Whether an answer's writer, which has less room than the answer, stops in it, behind this proof.
fn answer_stops_at(alloc: Global, text: &str, proof: &str, answer: &[u8], room: usize) -> bool {
    let Some(taken) = answer.get(..room) else {
        return false;
    };
    let left = Left {
        result: Err(RunFault::AnswerWriteFailed),
        proof: proof.as_bytes(),
        answer: taken,
    };
    let input = Trickle::at_once(text.as_bytes());
    leaves(alloc, input, ROOMY, Limits::of(room), &left)
}

/// Whether an answer's writer stops in it wherever its room ends.
fn answer_stops(alloc: Global) -> bool {
    for room in 0..REFUTED.len() {
        if !answer_stops_at(alloc, FOUR, FOUR_PROOF, REFUTED, room) {
            return false;
        }
    }
    answer_stops_at(alloc, SATISFIABLE, "", b"s SATISFIABLE\n", 3)
}

/// Whether all is as ever where bytes come and go one a call.
fn goes_by_bytes(alloc: Global) -> bool {
    let left = Left {
        result: Ok(Verdict::Unsatisfiable),
        proof: FOUR_PROOF.as_bytes(),
        answer: REFUTED,
    };
    let (proof, answer) = (Limits::of(FOUR_PROOF.len()), Limits::of(REFUTED.len()));
    let input = Trickle::whole(FOUR.as_bytes());
    leaves(alloc, input, proof, answer, &left)
}

/// Whether a reader that fails, behind each number of bytes, leaves nothing.
fn reader_fails(alloc: Global) -> bool {
    let left = nothing_but(RunFault::Read(ReadFault::ReadFailed));
    for count in 0..=FOUR.len() {
        let input = Trickle::broken(&FOUR.as_bytes()[..count]);
        if !leaves(alloc, input, ROOMY, ROOMY, &left) {
            return false;
        }
    }
    true
}

/// Whether a formula that names a variable beyond its own is refused.
fn is_refused(alloc: Global) -> bool {
    let place = Place { line: 2, column: 3 };
    let left = nothing_but(RunFault::Read(ReadFault::VariableOutOfRange(place)));
    let input = Trickle::at_once(b"p cnf 2 1\n1 3 0\n");
    leaves(alloc, input, ROOMY, ROOMY, &left)
}

/// A formula, the limits of the proof's and the answer's writer, the fault, and what these have
/// taken.
type Unflushed = (
    &'static str,
    Limits,
    Limits,
    RunFault,
    &'static str,
    &'static [u8],
);

/// A flush of the proof, of the answer, and of no proof.
static FLUSHES: [Unflushed; 3] = [
    (
        FOUR,
        UNFLUSHED,
        ROOMY,
        RunFault::ProofWriteFailed,
        FOUR_PROOF,
        b"",
    ),
    (
        FOUR,
        ROOMY,
        UNFLUSHED,
        RunFault::AnswerWriteFailed,
        FOUR_PROOF,
        REFUTED,
    ),
    (
        SATISFIABLE,
        UNFLUSHED,
        ROOMY,
        RunFault::ProofWriteFailed,
        "",
        b"",
    ),
];

/// Whether a row's run leaves what is wanted at writers one of which can't be flushed.
fn flush_fails(alloc: Global, row: &Unflushed) -> bool {
    let (text, to_proof, to_answer, fault, proof, answer) = *row;
    let left = Left {
        result: Err(fault),
        proof: proof.as_bytes(),
        answer,
    };
    let input = Trickle::at_once(text.as_bytes());
    leaves(alloc, input, to_proof, to_answer, &left)
}

#[test]
fn readers_and_writers(rt: HostRuntime) {
    assert!(rt; proof_stops(rt.alloc()), "proof");
    assert!(rt; answer_stops(rt.alloc()), "answer");
    assert!(rt; goes_by_bytes(rt.alloc()), "bytes");
    assert!(rt; reader_fails(rt.alloc()), "reader");
    assert!(rt; is_refused(rt.alloc()), "refused");
    for row in &FLUSHES {
        assert!(rt; flush_fails(rt.alloc(), row), "{:?}", row.3);
    }
}

static NUMBERS: [(RunFault, u32); 5] = [
    (RunFault::Read(ReadFault::ReadFailed), 51),
    (RunFault::NoMemory, 52),
    (RunFault::ProofWriteFailed, 53),
    (RunFault::AnswerWriteFailed, 54),
    (RunFault::ProofReadFailed, 55),
];

#[test]
fn faults_have_numbers(rt: HostRuntime) {
    for (fault, number) in &NUMBERS {
        assert!(rt; fault.number() == *number, "{number}");
    }
}

/// Whether the proof's writer stops where its room ends, under so many hands.
fn stops_in_proof<R: Threads + Wait + Clock + Sync>(
    rt: &R,
    alloc: Global,
    hands: HandCount,
    room: usize,
) -> bool {
    let Some(taken) = FOUR_PROOF.as_bytes().get(..room) else {
        return false;
    };
    let mut proof = Limited::new(alloc, Limits::of(room));
    let mut answer = Limited::new(alloc, ROOMY);
    let text = FOUR.as_bytes();
    let hands = hands.get();
    let result = run(
        rt,
        alloc,
        text,
        &mut answer,
        &mut proof,
        1,
        hands,
        &OpenGate,
    );
    result == Err(RunFault::ProofWriteFailed)
        && proof.taken.as_slice() == taken
        && answer.taken.is_empty()
}

/// A formula, its proof at budget 1, and its answer.
struct Written {
    text: &'static str,
    proof: &'static str,
    answer: &'static [u8],
}

static REFUTED_FOUR: Written = Written {
    text: FOUR,
    proof: FOUR_PROOF,
    answer: REFUTED,
};

static WITH_MODEL: Written = Written {
    text: SATISFIABLE,
    proof: "",
    answer: b"s SATISFIABLE\nv -1 2 0\n",
};

/// Whether the answer's writer stops where its room ends, under so many hands, behind the whole proof.
fn stops_in_answer<R: Threads + Wait + Clock + Sync>(
    rt: &R,
    alloc: Global,
    hands: HandCount,
    written: &Written,
    room: usize,
) -> bool {
    let Some(taken) = written.answer.get(..room) else {
        return false;
    };
    let mut proof = Limited::new(alloc, ROOMY);
    let mut answer = Limited::new(alloc, Limits::of(room));
    let text = written.text.as_bytes();
    let hands = hands.get();
    let result = run(
        rt,
        alloc,
        text,
        &mut answer,
        &mut proof,
        1,
        hands,
        &OpenGate,
    );
    result == Err(RunFault::AnswerWriteFailed)
        && proof.taken.as_slice() == written.proof.as_bytes()
        && answer.taken.as_slice() == taken
}

/// Whether the proof's writer stops under so many hands, wherever its room ends.
fn proof_stops_by<R: Threads + Wait + Clock + Sync>(
    rt: &R,
    alloc: Global,
    hands: HandCount,
) -> bool {
    (0..FOUR_PROOF.len()).all(|room| stops_in_proof(rt, alloc, hands, room))
}

/// Whether the answer's writer stops under so many hands, wherever its room ends.
fn answer_stops_by<R: Threads + Wait + Clock + Sync>(
    rt: &R,
    alloc: Global,
    hands: HandCount,
    written: &Written,
) -> bool {
    (0..written.answer.len()).all(|room| stops_in_answer(rt, alloc, hands, written, room))
}

#[test]
fn writers_that_fail_under_several_hands(rt: HostRuntime) {
    for hands in [1, 2, 8] {
        let count = HandCount::of(hands);
        let alloc = rt.alloc();
        assert!(rt; proof_stops_by(&rt, alloc, count), "proof, {hands} hands");
        assert!(rt;
            answer_stops_by(&rt, alloc, count, &REFUTED_FOUR),
            "answer, {hands} hands"
        );
        assert!(rt;
            answer_stops_by(&rt, alloc, count, &WITH_MODEL),
            "model, {hands} hands"
        );
    }
}

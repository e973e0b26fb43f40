//! What stands after a fault of checking: readers and writers that fail at each place.
use cnf::{Place, ReadFault};
use runs::{Checked, RunFault, check_run};
use std::alloc::Global;
use test_samples::faulty::{Full, Limited, Limits, ROOMY, Trickle, UNFLUSHED};
use test_samples::{FOUR, FOUR_PROOF, WIDE_PROOF};

/// A proof over the four clauses, with its line and verdict.
type Row = (&'static str, &'static str, Checked);

static ROWS: [Row; 2] = [
    (FOUR_PROOF, "accepted\n", Checked::Accepted),
    ("4 1 0 1 2 0\n", "refused 21 step 1\n", Checked::Refused),
];

/// What a check comes to, what its writer has taken, and how many calls of the writer were refused.
#[derive(Clone, Copy)]
struct Left<'a> {
    result: Result<Checked, RunFault>,
    answer: &'a [u8],
    refusals: usize,
}

/// Nothing but a fault of reading.
fn nothing_but(fault: RunFault) -> Left<'static> {
    Left {
        result: Err(fault),
        answer: b"",
        refusals: 0,
    }
}

/// Whether a check leaves just this at a writer of these limits.
fn leaves(
    alloc: Global,
    formula: Trickle<'_>,
    proof: Trickle<'_>,
    limits: Limits,
    left: &Left,
) -> bool {
    let mut answer = Limited::new(alloc, limits);
    let result = check_run(alloc, formula, proof, &mut answer);
    result == left.result
        && answer.taken.as_slice() == left.answer
        && answer.refusals == left.refusals
}

/// Whether a check of a proof over the four clauses, whose readers give all bytes in one call,
/// leaves just this.
fn leaves_of(alloc: Global, proof: &str, limits: Limits, left: &Left) -> bool {
    let formula = Trickle::at_once(FOUR.as_bytes());
    let proof = Trickle::at_once(proof.as_bytes());
    leaves(alloc, formula, proof, limits, left)
}

/// Whether a formula whose reader fails, behind each number of bytes, has that fault.
fn formula_fails(alloc: Global) -> bool {
    let left = nothing_but(RunFault::Read(ReadFault::ReadFailed));
    for count in 0..=FOUR.len() {
        let formula = Trickle::broken(&FOUR.as_bytes()[..count]);
        let proof = Trickle::at_once(FOUR_PROOF.as_bytes());
        if !leaves(alloc, formula, proof, ROOMY, &left) {
            return false;
        }
    }
    true
}

/// The same of a proof.
fn proof_fails(alloc: Global) -> bool {
    let left = nothing_but(RunFault::ProofReadFailed);
    for count in 0..=FOUR_PROOF.len() {
        let formula = Trickle::at_once(FOUR.as_bytes());
        let proof = Trickle::broken(&FOUR_PROOF.as_bytes()[..count]);
        if !leaves(alloc, formula, proof, ROOMY, &left) {
            return false;
        }
    }
    true
}

/// Whether the fault of the formula is said where both readers fail, since it is read first.
fn both_fail(alloc: Global) -> bool {
    let left = nothing_but(RunFault::Read(ReadFault::ReadFailed));
    let formula = Trickle::broken(FOUR.as_bytes());
    let proof = Trickle::broken(FOUR_PROOF.as_bytes());
    leaves(alloc, formula, proof, ROOMY, &left)
}

/// Whether a formula that names a variable beyond its own is refused.
fn formula_is_refused(alloc: Global) -> bool {
    let place = Place { line: 2, column: 3 };
    let left = nothing_but(RunFault::Read(ReadFault::VariableOutOfRange(place)));
    let formula = Trickle::at_once(b"p cnf 2 1\n1 3 0\n");
    let proof = Trickle::at_once(WIDE_PROOF.as_bytes());
    leaves(alloc, formula, proof, ROOMY, &left)
}

/// Whether a writer that has so much room less than the line stops in it.
fn stops_in_line(alloc: Global, proof: &str, line: &str, limits: Limits) -> bool {
    let Some(taken) = line.as_bytes().get(..limits.room) else {
        return false;
    };
    let left = Left {
        result: Err(RunFault::AnswerWriteFailed),
        answer: taken,
        refusals: 1,
    };
    leaves_of(alloc, proof, limits, &left)
}

/// Whether a writer stops in the line wherever its room ends, and however.
fn stops_everywhere(alloc: Global, proof: &str, line: &str) -> bool {
    for room in 0..line.len() {
        for full in [Full::Fails, Full::TakesNothing] {
            let limits = Limits {
                full,
                ..Limits::of(room)
            };
            if !stops_in_line(alloc, proof, line, limits) {
                return false;
            }
        }
    }
    true
}

/// Whether a line that can't be flushed is a fault.
fn flush_fails(alloc: Global, proof: &str, line: &str) -> bool {
    let left = Left {
        result: Err(RunFault::AnswerWriteFailed),
        answer: line.as_bytes(),
        refusals: 1,
    };
    leaves_of(alloc, proof, UNFLUSHED, &left)
}

/// Whether all is as ever where bytes come and go one a call.
fn goes_by_bytes(alloc: Global, row: &Row) -> bool {
    let (proof, line, checked) = *row;
    let left = Left {
        result: Ok(checked),
        answer: line.as_bytes(),
        refusals: 0,
    };
    let formula = Trickle::whole(FOUR.as_bytes());
    let proof = Trickle::whole(proof.as_bytes());
    leaves(alloc, formula, proof, Limits::of(line.len()), &left)
}

#[test]
fn readers(rt: HostRuntime) {
    assert!(rt; formula_fails(rt.alloc()), "formula");
    assert!(rt; proof_fails(rt.alloc()), "proof");
    assert!(rt; both_fail(rt.alloc()), "both");
    assert!(rt; formula_is_refused(rt.alloc()), "refused");
}

#[test]
fn writers(rt: HostRuntime) {
    for row in &ROWS {
        assert!(rt; stops_everywhere(rt.alloc(), row.0, row.1), "{}", row.1);
        assert!(rt; flush_fails(rt.alloc(), row.0, row.1), "{}", row.1);
        assert!(rt; goes_by_bytes(rt.alloc(), row), "{}", row.1);
    }
}

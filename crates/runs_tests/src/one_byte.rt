//! Proofs with one byte changed, added or dropped: in pieces they have the line that their list of
//! steps has.
use cnf::{Formula, read_formula};
use lrat::{check, read_proof};
use runs::check_run;
use std::alloc::{AllocError, Global};
use std::process::Abort;
use std::test::Fail;
use test_samples::faulty::Trickle;
use test_samples::{FOUR, WIDE, WIDE_PROOF};

/// A step without consequences, a deletion and a conflict.
const THREE_STEPS: &str = "5 1 0 -3 1 -4 2 0\n5 d 1 2 0\n6 0 5 3 4 0\n";

/// What is put in at a place, and how many bytes are dropped there: one is dropped, or one that
/// changes what a line is read as is put in its place or before it.
type Change = (&'static [u8], usize);

static CHANGES: [Change; 9] = [
    (b"", 1),
    (b"0", 1),
    (b"0", 0),
    (b" ", 1),
    (b" ", 0),
    (b"-", 1),
    (b"-", 0),
    (b"\n", 1),
    (b"\n", 0),
];

/// The line of a refusal, with the word for its place, if it has one.
fn refused(
    alloc: Global,
    number: u32,
    word: &str,
    place: Option<u64>,
) -> Result<String, AllocError> {
    match place {
        Some(place) => format!(in alloc; "refused {number} {word} {place}\n"),
        None => format!(in alloc; "refused {number}\n"),
    }
}

/// The line of a proof, by its list of steps.
fn line_of_steps(alloc: Global, formula: &Formula, proof: &[u8]) -> Result<String, AllocError> {
    let steps = match read_proof(alloc, proof) {
        Ok(steps) => steps,
        Err(fault) => return refused(alloc, fault.number(), "line", fault.line()),
    };
    match check(alloc, formula, &steps) {
        Ok(()) => String::from_str(alloc, "accepted\n"),
        Err(fault) => refused(alloc, fault.number(), "step", fault.step()),
    }
}

/// Whether a proof has this line in pieces of so many bytes.
fn has_line(
    alloc: Global,
    text: &str,
    proof: &[u8],
    count: usize,
    line: &str,
) -> Result<bool, Fail> {
    let mut answer = Vec::new(alloc);
    let pieces = Trickle::pieces(proof, count);
    let _ = check_run(alloc, text.as_bytes(), pieces, &mut answer)?;
    Ok(answer.as_slice() == line.as_bytes())
}

/// Whether a proof in pieces has the line of its steps.
fn is_same(alloc: Global, text: &str, formula: &Formula, proof: &[u8]) -> Result<bool, Fail> {
    let line = line_of_steps(alloc, formula, proof)?;
    let by_bytes = has_line(alloc, text, proof, 1, line.as_str())?;
    Ok(by_bytes && has_line(alloc, text, proof, 5, line.as_str())?)
}

/// A proof with a change at a place.
fn changed(
    alloc: Global,
    proof: &[u8],
    place: usize,
    change: &Change,
) -> Result<Vec<u8>, AllocError> {
    let (middle, dropped) = *change;
    let mut text = Vec::new(alloc);
    for (index, byte) in proof.iter().enumerate() {
        if index == place {
            text.extend_from_slice(middle)?;
        }
        if index != place || dropped == 0 {
            text.push(*byte)?;
        }
    }
    Ok(text)
}

/// Checks a proof with each change at a place.
fn check_place(
    rt: &impl Abort,
    alloc: Global,
    text: &str,
    formula: &Formula,
    proof: &[u8],
    place: usize,
) -> Result<(), Fail> {
    for change in &CHANGES {
        let proof = changed(alloc, proof, place, change)?;
        assert!(rt;
            is_same(alloc, text, formula, &proof)?,
            "{change:?} at {place}"
        );
    }
    Ok(())
}

/// Checks a proof with each change at each place.
fn check_places(rt: &impl Abort, alloc: Global, text: &str, proof: &str) -> Result<(), Fail> {
    let formula = read_formula(alloc, text.as_bytes())?;
    for place in 0..proof.len() {
        check_place(rt, alloc, text, &formula, proof.as_bytes(), place)?;
    }
    Ok(())
}

#[test]
fn each_byte_in_turn(rt: HostRuntime) -> Result<(), Fail> {
    check_places(&rt, rt.alloc(), WIDE, WIDE_PROOF)?;
    check_places(&rt, rt.alloc(), FOUR, THREE_STEPS)
}

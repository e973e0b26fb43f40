//! Worked rows: what one hand does alone, with a budget of one conflict for the root.
use crate::results::{Given, is_given};
use cnf::{Formula, read_formula};
use cubes::{Gate, OpenGate, Solved, What, Worked, work};
use kernel::Cube;
use std::alloc::Global;
use std::sync::Wait;
use std::test::Fail;
use std::time::Clock;
use test_samples::{EIGHT, SIXTEEN, TWO_MODELS, reads};

/// What the one hand of a pool leaves behind.
fn worked_alone<R: Wait + Clock, G: Gate>(
    rt: &R,
    alloc: Global,
    formula: &Formula,
    gate: &G,
) -> Result<Option<Worked>, Fail> {
    let (_pool, mut hands) = pool::open(alloc, 1, formula.vars(), Cube::root(alloc))?;
    match hands.pop() {
        Some(hand) if hand.vars() == formula.vars() => Ok(Some(work(
            rt, alloc, hand, formula, 1, gate,
        ))),
        _ => Ok(None),
    }
}

/// What the one hand of a pool leaves behind of a text, and tells a gate of.
pub fn worked_at<R: Wait + Clock, G: Gate>(
    rt: &R,
    alloc: Global,
    text: &str,
    gate: &G,
) -> Result<Worked, Fail> {
    let formula = read_formula(alloc, text.as_bytes())?;
    Ok(worked_alone(rt, alloc, &formula, gate)?.ok_or("no hand")?)
}

/// What the one hand of a pool leaves behind of a text.
pub fn worked<R: Wait + Clock>(rt: &R, alloc: Global, text: &str) -> Result<Worked, Fail> {
    worked_at(rt, alloc, text, &OpenGate)
}

pub fn is_result<L>(solved: &Solved<L>, numbers: &[i32], given: Given) -> bool {
    let is_as_wanted = match &solved.what {
        What::Done(outcome) => is_given(outcome, given),
        What::Skipped(place) => matches!(given, Given::Skipped(wanted) if wanted == *place),
    };
    is_as_wanted && reads(solved.cube.lits(), numbers)
}

pub fn are_results(worked: &Worked, wanted: &[(&[i32], Given)]) -> bool {
    if worked.short_of_memory || worked.solved.len() != wanted.len() {
        return false;
    }
    for (solved, row) in worked.solved.iter().zip(wanted) {
        if !is_result(solved, row.0, row.1) {
            return false;
        }
    }
    true
}

/// A text, and the results of its one hand.
type Row = (&'static str, &'static [(&'static [i32], Given)]);

static ROWS: [Row; 3] = [
    // the hand skips what is right of a model
    (
        TWO_MODELS,
        &[
            (&[], Given::Exhausted(1)),
            (&[-1], Given::Model(&[false, true, false])),
            (&[1], Given::Skipped(0)),
        ],
    ),
    // it solves all where none is satisfied
    (
        EIGHT,
        &[
            (&[], Given::Exhausted(1)),
            (&[-1], Given::Refuted),
            (&[1], Given::Refuted),
        ],
    ),
    (
        SIXTEEN,
        &[
            (&[], Given::Exhausted(1)),
            (&[-1], Given::Exhausted(2)),
            (&[1], Given::Exhausted(2)),
            (&[-1, -2], Given::Refuted),
            (&[-1, 2], Given::Refuted),
            (&[1, -2], Given::Refuted),
            (&[1, 2], Given::Refuted),
        ],
    ),
];

#[test]
fn one_hand_solves_or_skips(rt: HostRuntime) -> Result<(), Fail> {
    for (text, wanted) in &ROWS {
        let worked = worked(&rt, rt.alloc(), text)?;
        assert!(rt; are_results(&worked, wanted), "at {text:?}");
    }
    Ok(())
}

//! Worked rows: deep trees. Cubes that are too deep for the pool are carried on by their hand.
use crate::hands::{is_result, worked, worked_at};
use crate::results::Given;
use cdcl::{Counts, Outcome};
use cubes::{Gate, Solved, What, Worked};
use kernel::Cube;
use std::alloc::{AllocError, Global};
use std::fmt::Write;
use std::sync::Wait;
use std::sync::atomic::{AtomicU64, Ordering};
use std::test::Fail;
use std::time::Clock;

// each assignment but those with all of the first 39 variables false
const DEEP: &str = "p cnf 40 2
1 2 3 4 5 6 7 8 9 10 11 12 13 14 15 16 17 18 19 20 21 22 23 24 25 26 27 28 29 30 31 32 33 34 35 36 37 38 39 40 0
1 2 3 4 5 6 7 8 9 10 11 12 13 14 15 16 17 18 19 20 21 22 23 24 25 26 27 28 29 30 31 32 33 34 35 36 37 38 39 -40 0
";

// where the first 33 variables are false, so is the last one
const HARD_FRONT: &str = "p cnf 41 129
1 2 3 4 5 6 7 8 9 10 11 12 13 14 15 16 17 18 19 20 21 22 23 24 25 26 27 28 29 30 31 32 33 -41 0
";

/// Adds a clause over the variables 34 to 40, of which those with a set bit are negated, and the
/// last one.
fn add_clause(text: &mut String, signs: u32) -> Result<(), AllocError> {
    for index in 0..7u32 {
        let sign = if (signs >> index) & 1 == 1 { "-" } else { "" };
        let var = 34 + index;
        write!(text, "{sign}{var} ")?;
    }
    write!(text, "41 0\n")
}

/// A text: where the first 33 variables are false, so is the last one, and then all 128 clauses
/// over the seven between them are to be satisfied. That takes 64 conflicts to refute, more than
/// any of the cubes of up to 33 literals has.
fn hard_text(alloc: Global) -> Result<String, AllocError> {
    let mut text = String::from_str(alloc, HARD_FRONT)?;
    for signs in 0..128u32 {
        add_clause(&mut text, signs)?;
    }
    Ok(text)
}

/// Whether the variables at these places are true, and no others.
fn are_true_at(values: &[bool], places: &[usize]) -> bool {
    for (index, value) in values.iter().enumerate() {
        if *value != places.contains(&index) {
            return false;
        }
    }
    true
}

/// Whether the result is a model of so many variables, of which those at these places are true.
fn is_model_at(solved: &Solved, vars: usize, places: &[usize]) -> bool {
    match &solved.what {
        What::Done(Outcome::Model(values)) => values.len() == vars && are_true_at(values, places),
        _ => false,
    }
}

/// How many literals the cube has that has most.
fn deepest(worked: &Worked) -> usize {
    let mut deepest = 0;
    for solved in &worked.solved {
        deepest = deepest.max(solved.cube.lits().len());
    }
    deepest
}

/// Whether the root, its halves and no more are results, of which the left one is the model.
fn has_model_below(worked: &Worked) -> bool {
    let [root, left, right] = worked.solved.as_slice() else {
        return false;
    };
    !worked.short_of_memory
        && is_result(root, &[], Given::Exhausted(1))
        && is_model_at(left, 40, &[38])
        && is_result(right, &[1], Given::Skipped(0))
}

/// Whether one of the results is the hard text's model, and no more.
fn has_hard_model(worked: &Worked) -> bool {
    let mut found = false;
    for solved in &worked.solved {
        if is_model_at(solved, 41, &[32, 40]) {
            if found {
                return false;
            }
            found = true;
        }
    }
    found
}

/// How often a gate was passed with a cube from the pool, and how often it was told what was done.
#[derive(Drop)]
struct Calls {
    passed: AtomicU64,
    told: AtomicU64,
}

impl Gate for Calls {
    fn before(&self, _hand: usize, _cube: &Cube) {}

    fn after(&self, _hand: usize, _cube: &Cube) {
        self.passed.fetch_add(1, Ordering::SeqCst);
    }

    fn counted(&self, _hand: usize, _counts: Counts) {
        self.told.fetch_add(1, Ordering::SeqCst);
    }
}

/// How many cubes of at most so many literals were solved.
fn solved_up_to(worked: &Worked, depth: usize) -> u64 {
    let mut count = 0u64;
    for solved in &worked.solved {
        let is_done = matches!(solved.what, What::Done(_));
        if is_done && solved.cube.lits().len() <= depth {
            count = count.saturating_add(1);
        }
    }
    count
}

/// Whether a model is found right below the root.
fn finds_model<R: Wait + Clock>(rt: &R, alloc: Global) -> Result<bool, Fail> {
    let worked = worked(rt, alloc, DEEP)?;
    Ok(has_model_below(&worked))
}

/// Whether the hard text's model is found, with no cube of more than 34 literals.
fn carries_on<R: Wait + Clock>(rt: &R, alloc: Global) -> Result<bool, Fail> {
    let text = hard_text(alloc)?;
    let worked = worked(rt, alloc, text.as_str())?;
    Ok(!worked.short_of_memory && has_hard_model(&worked) && deepest(&worked) == 34)
}

/// Whether a gate is told at the end of cubes that are carried on too; none of the cubes has a
/// thousand conflicts.
fn is_gate_told<R: Wait + Clock>(rt: &R, alloc: Global) -> Result<bool, Fail> {
    let calls = Calls {
        passed: AtomicU64::new(0),
        told: AtomicU64::new(0),
    };
    let text = hard_text(alloc)?;
    let worked = worked_at(rt, alloc, text.as_str(), &calls)?;
    let passed = calls.passed.load(Ordering::SeqCst);
    let told = calls.told.load(Ordering::SeqCst);
    let is_told = passed == solved_up_to(&worked, 32) && told == solved_up_to(&worked, 34);
    Ok(is_told && passed < told)
}

#[test]
fn deep_trees(rt: HostRuntime) -> Result<(), Fail> {
    assert!(rt; finds_model(&rt, rt.alloc())?, "model");
    assert!(rt; carries_on(&rt, rt.alloc())?, "carried on");
    assert!(rt; is_gate_told(&rt, rt.alloc())?, "gate");
    Ok(())
}

//! Worked rows: trees that are gathered from results, and those that hands solve, with a budget of
//! one conflict for the root.

use crate::results::{Given, OF_EIGHT, WantedTree, gathered, is_tree};
use cdcl::Plan;
use cnf::read_formula;
use cubes::{HandCount, OpenGate, Tree, solve_by_plan};
use std::alloc::Global;
use std::sync::Wait;
use std::test::Fail;
use std::thread::Threads;
use std::time::Clock;
use test_samples::EIGHT;

/// A text, the results that are given, and the tree that is gathered from them.
type Row = (&'static str, &'static [(&'static [i32], Given)], WantedTree);

// cubes below its leaves and beside it come from right to left, behind a result that doesn't serve;
// then its leaves
static ROWS: [Row; 8] = [
    (EIGHT, &[], OF_EIGHT),
    (
        EIGHT,
        &[
            (&[1, 2], Given::Refuted),
            (&[1, -2], Given::Refuted),
            (&[-1, 2], Given::Refuted),
            (&[-1, -2], Given::Refuted),
        ],
        OF_EIGHT,
    ),
    (
        EIGHT,
        &[
            (&[1], Given::Skipped(0)),
            (&[1, 2], Given::Refuted),
            (&[1, -2], Given::Refuted),
            (&[-1, 2], Given::Refuted),
            (&[-1, -2], Given::Refuted),
        ],
        OF_EIGHT,
    ),
    (
        EIGHT,
        &[
            (&[1, 2], Given::Refuted),
            (&[1, -2], Given::Refuted),
            (&[-1, 2], Given::Refuted),
            (&[-1, -2], Given::Refuted),
            (&[3], Given::Refuted),
        ],
        OF_EIGHT,
    ),
    (
        EIGHT,
        &[(&[1], Given::Refuted), (&[-1], Given::Refuted)],
        OF_EIGHT,
    ),
    (
        EIGHT,
        &[
            (&[1], Given::Skipped(0)),
            (&[1, 2], Given::Refuted),
            (&[1, -2], Given::Refuted),
            (&[-1, 2], Given::Refuted),
            (&[-1, -2], Given::Refuted),
            (&[3], Given::Refuted),
            (&[1], Given::Refuted),
            (&[-1], Given::Refuted),
        ],
        OF_EIGHT,
    ),
    // texts with a model, and the first model of each
    (
        "p cnf 2 2\n1 2 0\n1 -2 0\n",
        &[
            (&[1], Given::Model(&[true, false])),
            (&[-1], Given::Skipped(0)),
        ],
        WantedTree::Model(&[true, false]),
    ),
    (
        "p cnf 3 2\n1 2 3 0\n1 2 -3 0\n",
        &[(&[1], Given::Model(&[true, false, false]))],
        WantedTree::Model(&[false, true, false]),
    ),
];

/// Whether the tree that is gathered from a row's results, which have to be these, is the one that
/// is wanted.
fn gathers(alloc: Global, row: &Row) -> Result<bool, Fail> {
    let (text, results, wanted) = *row;
    let formula = read_formula(alloc, text.as_bytes())?;
    match gathered(alloc, &formula, results)? {
        Some(tree) => Ok(is_tree(&tree, wanted)?),
        None => Ok(false),
    }
}

#[test]
fn gathers_from_results(rt: HostRuntime) -> Result<(), Fail> {
    for row in &ROWS {
        assert!(rt;
            gathers(rt.alloc(), row)?,
            "{} results of {:?}",
            row.1.len(),
            row.0
        );
    }
    Ok(())
}

/// Whether so many hands come to a text's tree, each of twenty times.
fn is_solved_by<R: Threads + Wait + Clock + Sync>(
    rt: &R,
    alloc: Global,
    text: &str,
    hands: HandCount,
    wanted: WantedTree,
) -> Result<bool, Fail> {
    let formula = read_formula(alloc, text.as_bytes())?;
    for _ in 0..20 {
        let tree: Tree = solve_by_plan(rt, alloc, &formula, Plan::ordered(1), hands, &OpenGate)?;
        if !is_tree(&tree, wanted)? {
            return Ok(false);
        }
    }
    Ok(true)
}

static TREES: [(&str, WantedTree); 2] = [
    (EIGHT, OF_EIGHT),
    (
        "p cnf 3 2\n1 2 3 0\n1 2 -3 0\n",
        WantedTree::Model(&[false, true, false]),
    ),
];

#[test]
fn solves_by_many_hands(rt: HostRuntime) -> Result<(), Fail> {
    for (text, wanted) in &TREES {
        for hands in [1, 2, 4, 8, 16] {
            let is_solved = is_solved_by(&rt, rt.alloc(), text, HandCount::of(hands), *wanted)?;
            assert!(rt; is_solved, "{hands} hands at {text:?}");
        }
    }
    Ok(())
}

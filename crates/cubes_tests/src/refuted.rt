//! What a gate is told of the first search, and of cubes that are refuted.

use crate::plans::plan_of;
use cdcl::{Plan, Search};
use cnf::{Formula, read_formula};
use cubes::{FirstAnswer, FirstSearch, Gate, HandCount, Tree, solve_by_plan};
use kernel::Cube;
use std::alloc::Global;
use std::sync::{Mutex, Wait};
use std::test::Fail;
use std::thread::Threads;
use std::time::Clock;
use test_samples::{EIGHT, FIVE, FOUR};

/// All of a tree; a cube of d literals is one part in 2^d of it.
const WHOLE: u64 = 1024;

/// Decisions and conflicts of the first search in stable mode, all its conflicts, and what it answers.
type First = Option<(u64, u64, u64, FirstAnswer)>;

/// A text, a budget for the root, how many cubes are wanted, and the first search, if there is one.
type Row = (&'static str, u32, u32, First);

static ROWS: [Row; 6] = [
    // no division is wanted
    (FOUR, 1, 1, None),
    // 5 is decided in stable mode, a conflict
    (FIVE, 2, 2, Some((1, 1, 2, FirstAnswer::Divided(2)))),
    // it goes on to a conflict without a decision
    (FOUR, 2, 2, Some((0, 0, 2, FirstAnswer::Ended))),
    // 3 and 2 are decided, a conflict, before stable mode
    (EIGHT, 1, 2, Some((0, 0, 1, FirstAnswer::Whole))),
    // 3 is decided in stable mode, a conflict
    (EIGHT, 2, 3, Some((1, 1, 2, FirstAnswer::Divided(3)))),
    (EIGHT, 2, 64, Some((1, 1, 2, FirstAnswer::Divided(64)))),
];

/// What the first search answered, and how much of the tree is refuted.
#[derive(Drop)]
struct Told<'a, R> {
    rt: &'a R,
    first: Mutex<First>,
    refuted: Mutex<u64>,
}

impl<R: Wait> Gate for Told<'_, R> {
    fn before(&self, _hand: usize, _cube: &Cube) {}

    fn after(&self, _hand: usize, _cube: &Cube) {}

    fn asked(&self, first: FirstSearch) {
        let FirstSearch {
            decisions,
            conflicts,
            stable_conflicts,
            answer,
        } = first;
        let found = (decisions, stable_conflicts, conflicts, answer);
        *self.first.lock(self.rt) = Some(found);
    }

    fn refuted(&self, _hand: usize, cube: &Cube) {
        let depth = cube.lits().len().min(10);
        let part = WHOLE >> depth as u32;
        let mut refuted = self.refuted.lock(self.rt);
        *refuted = refuted.saturating_add(part);
    }
}

/// What so many hands tell a gate.
fn told_by<R: Threads + Wait + Clock + Sync>(
    rt: &R,
    alloc: Global,
    formula: &Formula,
    plan: Plan,
    hands: HandCount,
) -> Result<(First, u64), Fail> {
    let gate = Told {
        rt,
        first: Mutex::new(None),
        refuted: Mutex::new(0),
    };
    let _tree: Tree = solve_by_plan(rt, alloc, formula, plan, hands, &gate)?;
    let first = *gate.first.lock(rt);
    let refuted = *gate.refuted.lock(rt);
    Ok((first, refuted))
}

/// Whether so many hands tell a gate of a row's first search, and that all of the tree is refuted.
fn tell<R: Threads + Wait + Clock + Sync>(
    rt: &R,
    alloc: Global,
    row: &Row,
    hands: HandCount,
) -> Result<bool, Fail> {
    let (text, budget, divide, first) = *row;
    let formula = read_formula(alloc, text.as_bytes())?;
    let plan = plan_of(Search::Focused, budget, divide);
    Ok(told_by(rt, alloc, &formula, plan, hands)? == (first, WHOLE))
}

#[test]
fn all_of_a_tree_without_a_model_is_refuted(rt: HostRuntime) -> Result<(), Fail> {
    for row in &ROWS {
        for hands in [1, 2, 4] {
            assert!(rt;
                tell(&rt, rt.alloc(), row, HandCount::of(hands))?,
                "{hands} hands at {}",
                row.0
            );
        }
    }
    Ok(())
}

//! A gate that counts: each cube of a tree is solved once, whatever the hands.

use crate::plans::plan_of;
use cdcl::{Plan, Search};
use cnf::{Formula, read_formula};
use cubes::{Gate, HandCount, Tree, solve_by_plan};
use kernel::Cube;
use std::alloc::Global;
use std::sync::Wait;
use std::sync::atomic::{AtomicU64, Ordering};
use std::test::Fail;
use std::thread::Threads;
use std::time::Clock;
use test_samples::{EIGHT, FOUR, SIXTEEN, reads};

/// The cubes of a tree, from the root on.
type Cubes = &'static [&'static [i32]];

/// A text, a search, a budget for the root, how many cubes are wanted, and the cubes of its tree.
type Row = (&'static str, Search, u32, u32, Cubes);

static TREES: [Row; 3] = [
    (EIGHT, Search::Ordered, 1, 0, &[&[], &[-1], &[1]]),
    (
        SIXTEEN,
        Search::Ordered,
        1,
        0,
        &[&[], &[-1], &[1], &[-1, -2], &[-1, 2], &[1, -2], &[1, 2]],
    ),
    // it is refuted before the hands begin
    (FOUR, Search::Focused, 2, 2, &[&[]]),
];

/// How often a gate was passed with each of the cubes of a tree, which are seven at most, and with
/// any other.
#[derive(Drop)]
struct Passed {
    cubes: Cubes,
    counts: [AtomicU64; 7],
    others: AtomicU64,
}

impl Passed {
    fn none(cubes: Cubes) -> Passed {
        Passed {
            cubes,
            counts: [
                AtomicU64::new(0),
                AtomicU64::new(0),
                AtomicU64::new(0),
                AtomicU64::new(0),
                AtomicU64::new(0),
                AtomicU64::new(0),
                AtomicU64::new(0),
            ],
            others: AtomicU64::new(0),
        }
    }

    fn add(&self, cube: &Cube) {
        for (count, numbers) in self.counts.iter().zip(self.cubes) {
            if reads(cube.lits(), numbers) {
                count.fetch_add(1, Ordering::SeqCst);
                return;
            }
        }
        self.others.fetch_add(1, Ordering::SeqCst);
    }

    /// Whether it was passed once with each of the cubes, and with no other.
    fn is_once_each(&self) -> bool {
        for (index, count) in self.counts.iter().enumerate() {
            if count.load(Ordering::SeqCst) != u64::from(index < self.cubes.len()) {
                return false;
            }
        }
        self.others.load(Ordering::SeqCst) == 0
    }
}

#[derive(Drop)]
struct Counter {
    before: Passed,
    after: Passed,
}

impl Gate for Counter {
    fn before(&self, _hand: usize, cube: &Cube) {
        self.before.add(cube);
    }

    fn after(&self, _hand: usize, cube: &Cube) {
        self.after.add(cube);
    }
}

/// Whether so many hands pass a gate once with each of the cubes of the formula's tree, and with no
/// other, before each and after it.
fn is_solved_once<R: Threads + Wait + Clock + Sync>(
    rt: &R,
    alloc: Global,
    formula: &Formula,
    plan: Plan,
    hands: HandCount,
    cubes: Cubes,
) -> Result<bool, Fail> {
    let gate = Counter {
        before: Passed::none(cubes),
        after: Passed::none(cubes),
    };
    let _tree: Tree = solve_by_plan(rt, alloc, formula, plan, hands, &gate)?;
    Ok(gate.before.is_once_each() && gate.after.is_once_each())
}

/// The same of a row, twenty times.
fn is_solved_once_each_time<R: Threads + Wait + Clock + Sync>(
    rt: &R,
    alloc: Global,
    row: &Row,
    hands: HandCount,
) -> Result<bool, Fail> {
    let (text, search, budget, divide, cubes) = *row;
    let formula = read_formula(alloc, text.as_bytes())?;
    let plan = plan_of(search, budget, divide);
    for _ in 0..20 {
        if !is_solved_once(rt, alloc, &formula, plan, hands, cubes)? {
            return Ok(false);
        }
    }
    Ok(true)
}

#[test]
fn each_cube_is_solved_once(rt: HostRuntime) -> Result<(), Fail> {
    for row in &TREES {
        for hands in [1, 2, 4] {
            let is_once = is_solved_once_each_time(&rt, rt.alloc(), row, HandCount::of(hands))?;
            assert!(rt; is_once, "{hands} hands at {}", row.0);
        }
    }
    Ok(())
}

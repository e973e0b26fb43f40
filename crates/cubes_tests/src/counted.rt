//! What a gate is told of what the hands have done.

use crate::plans::plan_of;
use cdcl::{Counts, Plan, Search};
use cnf::{Formula, read_formula};
use cubes::{Gate, HandCount, Tree, solve_by_plan};
use kernel::Cube;
use std::alloc::Global;
use std::sync::{Mutex, Wait};
use std::test::Fail;
use std::thread::Threads;
use std::time::Clock;
use test_samples::{EIGHT, FIVE, FOUR};

/// What hands do: conflicts, decisions, propagations, learnt clauses, looks, failed literals. None of
/// these small formulas makes them restart or forget.
type Done = [u64; 6];

/// A text, a search, a budget for the root, how many cubes are wanted, what is done before the hands
/// begin, and what all hands do.
type Row = (&'static str, Search, u32, u32, Done, Done);

/// Nothing is done.
const NONE: Done = [0, 0, 0, 0, 0, 0];

/// A formula with two models; both have 1 true.
const ONE: &str = "p cnf 2 2\n1 2 0\n1 -2 0\n";

static ROWS: [Row; 11] = [
    // -1 is decided and gives 2, which makes the second clause false; 1 is learnt and gives 2,
    // which makes the fourth one false at level 0
    (FOUR, Search::Ordered, 2, 0, NONE, [2, 1, 4, 1, 0, 0]),
    // the same with 1 and 2, and all signs, exchanged; but 1, which -2 gives, becomes a learnt clause
    (FOUR, Search::Focused, 2, 0, NONE, [2, 1, 4, 2, 0, 0]),
    // -1, then -2 and 3, a conflict; (1 2) is learnt; 2 and 3, a conflict; 1 is learnt and gives
    // nothing; -2 is decided and gives 3, a conflict; 2 is learnt and gives 3, the last conflict
    (EIGHT, Search::Ordered, 1000, 0, NONE, [4, 3, 10, 3, 0, 0]),
    // the same with 1 and 3, and all signs, exchanged, but 2 is decided to be false, as it was last, and
    // 1, which 2 gives at level 0, becomes a learnt clause
    (EIGHT, Search::Focused, 1000, 0, NONE, [4, 3, 10, 4, 0, 0]),
    // the first of these conflicts uses the root up; in each half its literal, then -2 and 3, a
    // conflict; a unit clause of 2 is learnt and gives 3, a conflict
    (EIGHT, Search::Ordered, 1, 0, NONE, [5, 4, 13, 2, 0, 0]),
    // -1 gives 2, a conflict; 1 is learnt; -2 is decided
    (ONE, Search::Ordered, 2, 0, NONE, [1, 2, 4, 1, 0, 0]),
    // 2 is decided and gives 1
    (ONE, Search::Focused, 2, 0, NONE, [0, 1, 2, 0, 0, 0]),
    // it is refuted before the first search is asked
    (FOUR, Search::Focused, 2, 2, [2, 1, 4, 2, 0, 0], NONE),
    // 5, then 4 and 3, a conflict, behind which stable mode begins; (-4 -5) is learnt; 5 is decided and
    // gives -4 and 3, a conflict, with few decisions; a look decides both literals of 5, 4 and 3, which
    // bring nothing, and -2, which gives 1, a conflict; both halves are refuted by propagation, and learn
    // 1
    (
        FIVE,
        Search::Focused,
        2,
        2,
        [3, 10, 14, 1, 1, 1],
        [2, 0, 4, 2, 0, 0],
    ),
    // 3, then 2 and 1, a conflict, before stable mode: it uses the root up too, and is counted once;
    // each half is as above, and learns two clauses
    (
        EIGHT,
        Search::Focused,
        1,
        2,
        [1, 2, 3, 0, 0, 0],
        [4, 2, 10, 4, 0, 0],
    ),
    // 3, then 2 and 1, a conflict, behind which stable mode begins; (-2 -3) is learnt; 3 is decided and
    // gives -2 and 1, a conflict, with few decisions; a look decides both literals of each variable,
    // which bring nothing; in each half its literal, then -2 and 1, a conflict, so -2 fails; each half
    // of that is refuted by its literals and 1, which it learns
    (
        EIGHT,
        Search::Focused,
        2,
        3,
        [2, 9, 12, 1, 1, 0],
        [6, 2, 18, 4, 2, 2],
    ),
];

/// What was done before the hands began, and what each of four has done.
#[derive(Drop)]
struct Told<'a, R> {
    rt: &'a R,
    before: Mutex<Counts>,
    last: Mutex<[Counts; 4]>,
}

impl<R: Wait> Told<'_, R> {
    /// What all hands have done.
    fn sum(&self) -> Counts {
        let last = *self.last.lock(self.rt);
        let mut sum = Counts::none();
        for counts in last {
            sum = sum.with(counts);
        }
        sum
    }
}

impl<R: Wait> Gate for Told<'_, R> {
    fn before(&self, _hand: usize, _cube: &Cube) {}

    fn after(&self, _hand: usize, _cube: &Cube) {}

    fn prepared(&self, counts: Counts) {
        *self.before.lock(self.rt) = counts;
    }

    fn counted(&self, hand: usize, counts: Counts) {
        let mut last = self.last.lock(self.rt);
        if let Some(at) = last.get_mut(hand) {
            *at = counts;
        }
    }
}

fn numbers_of(counts: Counts) -> Done {
    [
        counts.conflicts,
        counts.decisions,
        counts.propagations,
        counts.learnt,
        counts.looks,
        counts.failed_literals,
    ]
}

/// What is done before so many hands begin, and by them, as a gate is told.
fn done_by<R: Threads + Wait + Clock + Sync>(
    rt: &R,
    alloc: Global,
    formula: &Formula,
    plan: Plan,
    hands: HandCount,
) -> Result<(Done, Done), Fail> {
    let gate = Told {
        rt,
        before: Mutex::new(Counts::none()),
        last: Mutex::new([Counts::none(); 4]),
    };
    let _tree: Tree = solve_by_plan(rt, alloc, formula, plan, hands, &gate)?;
    let before = *gate.before.lock(rt);
    Ok((numbers_of(before), numbers_of(gate.sum())))
}

/// Whether a gate is told what is done of a row by so many hands.
fn is_told<R: Threads + Wait + Clock + Sync>(
    rt: &R,
    alloc: Global,
    row: &Row,
    hands: HandCount,
) -> Result<bool, Fail> {
    let (text, search, budget, divide, before, wanted) = *row;
    let formula = read_formula(alloc, text.as_bytes())?;
    let plan = plan_of(search, budget, divide);
    Ok(done_by(rt, alloc, &formula, plan, hands)? == (before, wanted))
}

#[test]
fn a_gate_is_told_what_is_done(rt: HostRuntime) -> Result<(), Fail> {
    for row in &ROWS {
        for hands in [1, 2, 4] {
            assert!(rt;
                is_told(&rt, rt.alloc(), row, HandCount::of(hands))?,
                "{hands} hands at {}",
                row.0
            );
        }
    }
    Ok(())
}

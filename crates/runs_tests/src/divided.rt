//! Whole runs by plans that divide the formula, by one hand and by several. The rows of `FIVE` and
//! `EIGHT` are worked out by hand, the others by a program of its own, which goes by the definition.

use crate::plainly::run_plainly;
use cdcl::Plan;
use cubes::HandCount;
use runs::RunFault;
use std::alloc::Global;
use std::sync::Wait;
use std::test::Fail;
use std::thread::Threads;
use std::time::Clock;
use test_samples::{EIGHT, FIVE, soon_stable};

/// A formula, a plan, and what a run writes.
struct Row {
    text: &'static str,
    budget: u32,
    divide: u32,
    answer: &'static str,
    proof: &'static str,
}

static ROWS: [Row; 6] = [
    Row {
        text: FIVE,
        budget: 2,
        divide: 2,
        answer: "s UNSATISFIABLE\n",
        proof: "13 1 2 0 1 0\n14 2 0 13 3 0\n14 d 13 0\n15 1 -2 0 2 0\n16 -2 0 15 4 0\n16 d 15 0\n17 0 14 16 0\n",
    },
    Row {
        text: EIGHT,
        budget: 2,
        divide: 3,
        answer: "s UNSATISFIABLE\n",
        proof: "9 1 3 2 0 1 0\n10 3 2 0 9 5 0\n10 d 9 0\n11 1 3 -2 0 3 0\n12 3 -2 0 11 7 0\n12 d 11 0\n13 3 0 10 12 0\n13 d 10 12 0\n14 1 -3 2 0 2 0\n15 -3 2 0 14 6 0\n15 d 14 0\n16 1 -3 -2 0 4 0\n17 -3 -2 0 16 8 0\n17 d 16 0\n18 -3 0 15 17 0\n18 d 15 17 0\n19 0 13 18 0\n",
    },
    Row {
        text: EIGHT,
        budget: 2,
        divide: 65536,
        answer: "s UNSATISFIABLE\n",
        proof: "9 1 3 2 0 1 0\n10 3 2 0 9 5 0\n10 d 9 0\n11 1 3 -2 0 3 0\n12 3 -2 0 11 7 0\n12 d 11 0\n13 3 0 10 12 0\n13 d 10 12 0\n14 1 -3 2 0 2 0\n15 -3 2 0 14 6 0\n15 d 14 0\n16 1 -3 -2 0 4 0\n17 -3 -2 0 16 8 0\n17 d 16 0\n18 -3 0 15 17 0\n18 d 15 17 0\n19 0 13 18 0\n",
    },
    Row {
        text: "p cnf 7 21\n-7 -5 2 0\n5 -2 4 0\n6 -1 -5 0\n4 -5 0\n5 -4 -3 0\n-2 4 -1 0\n5 -2 -1 0\n-6 -5 -1 0\n4 -6 2 0\n7 5 6 0\n7 5 -4 0\n7 -2 0\n7 -2 1 0\n3 -2 0\n-4 5 0\n4 3 1 0\n5 6 3 0\n5 3 -6 0\n-1 -7 4 0\n3 5 -6 0\n-6 -5 -4 0\n",
        budget: 2,
        divide: 8,
        answer: "s SATISFIABLE\nv -1 -2 3 -4 -5 -6 7 0\n",
        proof: "",
    },
    Row {
        text: "p cnf 8 24\n-1 7 -3 0\n-4 5 3 0\n1 -7 -5 0\n-3 -8 -4 0\n2 8 7 0\n-6 -4 7 0\n5 -6 -1 0\n-5 1 0\n8 -5 -1 0\n-7 6 0\n-1 6 3 0\n2 -5 4 0\n3 -5 1 0\n-5 -1 0\n4 -2 5 0\n-2 -6 -7 0\n7 -5 -6 0\n7 2 -6 0\n-8 6 -5 0\n8 6 -4 0\n5 -6 2 0\n-7 -3 5 0\n-4 5 -7 0\n5 1 4 0\n",
        budget: 2,
        divide: 8,
        answer: "s UNSATISFIABLE\n",
        proof: "25 -4 -8 5 7 6 0 2 4 0\n26 -1 5 7 6 0 1 11 0\n27 4 5 7 6 0 26 24 0\n28 3 5 7 6 0 27 2 0\n29 8 5 7 6 0 27 20 0\n30 5 7 6 0 27 28 29 4 0\n30 d 25 26 27 28 29 0\n31 -4 5 7 -6 0 6 0\n32 -1 5 7 -6 0 7 0\n33 5 7 -6 0 31 32 24 0\n33 d 31 32 0\n34 5 7 0 30 33 0\n34 d 30 33 0\n35 6 5 -7 0 10 0\n36 -3 5 -7 0 22 0\n37 -4 5 -7 0 23 0\n38 -1 5 -7 0 35 7 0\n39 5 -7 0 37 38 24 0\n39 d 35 36 37 38 0\n40 5 0 34 39 0\n40 d 34 39 0\n41 1 -5 0 8 0\n42 -5 0 41 14 0\n42 d 41 0\n43 0 40 42 0\n",
    },
    Row {
        text: "p cnf 7 28\n4 1 -6 0\n1 7 2 0\n-7 6 -4 0\n7 2 -3 0\n3 1 4 0\n1 5 -3 0\n-7 -2 0\n-4 -1 3 0\n3 -5 4 0\n-3 6 4 0\n2 -3 1 0\n-5 -2 -6 0\n1 -5 0\n-2 3 0\n5 -3 0\n-2 -7 -1 0\n2 -1 5 0\n-1 -7 -6 0\n-6 5 -3 0\n1 7 -4 0\n1 -4 6 0\n-2 -4 0\n-7 -3 4 0\n5 1 -7 0\n-5 -6 1 0\n7 1 0\n1 6 -7 0\n-5 2 -4 0\n",
        budget: 2,
        divide: 8,
        answer: "s UNSATISFIABLE\n",
        proof: "29 -5 1 0 13 0\n30 7 1 0 26 0\n31 1 0 29 30 24 0\n31 d 29 30 0\n32 -5 -6 -1 4 7 0 9 12 4 0\n33 5 -1 4 7 0 15 17 14 0\n34 3 -1 4 7 0 33 9 0\n35 -6 -1 4 7 0 33 32 0\n36 -1 4 7 0 34 35 10 0\n36 d 32 33 34 35 0\n37 -2 -1 4 -7 0 7 0\n38 -6 -1 4 -7 0 18 0\n39 -3 -1 4 -7 0 23 0\n40 5 -1 4 -7 0 37 17 0\n41 -1 4 -7 0 39 40 9 0\n41 d 37 38 39 40 0\n42 -1 4 0 36 41 0\n42 d 36 41 0\n43 3 -1 -4 0 8 0\n44 -2 -1 -4 0 22 0\n45 5 -1 -4 0 43 15 0\n46 -1 -4 0 44 45 28 0\n46 d 43 44 45 0\n47 -1 0 42 46 0\n47 d 42 46 0\n48 0 31 47 0\n",
    },
];

/// The row's plan, if there is one.
fn plan_of(row: &Row) -> Option<Plan> {
    if row.budget < 1 || row.budget > 100_000 || row.divide > 65_536 {
        return None;
    }
    let plan = Plan::focused_by(row.budget, soon_stable());
    Some(plan.divided(row.divide).simplifying(false))
}

/// Whether the answer and the proof are the row's.
fn are_wanted(row: &Row, answer: &[u8], proof: &[u8]) -> bool {
    answer == row.answer.as_bytes() && proof == row.proof.as_bytes()
}

/// Whether so many hands write what is wanted.
fn hands_write<R: Threads + Wait + Clock + Sync>(
    rt: &R,
    alloc: Global,
    row: &Row,
    hands: HandCount,
) -> Result<bool, RunFault> {
    let Some(plan) = plan_of(row) else {
        return Ok(false);
    };
    let mut proof = Vec::new(alloc);
    let mut answer = Vec::new(alloc);
    run_plainly(rt, alloc, row.text, plan, hands, &mut answer, &mut proof)?;
    Ok(are_wanted(row, &answer, &proof))
}

/// Whether a row's run does, by one hand and by eight.
fn holds<R: Threads + Wait + Clock + Sync>(
    rt: &R,
    alloc: Global,
    row: &Row,
) -> Result<bool, RunFault> {
    let is_written = hands_write(rt, alloc, row, HandCount::of(1))?;
    Ok(is_written && hands_write(rt, alloc, row, HandCount::of(8))?)
}

#[test]
fn divided_runs(rt: HostRuntime) -> Result<(), Fail> {
    for row in &ROWS {
        assert!(rt; holds(&rt, rt.alloc(), row)?, "{}", row.text);
    }
    Ok(())
}

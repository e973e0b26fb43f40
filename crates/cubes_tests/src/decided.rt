//! Worked rows: what is decided of a formula with no line kept, with little budget and with much,
//! beside the tree that keeps them.

use cdcl::{KeepsLines, Plan, Unkept};
use cnf::read_formula;
use cubes::{HandCount, OpenGate, Tree, solve_by_plan};
use lines::Row;
use std::alloc::Global;
use std::sync::Wait;
use std::test::Fail;
use std::thread::Threads;
use std::time::Clock;
use test_samples::{EIGHT, FOUR_PURE, SIXTEEN, TWO_MODELS};

/// A text, and the model that the ordered search finds, if there is one.
type Text = (&'static str, Option<&'static [bool]>);

static ROWS: [Text; 6] = [
    ("p cnf 0 0\n", Some(&[])),
    ("p cnf 1 1\n0\n", None),
    (FOUR_PURE, None),
    (EIGHT, None),
    (SIXTEEN, None),
    (TWO_MODELS, Some(&[false, true, false])),
];

/// Whether so many hands decide a text's formula as the row says, where lines are kept in this way.
fn decides<L: KeepsLines + Send, R: Threads + Wait + Clock + Sync>(
    rt: &R,
    alloc: Global,
    row: &Text,
    plan: Plan,
    hands: HandCount,
) -> Result<bool, Fail> {
    let (text, wanted) = *row;
    let formula = read_formula(alloc, text.as_bytes())?;
    let tree: Tree<L> = solve_by_plan(rt, alloc, &formula, plan, hands, &OpenGate)?;
    match tree {
        Tree::Model(values) => Ok(wanted == Some(values.as_slice())),
        Tree::Refuted(_) => Ok(wanted.is_none()),
    }
}

#[test]
fn decides_as_it_solves(rt: HostRuntime) -> Result<(), Fail> {
    for row in &ROWS {
        for hands in [1, 2, 8] {
            for budget in [1, 1000] {
                let (plan, hands) = (Plan::ordered(budget), HandCount::of(hands));
                let unkept = decides::<Unkept, _>(&rt, rt.alloc(), row, plan, hands)?;
                let kept = decides::<Row, _>(&rt, rt.alloc(), row, plan, hands)?;
                assert!(rt; unkept && kept, "budget {budget}, at {:?}", row.0);
            }
        }
    }
    Ok(())
}

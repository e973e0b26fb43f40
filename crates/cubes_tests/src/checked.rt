//! Worked rows: trees that are gathered from results of a greater budget, which are checked and not
//! true of the plan.
ghost use Rattle.std.specs.Prelude.{OnOk};
ghost use Rattle.theory.specs.Plans.{ordered};
ghost use Rattle.theory.specs.Pure.{searched};
ghost use Rattle.cubes.specs.Solved.{AreCheckedResults};

use crate::results::solved;
use cdcl::Plan;
use cnf::{Formula, read_formula};
use cubes::{Solved, Tree, What, gather_by_plan};
use lines::Row as LineRow;
use std::alloc::{AllocError, Global};
use std::test::Fail;
use test_samples::{EIGHT, SIXTEEN, cube_of};

/// A text, the cubes that are solved before, and how many nodes the tree then has.
type Row = (&'static str, &'static [&'static [i32]], usize);

static ROWS: [Row; 5] = [
    // nothing is given
    (EIGHT, &[], 3),
    (SIXTEEN, &[], 7),
    // the root is refuted
    (EIGHT, &[&[]], 1),
    // a half is refuted that the plan would split, and so are both
    (SIXTEEN, &[&[-1]], 5),
    (SIXTEEN, &[&[1], &[-1]], 3),
];

/// Adds what a cube comes to with a budget of 100 conflicts for the root.
fn put(
    alloc: Global,
    formula: &Formula,
    numbers: &[i32],
    results: &mut Vec<Solved<LineRow>>,
) -> Result<(), AllocError>
    requires { AreCheckedResults ordered (searched formula.now) results.old.items }
    ensures { OnOk result (AreCheckedResults ordered (searched formula.now) results.new.items) }
{
    let cube = cube_of(alloc, formula.vars(), numbers)?;
    let outcome = solved(alloc, formula, Plan::ordered(100), &cube)?;
    let what = What::Done(outcome);
    results.push(Solved { cube, what })?;
    Ok(())
}

/// The tree that is gathered from the results of these cubes, with a budget of 1.
fn gathered(
    alloc: Global,
    formula: &Formula,
    cubes: &[&[i32]],
) -> Result<Tree<LineRow>, AllocError> {
    let mut results = Vec::new(alloc);
    for numbers in cubes {
        put(alloc, formula, numbers, &mut results)?;
    }
    gather_by_plan(alloc, formula, Plan::ordered(1), results)
}

/// How many nodes a text's tree has, gathered so; none where there is a model.
fn nodes_of(alloc: Global, text: &str, cubes: &[&[i32]]) -> Result<usize, Fail> {
    let formula = read_formula(alloc, text.as_bytes())?;
    match gathered(alloc, &formula, cubes)? {
        Tree::Model(_) => Ok(0),
        Tree::Refuted(nodes) => Ok(nodes.len()),
    }
}

#[test]
fn gathers_what_was_only_checked(rt: HostRuntime) -> Result<(), Fail> {
    for (text, cubes, nodes) in &ROWS {
        let found = nodes_of(rt.alloc(), text, cubes)?;
        assert!(rt; found == *nodes, "{found} nodes with {cubes:?}");
    }
    Ok(())
}

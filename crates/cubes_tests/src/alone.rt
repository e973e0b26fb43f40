//! Worked rows: whole trees, solved without hands.
use crate::results::{NODES, NODES_OF_SIXTEEN, Wanted, WantedTree, is_tree};
use cdcl::Plan;
use cnf::read_formula;
use cubes::solve_one_by_plan;
use std::alloc::Global;
use std::test::Fail;
use test_samples::{EIGHT, FOUR, FOUR_PURE, FOUR_UNUSED, SIXTEEN};

/// A text, a budget and its tree.
type Row = (&'static str, u32, WantedTree);

/// Whether a row's text has the row's tree.
fn has_tree(alloc: Global, row: &Row) -> Result<bool, Fail> {
    let formula = read_formula(alloc, row.0.as_bytes())?;
    if row.1 < 1 || row.1 > 100_000 {
        return Ok(false);
    }
    let tree = solve_one_by_plan(alloc, &formula, Plan::ordered(row.1))?;
    Ok(is_tree(&tree, row.2)?)
}

const OF_FOUR: [Wanted; 3] = [
    Wanted::Split(1),
    Wanted::Leaf(&[(&[], &[1, 2])]),
    Wanted::Leaf(&[(&[], &[3, 4])]),
];

const OF_PURE: [Wanted; 3] = [
    Wanted::Split(1),
    Wanted::Leaf(&[(&[], &[2, 3])]),
    Wanted::Leaf(&[(&[], &[4, 5])]),
];

const LEARNT_OF_EIGHT: [Wanted; 1] = [Wanted::Leaf(&[
    (&[1, 2], &[1, 2]),
    (&[1], &[9, 3, 4]),
    (&[2], &[10, 5, 6]),
    (&[], &[10, 11, 7, 8]),
])];

const LEARNT_OF_FOUR: [Wanted; 1] = [Wanted::Leaf(&[(&[1], &[1, 2]), (&[], &[5, 3, 4])])];

const LEARNT_OF_UNUSED: [Wanted; 1] = [Wanted::Leaf(&[(&[1], &[1, 2]), (&[], &[6, 3, 4])])];

static ROWS: [Row; 13] = [
    (EIGHT, 1, WantedTree::Refuted(&NODES)),
    (FOUR, 1, WantedTree::Refuted(&OF_FOUR)),
    (FOUR_UNUSED, 1, WantedTree::Refuted(&OF_FOUR)),
    (FOUR_PURE, 1, WantedTree::Refuted(&OF_PURE)),
    (SIXTEEN, 1, WantedTree::Refuted(&NODES_OF_SIXTEEN)),
    // more than one conflict at the root
    (EIGHT, 2, WantedTree::Refuted(&NODES)),
    (EIGHT, 4, WantedTree::Refuted(&LEARNT_OF_EIGHT)),
    (EIGHT, 100_000, WantedTree::Refuted(&LEARNT_OF_EIGHT)),
    (FOUR, 2, WantedTree::Refuted(&LEARNT_OF_FOUR)),
    (FOUR_UNUSED, 2, WantedTree::Refuted(&LEARNT_OF_UNUSED)),
    // models
    (
        "p cnf 2 1\n1 2 0\n",
        1000,
        WantedTree::Model(&[false, true]),
    ),
    ("p cnf 2 1\n1 -2 0\n", 1, WantedTree::Model(&[false, false])),
    (
        "p cnf 2 2\n1 2 0\n1 -2 0\n",
        1,
        WantedTree::Model(&[true, false]),
    ),
];

#[test]
fn trees(rt: HostRuntime) -> Result<(), Fail> {
    for row in &ROWS {
        assert!(rt;
            has_tree(rt.alloc(), row)?,
            "{:?} with budget {}",
            row.0,
            row.1
        );
    }
    Ok(())
}

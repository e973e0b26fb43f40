//! Worked cubes of the focused search in which literals of level 0 become lines.
use crate::outcomes::{Wanted, cube_by, is_wanted};
use cdcl::Plan;
use std::alloc::Global;
use std::test::Fail;

/// A name, a formula, a cube, and what the cube is to come to.
type Row<'a> = (&'a str, &'a str, &'a [i32], Wanted<'a>);

static ROWS: [Row; 4] = [
    // 1 is a clause by itself, then 2 follows, and 3
    (
        "hints go by the trail",
        "p cnf 3 4\n3 -2 -1 0\n-3 -1 -2 0\n2 -1 0\n1 0\n",
        &[],
        Wanted::Refuted(&[(&[2], &[4, 3]), (&[3], &[4, 5, 1]), (&[], &[4, 5, 6, 2])]),
    ),
    (
        "the cube's literals have no hints",
        "p cnf 3 4\n-1 2 0\n-1 -2 3 0\n-1 -2 -3 0\n1 2 3 0\n",
        &[1],
        Wanted::Refuted(&[(&[2], &[1]), (&[3], &[5, 2]), (&[], &[5, 6, 3])]),
    ),
    // the first clause has one literal, and the second two
    (
        "a literal stands twice",
        "p cnf 2 3\n1 1 0\n-1 2 -1 0\n-2 -1 0\n",
        &[],
        Wanted::Refuted(&[(&[2], &[1, 2]), (&[], &[1, 4, 3])]),
    ),
    // 1 gives 2; 4 is decided and gives 3, a conflict; -4 is learnt, which gives 3, another one
    (
        "a unit stays one, and later lines name it",
        "p cnf 4 6\n1 0\n-1 2 0\n-2 3 4 0\n-2 3 -4 0\n-2 -3 4 0\n-2 -3 -4 0\n",
        &[],
        Wanted::Refuted(&[
            (&[2], &[1, 2]),
            (&[-4], &[7, 4, 6]),
            (&[3], &[7, 8, 3]),
            (&[], &[7, 8, 9, 5]),
        ]),
    ),
];

fn comes(alloc: Global, row: &Row) -> Result<bool, Fail> {
    let (_, text, cube, wanted) = *row;
    let found = cube_by(alloc, text, cube, Plan::focused(1000))?;
    Ok(is_wanted(&found, wanted)?)
}

#[test]
fn literals_of_level_0_become_lines(rt: HostRuntime) -> Result<(), Fail> {
    for row in &ROWS {
        assert!(rt; comes(rt.alloc(), row)?, "{}", row.0);
    }
    Ok(())
}

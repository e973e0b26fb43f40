//! Worked searches by the focused search, each of which would come to something else without the part
//! of its definition that it names. What they come to is from a program of its own, which goes by the
//! definition.
use crate::focused::{Row, comes, small_constants};
use crate::outcomes::Wanted;
use heuristics::Constants;
use std::test::Fail;

// in several tables, since the proof of a function that names one takes time by the square of its
// parts, of which the lines are most
static PARTS_1: [Row<&[u8]>; 6] = [
    (
        "a literal of the first line follows from its others, and isn't in it",
        b"p cnf 5 6\n-5 3 0 2 -3 1 0 -4 -1 0 1 5 0 4 -1 0 1 -2 -5 0\n",
        1000,
        Wanted::Refuted(&[
            (&[1, -5], &[1, 2, 6]),
            (&[-1], &[3, 5]),
            (&[5], &[8, 4]),
            (&[], &[8, 9, 7]),
        ]),
    ),
    (
        "a literal is removable by another one that is, and the line lacks both",
        b"p cnf 6 7\n-1 -3 0 1 6 0 -6 -5 0 -2 -6 1 0 3 -1 0 4 2 1 0 -4 5 0\n",
        1000,
        Wanted::Refuted(&[
            (&[1, -6], &[3, 7, 4, 6]),
            (&[-1], &[1, 5]),
            (&[6], &[9, 2]),
            (&[], &[9, 10, 8]),
        ]),
    ),
    (
        "a literal is removable by one of level 0",
        b"p cnf 8 12\n5 4 0 6 -2 -4 0 2 -5 0 -1 -7 0 5 -4 -7 0 -4 7 0 2 -1 0 4 -2 0 -7 3 0 -6 1 8 0 1 3 0 -8 -3 0\n",
        1000,
        Wanted::Refuted(&[
            (&[3], &[9, 11, 6, 7, 8]),
            (&[-8], &[13, 12]),
            (&[-4, -7], &[14, 4, 10, 2, 5, 3]),
            (&[4], &[1, 8, 3]),
            (&[7], &[16, 6]),
            (&[], &[16, 17, 15]),
        ]),
    ),
    (
        "a variable is seen in the reason of a literal of the line alone, and decided first",
        b"p cnf 4 4\n2 -3 0 4 3 0 1 -4 0 -1 -2 -3 0\n",
        1000,
        Wanted::Model(&[true, true, false, true]),
    ),
    (
        "it restarts",
        b"p cnf 11 22\n8 -5 4 0 7 -11 -8 0 -2 6 0 11 -1 5 0 5 4 0 5 -3 -10 0 7 4 0 -4 -5 -10 -8 0 5 6 0 2 -4 6 0 -10 8 -1 0 4 -1 0 3 -6 -11 -9 0 10 -4 8 -5 0 -11 -7 4 0 -6 -3 1 -4 0 7 9 3 0 6 -9 4 0 6 1 10 0 -5 -1 -6 0 -7 5 10 3 0 -6 10 -8 -7 0\n",
        1000,
        Wanted::Model(&[
            false, false, false, true, true, true, false, true, true, false, false,
        ]),
    ),
    (
        "it doesn't restart in the conflict behind a restart",
        b"p cnf 17 40\n-13 -12 -11 0 7 -11 12 0 -3 -10 17 0 -2 9 0 5 -2 1 0 -1 -13 -12 0 -1 4 0 12 14 6 0 -11 -9 -5 0 -14 12 17 0 1 -12 -15 0 -16 11 -7 0 -16 -10 -8 0 -7 1 -6 0 8 -16 1 0 -6 -8 -7 0 8 -11 -1 0 5 3 0 11 -10 5 0 11 12 -1 0 4 10 -11 0 -5 11 17 0 -5 -13 1 0 -4 -7 15 0 -6 -14 -15 0 -9 -16 13 0 13 -6 12 0 1 -17 9 0 -12 11 10 0 11 16 -10 0 -14 -1 6 0 -13 12 5 0 17 -5 -7 0 10 -13 6 0 7 13 0 -12 2 10 0 5 15 -10 0 11 14 16 0 3 -11 16 0 -9 14 0\n",
        1000,
        Wanted::Model(&[
            true, false, true, true, false, false, true, true, false, true, true, true, false,
            false, true, false, true,
        ]),
    ),
];

static PARTS_2: [Row<&[u8]>; 6] = [
    (
        "it goes over to stable mode",
        b"p cnf 11 13\n3 -2 6 0 -11 -3 0 5 1 -11 0 5 2 0 11 -3 0 1 -4 -6 0 -1 -9 0 9 10 -7 0 -6 -8 0 -5 -10 6 0 8 4 0 9 7 0 -1 -6 0\n",
        1000,
        Wanted::Model(&[
            false, false, false, true, true, false, false, false, true, false, false,
        ]),
    ),
    (
        "and back",
        b"p cnf 12 22\n2 10 11 0 9 -11 10 0 10 1 0 -5 -10 -8 0 9 5 0 -6 3 0 -8 3 12 0 -2 -4 3 0 10 2 0 -3 -12 -2 0 6 -4 5 0 -9 4 0 8 -2 0 11 9 2 0 7 -11 1 0 -9 1 -3 0 -10 8 3 0 -12 -7 -10 0 9 -7 0 -3 -6 -1 0 -1 3 4 0 -1 -5 -10 0\n",
        1000,
        Wanted::Model(&[
            true, true, true, false, true, false, false, true, false, false, false, false,
        ]),
    ),
    (
        "the values become true at the end of the first round",
        b"p cnf 3 3\n-2 -3 0 3 1 0 -3 2 0\n",
        1000,
        Wanted::Model(&[true, true, false]),
    ),
    (
        "and the other ones at the end of the second",
        b"p cnf 5 6\n-5 2 0 -2 -5 0 1 3 0 -1 3 -2 0 -3 4 0 -4 5 -3 0\n",
        1000,
        Wanted::Model(&[true, false, false, false, false]),
    ),
    (
        "and false at the end of the third",
        b"p cnf 9 12\n3 6 0 7 -6 -8 0 4 9 -1 0 -9 -3 7 0 2 1 0 -1 -3 0 -4 5 0 -4 -2 8 0 1 4 0 9 6 -3 0 -8 -7 0 2 -5 0\n",
        1000,
        Wanted::Model(&[true, false, false, false, false, true, false, false, true]),
    ),
    (
        "a clause is forgotten",
        b"p cnf 11 17\n11 9 0 6 3 0 -1 -4 0 4 -8 2 0 -9 -8 6 0 11 8 0 4 -1 -9 0 6 2 0 -11 5 -10 0 11 -8 0 -5 1 -6 0 7 -4 0 10 -9 2 0 -11 -2 1 0 -7 -4 5 0 8 9 0 -3 -1 0\n",
        1000,
        Wanted::Model(&[
            true, true, false, false, false, true, true, true, false, false, true,
        ]),
    ),
];

static PARTS_3: [Row<&[u8]>; 5] = [
    (
        "a clause isn't forgotten, since it was used",
        b"p cnf 9 15\n4 -5 0 -5 -6 0 2 3 0 2 -3 0 -6 -3 0 5 7 -8 0 -2 -1 0 -5 2 0 4 5 6 0 8 -2 6 0 1 5 0 9 7 3 0 4 -6 -9 0 -4 -8 -5 0 -4 -7 5 0\n",
        1000,
        Wanted::Forgetting(
            &[
                (&[-6, -7, -9], &[2, 13, 15]),
                (&[-5, 6], &[1, 8, 14, 10]),
                (&[-7, -9], &[16, 17, 9, 15]),
                (&[7, 9], &[12, 4, 5, 10, 17, 6]),
                (&[6, -7], &[17, 9, 15]),
                (&[-6], &[2, 5, 11, 3, 7]),
                (&[-5], &[21, 17]),
                (&[-7], &[21, 20]),
                (&[4], &[21, 22, 9]),
                (&[1], &[22, 11]),
                (&[-8], &[22, 23, 6]),
                (&[9], &[23, 19]),
                (&[-2], &[25, 7]),
                (&[3], &[28, 3]),
                (&[], &[28, 29, 4]),
            ],
            &[(5, &[16])],
        ),
    ),
    (
        "a clause is forgotten that had been used, but not in the last round",
        b"p cnf 11 17\n11 9 0 6 3 0 -1 -4 0 4 -8 2 0 -9 -8 6 0 11 8 0 4 -1 -9 0 6 2 0 -11 5 -10 0 11 -8 0 -5 1 -6 0 7 -4 0 10 -9 2 0 -11 -2 1 0 -7 -4 5 0 8 9 0 -3 -1 0\n",
        1000,
        Wanted::Model(&[
            true, true, false, false, false, true, true, true, false, false, true,
        ]),
    ),
    (
        "the first quarter isn't forgotten",
        b"p cnf 14 23\n11 -1 5 0 9 8 0 -14 2 -3 0 -4 13 9 0 -8 -6 0 10 4 0 -6 -12 7 0 -1 8 0 5 -11 1 0 -11 -3 -1 0 1 -8 -2 0 -7 -8 0 14 -10 2 0 -9 7 3 0 12 14 0 -5 -7 14 0 -2 7 4 0 6 14 10 0 -7 -11 -10 0 -5 -4 -13 0 3 -13 9 0 8 11 5 0 6 -10 -9 0\n",
        1000,
        Wanted::Model(&[
            true, false, false, false, true, false, false, true, false, true, false, true, false,
            true,
        ]),
    ),
    (
        "the scores are divided in stable mode",
        b"p cnf 19 29\n12 -15 0 3 -13 0 18 8 -2 0 -9 5 -11 0 8 -5 13 0 4 -6 -12 0 -1 -8 -3 0 -3 12 0 14 2 0 6 -13 0 4 3 6 0 -2 1 0 7 -4 0 9 6 0 -16 -13 -18 0 11 -18 0 17 8 0 15 11 0 16 -3 0 18 -4 -5 0 -10 19 0 -7 10 0 -19 -15 5 0 13 -8 -6 0 -17 -5 -9 0 -15 -6 13 0 -3 -7 0 7 2 5 0 -14 13 0\n",
        1000,
        Wanted::Model(&[
            true, true, false, false, false, true, false, false, false, true, true, false, false,
            false, false, true, true, true, true,
        ]),
    ),
    (
        "the step grows slower in stable mode",
        b"p cnf 14 18\n7 14 0 -1 2 0 -9 -3 0 -5 3 0 13 -2 -11 0 -3 9 -4 0 -10 -7 11 0 -14 3 -11 0 5 -13 4 0 13 -14 5 0 -4 -12 0 -5 10 0 10 -8 0 -3 -11 0 14 8 11 0 -12 4 0 12 6 0 -11 1 0\n",
        1000,
        Wanted::Model(&[
            false, false, true, false, true, true, false, false, false, true, false, false, false,
            true,
        ]),
    ),
];

// where each learnt clause may be forgotten, also one of a single literal, which may be a reason of level 0
static REASON: [Row<&[u8]>; 1] = [(
    "a clause that is a reason isn't forgotten",
    b"p cnf 9 14\n-2 7 0 6 5 0 2 7 8 0 -2 3 0 -6 -3 1 0 9 -8 0 6 9 0 -1 -6 0 2 6 -9 0 9 -1 0 4 -7 0 -4 -8 -7 0 -5 6 0 -6 2 0\n",
    1000,
    Wanted::Forgetting(
        &[
            (&[-7, -8], &[11, 12]),
            (&[-8], &[6, 15, 1, 9, 14]),
            (&[7], &[16, 1, 3]),
            (&[4], &[17, 11]),
            (&[-3, 9], &[7, 10, 5]),
            (&[-3, -6], &[5, 8]),
            (&[6], &[2, 13]),
            (&[-1], &[21, 8]),
            (&[2], &[21, 14]),
            (&[-3], &[21, 20]),
            (&[], &[23, 24, 4]),
        ],
        &[(6, &[15])],
    ),
)];

fn parts_1() -> &'static [Row<'static, &'static [u8]>] {
    &PARTS_1
}

fn parts_2() -> &'static [Row<'static, &'static [u8]>] {
    &PARTS_2
}

fn parts_3() -> &'static [Row<'static, &'static [u8]>] {
    &PARTS_3
}

fn reason() -> &'static [Row<'static, &'static [u8]>] {
    &REASON
}

/// The numbers of the other rows, but for the glue of clauses that are kept.
fn no_kept_glue() -> Constants {
    Constants {
        kept_glue: 0,
        ..small_constants()
    }
}

#[test]
fn parts_of_the_definition(rt: HostRuntime) -> Result<(), Fail> {
    let tables = [parts_1(), parts_2(), parts_3()];
    for rows in tables {
        for (name, text, budget, wanted) in rows {
            let comes = comes(rt.alloc(), text, *budget, small_constants(), *wanted)?;
            assert!(rt; comes, "{name}");
        }
    }
    Ok(())
}

#[test]
fn reasons_stay(rt: HostRuntime) -> Result<(), Fail> {
    for (name, text, budget, wanted) in reason() {
        let comes = comes(rt.alloc(), text, *budget, no_kept_glue(), *wanted)?;
        assert!(rt; comes, "{name}");
    }
    Ok(())
}

//! Worked rows at the limits of a simplification, of formulas that are built. Most have one clause 101
//! times, so that the variables in it have too many pairs to be tried.

use crate::shown::{left_text, lines_text, simplified};
use std::alloc::{AllocError, Global};
use std::fmt::Write;
use std::process::Abort;
use std::test::Fail;

/// Some clauses, and one more so many times; and what the simplification gives.
struct Case {
    what: &'static str,
    vars: u32,
    clauses: &'static [&'static str],
    last: &'static str,
    times: u32,
    // the lines
    lines: &'static str,
    // what is left, each clause behind its number: of those written out, of the one of the many times
    // (all or none), and of the resolvents
    written: &'static str,
    all_times: bool,
    resolvents: &'static str,
    eliminated: u32,
    looked_at: u64,
}

static CASES: [Case; 6] = [
    Case {
        what: "a variable of 100 pairs is tried: 1 clause and 100",
        vars: 2,
        clauses: &["1 2 0"],
        last: "-1 -2 0",
        times: 100,
        lines: "101 d 1 2 3 4 5 6 7 8 9 10 11 12 13 14 15 16 17 18 19 20 21 22 23 24 25 26 27 28 29 30 31 32 33 34 35 36 37 38 39 40 41 42 43 44 45 46 47 48 49 50 51 52 53 54 55 56 57 58 59 60 61 62 63 64 65 66 67 68 69 70 71 72 73 74 75 76 77 78 79 80 81 82 83 84 85 86 87 88 89 90 91 92 93 94 95 96 97 98 99 100 101 0\n",
        written: "",
        all_times: false,
        resolvents: "",
        eliminated: 2,
        looked_at: 400,
    },
    Case {
        what: "one of 101 pairs isn't",
        vars: 2,
        clauses: &["1 2 0"],
        last: "-1 -2 0",
        times: 101,
        lines: "",
        written: "1 1 2 0\n",
        all_times: true,
        resolvents: "",
        eliminated: 0,
        looked_at: 0,
    },
    Case {
        what: "a resolvent of 20 literals",
        vars: 21,
        clauses: &[
            "1 2 3 4 5 6 7 8 9 10 11 0",
            "-1 12 13 14 15 16 17 18 19 20 21 0",
        ],
        last: "-2 -3 -4 -5 -6 -7 -8 -9 -10 -11 -12 -13 -14 -15 -16 -17 -18 -19 -20 -21 0",
        times: 101,
        lines: "104 2 3 4 5 6 7 8 9 10 11 12 13 14 15 16 17 18 19 20 21 0 1 2 0\n104 d 1 2 0\n",
        written: "",
        all_times: true,
        resolvents: "104 2 3 4 5 6 7 8 9 10 11 12 13 14 15 16 17 18 19 20 21 0\n",
        eliminated: 1,
        looked_at: 22,
    },
    Case {
        what: "one of 21 literals is too long",
        vars: 22,
        clauses: &[
            "1 2 3 4 5 6 7 8 9 10 11 0",
            "-1 12 13 14 15 16 17 18 19 20 21 22 0",
        ],
        last: "-2 -3 -4 -5 -6 -7 -8 -9 -10 -11 -12 -13 -14 -15 -16 -17 -18 -19 -20 -21 -22 0",
        times: 101,
        lines: "",
        written: "1 1 2 3 4 5 6 7 8 9 10 11 0\n2 -1 12 13 14 15 16 17 18 19 20 21 22 0\n",
        all_times: true,
        resolvents: "",
        eliminated: 0,
        looked_at: 23,
    },
    Case {
        what: "equal resolvents, each with a line: 4 of 4 clauses",
        vars: 4,
        clauses: &["1 2 0", "1 2 0", "-1 3 0", "-1 4 0"],
        last: "-2 -3 -4 0",
        times: 101,
        lines: "106 2 3 0 1 3 0\n107 2 4 0 1 4 0\n108 2 3 0 2 3 0\n109 2 4 0 2 4 0\n109 d 1 2 3 4 0\n",
        written: "",
        all_times: true,
        resolvents: "106 2 3 0\n107 2 4 0\n108 2 3 0\n109 2 4 0\n",
        eliminated: 1,
        looked_at: 16,
    },
    Case {
        what: "equal resolvents, counted each: 6 of 5 clauses",
        vars: 5,
        clauses: &["1 2 0", "1 2 0", "-1 3 0", "-1 4 0", "-1 5 0"],
        last: "-2 -3 -4 -5 0",
        times: 101,
        lines: "",
        written: "1 1 2 0\n2 1 2 0\n3 -1 3 0\n4 -1 4 0\n5 -1 5 0\n",
        all_times: true,
        resolvents: "",
        eliminated: 0,
        looked_at: 24,
    },
];

/// How many clauses a row's formula has.
fn count_of(case: &Case) -> u64 {
    (case.clauses.len() as u64).saturating_add(u64::from(case.times))
}

/// The text of a row's formula.
fn text_of(alloc: Global, case: &Case) -> Result<String, AllocError> {
    let mut text = String::new(alloc);
    let count = count_of(case);
    write!(text, "p cnf {} {count}\n", case.vars)?;
    for clause in case.clauses {
        write!(text, "{clause}\n")?;
    }
    for _ in 0..case.times {
        write!(text, "{}\n", case.last)?;
    }
    Ok(text)
}

/// What is to be left of a row's formula, each clause behind its number.
fn left_of(alloc: Global, case: &Case) -> Result<String, AllocError> {
    let mut text = String::from_str(alloc, case.written)?;
    if case.all_times {
        let mut number = case.clauses.len() as u64;
        for _ in 0..case.times {
            number = number.saturating_add(1);
            write!(text, "{number} {}\n", case.last)?;
        }
    }
    text.push_str(case.resolvents)?;
    Ok(text)
}

/// Whether the simplification gives what the row says.
fn is_as_worked(alloc: Global, case: &Case) -> Result<bool, Fail> {
    let formula = text_of(alloc, case)?;
    let mut made = simplified(alloc, formula.as_str())?;
    let lines = lines_text(alloc, made.take_lines(), count_of(case))?;
    let left = left_text(alloc, made.formula())?;
    let wanted = left_of(alloc, case)?;
    Ok(
        lines.as_str() == case.lines
            && left.as_str() == wanted.as_str()
            && made.eliminated_count() == case.eliminated
            && made.looked_at() == case.looked_at,
    )
}

#[test]
fn built_rows(rt: HostRuntime) -> Result<(), Fail> {
    for case in &CASES {
        assert!(rt; is_as_worked(rt.alloc(), case)?, "{}", case.what);
    }
    Ok(())
}

/// The variables of the formula whose work ends too soon.
const MANY: u32 = 60;

/// Puts the clause of all variables, of which one is negated, if that is one of them.
fn put_negated(text: &mut String, negated: u32) -> Result<(), AllocError> {
    for var in 1..=MANY {
        let sign = if var == negated { "-" } else { "" };
        write!(text, "{sign}{var} ")?;
    }
    write!(text, "0\n")
}

/// The clause of all variables, and behind it that one with each variable negated.
fn many_text(alloc: Global) -> Result<String, AllocError> {
    let mut text = String::new(alloc);
    write!(text, "p cnf {MANY} 61\n")?;
    for negated in 0..=MANY {
        put_negated(&mut text, negated)?;
    }
    Ok(text)
}

// 61 clauses of 60 literals are 3,660; a hundred times that many are looked at. Each variable has 60
// pairs, of 120 literals, and one resolvent, which has 59: it isn't eliminated. Behind 51 variables
// 367,200 literals were looked at, and nine are never tried.
#[test]
fn work_that_ends(rt: HostRuntime) -> Result<(), Fail> {
    let text = many_text(rt.alloc())?;
    let made = simplified(rt.alloc(), text.as_str())?;
    assert!(rt; made.looked_at() == 367_200);
    assert!(rt; made.eliminated_count() == 0);
    assert!(rt; made.clause_count() == 61);
    Ok(())
}

//! Worked rows: lines, what is left, and how much was looked at.

use crate::shown::{left_text, lines_text, simplified};
use cnf::read_formula;
use std::alloc::Global;
use std::process::Abort;
use std::test::Fail;

/// A formula, and what its simplification gives.
struct Case {
    what: &'static str,
    formula: &'static str,
    lines: &'static str,
    // the clauses that are left, each behind its number
    left: &'static str,
    clauses: u32,
    eliminated: u32,
    looked_at: u64,
}

static CASES: [Case; 10] = [
    Case {
        what: "a variable without negative occurrences, and two that then nothing holds",
        formula: "p cnf 3 2\n1 2 0\n1 3 0\n",
        lines: "2 d 1 2 0\n",
        left: "",
        clauses: 0,
        eliminated: 3,
        looked_at: 0,
    },
    Case {
        what: "a variable that nothing holds",
        formula: "p cnf 2 1\n2 0\n",
        lines: "1 d 1 0\n",
        left: "",
        clauses: 0,
        eliminated: 2,
        looked_at: 0,
    },
    Case {
        what: "no literals: a hundred times as many are none, so nothing is tried",
        formula: "p cnf 2 0\n",
        lines: "",
        left: "",
        clauses: 0,
        eliminated: 0,
        looked_at: 0,
    },
    Case {
        what: "a clause with both signs of a variable goes first",
        formula: "p cnf 2 2\n1 -1 2 0\n1 2 0\n",
        lines: "2 d 1 0\n2 d 2 0\n",
        left: "",
        clauses: 0,
        eliminated: 2,
        looked_at: 0,
    },
    Case {
        what: "a resolvent with both signs of a variable falls away",
        formula: "p cnf 2 2\n1 2 0\n-1 -2 0\n",
        lines: "2 d 1 2 0\n",
        left: "",
        clauses: 0,
        eliminated: 2,
        looked_at: 4,
    },
    Case {
        what: "a literal that stands twice counts once",
        formula: "p cnf 3 3\n2 1 2 0\n3 -1 3 0\n-3 -2 0\n",
        lines: "4 2 3 0 1 2 0\n4 d 1 2 0\n4 d 3 4 0\n",
        left: "",
        clauses: 0,
        eliminated: 3,
        looked_at: 8,
    },
    Case {
        what: "a unit that makes a unit",
        formula: "p cnf 3 3\n1 0\n-1 2 0\n-2 3 0\n",
        lines: "4 2 0 1 2 0\n4 d 1 2 0\n5 3 0 4 3 0\n5 d 3 4 0\n5 d 5 0\n",
        left: "",
        clauses: 0,
        eliminated: 3,
        looked_at: 6,
    },
    Case {
        what: "a unit of the negation, and a clause that has no pair",
        formula: "p cnf 3 4\n-1 0\n1 2 0\n-1 3 0\n1 -2 -3 0\n",
        lines: "5 2 0 2 1 0\n6 -2 -3 0 4 1 0\n6 d 1 2 3 4 0\n7 -3 0 5 6 0\n7 d 5 6 0\n7 d 7 0\n",
        left: "",
        clauses: 0,
        eliminated: 3,
        looked_at: 10,
    },
    Case {
        what: "an empty resolvent ends it",
        formula: "p cnf 2 3\n1 0\n-1 0\n2 0\n",
        lines: "4 0 1 2 0\n4 d 1 2 0\n",
        left: "3 2 0\n4 0\n",
        clauses: 2,
        eliminated: 1,
        looked_at: 2,
    },
    Case {
        what: "an empty clause of the formula lets nothing begin",
        formula: "p cnf 2 2\n0\n1 2 0\n",
        lines: "",
        left: "1 0\n2 1 2 0\n",
        clauses: 2,
        eliminated: 0,
        looked_at: 0,
    },
];

/// Whether the simplification gives what the row says.
fn is_as_worked(alloc: Global, case: &Case) -> Result<bool, Fail> {
    let formula = read_formula(alloc, case.formula.as_bytes())?;
    let mut made = simplified(alloc, case.formula)?;
    let lines = lines_text(alloc, made.take_lines(), formula.clause_count() as u64)?;
    let left = left_text(alloc, made.formula())?;
    Ok(
        lines.as_str() == case.lines
            && left.as_str() == case.left
            && made.clause_count() == case.clauses
            && made.eliminated_count() == case.eliminated
            && made.looked_at() == case.looked_at,
    )
}

#[test]
fn worked_rows(rt: HostRuntime) -> Result<(), Fail> {
    for case in &CASES {
        assert!(rt; is_as_worked(rt.alloc(), case)?, "{}", case.what);
    }
    Ok(())
}

//! The call for one cube, on a worked row, and its lines, which stand in memory of their own.
use cdcl::{Line, Outcome, solve_cube};
use cnf::read_formula;
use kernel::Cube;
use std::alloc::Global;
use std::test::Fail;
use test_samples::{FOUR, reads};

fn is_line(line: &Line, clause: &[i32], hints: &[u64]) -> bool {
    reads(line.clause(), clause) && line.hints() == hints && line.forgets().is_empty()
}

/// Whether a line comes apart into this clause and these hints, and forgets nothing.
fn comes_apart(line: Line, clause: &[i32], hints: &[u64]) -> bool {
    let (lits, numbers, forgets) = line.into_parts();
    reads(&lits, clause) && numbers.as_slice() == hints && forgets.is_empty()
}

/// Whether four clauses are refuted by two conflicts, with a line for each.
fn has_two_lines(alloc: Global) -> Result<bool, Fail> {
    let formula = read_formula(alloc, FOUR.as_bytes())?;
    let outcome = solve_cube(alloc, &formula, &Cube::root(alloc), 2)?;
    let Outcome::Refuted(refutation) = outcome else {
        return Ok(false);
    };
    let mut lines = refutation.lines;
    let (Some(second), Some(first)) = (lines.pop(), lines.pop()) else {
        return Ok(false);
    };
    Ok(
        lines.is_empty()
            && is_line(&first, &[1], &[1, 2])
            && comes_apart(first, &[1], &[1, 2])
            && comes_apart(second, &[], &[5, 3, 4]),
    )
}

#[test]
fn lines_in_memory_of_their_own(rt: HostRuntime) -> Result<(), Fail> {
    assert!(rt; has_two_lines(rt.alloc())?);
    Ok(())
}

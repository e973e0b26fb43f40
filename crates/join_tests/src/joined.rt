//! Worked rows: the bytes of the one proof that a refuted tree gives, and the room for its lines.
ghost use Rattle.std.specs.Prelude.{◌≤◌};

use crate::fed::put_line;
use cdcl::{Plan, Search};
use cnf::{Formula, read_formula};
use cubes::{solve_one, solve_one_by_plan};
use join::{Lines, ProofLine, join, proof_bytes};
use lrat::read_proof;
use std::alloc::{AllocError, Global};
use std::test::Fail;
use test_samples::{EIGHT, FOUR, FOUR_PURE, FOUR_UNUSED, SIXTEEN};

// all eight clauses over three variables, with a fourth that no clause has
const EIGHT_UNUSED: &str =
    "p cnf 4 8\n1 2 3 0\n1 2 -3 0\n1 -2 3 0\n1 -2 -3 0\n-1 2 3 0\n-1 2 -3 0\n-1 -2 3 0\n-1 -2 -3 0\n";

// all thirty-two clauses over five variables
const THIRTY_TWO: &str =
    "p cnf 5 32\n1 2 3 4 5 0\n1 2 3 4 -5 0\n1 2 3 -4 5 0\n1 2 3 -4 -5 0\n1 2 -3 4 5 0\n1 2 -3 4 -5 0\n1 2 -3 -4 5 0\n1 2 -3 -4 -5 0\n1 -2 3 4 5 0\n1 -2 3 4 -5 0\n1 -2 3 -4 5 0\n1 -2 3 -4 -5 0\n1 -2 -3 4 5 0\n1 -2 -3 4 -5 0\n1 -2 -3 -4 5 0\n1 -2 -3 -4 -5 0\n-1 2 3 4 5 0\n-1 2 3 4 -5 0\n-1 2 3 -4 5 0\n-1 2 3 -4 -5 0\n-1 2 -3 4 5 0\n-1 2 -3 4 -5 0\n-1 2 -3 -4 5 0\n-1 2 -3 -4 -5 0\n-1 -2 3 4 5 0\n-1 -2 3 4 -5 0\n-1 -2 3 -4 5 0\n-1 -2 3 -4 -5 0\n-1 -2 -3 4 5 0\n-1 -2 -3 4 -5 0\n-1 -2 -3 -4 5 0\n-1 -2 -3 -4 -5 0\n";

// each half of the eight clauses learns one clause, which is deleted
const EIGHT_HALVES: &[u8] =
    b"9 2 1 0 1 2 0\n10 1 0 9 3 4 0\n10 d 9 0\n11 2 -1 0 5 6 0\n12 -1 0 11 7 8 0\n12 d 11 0\n13 0 10 12 0\n";

/// The text of the proof of a formula's result.
fn proof_of(alloc: Global, formula: &Formula, budget: u32) -> Result<Vec<u8>, AllocError>
    requires { (1 ≤ budget) × (budget ≤ 100000) }
{
    let _vars = formula.vars(); // it ensures what the proof needs of the formula
    let tree = solve_one_by_plan(alloc, formula, Plan::ordered(budget))?;
    let mut lines = Lines::of(alloc, formula, Search::Ordered, tree)?;
    let mut text = Vec::new(alloc);
    while lines.next_line()? {
        put_line(lines.line(), &mut text)?;
    }
    Ok(text)
}

/// Whether the proof of a formula's result reads so.
fn has_proof(alloc: Global, text: &str, budget: u32, wanted: &[u8]) -> Result<bool, Fail> {
    let formula = read_formula(alloc, text.as_bytes())?;
    if budget < 1 || budget > 100_000 {
        return Err("budget".into());
    }
    Ok(proof_of(alloc, &formula, budget)?.as_slice() == wanted)
}

#[test]
fn proofs_of_the_root_alone(rt: HostRuntime) -> Result<(), Fail> {
    let rows: [(&str, u32, &[u8]); 4] = [
        ("p cnf 0 1\n0\n", 1000, b"2 0 1 0\n"),
        ("p cnf 1 2\n1 0\n-1 0\n", 1000, b"3 0 1 2 0\n"),
        (FOUR, 2, b"5 1 0 1 2 0\n6 0 5 3 4 0\n"),
        (
            EIGHT,
            4,
            b"9 1 2 0 1 2 0\n10 1 0 9 3 4 0\n11 2 0 10 5 6 0\n12 0 10 11 7 8 0\n",
        ),
    ];
    for (text, budget, wanted) in rows {
        assert!(rt; has_proof(rt.alloc(), text, budget, wanted)?);
    }
    Ok(())
}

#[test]
fn proofs_of_halves(rt: HostRuntime) -> Result<(), Fail> {
    let rows: [(&str, u32, &[u8]); 5] = [
        (FOUR, 1, b"5 1 0 1 2 0\n6 -1 0 3 4 0\n7 0 5 6 0\n"),
        (EIGHT, 2, EIGHT_HALVES),
        (EIGHT, 1, EIGHT_HALVES),
        // each half learns three clauses
        (
            SIXTEEN,
            2,
            b"17 2 3 1 0 1 2 0\n18 2 1 0 17 3 4 0\n19 3 1 0 18 5 6 0\n20 1 0 18 19 7 8 0\n20 d 17 18 19 0\n21 2 3 -1 0 9 10 0\n22 2 -1 0 21 11 12 0\n23 3 -1 0 22 13 14 0\n24 -1 0 22 23 15 16 0\n24 d 21 22 23 0\n25 0 20 24 0\n",
        ),
        // each half is split once more
        (
            SIXTEEN,
            1,
            b"17 3 1 2 0 1 2 0\n18 1 2 0 17 3 4 0\n18 d 17 0\n19 3 1 -2 0 5 6 0\n20 1 -2 0 19 7 8 0\n20 d 19 0\n21 1 0 18 20 0\n21 d 18 20 0\n22 3 -1 2 0 9 10 0\n23 -1 2 0 22 11 12 0\n23 d 22 0\n24 3 -1 -2 0 13 14 0\n25 -1 -2 0 24 15 16 0\n25 d 24 0\n26 -1 0 23 25 0\n26 d 23 25 0\n27 0 21 26 0\n",
        ),
    ];
    for (text, budget, wanted) in rows {
        assert!(rt; has_proof(rt.alloc(), text, budget, wanted)?);
    }
    Ok(())
}

#[test]
fn proofs_with_pure_variables(rt: HostRuntime) -> Result<(), Fail> {
    let rows: [(&str, u32, &[u8]); 5] = [
        (FOUR_UNUSED, 2, b"5 -3 0 0\n6 1 0 1 2 0\n7 0 6 3 4 0\n"),
        (
            FOUR_UNUSED,
            1,
            b"5 -3 0 0\n6 1 0 1 2 0\n7 -1 0 3 4 0\n8 0 6 7 0\n",
        ),
        (
            FOUR_PURE,
            1,
            b"6 -3 0 0\n7 1 0 2 3 0\n8 -1 0 4 5 0\n9 0 7 8 0\n",
        ),
        // two of them, and the empty clause
        ("p cnf 2 1\n0\n", 1, b"2 -1 0 0\n3 -2 0 0\n4 0 1 0\n"),
        // their lines are not deleted
        (
            EIGHT_UNUSED,
            2,
            b"9 -4 0 0\n10 2 1 0 1 2 0\n11 1 0 10 3 4 0\n11 d 10 0\n12 2 -1 0 5 6 0\n13 -1 0 12 7 8 0\n13 d 12 0\n14 0 11 13 0\n",
        ),
    ];
    for (text, budget, wanted) in rows {
        assert!(rt; has_proof(rt.alloc(), text, budget, wanted)?);
    }
    Ok(())
}

#[test]
fn a_model_has_no_proof(rt: HostRuntime) -> Result<(), Fail> {
    let rows: [(&str, u32); 2] = [
        ("p cnf 2 1\n1 2 0\n", 1000),
        // with pure variables
        ("p cnf 2 1\n1 -2 0\n", 1),
    ];
    for (text, budget) in rows {
        assert!(rt; has_proof(rt.alloc(), text, budget, b"")?);
    }
    Ok(())
}

/// The text of the proof of a formula's result, from its steps.
fn text_of_steps(alloc: Global, formula: &Formula) -> Result<Vec<u8>, AllocError> {
    let _vars = formula.vars(); // it ensures what the proof needs of the formula
    let tree = solve_one(alloc, formula, 2)?;
    let steps = join(alloc, formula, Search::Ordered, tree)?;
    proof_bytes(alloc, &steps)
}

/// Whether the proof of a formula's result reads so, from its steps.
fn has_steps(alloc: Global, text: &str, wanted: &[u8]) -> Result<bool, Fail> {
    let formula = read_formula(alloc, text.as_bytes())?;
    Ok(text_of_steps(alloc, &formula)?.as_slice() == wanted)
}

#[test]
fn proofs_as_steps(rt: HostRuntime) -> Result<(), Fail> {
    assert!(rt; has_steps(rt.alloc(), EIGHT, EIGHT_HALVES)?, "halves");
    assert!(rt;
        has_steps(rt.alloc(), "p cnf 2 1\n1 2 0\n", b"")?,
        "a model"
    );
    Ok(())
}

/// The bytes that a line with so many literals and numbers may have, each of them the longest.
fn most_bytes(line: &ProofLine) -> usize {
    let literals = line.clause.len().saturating_mul(12);
    let numbers = line.numbers.len().saturating_mul(21);
    literals.saturating_add(numbers).saturating_add(25)
}

/// Whether the room that is made before the first line holds each line of the proof of a formula's
/// result: no line makes a vector grow, and none has more bytes than was said.
fn has_room(alloc: Global, text: &str, budget: u32) -> Result<bool, Fail> {
    let formula = read_formula(alloc, text.as_bytes())?;
    if budget < 1 || budget > 100_000 {
        return Err("budget".into());
    }
    let _vars = formula.vars(); // it ensures what the proof needs of the formula
    let tree = solve_one_by_plan(alloc, &formula, Plan::ordered(budget))?;
    let mut lines = Lines::of(alloc, &formula, Search::Ordered, tree)?;
    let size = lines.line_size();
    while lines.next_line()? {
        if lines.line_size() != size || most_bytes(lines.line()) > size {
            return Ok(false);
        }
    }
    Ok(true)
}

#[test]
fn lines_have_room(rt: HostRuntime) -> Result<(), Fail> {
    let rows: [(&str, u32); 8] = [
        ("p cnf 2 1\n0\n", 1),
        (FOUR, 1),
        (FOUR_PURE, 2),
        (EIGHT, 4),
        (EIGHT_UNUSED, 1),
        (SIXTEEN, 1),
        (SIXTEEN, 2),
        // each half learns seven clauses, more than a line has hints
        (THIRTY_TWO, 4),
    ];
    for (text, budget) in rows {
        assert!(rt; has_room(rt.alloc(), text, budget)?);
    }
    Ok(())
}

#[test]
fn text_fills_its_room(rt: HostRuntime) -> Result<(), Fail> {
    let text = b"5 1 0 -3 1 -4 2 0\n5 d 1 2 0\n106 -9 10 -99 1000 0 5 3 99 100 0\n";
    let steps = read_proof(rt.alloc(), text)?;
    let bytes = proof_bytes(rt.alloc(), &steps)?;
    assert_eq!(rt; bytes.as_slice(), text.as_slice());
    assert_eq!(rt; bytes.capacity(), text.len());
    Ok(())
}

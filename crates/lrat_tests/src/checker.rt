//! Worked rows of the checker, each from the bytes of a formula and of a proof.
use cnf::read_formula;
use lrat::{CheckFault, check, read_proof};
use std::alloc::Global;
use std::process::Abort;
use std::test::Fail;
use test_samples::{FOUR, WIDE};

/// A name, a formula, a proof, and what checking comes to: the number of the fault and its step, or
/// 0 and 0.
type Row<'a> = (&'a str, &'a str, &'a [u8], (u32, u64));

const ACCEPTED: (u32, u64) = (0, 0);

static ROWS: [Row; 30] = [
    (
        "a unit and the empty clause",
        FOUR,
        b"5 1 0 1 2 0\n6 0 5 3 4 0\n",
        ACCEPTED,
    ),
    (
        "two candidates",
        FOUR,
        b"5 1 0 -3 1 -4 2 0\n6 0 5 3 4 0\n",
        ACCEPTED,
    ),
    (
        "groups in another order",
        FOUR,
        b"5 1 0 -4 2 -3 1 0\n6 0 5 3 4 0\n",
        ACCEPTED,
    ),
    (
        "a deletion",
        FOUR,
        b"5 1 0 1 2 0\n5 d 1 2 0\n6 0 5 3 4 0\n",
        ACCEPTED,
    ),
    // additions
    ("number 4 is taken", FOUR, b"4 1 0 1 2 0\n", (21, 1)),
    (
        "a variable above the formula's",
        FOUR,
        b"5 3 0 0\n",
        (31, 1),
    ),
    (
        "the greatest variable",
        FOUR,
        b"5 2147483647 0 0\n",
        (31, 1),
    ),
    ("literals of both signs", FOUR, b"5 1 -1 0 0\n", (22, 1)),
    // hints
    ("no such clause", FOUR, b"5 1 0 9 0\n", (23, 1)),
    (
        "clause 1 is satisfied",
        FOUR,
        b"5 1 0 1 2 0\n6 0 5 1 3 4 0\n",
        (24, 2),
    ),
    ("two open literals", FOUR, b"5 0 1 0\n", (24, 1)),
    (
        "a hint behind the conflict",
        FOUR,
        b"5 1 0 2 1 0\n6 0 5 3 4 4 0\n",
        (25, 2),
    ),
    ("no hints", FOUR, b"5 0 0\n", (26, 1)),
    // candidates
    (
        "a candidate without a conflict",
        FOUR,
        b"5 1 0 -3 -4 2 0\n",
        (26, 1),
    ),
    ("clause 4 is missing", FOUR, b"5 1 0 1 0\n", (27, 1)),
    (
        "a candidate twice",
        FOUR,
        b"5 1 0 -3 1 -3 1 -4 2 0\n",
        (28, 1),
    ),
    ("clause 1 has no -1", FOUR, b"5 1 0 1 -1 0\n", (28, 1)),
    // deletions
    (
        "a clause deleted twice",
        FOUR,
        b"5 1 0 1 2 0\n5 d 1 1 0\n",
        (29, 2),
    ),
    (
        "a deleted clause as a hint",
        FOUR,
        b"5 1 0 1 2 0\n5 d 1 0\n6 0 5 3 1 0\n",
        (23, 3),
    ),
    // an empty clause is wanted
    ("no empty clause", FOUR, b"5 1 0 1 2 0\n", (30, 0)),
    ("no steps", FOUR, b"", (30, 0)),
    // clauses over new variables
    (
        "a clause over a new variable",
        WIDE,
        b"5 3 1 0 0\n6 -3 -1 0 -5 0\n7 1 0 1 2 0\n8 0 7 3 4 0\n",
        ACCEPTED,
    ),
    (
        "a closed candidate left out",
        WIDE,
        b"5 3 1 0 0\n6 -3 -1 0 0\n7 1 0 1 2 0\n8 0 7 3 4 0\n",
        ACCEPTED,
    ),
    (
        "a closed candidate with a hint",
        WIDE,
        b"5 3 1 0 0\n6 -3 -1 0 -5 1 0\n7 1 0 1 2 0\n8 0 7 3 4 0\n",
        (28, 2),
    ),
    (
        "a candidate that is missing",
        WIDE,
        b"5 3 1 0 0\n6 -3 0 0\n7 1 0 1 2 0\n8 0 7 3 4 0\n",
        (27, 2),
    ),
    (
        "one of two candidates named",
        WIDE,
        b"5 3 1 0 0\n6 3 2 0 0\n7 -3 -1 0 -5 0\n",
        (27, 3),
    ),
    (
        "the one candidate named that wasn't deleted",
        WIDE,
        b"5 3 1 0 0\n6 3 2 0 0\n6 d 6 0\n7 -3 -1 0 -5 0\n8 1 0 1 2 0\n9 0 8 3 4 0\n",
        ACCEPTED,
    ),
    // written proofs
    ("an empty clause", "p cnf 0 1\n0\n", b"2 0 1 0\n", ACCEPTED),
    (
        "two clauses of one literal",
        "p cnf 1 2\n1 0\n-1 0\n",
        b"3 0 1 2 0\n",
        ACCEPTED,
    ),
    (
        "both units of a variable",
        FOUR,
        b"5 1 0 1 2 0\n6 -1 0 3 4 0\n7 0 5 6 0\n",
        ACCEPTED,
    ),
];

/// What checking comes to: 0 where the proof is accepted, else the fault's number, and its step, or
/// 0.
fn checked(alloc: Global, formula: &str, proof: &[u8]) -> Result<(u32, u64), Fail> {
    let formula = read_formula(alloc, formula.as_bytes())?;
    let steps = read_proof(alloc, proof)?;
    Ok(match check(alloc, &formula, &steps) {
        Ok(()) => (0, 0),
        Err(fault) => (fault.number(), fault.step().unwrap_or(0)),
    })
}

fn all_come(rt: &impl Abort, alloc: Global, rows: &[Row]) -> Result<(), Fail> {
    for (name, formula, proof, wanted) in rows {
        assert_eq!(rt; (*name, checked(alloc, formula, proof)?), (*name, *wanted));
    }
    Ok(())
}

#[test]
fn proofs_are_checked(rt: HostRuntime) -> Result<(), Fail> {
    all_come(&rt, rt.alloc(), &ROWS)
}

#[test]
fn a_long_proof_is_accepted(rt: HostRuntime) -> Result<(), Fail> {
    let mut proof = Vec::new(rt.alloc());
    for _ in 0..2000 {
        proof.extend_from_slice(b"5 d 0\n")?;
    }
    proof.extend_from_slice(b"5 1 0 1 2 0\n6 0 5 3 4 0\n")?;
    assert_eq!(rt; checked(rt.alloc(), FOUR, &proof)?, ACCEPTED);
    Ok(())
}

#[test]
fn faults_have_numbers_and_texts(rt: HostRuntime) -> Result<(), Fail> {
    assert!(rt; CheckFault::NoMemory.number() == 32);
    assert!(rt; CheckFault::NoEmptyClause.step().is_none());
    let text = format!(in rt.alloc(); "{}", CheckFault::NoConflict(3))?;
    assert_eq!(rt; text.as_str(), "step 3: no conflict");
    Ok(())
}

//! Worked rows of checking: the line written for the bytes of a formula and a proof.
use cnf::Limits;
use lrat::Variables;
use runs::{CheckRules, Checked, check_run, check_with};
use std::alloc::Global;
use std::test::Fail;
use strategies::Unobserved;
use test_samples::faulty::Trickle;
use test_samples::{FOUR, FOUR_PROOF, WIDE, WIDE_PROOF};

const ACCEPTED: &str = "accepted\n";

/// How many bytes of a proof its reader gives a call: so that words and lines are cut everywhere,
/// and all at once.
static PIECES: [usize; 5] = [1, 2, 3, 7, 1000];

/// A formula, a proof and its line.
type Row = (&'static str, &'static str, &'static str);

/// Whether the proof has its line, and the verdict that it says, where it comes in pieces of so
/// many bytes.
fn has_line(alloc: Global, row: &Row, count: usize) -> Result<bool, Fail> {
    let (formula, proof, line) = *row;
    let mut answer = Vec::new(alloc);
    let reader = Trickle::pieces(proof.as_bytes(), count);
    let checked = check_run(alloc, formula.as_bytes(), reader, &mut answer)?;
    let is_accepted = checked == Checked::Accepted;
    Ok(answer.as_slice() == line.as_bytes() && is_accepted == (line == ACCEPTED))
}

static ROWS: [Row; 36] = [
    ("p cnf 0 1\n0\n", "2 0 1 0\n", ACCEPTED),
    ("p cnf 1 2\n1 0\n-1 0\n", "3 0 1 2 0\n", ACCEPTED),
    (FOUR, FOUR_PROOF, ACCEPTED),
    (FOUR, "5 1 0 1 2 0\n6 0 5 3 4 0\n", ACCEPTED),
    // two candidates, in either order
    (FOUR, "5 1 0 -3 1 -4 2 0\n6 0 5 3 4 0\n", ACCEPTED),
    (FOUR, "5 1 0 -4 2 -3 1 0\n6 0 5 3 4 0\n", ACCEPTED),
    (FOUR, "5 1 0 1 2 0\n5 d 1 2 0\n6 0 5 3 4 0\n", ACCEPTED),
    // a closed candidate, named and left out
    (WIDE, WIDE_PROOF, ACCEPTED),
    (
        WIDE,
        "5 3 1 0 0\n6 -3 -1 0 0\n7 1 0 1 2 0\n8 0 7 3 4 0\n",
        ACCEPTED,
    ),
    // steps
    (FOUR, "4 1 0 1 2 0\n", "refused 21 step 1\n"),
    (FOUR, "5 3 0 0\n", "refused 31 step 1\n"),
    (FOUR, "5 2147483647 0 0\n", "refused 31 step 1\n"),
    (FOUR, "5 1 -1 0 0\n", "refused 22 step 1\n"),
    (FOUR, "5 1 0 9 0\n", "refused 23 step 1\n"),
    // clause 1 is satisfied
    (FOUR, "5 1 0 1 2 0\n6 0 5 1 3 4 0\n", "refused 24 step 2\n"),
    // two open literals
    (FOUR, "5 0 1 0\n", "refused 24 step 1\n"),
    (FOUR, "5 1 0 2 1 0\n6 0 5 3 4 4 0\n", "refused 25 step 2\n"),
    (FOUR, "5 0 0\n", "refused 26 step 1\n"),
    (FOUR, "5 1 0 -3 -4 2 0\n", "refused 26 step 1\n"),
    // clause 4 is missing
    (FOUR, "5 1 0 1 0\n", "refused 27 step 1\n"),
    (FOUR, "5 1 0 -3 1 -3 1 -4 2 0\n", "refused 28 step 1\n"),
    // clause 1 lacks the negated pivot
    (FOUR, "5 1 0 1 -1 0\n", "refused 28 step 1\n"),
    (FOUR, "5 1 0 1 2 0\n5 d 1 1 0\n", "refused 29 step 2\n"),
    (
        FOUR,
        "5 1 0 1 2 0\n5 d 1 0\n6 0 5 3 1 0\n",
        "refused 23 step 3\n",
    ),
    (FOUR, "5 1 0 1 2 0\n", "refused 30\n"),
    (FOUR, "", "refused 30\n"),
    // candidates
    (
        WIDE,
        "5 3 1 0 0\n6 -3 0 0\n7 1 0 1 2 0\n8 0 7 3 4 0\n",
        "refused 27 step 2\n",
    ),
    // a closed candidate with a hint
    (
        WIDE,
        "5 3 1 0 0\n6 -3 -1 0 -5 1 0\n7 1 0 1 2 0\n8 0 7 3 4 0\n",
        "refused 28 step 2\n",
    ),
    // texts
    (FOUR, "5 1 0 1 2 0", "refused 42 line 1\n"),
    (FOUR, "5 1 0 1 2\n", "refused 43 line 1\n"),
    (FOUR, "\n", "refused 43 line 1\n"),
    (FOUR, "5 01 0 0\n", "refused 41 line 1\n"),
    (FOUR, "5 1 0 1 2 0\n-6 0 0\n", "refused 43 line 2\n"),
    (FOUR, "5 2147483648 0 0\n", "refused 41 line 1\n"),
    (FOUR, "5 1 0 1 2 0 7\n", "refused 43 line 1\n"),
    (FOUR, "5 1 0 -3 -0 0\n", "refused 41 line 1\n"),
];

/// Checks each proof in whatever pieces it comes.
#[test]
fn lines_of_proofs(rt: HostRuntime) -> Result<(), Fail> {
    for row in &ROWS {
        for count in &PIECES {
            assert!(rt; has_line(rt.alloc(), row, *count)?, "{} by {count}", row.1);
        }
    }
    Ok(())
}

/// Proofs of the four clauses whose clauses have more variables than the two of the formula: limits,
/// a proof and its line.
static EXTENDED: [(Limits, &str, &str); 8] = [
    // 3 is 1 and 2, defined by a clause without a candidate and two with closed ones
    (
        Limits::Standard,
        "5 3 -1 -2 0 0\n6 -3 1 0 0\n7 -3 2 0 0\n8 1 0 1 2 0\n9 0 8 3 4 0\n",
        ACCEPTED,
    ),
    // variables far apart, a lesser one behind a greater
    (
        Limits::Standard,
        "5 262143 0 0\n6 3 1 0 0\n7 -3 -1 0 0\n8 90000 -3 0 0\n9 -90000 3 0 0\n10 1 0 1 2 0\n11 0 10 3 4 0\n",
        ACCEPTED,
    ),
    (
        Limits::Standard,
        "5 3 0 0\n6 3 262144 0 0\n",
        "refused 31 step 2\n",
    ),
    (
        Limits::Large,
        "5 262144 0 0\n6 1 0 1 2 0\n7 0 6 3 4 0\n",
        ACCEPTED,
    ),
    (Limits::Large, "5 100000001 0 0\n", "refused 31 step 1\n"),
    // a candidate that isn't closed
    (
        Limits::Standard,
        "5 3 1 0 0\n6 -3 0 0\n",
        "refused 27 step 2\n",
    ),
    (
        Limits::Standard,
        "5 3 1 0 0\n6 -3 -2 0 -5 0\n",
        "refused 26 step 2\n",
    ),
    (Limits::Standard, "5 3 -3 0 0\n", "refused 22 step 1\n"),
];

#[test]
fn lines_of_extended_proofs(rt: HostRuntime) -> Result<(), Fail> {
    for (limits, proof, line) in &EXTENDED {
        let rules = CheckRules {
            limits: *limits,
            variables: Variables::Extended,
        };
        let mut said = Vec::new(rt.alloc());
        let (text, steps) = (FOUR.as_bytes(), proof.as_bytes());
        let _ = check_with(rt.alloc(), text, steps, rules, &mut said, &Unobserved)?;
        assert!(rt; said.as_slice() == line.as_bytes(), "{proof}");
    }
    Ok(())
}

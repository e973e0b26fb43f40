//! Proofs of 100,000 steps, checked from their bytes.
//!
//! The formula is a chain: its first variable holds, each one gives the next, and the last one
//! doesn't hold. A round of the proof derives the next variable, and takes away the clause of the
//! one before. In between it defines a fresh variable by two clauses, which are no consequences,
//! and takes them away too. The last round ends with the empty clause in place of the deletion.
ghost use Rattle.std.specs.Prelude.{◌≤◌};

use runs::check_run;
use std::alloc::{AllocError, Global};
use std::fmt::Write;
use std::test::Fail;

/// How often the chain goes on to its next variable.
const ROUNDS: u32 = 25_000;

/// The chain's last clause, which denies its last variable.
const DENIED: u32 = ROUNDS + 2;

/// The formula's text. Its last `ROUNDS` variables are the fresh ones. The clause with the number
/// `n + 1` goes from the variable `n` to the next.
fn chain(alloc: Global) -> Result<String, AllocError> {
    let vars = 2 * ROUNDS + 1;
    let last = ROUNDS + 1;
    let mut text = format!(in alloc; "p cnf {vars} {DENIED}\n1 0\n")?;
    for var in 1..=ROUNDS {
        let next = var + 1;
        write!(text, "-{var} {next} 0\n")?;
    }
    write!(text, "-{last} 0\n")?;
    Ok(text)
}

/// The number of the clause that a round derives; the round 0 stands for the formula's first
/// clause.
fn derived(round: u32) -> u32
    requires { round ≤ 25000 }
    ensures { result ≤ 100000 }
{
    if round == 0 {
        1
    } else {
        DENIED + 3 * round - 2
    }
}

/// The additions of a round: the next variable's clause, and the two clauses of a fresh one. The
/// first of these has no candidate, and the second has the first as its one.
fn write_additions(text: &mut String, round: u32) -> Result<(), AllocError>
    requires { (1 ≤ round) × (round ≤ 25000) }
{
    let next = round + 1;
    let fresh = ROUNDS + 1 + round;
    let before = derived(round - 1);
    let unit = derived(round);
    let first = unit + 1;
    let second = unit + 2;
    write!(text, "{unit} {next} 0 {before} {next} 0\n")?;
    write!(text, "{first} -{fresh} {next} 0 0\n")?;
    write!(text, "{second} {fresh} 0 -{first} {unit} 0\n")
}

/// The deletion at the end of a round.
fn write_deletion(text: &mut String, round: u32) -> Result<(), AllocError>
    requires { (1 ≤ round) × (round ≤ 25000) }
{
    let before = derived(round - 1);
    let first = derived(round) + 1;
    let second = derived(round) + 2;
    write!(text, "{second} d {before} {first} {second} 0\n")
}

/// The proof's text up to its last line: four steps a round, without the last one.
fn steps(alloc: Global) -> Result<String, AllocError> {
    let mut text = String::new(alloc);
    for round in 1..ROUNDS {
        write_additions(&mut text, round)?;
        write_deletion(&mut text, round)?;
    }
    write_additions(&mut text, ROUNDS)?;
    Ok(text)
}

/// The last lines of proofs, and the lines that are written of these.
static LAST: [(&str, &str); 4] = [
    ("100003 0 100000 25002 0\n", "accepted\n"),
    // no conflict
    ("100003 0 100000 0\n", "refused 26 step 100000\n"),
    // the first clause was taken away in the first round
    ("100003 0 1 0\n", "refused 23 step 100000\n"),
    // the line ends too early
    ("100003 0 100000 25002\n", "refused 43 line 100000\n"),
];

/// Whether the proof of these steps and this last line has this line written.
fn has_line(
    alloc: Global,
    formula: &str,
    steps: &str,
    last: &str,
    line: &str,
) -> Result<bool, Fail> {
    let proof = format!(in alloc; "{steps}{last}")?;
    let mut answer = Vec::new(alloc);
    check_run(alloc, formula.as_bytes(), proof.as_bytes(), &mut answer)?;
    Ok(answer.as_slice() == line.as_bytes())
}

#[test]
fn the_last_step_decides(rt: HostRuntime) -> Result<(), Fail> {
    let formula = chain(rt.alloc())?;
    let steps = steps(rt.alloc())?;
    for (last, line) in &LAST {
        let is_so = has_line(rt.alloc(), formula.as_str(), steps.as_str(), last, line)?;
        assert!(rt; is_so, "with {last}");
    }
    Ok(())
}

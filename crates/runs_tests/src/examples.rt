//! Examples from end to end: refuted by each search at budgets from the least on, and each proof accepted.
ghost use Rattle.std.specs.Prelude.{◌≤◌};

use crate::plainly::run_plainly;
use cdcl::{Plan, Search};
use cubes::HandCount;
use runs::{Checked, RunEnd, RunFault, Verdict, check_run};
use std::alloc::{AllocError, Global};
use std::fmt::Write;
use std::process::Abort;
use std::sync::Wait;
use std::test::Fail;
use std::thread::Threads;
use std::time::Clock;

const HOLES: u32 = 6;

/// Two circuits that add numbers of four bits, with one output bit different.
const MITER: &str = "p cnf 53 155
-1 -5 -9 0 1 5 -9 0 1 -5 9 0 -1 5 9 0 1 -10 0 5 -10 0 -1 -5 10 0 -2 -6 -11 0 2 6 -11 0 2 -6 11 0 -2 6 11 0 -11 -10 -12 0
11 10 -12 0 11 -10 12 0 -11 10 12 0 2 -13 0 6 -13 0 -2 -6 13 0 11 -14 0 10 -14 0 -11 -10 14 0 -13 15 0 -14 15 0 13 14 -15 0
-3 -7 -16 0 3 7 -16 0 3 -7 16 0 -3 7 16 0 -16 -15 -17 0 16 15 -17 0 16 -15 17 0 -16 15 17 0 3 -18 0 7 -18 0 -3 -7 18 0 16 -19 0
15 -19 0 -16 -15 19 0 -18 20 0 -19 20 0 18 19 -20 0 -4 -8 -21 0 4 8 -21 0 4 -8 21 0 -4 8 21 0 -21 -20 -22 0 21 20 -22 0
21 -20 22 0 -21 20 22 0 4 -23 0 8 -23 0 -4 -8 23 0 21 -24 0 20 -24 0 -21 -20 24 0 -23 25 0 -24 25 0 23 24 -25 0 -1 -5 -26 0
1 5 -26 0 1 -5 26 0 -1 5 26 0 1 -27 0 5 -27 0 -1 -5 27 0 -6 -27 -28 0 6 27 -28 0 6 -27 28 0 -6 27 28 0 -2 -28 -29 0 2 28 -29 0
2 -28 29 0 -2 28 29 0 2 -30 0 6 -30 0 -2 -6 30 0 2 -31 0 27 -31 0 -2 -27 31 0 -30 32 0 -31 32 0 30 31 -32 0 6 -33 0 27 -33 0
-6 -27 33 0 -32 34 0 -33 34 0 32 33 -34 0 -7 -34 -35 0 7 34 -35 0 7 -34 35 0 -7 34 35 0 -3 -35 -36 0 3 35 -36 0 3 -35 36 0
-3 35 36 0 3 -37 0 7 -37 0 -3 -7 37 0 3 -38 0 34 -38 0 -3 -34 38 0 -37 39 0 -38 39 0 37 38 -39 0 7 -40 0 34 -40 0 -7 -34 40 0
-39 41 0 -40 41 0 39 40 -41 0 -8 -41 -42 0 8 41 -42 0 8 -41 42 0 -8 41 42 0 -4 -42 -43 0 4 42 -43 0 4 -42 43 0 -4 42 43 0 4 -44 0
8 -44 0 -4 -8 44 0 4 -45 0 41 -45 0 -4 -41 45 0 -44 46 0 -45 46 0 44 45 -46 0 8 -47 0 41 -47 0 -8 -41 47 0 -46 48 0 -47 48 0
46 47 -48 0 -9 -26 -49 0 9 26 -49 0 9 -26 49 0 -9 26 49 0 -12 -29 -50 0 12 29 -50 0 12 -29 50 0 -12 29 50 0 -17 -36 -51 0
17 36 -51 0 17 -36 51 0 -17 36 51 0 -22 -43 -52 0 22 43 -52 0 22 -43 52 0 -22 43 52 0 -25 -48 -53 0 25 48 -53 0 25 -48 53 0
-25 48 53 0 49 50 51 52 53 0
";

/// The variable that says that a pigeon, from 0 on, sits in a hole, from 1 on.
fn sits(pigeon: u32, hole: u32) -> u32
    requires { (pigeon ≤ 6) × (hole ≤ 6) }
    ensures { result ≤ 42 }
{
    HOLES * pigeon + hole
}

/// The pigeon sits in some hole.
fn write_pigeon(text: &mut String, pigeon: u32) -> Result<(), AllocError>
    requires { pigeon ≤ 6 }
{
    for hole in 1..=HOLES {
        let seat = sits(pigeon, hole);
        write!(text, "{seat} ")?;
    }
    write!(text, "0\n")
}

/// The pigeon and a later one don't both sit in the hole.
fn write_rivals(text: &mut String, hole: u32, pigeon: u32) -> Result<(), AllocError>
    requires { (hole ≤ 6) × (pigeon ≤ 6) }
{
    for other in pigeon + 1..=HOLES {
        let seat = sits(pigeon, hole);
        let same = sits(other, hole);
        write!(text, "-{seat} -{same} 0\n")?;
    }
    Ok(())
}

/// Seven pigeons in six holes, at most one in each.
fn pigeonhole(alloc: Global) -> Result<String, AllocError> {
    let mut text = String::from_str(alloc, "p cnf 42 133\n")?;
    for pigeon in 0..=HOLES {
        write_pigeon(&mut text, pigeon)?;
    }
    for hole in 1..=HOLES {
        for pigeon in 0..HOLES {
            write_rivals(&mut text, hole, pigeon)?;
        }
    }
    Ok(text)
}

/// The plan of a search that divides nothing, with this budget for the root.
fn plan_of(search: Search, budget: u32) -> Plan
    requires { (1 ≤ budget) × (budget ≤ 100000) }
{
    match search {
        Search::Ordered => Plan::ordered(budget),
        Search::Focused => Plan::focused(budget).simplifying(false),
    }
}

/// The proof of an unsatisfiable formula, or none where something else is answered.
fn proof_of<R: Threads + Wait + Clock + Sync>(
    rt: &R,
    alloc: Global,
    text: &str,
    plan: Plan,
) -> Result<Option<Vec<u8>>, RunFault> {
    let mut proof = Vec::new(alloc);
    let mut answer = Vec::new(alloc);
    let hand = HandCount::of(1);
    let end = run_plainly(rt, alloc, text, plan, hand, &mut answer, &mut proof)?;
    if end != RunEnd::Decided(Verdict::Unsatisfiable)
        || answer.as_slice() != b"s UNSATISFIABLE\n".as_slice()
    {
        return Ok(None);
    }
    Ok(Some(proof))
}

/// Whether a proof is accepted, and the line says so.
fn is_accepted(alloc: Global, text: &str, proof: &[u8]) -> Result<bool, RunFault> {
    let mut line = Vec::new(alloc);
    let checked = check_run(alloc, text.as_bytes(), proof, &mut line)?;
    Ok(checked == Checked::Accepted && line.as_slice() == b"accepted\n".as_slice())
}

/// Whether an unsatisfiable formula is refuted by a plan, with a proof that is accepted.
fn is_refuted<R: Threads + Wait + Clock + Sync>(
    rt: &R,
    alloc: Global,
    text: &str,
    plan: Plan,
) -> Result<bool, RunFault> {
    match proof_of(rt, alloc, text, plan)? {
        Some(proof) => is_accepted(alloc, text, &proof),
        None => Ok(false),
    }
}

/// Checks that a formula is refuted by a search, at each of some budgets.
fn check_budgets<R: Abort + Threads + Wait + Clock + Sync>(
    rt: &R,
    alloc: Global,
    text: &str,
    search: Search,
) -> Result<(), Fail> {
    for budget in [1, 2, 10, 1000] {
        let plan = plan_of(search, budget);
        assert!(rt; is_refuted(rt, alloc, text, plan)?, "budget {budget}");
    }
    Ok(())
}

static SEARCHES: [Search; 2] = [Search::Ordered, Search::Focused];

#[test]
fn pigeons_and_circuits(rt: HostRuntime) -> Result<(), Fail> {
    let pigeons = pigeonhole(rt.alloc())?;
    for search in &SEARCHES {
        check_budgets(&rt, rt.alloc(), pigeons.as_str(), *search)?;
        check_budgets(&rt, rt.alloc(), MITER, *search)?;
    }
    Ok(())
}

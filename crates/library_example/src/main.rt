//! The solver and the checker as a library, on bytes in memory: each search solves a formula by two
//! hands and within a limit of time; the answer is printed, and the proof is checked.
#![tactic(auto)]

use cubesat::{
    HandCount, Limits, Observer, OpenGate, Options, Plan, RunEnd, RunFault, Strategy, TimeLimit,
    Verdict, check_run, run_with,
};
use std::alloc::Global;
use std::io::Write;
use std::process::ExitCode;
use std::sync::Wait;
use std::sync::atomic::{AtomicU64, Ordering};
use std::thread::Threads;
use std::time::Clock;

/// Both variables must be true and must not be.
const FORMULA: &[u8] = b"p cnf 2 4\n1 2 0\n1 -2 0\n-1 2 0\n-1 -2 0\n";

/// Conflicts that the first cube may have before it is split.
const BUDGET: u32 = 1000;

/// Then a run ends with `s UNKNOWN` and no verdict.
const SECONDS: u32 = 60;

/// Counts the proofs that are written.
#[derive(Drop)]
struct Proofs {
    written: AtomicU64,
}

impl Observer for Proofs {
    fn written(&self) {
        let _before = self.written.fetch_add(1, Ordering::SeqCst);
    }
}

/// Writes the answer of a search, and whether the checker accepts its proof. A fault says by its
/// number what went wrong (`cubesat explain`).
fn solve<R: Threads + Wait + Clock + Sync, W: Write>(
    rt: &R,
    alloc: Global,
    plan: Plan,
    proofs: &Proofs,
    out: &mut W,
) -> Result<(), RunFault> {
    let options = Options {
        limits: Limits::Standard,
        strategy: Strategy::of(plan),
        hands: HandCount::of(2),
        gate: &OpenGate,
        limit: &TimeLimit::begin(rt, Some(SECONDS)),
        observer: proofs,
    };
    let mut proof = Vec::new(alloc);
    let end = run_with(rt, alloc, FORMULA, &options, out, &mut proof)?;
    if let RunEnd::Decided(Verdict::Unsatisfiable) = end {
        let _checked = check_run(alloc, FORMULA, proof.as_slice(), out)?;
    }
    Ok(())
}

fn main(rt: HostRuntime) -> ExitCode {
    let (alloc, mut out) = (rt.alloc(), rt.stdout());
    let proofs = Proofs {
        written: AtomicU64::new(0),
    };
    let ordered = solve(&rt, alloc, Plan::ordered(BUDGET), &proofs, &mut out);
    let focused = solve(&rt, alloc, Plan::focused(BUDGET), &proofs, &mut out);
    let written = proofs.written.load(Ordering::SeqCst);
    let printed = writeln!(out, "{written} proofs");
    if ordered.is_ok() && focused.is_ok() && printed.is_ok() {
        ExitCode::from(0)
    } else {
        ExitCode::from(1)
    }
}

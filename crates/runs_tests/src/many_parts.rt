//! A proof of some two thousand lines, whose text three hands make, a third each.
//!
//! The formula says of seven pigeons that each sits in one of six holes, and that no two sit in the
//! same. The pigeon `n`, from 0 on, sits in the hole `m`, from 1 on, where the variable `6 * n + m`
//! is true.
ghost use Rattle.std.specs.Prelude.{◌≤◌};

use cubes::OpenGate;
use runs::{RunFault, Verdict, run, run_one};
use std::alloc::{AllocError, Global};
use std::fmt::Write;
use std::sync::Wait;
use std::test::Fail;
use std::thread::Threads;
use std::time::Clock;
use test_samples::faulty::{Limited, Limits};

const PIGEONS: u32 = 7;

const HOLES: u32 = 6;

/// The clause that a pigeon sits in a hole.
fn write_pigeon(text: &mut String, pigeon: u32) -> Result<(), AllocError>
    requires { pigeon ≤ 7 }
{
    for hole in 1..=HOLES {
        let var = pigeon * HOLES + hole;
        write!(text, "{var} ")?;
    }
    write!(text, "0\n")
}

/// The clauses that a pigeon shares this hole with none of those behind it.
fn write_pairs(text: &mut String, pigeon: u32, hole: u32) -> Result<(), AllocError>
    requires pigeon { pigeon ≤ 7 }
    requires hole { hole ≤ 7 }
{
    let first = pigeon * HOLES + hole;
    for other in pigeon + 1..PIGEONS {
        let second = other * HOLES + hole;
        write!(text, "-{first} -{second} 0\n")?;
    }
    Ok(())
}

/// A pigeon's clauses for all holes.
fn write_all_pairs(text: &mut String, pigeon: u32) -> Result<(), AllocError>
    requires { pigeon ≤ 7 }
{
    for hole in 1..=HOLES {
        write_pairs(text, pigeon, hole)?;
    }
    Ok(())
}

/// The formula's text.
fn formula(alloc: Global) -> Result<String, AllocError> {
    let mut text = format!(in alloc; "p cnf 42 133\n")?;
    for pigeon in 0..PIGEONS {
        write_pigeon(&mut text, pigeon)?;
        write_all_pairs(&mut text, pigeon)?;
    }
    Ok(text)
}

/// The proof that a run without threads writes.
fn proof_alone(alloc: Global, text: &[u8]) -> Result<Vec<u8>, RunFault> {
    let (mut answer, mut proof) = (Vec::new(alloc), Vec::new(alloc));
    run_one(alloc, text, &mut answer, &mut proof, 1)?;
    Ok(proof)
}

/// So many bytes end within what the second hand makes.
const LONG: usize = 80_000;

/// Whether a run by three hands comes to this and has written so many bytes of the proof, where the
/// proof's writer has room for as many.
fn hands_write<R: Threads + Wait + Clock + Sync>(
    rt: &R,
    alloc: Global,
    text: &[u8],
    proof: &[u8],
    room: usize,
    wanted: Result<Verdict, RunFault>,
) -> bool {
    let mut answer = Vec::new(alloc);
    let mut lines = Limited::new(alloc, Limits::of(room));
    let gate = OpenGate;
    let result = run(rt, alloc, text, &mut answer, &mut lines, 1, 3, &gate);
    result == wanted && proof.get(..room) == Some(lines.taken.as_slice())
}

#[test]
fn proofs_in_parts(rt: HostRuntime) -> Result<(), Fail> {
    let text = formula(rt.alloc())?;
    let text = text.as_bytes();
    let proof = proof_alone(rt.alloc(), text)?;
    let all = Ok(Verdict::Unsatisfiable);
    assert!(rt;
        hands_write(&rt, rt.alloc(), text, &proof, proof.len(), all),
        "whole"
    );
    let begun = Err(RunFault::ProofWriteFailed);
    assert!(rt;
        hands_write(&rt, rt.alloc(), text, &proof, LONG, begun),
        "a beginning"
    );
    Ok(())
}

//! A question that is interrupted, and calls behind a refused one.
ghost use Rattle.std.specs.Prelude.{true};

use crate::asked::{add, ask};
use session::{Answer, Interrupt, Never, Session};
use std::alloc::{AllocError, Global};
use std::process::Abort;
use std::test::Fail;

/// The pigeons, one more than the holes.
const PIGEONS: u32 = 7;

/// It interrupts each question that asks it.
struct Always;

impl Interrupt for Always {
    ghost may_interrupt = { λ a. true };

    fn interrupts(&self) -> bool {
        true
    }
}

/// The number of the variable by which a pigeon is in a hole, both counted from 0.
fn is_in(pigeon: u32, hole: u32) -> i32 {
    (pigeon % 16 * 16 + hole % 16) as i32 + 1
}

/// Adds that each pigeon is in a hole.
fn add_pigeons(alloc: Global, session: &mut Session) -> Result<(), AllocError> {
    for pigeon in 0..PIGEONS {
        let mut clause = Vec::new(alloc);
        for hole in 0..PIGEONS - 1 {
            clause.push(is_in(pigeon, hole))?;
        }
        add(alloc, session, &clause)?;
    }
    Ok(())
}

/// Adds that no two pigeons are in a hole.
fn add_hole(alloc: Global, session: &mut Session, hole: u32) -> Result<(), AllocError> {
    for pigeon in 0..PIGEONS {
        for other in 0..pigeon {
            let (one, two) = (is_in(pigeon, hole), is_in(other, hole));
            add(alloc, session, &[one.wrapping_neg(), two.wrapping_neg()])?;
        }
    }
    Ok(())
}

/// Whether the question ends without an answer where it is interrupted, and is answered when it is
/// asked once more.
fn is_answered_later(alloc: Global) -> Result<bool, AllocError> {
    let mut session = Session::open(alloc)?;
    add_pigeons(alloc, &mut session)?;
    for hole in 0..PIGEONS - 1 {
        add_hole(alloc, &mut session, hole)?;
    }
    let first = ask(alloc, &mut session, &[], &Always)?;
    let second = ask(alloc, &mut session, &[], &Never)?;
    match (first, second) {
        (Answer::Unknown, Answer::Unsatisfiable(core)) => Ok(core.is_empty()),
        _ => Ok(false),
    }
}

#[test]
fn interrupted_question(rt: HostRuntime) -> Result<(), Fail> {
    assert!(rt; is_answered_later(rt.alloc())?);
    Ok(())
}

/// Whether a call fails if one before it has failed; and whether one has by now.
fn goes_on(failed: bool, call_failed: bool) -> (bool, bool) {
    (call_failed || !failed, failed || call_failed)
}

/// Whether of ten calls each one fails behind the first that does.
fn fails_for_good(alloc: Global) -> Result<bool, AllocError> {
    let mut session = Session::open(alloc)?;
    let mut failed = false;
    let mut is_right = true;
    for round in 1..6 {
        let added = session.add_clause(&crate::asked::lits_of(alloc, &[round, -(round + 1)])?);
        let (is_met, by_now) = goes_on(failed, added.is_err());
        is_right = is_right && is_met;
        let answer = session.solve(&crate::asked::lits_of(alloc, &[round + 1])?, &Never);
        let (is_met, by_then) = goes_on(by_now, answer.is_err());
        is_right = is_right && is_met;
        failed = by_then;
    }
    Ok(is_right)
}

#[test]
fn refusal_stays(rt: HostRuntime) -> Result<(), Fail> {
    assert!(rt; fails_for_good(rt.alloc())?);
    Ok(())
}

/// Whether a variable above the greatest one is refused, and each call behind it.
fn refuses_variable(alloc: Global) -> Result<bool, AllocError> {
    let mut session = Session::open(alloc)?;
    let lits = crate::asked::lits_of(alloc, &[1, 100_000_001])?;
    let is_refused = session.add_clause(&lits).is_err();
    Ok(is_refused && session.solve(&[], &Never).is_err())
}

#[test]
fn variable_above_the_greatest(rt: HostRuntime) -> Result<(), Fail> {
    assert!(rt; refuses_variable(rt.alloc())?);
    Ok(())
}

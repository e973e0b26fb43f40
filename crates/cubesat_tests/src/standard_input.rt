//! A formula of standard input that comes byte after byte, and of one that fails.
use crate::command_lines::REFUTED;
use cubesat::{Console, Screen, command_with_input};
use std::fs;
use std::rt::Files;
use std::sync::Wait;
use std::test::Fail;
use std::thread::Threads;
use std::time::Clock;
use test_console::{Paths, Printed, is_printed, put_texts};
use test_samples::faulty::Trickle;
use test_samples::{FOUR, FOUR_PROOF};

/// What a command line prints that reads this input.
fn run_with<R: Files + AllocGlobal + Threads + Wait + Clock + Sync>(
    rt: &R,
    words: &[&str],
    input: Trickle,
) -> Printed {
    let mut console = Console {
        input,
        answer: Vec::new(rt.alloc()),
        faults: Vec::new(rt.alloc()),
        screen: Screen::Stream,
    };
    let status = command_with_input(rt, rt.alloc(), words, &mut console);
    let Console { answer, faults, .. } = console;
    Printed {
        status,
        answer,
        faults,
    }
}

#[test]
fn a_formula_that_comes_by_bytes(rt: HostRuntime) -> Result<(), Fail> {
    let paths = Paths::of(&rt, "standard.cnf")?;
    put_texts(&rt, &paths, b"", b"")?;
    let words = ["cubesat", "solve", "--budget", "1", "--proof", "PROOF", "-"];
    let words = paths.words(rt.alloc(), &words)?;
    let printed = run_with(&rt, &words, Trickle::whole(FOUR.as_bytes()));
    assert!(rt; is_printed(&printed, &REFUTED));
    let proof = fs::read(&rt, paths.proof.as_str())?;
    assert!(rt; proof.as_slice() == FOUR_PROOF.as_bytes());
    Ok(())
}

#[test]
fn an_input_that_fails(rt: HostRuntime) {
    let words = ["cubesat", "solve", "-"];
    let printed = run_with(&rt, &words, Trickle::broken(b"p cnf"));
    let is_refused = printed.status == 1
        && printed.answer.is_empty()
        && printed
            .faults
            .starts_with(b"fault 51: refusal 10\nc standard input: ");
    assert!(rt; is_refused);
}

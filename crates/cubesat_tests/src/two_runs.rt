//! Two runs for one proof: the later one is refused while the earlier is at work, and takes the place
//! of one that was killed.
use crate::command_lines::REFUTED;
use cubesat::{Console, Locks, Screen, SystemLocks, command_in_folders};
use std::fs;
use std::io::empty;
use std::rt::Files;
use std::sync::Wait;
use std::test::Fail;
use std::thread::Threads;
use std::time::Clock;
use test_console::{Parts, Printed, Wanted, is_filled};
use test_samples::{FOUR, FOUR_PROOF};

/// What the program prints of a run that writes the proof.
fn run<R: Files + AllocGlobal + Threads + Wait + Clock + Sync + Clone + Drop, L: Locks<R::File>>(
    rt: &R,
    parts: &Parts,
    locks: &L,
) -> Result<Printed, Fail>
where
    R::File: Send,
    R::Dir: Send,
{
    let words = [
        "cubesat", "solve", "--budget", "1", "--proof", "PROOF", "FORMULA",
    ];
    let words = parts.paths.words(rt.alloc(), &words)?;
    let mut console = Console {
        input: empty(),
        answer: Vec::new(rt.alloc()),
        faults: Vec::new(rt.alloc()),
        screen: Screen::Stream,
    };
    let status = command_in_folders(rt, rt.alloc(), &words, &mut console, locks);
    let Console { answer, faults, .. } = console;
    Ok(Printed {
        status,
        answer,
        faults,
    })
}

/// Whether such a run prints just this.
fn prints<R: Files + AllocGlobal + Threads + Wait + Clock + Sync + Clone + Drop, L: Locks<R::File>>(
    rt: &R,
    parts: &Parts,
    locks: &L,
    wanted: &Wanted,
) -> Result<bool, Fail>
where
    R::File: Send,
    R::Dir: Send,
{
    let printed = run(rt, parts, locks)?;
    is_filled(rt.alloc(), &parts.paths, &printed, wanted)
}

const REFUSED: Wanted = Wanted {
    status: 1,
    answer: "",
    faults: "fault 56\nc |PROOF|: another run is writing it, in |PROOF|.part; let that run end, or name another place\n",
};

/// Whether the old proof stands in its place, and a part beside it.
fn is_left<R: Files + AllocGlobal>(rt: &R, parts: &Parts) -> Result<bool, Fail> {
    let proof = fs::read(rt, parts.paths.proof.as_str())?;
    let has_part = rt.symlink_metadata(parts.part.as_str()).is_ok();
    Ok(has_part && proof.as_slice() == b"old".as_slice())
}

#[test]
fn a_proof_of_two_runs(rt: HostRuntime) -> Result<(), Fail> {
    let parts = Parts::of(&rt, "two_runs.cnf", FOUR)?;
    let part = fs::create(&rt, parts.part.as_str())?;
    assert!(rt; part.try_lock().is_ok());
    assert!(rt; prints(&rt, &parts, &SystemLocks, &REFUSED)?);
    assert!(rt; is_left(&rt, &parts)?);
    // the other run ends, and leaves its part
    drop(part);
    assert!(rt; prints(&rt, &parts, &SystemLocks, &REFUTED)?);
    assert!(rt; parts.has(&rt, FOUR_PROOF));
    Ok(())
}

//! An answer comes only behind its proof.
use cubesat::command;
use std::io;
use std::io::Write;
use std::rt::Files;
use std::sync::Wait;
use std::test::Fail;
use std::thread::Threads;
use std::time::Clock;
use test_console::Parts;
use test_samples::{FOUR, FOUR_PROOF};

/// A writer of an answer that looks, as each piece comes, whether the proof is in its place.
struct Looking<'a, R> {
    rt: &'a R,
    parts: &'a Parts,
    pieces: usize,
    is_in_place: bool,
}

impl<R: Files + AllocGlobal> Write for Looking<'_, R> {
    fn write(&mut self, buf: &[u8]) -> io::Result<usize> {
        self.pieces = self.pieces.saturating_add(1);
        self.is_in_place = self.is_in_place && self.parts.has(self.rt, FOUR_PROOF);
        Ok(buf.len())
    }

    fn flush(&mut self) -> io::Result<()> {
        Ok(())
    }
}

/// Whether an answer comes behind its proof.
fn comes_behind<R: Files + AllocGlobal + Threads + Wait + Clock + Sync>(
    rt: &R,
    parts: &Parts,
) -> Result<bool, Fail> {
    let words = [
        "cubesat", "solve", "--budget", "1", "--proof", "PROOF", "FORMULA",
    ];
    let words = parts.paths.words(rt.alloc(), &words)?;
    let mut faults = Vec::new(rt.alloc());
    let mut answer = Looking {
        rt,
        parts,
        pieces: 0,
        is_in_place: true,
    };
    let status = command(rt, rt.alloc(), &words, &mut answer, &mut faults);
    let Looking {
        rt: _,
        parts: _,
        pieces,
        is_in_place,
    } = answer;
    Ok(status == 20 && pieces > 0 && is_in_place)
}

#[test]
fn a_proof_is_in_its_place_first(rt: HostRuntime) -> Result<(), Fail> {
    let parts = Parts::of(&rt, "kept_behind.cnf", FOUR)?;
    assert!(rt; comes_behind(&rt, &parts)?);
    Ok(())
}

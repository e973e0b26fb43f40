//! Runs by a clock that goes on only while a read waits for lines of progress. So they take seconds
//! by their clock and no time, and print the same each time.
use cubesat::{Console, Screen, command_with_input};
use std::alloc::Global;
use std::io::{ErrorKind, Write};
use std::rt::Files;
use std::sync::{Mutex, Wait};
use std::test::Fail;
use std::thread::Threads;
use std::time::Clock;
use std::{fs, io, thread};
use test_console::Paths;
use test_console::clocks::{LONG, Pace};
use test_console::fake::{FakeFile, STATUS};
use test_samples::FOUR;

/// What answers and faults are printed to, one behind the other. A pace is told of each line that
/// ends, by a line feed or by the letter that ends the order to erase the rest of a line.
#[derive(Drop)]
struct Printer<'a, 'b> {
    log: &'a Mutex<Vec<u8>>,
    pace: &'b Pace<'b>,
}

impl Printer<'_, '_> {
    /// Puts bytes behind the log. Another thread holds it for no longer than this takes.
    fn put(&self, bytes: &[u8]) -> io::Result<()> {
        for _ in 0..LONG {
            if let Some(mut log) = self.log.try_lock() {
                log.extend_from_slice(bytes)?;
                return Ok(());
            }
            thread::yield_now();
        }
        Err(io::Error::from(ErrorKind::Other))
    }
}

impl Write for Printer<'_, '_> {
    fn write(&mut self, buf: &[u8]) -> io::Result<usize> {
        self.put(buf)?;
        for byte in buf {
            if *byte == b'\n' || *byte == b'K' {
                self.pace.add_line();
            }
        }
        Ok(buf.len())
    }

    fn flush(&mut self) -> io::Result<()> {
        Ok(())
    }
}

/// The texts of the formula's and the proof's file, of which the second is the standard input's
/// too, a command line, where it prints, which file is read slowly and how many lines each of its
/// reads waits for, the status, and all that is printed.
#[derive(Clone, Copy)]
pub(crate) struct SlowRun<'a> {
    pub(crate) formula: &'a str,
    pub(crate) proof: &'a str,
    pub(crate) words: &'a [&'a str],
    pub(crate) screen: Screen,
    pub(crate) slow: &'a str,
    pub(crate) waits: &'a [u64],
    pub(crate) status: u8,
    /// Of a run with a fault, or that refuses a proof, what comes up to the words about it; of one
    /// whose speed goes by the clock, what comes up to that.
    pub(crate) log: &'a str,
    /// What comes behind such a speed.
    pub(crate) behind: &'a str,
}

/// Runs a command line whose answers and faults go to a log; the status.
fn run_on<R: Files + Threads + Wait + Clock + Sync>(
    rt: &R,
    alloc: Global,
    words: &[&str],
    input: FakeFile<'_, &[u8]>,
    screen: Screen,
    pace: &Pace,
    log: &Mutex<Vec<u8>>,
) -> u8 {
    let mut console = Console {
        input,
        answer: Printer { log, pace },
        faults: Printer { log, pace },
        screen,
    };
    command_with_input(rt, alloc, words, &mut console)
}

/// What such a command line prints, and its status, by the pace of a system's slow file.
pub(crate) fn printed<R: Files + AllocGlobal + Threads + Wait + Clock + Sync>(
    rt: &R,
    paths: &Paths,
    run: &SlowRun,
    pace: &Pace,
) -> Result<(u8, Vec<u8>), Fail> {
    fs::write(rt, paths.formula.as_str(), run.formula)?;
    fs::write(rt, paths.proof.as_str(), run.proof)?;
    let words = paths.words(rt.alloc(), run.words)?;
    let input = if run.slow == "-" {
        FakeFile::of_text(run.proof.as_bytes(), Some(pace))
    } else {
        FakeFile::of_text(b"", None)
    };
    let log = Mutex::new(Vec::new(rt.alloc()));
    let status = run_on(rt, rt.alloc(), &words, input, run.screen, pace, &log);
    Ok((status, log.into_inner()))
}

/// Whether a run that has ended is left soon: the first looks come one soon after another, and
/// later ones a fiftieth of a second apart.
fn is_left_soon(pace: &Pace) -> bool {
    match pace.sleeps() {
        Some((shortest, longest)) => shortest <= 1000 && longest <= 20_000,
        None => true,
    }
}

/// Whether such a command line prints what is wanted, by short sleeps, on a system with this pace.
pub(crate) fn holds<R: Files + AllocGlobal + Threads + Wait + Clock + Sync>(
    rt: &R,
    paths: &Paths,
    run: &SlowRun,
    pace: &Pace,
) -> Result<bool, Fail> {
    let (status, log) = printed(rt, paths, run, pace)?;
    let is_printed = if run.status == 1 || !run.behind.is_empty() {
        log.starts_with(run.log.as_bytes()) && log.ends_with(run.behind.as_bytes())
    } else {
        log.as_slice() == run.log.as_bytes()
    };
    Ok(status == run.status && is_printed && is_left_soon(pace))
}

/// `solve` on the four clauses by the ordered search, line under line.
pub(crate) const SOLVED: SlowRun = SlowRun {
    formula: FOUR,
    proof: "",
    words: &[
        "cubesat",
        "solve",
        "--progress",
        "--search",
        "ordered",
        "--proof",
        "PROOF",
        "FORMULA",
    ],
    screen: Screen::Stream,
    slow: STATUS,
    waits: &[1, 2, 3, 4],
    status: 20,
    log: "c 1 s: reading\nc 2 s: 2 conflicts, 1 cubes solved, at most 2 waiting, depth 0, at least 0.00 % of the tree closed\nc 3 s: joining\nc 4 s: 2 lines, 24 bytes of the proof written\ns UNSATISFIABLE\n",
    behind: "",
};

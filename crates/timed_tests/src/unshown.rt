//! No progress is shown where that isn't asked for.
use crate::slow_runs::{SOLVED, SlowRun, printed};
use cubesat::Screen;
use std::rt::Files;
use std::sync::Wait;
use std::test::Fail;
use std::thread::Threads;
use std::time::Clock;
use test_console::Paths;
use test_console::clocks::{Pace, SHORT};
use test_console::fake::Fake;

/// More lines than come in any of these runs.
const MANY: u64 = 100;

/// Where such command lines print, and the file whose second read waits in vain for lines: of
/// `solve` at the end of solving, and of `check` in the formula.
static SILENT: [SlowRun; 9] = [
    SlowRun {
        words: &["cubesat", "solve", "--proof", "PROOF", "FORMULA"],
        waits: &[0, MANY],
        ..SOLVED
    },
    // it is counted, so that it could be said what was cut off
    SlowRun {
        words: &["cubesat", "solve", "--seconds", "1000", "FORMULA"],
        waits: &[0, MANY],
        ..SOLVED
    },
    SlowRun {
        words: &["cubesat", "solve", "--stats", "--proof", "PROOF", "FORMULA"],
        waits: &[0, MANY],
        ..SOLVED
    },
    SlowRun {
        words: &[
            "cubesat",
            "solve",
            "--verbose",
            "--proof",
            "PROOF",
            "FORMULA",
        ],
        waits: &[0, MANY],
        ..SOLVED
    },
    SlowRun {
        screen: Screen::Terminal,
        words: &[
            "cubesat",
            "solve",
            "--stats",
            "--verbose",
            "--search",
            "focused",
            "--proof",
            "PROOF",
            "FORMULA",
        ],
        waits: &[0, MANY],
        ..SOLVED
    },
    SlowRun {
        words: &["cubesat", "check", "FORMULA", "FORMULA"],
        slow: "FORMULA",
        waits: &[0, MANY],
        ..SOLVED
    },
    SlowRun {
        words: &["cubesat", "check", "--verbose", "FORMULA", "FORMULA"],
        slow: "FORMULA",
        waits: &[0, MANY],
        ..SOLVED
    },
    SlowRun {
        words: &["cubesat", "check", "--stats", "FORMULA", "FORMULA"],
        slow: "FORMULA",
        waits: &[0, MANY],
        ..SOLVED
    },
    SlowRun {
        screen: Screen::Terminal,
        words: &["cubesat", "check", "--verbose", "FORMULA", "FORMULA"],
        slow: "FORMULA",
        waits: &[0, MANY],
        ..SOLVED
    },
];

/// Whether a command line shows no line of progress while its slow file is read.
fn is_silent<R: Files + AllocGlobal + Threads + Wait + Clock + Sync>(
    rt: &R,
    paths: &Paths,
    run: &SlowRun,
    pace: &Pace,
) -> Result<bool, Fail> {
    let (_, log) = printed(rt, paths, run, pace)?;
    let text = str::from_utf8(&log)?;
    Ok(!text.contains(" s: "))
}

#[test]
fn no_other_option_shows_progress(rt: HostRuntime) -> Result<(), Fail> {
    let paths = Paths::of(&rt, "progress_none.cnf")?;
    for run in &SILENT {
        let pace = Pace::new(run.waits, SHORT);
        let fake = Fake::slowed(&rt, &pace, paths.word(run.slow));
        assert!(rt; is_silent(&fake, &paths, run, &pace)?, "{:?}", run.words);
    }
    Ok(())
}

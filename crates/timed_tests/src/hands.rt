//! As many hands are at work as are asked for, with a proof and without one.
use cubesat::command;
use std::fs;
use std::rt::Files;
use std::sync::Wait;
use std::test::Fail;
use std::thread::Threads;
use std::time::Clock;
use test_console::Paths;
use test_console::clocks::{LONG, Meeting, SHORT};
use test_console::fake::Fake;
use test_samples::EIGHT;

/// What `--stats` tells of hands: how many there are, how many of them solved a cube, and how many
/// cubes were solved.
#[derive(Clone, Copy)]
struct Told {
    hands: u64,
    at_work: u64,
    cubes: u64,
}

impl Told {
    fn none() -> Told {
        Told {
            hands: 0,
            at_work: 0,
            cubes: 0,
        }
    }

    fn add(&mut self, cubes: u64) {
        self.hands = self.hands.saturating_add(1);
        self.cubes = self.cubes.saturating_add(cubes);
        if cubes > 0 {
            self.at_work = self.at_work.saturating_add(1);
        }
    }
}

/// What the lines of `--stats` tell of hands.
fn told_in(faults: &[u8]) -> Option<Told> {
    let text = str::from_utf8(faults).ok()?;
    let (_, behind) = text.split_once("\nc solved by each hand:")?;
    let (counts, _) = behind.split_once("\n")?;
    let mut told = Told::none();
    for count in counts.split_whitespace() {
        told.add(count.parse::<u64>().ok()?);
    }
    Some(told)
}

/// A command line.
type Line = &'static [&'static str];

/// What the command line that the words of a row stand for tells of the eight clauses' hands.
fn told_by<R: Files + AllocGlobal + Threads + Wait + Clock + Sync>(
    rt: &R,
    paths: &Paths,
    line: &[&str],
) -> Result<Option<Told>, Fail> {
    fs::write(rt, paths.formula.as_str(), EIGHT)?;
    let words = paths.words(rt.alloc(), line)?;
    let mut answer = Vec::new(rt.alloc());
    let mut faults = Vec::new(rt.alloc());
    let _ = command(rt, rt.alloc(), &words, &mut answer, &mut faults);
    Ok(told_in(&faults))
}

/// Command lines with a limit of time, how many hands they name, and which reading of the clock is the
/// first one at the root's first half. It is read when the limit begins and before each cube; with
/// `--stats` before that as the run begins, and as the formula is read, and with several hands also
/// as each cube begins and ends.
static LIMITED: [(Line, u64, u64); 8] = [
    (
        &[
            "cubesat",
            "solve",
            "--seconds",
            "10",
            "--budget",
            "1",
            "--proof",
            "PROOF",
            "FORMULA",
            "--hands",
            "1",
        ],
        1,
        4,
    ),
    (
        &[
            "cubesat",
            "solve",
            "--seconds",
            "10",
            "--budget",
            "1",
            "--proof",
            "PROOF",
            "FORMULA",
            "--hands",
            "2",
        ],
        2,
        6,
    ),
    (
        &[
            "cubesat",
            "solve",
            "--seconds",
            "10",
            "--budget",
            "1",
            "FORMULA",
            "--hands",
            "1",
        ],
        1,
        2,
    ),
    (
        &[
            "cubesat",
            "solve",
            "--seconds",
            "10",
            "--budget",
            "1",
            "FORMULA",
            "--hands",
            "2",
        ],
        2,
        2,
    ),
    (
        &[
            "cubesat",
            "solve",
            "--stats",
            "--seconds",
            "10",
            "--budget",
            "1",
            "--proof",
            "PROOF",
            "FORMULA",
            "--hands",
            "1",
        ],
        1,
        4,
    ),
    (
        &[
            "cubesat",
            "solve",
            "--stats",
            "--seconds",
            "10",
            "--budget",
            "1",
            "--proof",
            "PROOF",
            "FORMULA",
            "--hands",
            "2",
        ],
        2,
        6,
    ),
    (
        &[
            "cubesat",
            "solve",
            "--stats",
            "--seconds",
            "10",
            "--budget",
            "1",
            "FORMULA",
            "--hands",
            "1",
        ],
        1,
        4,
    ),
    (
        &[
            "cubesat",
            "solve",
            "--stats",
            "--seconds",
            "10",
            "--budget",
            "1",
            "FORMULA",
            "--hands",
            "2",
        ],
        2,
        6,
    ),
];

/// Whether what `--stats` tells, if it does, is of so many hands, of which each has solved one of
/// the three cubes or more.
fn is_of(told: Option<Told>, hands: u64) -> bool {
    match told {
        Some(told) => told.hands == hands && told.at_work == hands && told.cubes == 3,
        None => true,
    }
}

/// Before it solves the first half, a hand waits until the other half is begun too: by two hands that
/// comes, by one it can't.
#[test]
fn as_many_hands_are_at_work_at_once(rt: HostRuntime) -> Result<(), Fail> {
    let paths = Paths::of(&rt, "hands_at_work.cnf")?;
    for (line, hands, waits) in &LIMITED {
        let looks = if *hands == 2 { LONG } else { SHORT };
        let clock = Meeting::at(*waits, looks);
        let fake = Fake::by(&rt, &clock);
        let told = told_by(&fake, &paths, line)?;
        let is_right = clock.is_met() == (*hands == 2) && is_of(told, *hands);
        assert!(rt; is_right, "{line:?}");
    }
    Ok(())
}

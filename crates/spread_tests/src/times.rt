//! Parts by a clock that jumps: when they end, when they write what they found, and how many hands
//! are at work.
use crate::rows::{Row, begin, first_other};
use std::fs::Files;
use std::test::Fail;
use std::{fs, io};
use test_console::clocks::{LONG, Meeting, Readings, SHORT, UNREAD};
use test_console::fake::Fake;
use test_samples::{FOUR, SIXTEEN};

const RUN: &str = "spread_times";

const FORMULA: &str = "spread_times.cnf";

/// Two cubes are open.
static HALVES: [Row; 1] = [Row {
    words: &[
        "cubesat", "divide", "--into", RUN, "--budget", "1", "--divide", "2", FORMULA,
    ],
    status: 0,
    answer: "2\n",
    faults: "",
}];

/// The command line of a part, what the clock shows in milliseconds, the status, and what is open
/// behind it, with what is said of that. The clock is read twice as a hand begins, and twice before each cube:
/// whether the time is over, and whether a pack is due.
#[derive(Clone, Copy)]
struct Timed<'a> {
    words: &'a [&'a str],
    clock: &'a [u64],
    status: u8,
    open: &'a str,
    claim: &'a str,
}

/// The time is over before the first cube.
const ENDED: Timed = Timed {
    words: &[
        "cubesat",
        "conquer",
        "--round",
        "1",
        "--part",
        "1/1",
        "--minutes",
        "1",
        RUN,
    ],
    clock: &[5_000, 5_000, 65_000],
    status: 75,
    open: "2\n",
    claim: "",
};

/// It isn't.
const SOLVED: Timed = Timed {
    clock: &[5_000, 5_000, 64_999],
    status: 0,
    open: "0\n",
    claim: "c every cube is refuted by a pack: cubesat gather --proof PATH spread_times\n",
    ..ENDED
};

/// For the longest time.
const LONGEST: [&str; 9] = [
    "cubesat",
    "conquer",
    "--round",
    "1",
    "--part",
    "1/1",
    "--minutes",
    "1000000",
    RUN,
];

static TIMED: [Timed; 8] = [
    ENDED,
    SOLVED,
    // it is over before the second one
    Timed {
        clock: &[5_000, 5_000, 5_000, 5_000, 65_000],
        open: "1\n",
        ..ENDED
    },
    Timed {
        words: &LONGEST,
        clock: &[0, 0, 60_000_000_000],
        ..ENDED
    },
    Timed {
        words: &LONGEST,
        clock: &[0, 0, 59_999_999_999],
        ..SOLVED
    },
    // without a limit
    Timed {
        words: &["cubesat", "conquer", "--round", "1", "--part", "1/1", RUN],
        clock: &[0, 0, 4_000_000_000_000],
        ..SOLVED
    },
    // the clock can't be read
    Timed {
        clock: &[UNREAD, UNREAD, 4_000_000_000_000],
        ..SOLVED
    },
    Timed {
        clock: &[0, 0, UNREAD],
        ..SOLVED
    },
];

#[test]
fn parts_end_in_time(rt: HostRuntime) -> Result<(), Fail> {
    for row in &TIMED {
        begin(&rt, RUN, FORMULA, FOUR)?;
        assert!(rt; first_other(&rt, &HALVES).is_none());
        let clock = Readings::new(row.clock);
        let fake = Fake::by(&rt, &clock);
        let part = Row {
            words: row.words,
            status: row.status,
            answer: "",
            faults: "",
        };
        let open = Row {
            words: &["cubesat", "divide", "--into", RUN],
            status: 0,
            answer: row.open,
            faults: row.claim,
        };
        assert!(rt; first_other(&fake, &[part]).is_none(), "{:?}", row.clock);
        assert!(rt; first_other(&rt, &[open]).is_none(), "{:?}", row.clock);
    }
    Ok(())
}

const DUE: &str = "spread_due";

const DUE_FORMULA: &str = "spread_due.cnf";

/// Four cubes are open, each of which is refuted; the division has three splits.
static QUARTERS: [Row; 1] = [Row {
    words: &[
        "cubesat",
        "divide",
        "--into",
        DUE,
        "--budget",
        "1",
        "--divide",
        "4",
        DUE_FORMULA,
    ],
    status: 0,
    answer: "4\n",
    faults: "",
}];

static ONE_PART: [Row; 1] = [Row {
    words: &["cubesat", "conquer", "--round", "1", "--part", "1/1", DUE],
    status: 0,
    answer: "",
    faults: "",
}];

/// No fact is written twice.
static GATHERED: [Row; 1] = [Row {
    words: &[
        "cubesat",
        "gather",
        "--stats",
        "--proof",
        "spread_due.lrat",
        DUE,
    ],
    status: 20,
    answer: "s UNSATISFIABLE\n",
    faults: "c packs: 7 facts, 7 of them taken, 0 cubes solved again, 0 passed over, 0 packs break off\n",
}];

/// What the clock shows in milliseconds, and how many packs there are, with that of the division. A
/// pack is due a minute behind the part's beginning or the pack before, where something was found
/// since; the clock is read once more behind it.
static PACKS: [(&[u64], usize); 5] = [
    (&[5_000, 64_999], 2),
    // nothing was found yet
    (&[5_000, 65_000], 2),
    (&[5_000, 5_000, 65_000], 3),
    // three cubes come behind this pack, and then one
    (&[5_000, 5_000, 65_000, 65_000, 65_000, 125_000], 4),
    (&[UNREAD, 5_000, 4_000_000_000_000], 2),
];

/// How many files a folder has.
fn count_in<R: Files + AllocGlobal + Clone + Drop>(rt: &R, path: &str) -> io::Result<usize> {
    let mut count = 0usize;
    for entry in fs::read_dir(rt, path)? {
        let _ = entry?;
        count = count.saturating_add(1);
    }
    Ok(count)
}

#[test]
fn packs_are_written_each_minute(rt: HostRuntime) -> Result<(), Fail> {
    for (millis, count) in &PACKS {
        begin(&rt, DUE, DUE_FORMULA, SIXTEEN)?;
        assert!(rt; first_other(&rt, &QUARTERS).is_none());
        let clock = Readings::new(*millis);
        let fake = Fake::by(&rt, &clock);
        assert!(rt; first_other(&fake, &ONE_PART).is_none(), "{millis:?}");
        assert!(rt; count_in(&rt, "spread_due/packs")? == *count, "{millis:?}");
        assert!(rt; first_other(&rt, &GATHERED).is_none(), "{millis:?}");
    }
    Ok(())
}

const SHARED: &str = "spread_shared";

const SHARED_FORMULA: &str = "spread_shared.cnf";

static SHARED_HALVES: [Row; 1] = [Row {
    words: &[
        "cubesat",
        "divide",
        "--into",
        SHARED,
        "--budget",
        "1",
        "--divide",
        "2",
        SHARED_FORMULA,
    ],
    status: 0,
    answer: "2\n",
    faults: "",
}];

/// By the number of hands that none is given for.
const BY_ONE: Row = Row {
    words: &[
        "cubesat", "conquer", "--round", "1", "--part", "1/1", SHARED,
    ],
    status: 0,
    answer: "",
    faults: "",
};

/// A command line, how often its first reading of the clock looks for the next one, and whether that
/// comes, as it does of a second hand.
static AT_WORK: [(Row, u32, bool); 3] = [
    (BY_ONE, SHORT, false),
    (
        Row {
            words: &[
                "cubesat", "conquer", "--round", "1", "--part", "1/1", "--hands", "1", SHARED,
            ],
            ..BY_ONE
        },
        SHORT,
        false,
    ),
    (
        Row {
            words: &[
                "cubesat", "conquer", "--round", "1", "--part", "1/1", "--hands", "2", SHARED,
            ],
            ..BY_ONE
        },
        LONG,
        true,
    ),
];

#[test]
fn as_many_hands_work_as_are_asked_for(rt: HostRuntime) -> Result<(), Fail> {
    for (row, looks, is_met) in &AT_WORK {
        begin(&rt, SHARED, SHARED_FORMULA, FOUR)?;
        assert!(rt; first_other(&rt, &SHARED_HALVES).is_none());
        let clock = Meeting::at(0, *looks);
        let fake = Fake::by(&rt, &clock);
        assert!(rt; first_other(&fake, &[*row]).is_none(), "{:?}", row.words);
        assert!(rt; clock.is_met() == *is_met, "{:?}", row.words);
    }
    Ok(())
}

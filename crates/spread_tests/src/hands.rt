//! What several hands read of the packs of a run that they gather.
use crate::rows::{Row, begin, first_other};
use std::fs;
use std::fs::Files;
use std::sync::Wait;
use std::test::Fail;
use std::thread::Threads;
use std::time::Clock;
use test_console::clocks::Pace;
use test_console::fake::Fake;
use test_samples::FOUR;

const AHEAD: &str = "spread_ahead";

const AHEAD_FORMULA: &str = "spread_ahead.cnf";

/// The cube without literals is split on 1, which the pack of the division says.
static AHEAD_HALVES: [Row; 1] = [Row {
    words: &[
        "cubesat",
        "divide",
        "--into",
        AHEAD,
        "--budget",
        "1",
        "--divide",
        "2",
        AHEAD_FORMULA,
    ],
    status: 0,
    answer: "2\n",
    faults: "",
}];

const BY_ONE: Row = Row {
    words: &[
        "cubesat",
        "gather",
        "--solve",
        "--proof",
        "spread_ahead.lrat",
        "--hands",
        "1",
        AHEAD,
    ],
    status: 20,
    answer: "s UNSATISFIABLE\n",
    faults: "",
};

const BY_TWO: Row = Row {
    words: &[
        "cubesat",
        "gather",
        "--solve",
        "--proof",
        "spread_ahead.lrat",
        "--hands",
        "2",
        AHEAD,
    ],
    ..BY_ONE
};

/// A pack that says that the cube of -2 alone is refuted, which isn't in the tree.
const REFUTED: &str =
    "spread_ahead/packs/d9a01ce7ccd16bd2d8d9a627cd2533609eea021481a0087018ad7fed9cfaa89e.pack";

const REFUTED_TEXT: &str =
    "cubesat pack 2 8da2c54d0827cc71b8f590a38e945199383fe5822184a861e095ce4186cf999d\n\x0a\x00\x00\x00\x00\x00\x00\x00\x04\x00\x04\x00\x00\x00\x02\x02\x00\x00";

/// One that says that it has a model: then the tree is gone through twice.
const MODEL: &str =
    "spread_ahead/packs/5ae38e19830c523a539c5d63d636421b6db8ddbe4bdad53c8371c0c3ab33ea0a.pack";

const MODEL_TEXT: &str =
    "cubesat pack 2 8da2c54d0827cc71b8f590a38e945199383fe5822184a861e095ce4186cf999d\n\x05\x00\x00\x00\x00\x00\x00\x00\x04\x00\x06\x00\x00";

/// A pack, a command line, and whether the pack is read again once it is gone through: one hand reads
/// the facts of cubes that it comes to, and several those that come next.
struct Reading<'a> {
    path: &'a str,
    text: &'a str,
    row: Row<'a>,
    is_again: bool,
}

static READINGS: [Reading; 4] = [
    Reading {
        path: REFUTED,
        text: REFUTED_TEXT,
        row: BY_ONE,
        is_again: false,
    },
    Reading {
        path: REFUTED,
        text: REFUTED_TEXT,
        row: BY_TWO,
        is_again: true,
    },
    Reading {
        path: MODEL,
        text: MODEL_TEXT,
        row: BY_ONE,
        is_again: false,
    },
    Reading {
        path: MODEL,
        text: MODEL_TEXT,
        row: BY_TWO,
        is_again: true,
    },
];

/// No read waits for a line.
static NO_LINES: [u64; 1] = [0];

/// How many reads of a pack a command line begins, if it ends and prints as it is to.
fn reads_of<R: Files + AllocGlobal + Threads + Wait + Clock + Sync + Clone + Drop>(
    rt: &R,
    path: &str,
    row: &Row,
) -> Option<u64>
where
    R::File: Send,
    R::Dir: Send,
{
    let pace = Pace::new(&NO_LINES, 0);
    let fake = Fake::slowed(rt, &pace, path);
    if first_other(&fake, &[*row]).is_some() {
        return None;
    }
    Some(pace.reads())
}

#[test]
fn several_hands_read_facts_ahead(rt: HostRuntime) -> Result<(), Fail> {
    for reading in &READINGS {
        begin(&rt, AHEAD, AHEAD_FORMULA, FOUR)?;
        assert!(rt; first_other(&rt, &AHEAD_HALVES).is_none());
        fs::write(&rt, reading.path, reading.text)?;
        let reads = reads_of(&rt, reading.path, &reading.row);
        assert!(rt; reads.is_some(), "{:?}", reading.row.words);
        assert!(rt;
            (reads > Some(1)) == reading.is_again,
            "{:?}",
            reading.row.words
        );
    }
    Ok(())
}

//! Packs that change behind a store's back.
use crate::rows::{Row, begin, first_other};
use cubes::HandCount;
use runs::{Gathering, Verdict, gather_stored};
use spread::{Folder, run_in, store_in};
use std::fs::Files;
use std::test::Fail;
use std::thread::Threads;
use std::{fs, io};
use test_samples::{FOUR, FOUR_PROOF};

const RUN: &str = "spread_changed";

const FORMULA: &str = "spread_changed.cnf";

/// The pack of the division: the cube without literals is split on 1.
const PACK: &str =
    "spread_changed/packs/0c31f731dc9eef1a6080d87040c9d7445b22035ba405482a38e0a7ea80d610b7.pack";

static MADE: [Row; 1] = [Row {
    words: &[
        "cubesat", "divide", "--into", RUN, "--budget", "1", "--divide", "2", FORMULA,
    ],
    status: 0,
    answer: "2\n",
    faults: "",
}];

/// What the pack holds when its fact is asked for, if it is there, and how many facts are taken.
struct Change {
    name: &'static str,
    text: Option<&'static str>,
    taken: u64,
}

static CHANGES: [Change; 6] = [
    Change {
        name: "none",
        text: Some(
            "cubesat pack 2 8da2c54d0827cc71b8f590a38e945199383fe5822184a861e095ce4186cf999d\n\x05\x00\x00\x00\x00\x00\x00\x00\x00\x02\x01\x00\x00",
        ),
        taken: 1,
    },
    Change {
        name: "taken away",
        text: None,
        taken: 0,
    },
    Change {
        name: "emptied",
        text: Some(""),
        taken: 0,
    },
    Change {
        name: "cut inside the fact",
        text: Some(
            "cubesat pack 2 8da2c54d0827cc71b8f590a38e945199383fe5822184a861e095ce4186cf999d\n\x05\x00\x00\x00\x00\x00\x00\x00\x00\x02\x01\x00",
        ),
        taken: 0,
    },
    // the formula has two variables
    Change {
        name: "a split on 3",
        text: Some(
            "cubesat pack 2 8da2c54d0827cc71b8f590a38e945199383fe5822184a861e095ce4186cf999d\n\x05\x00\x00\x00\x00\x00\x00\x00\x00\x02\x04\x00\x00",
        ),
        taken: 0,
    },
    // a fact of another cube: -1 has a model
    Change {
        name: "another cube",
        text: Some(
            "cubesat pack 2 8da2c54d0827cc71b8f590a38e945199383fe5822184a861e095ce4186cf999d\n\x05\x00\x00\x00\x00\x00\x00\x00\x02\x00\x06\x00\x00",
        ),
        taken: 0,
    },
];

fn make_change<R: Files + AllocGlobal>(rt: &R, text: Option<&str>) -> io::Result<()> {
    match text {
        Some(text) => fs::write(rt, PACK, text),
        None => fs::remove_file(rt, PACK),
    }
}

/// Whether gathering is right of a store whose pack was changed since it was opened.
fn is_right<R: Files + AllocGlobal + Threads + Sync + Clone + Drop>(
    rt: &R,
    row: &Change,
) -> io::Result<bool>
where
    R::File: Send,
    R::Dir: Send,
{
    let alloc = rt.alloc();
    let folder = Folder { path: RUN };
    let mut faults = Vec::new(alloc);
    let Ok(run) = run_in(rt, alloc, folder, &mut faults) else {
        return Ok(false);
    };
    let hands = HandCount::of(1);
    let Ok(store) = store_in(rt, alloc, folder, &run, 2, hands, &mut faults) else {
        return Ok(false);
    };
    make_change(rt, row.text)?;
    let mut answer = Vec::new(alloc);
    let mut proof = Vec::new(alloc);
    let gathering = Gathering {
        store,
        limits: run.limits,
        strategy: run.strategy(),
        hands,
    };
    let text = FOUR.as_bytes();
    let gathered = gather_stored(rt, alloc, text, gathering, &mut answer, &mut proof);
    match gathered {
        Ok(gathered) => Ok(
            gathered.verdict == Verdict::Unsatisfiable
                && gathered.taken == row.taken
                && proof.as_slice() == FOUR_PROOF.as_bytes(),
        ),
        Err(_) => Ok(false),
    }
}

#[test]
fn what_changed_is_solved_again(rt: HostRuntime) -> Result<(), Fail> {
    for row in &CHANGES {
        begin(&rt, RUN, FORMULA, FOUR)?;
        assert!(rt; first_other(&rt, &MADE).is_none());
        assert!(rt; is_right(&rt, row)?, "{}", row.name);
    }
    Ok(())
}

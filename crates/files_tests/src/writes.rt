//! What stands at a place, before and behind files that are written there, by their paths and by
//! links.
use crate::folder::{folder, is_link, put, write_some, write_whole};
use crate::place::Place;
use std::io;
use std::rt::{Env, Files};
use std::test::Fail;

/// A text that is written, whether it is ended or let go, and which text the file then has.
#[derive(Clone, Copy)]
struct Writing {
    text: &'static str,
    is_ended: bool,
    left: Option<&'static str>,
}

/// Whether the file is written by a link, what stood in it and its part, and what is written.
#[derive(Clone, Copy)]
struct Row {
    name: &'static str,
    is_linked: bool,
    file: Option<&'static str>,
    part: Option<&'static str>,
    writes: &'static [Writing],
}

const NEW: Writing = Writing {
    text: "new",
    is_ended: true,
    left: Some("new"),
};

static ROWS: [Row; 5] = [
    Row {
        name: "old",
        is_linked: false,
        file: Some("old"),
        part: None,
        writes: &[
            Writing {
                text: "a beginning",
                is_ended: false,
                left: Some("old"),
            },
            NEW,
        ],
    },
    Row {
        name: "none",
        is_linked: false,
        file: None,
        part: None,
        writes: &[Writing {
            text: "a beginning",
            is_ended: false,
            left: None,
        }],
    },
    // the part of an earlier run
    Row {
        name: "stale",
        is_linked: false,
        file: None,
        part: Some("a long text that was cut off"),
        writes: &[NEW],
    },
    Row {
        name: "linked",
        is_linked: true,
        file: Some("old"),
        part: None,
        writes: &[
            Writing {
                text: "a beginning",
                is_ended: false,
                left: Some("old"),
            },
            NEW,
        ],
    },
    // a link to no file yet
    Row {
        name: "dangling",
        is_linked: true,
        file: None,
        part: None,
        writes: &[
            Writing {
                text: "a beginning",
                is_ended: false,
                left: None,
            },
            NEW,
        ],
    },
];

fn write<R: Files + AllocGlobal>(rt: &R, path: &str, writing: &Writing) -> io::Result<()> {
    if writing.is_ended {
        write_whole(rt, path, writing.text)
    } else {
        write_some(rt, path, writing.text)
    }
}

/// Whether each text that is written leaves what it is to leave, and the link, if there is one.
fn are_left<R: Files + AllocGlobal>(rt: &R, place: &Place, row: &Row) -> Result<bool, Fail> {
    for written in row.writes {
        write(rt, place.name.as_str(), written)?;
        if !place.has(rt, written.left, None) || is_link(rt, place.name.as_str()) != row.is_linked {
            return Ok(false);
        }
    }
    Ok(true)
}

fn holds_at<R: Files + AllocGlobal>(rt: &R, place: &Place, row: &Row) -> Result<bool, Fail> {
    put(rt, place.file.as_str(), row.file)?;
    put(rt, place.part.as_str(), row.part)?;
    are_left(rt, place, row)
}

fn place_of<R: Env + Files + AllocGlobal>(rt: &R, row: &Row) -> Result<Place, Fail> {
    let folder = folder(rt, row.name)?;
    if row.is_linked {
        Place::linked(rt, folder.as_str())
    } else {
        Place::of(rt, folder.as_str())
    }
}

fn holds<R: Env + Files + AllocGlobal>(rt: &R, row: &Row) -> Result<bool, Fail> {
    let place = place_of(rt, row)?;
    holds_at(rt, &place, row)
}

#[test]
fn files_that_are_ended_or_let_go(rt: HostRuntime) -> Result<(), Fail> {
    for row in &ROWS {
        assert!(rt; holds(&rt, row)?, "{}", row.name);
    }
    Ok(())
}

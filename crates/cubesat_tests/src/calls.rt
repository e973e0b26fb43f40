//! Calls that the program doesn't make: without a word, and of commands that need folders where none
//! are listed.
use crate::command_lines::{run, run_words};
use std::fs;
use std::rt::Files;
use std::sync::Wait;
use std::test::Fail;
use std::thread::Threads;
use std::time::Clock;
use test_console::{Paths, Wanted, is_printed, put_texts};

#[test]
fn no_word_is_refused(rt: HostRuntime) {
    let printed = run(&rt, &[]);
    let is_refused = printed.status == 1
        && printed.answer.is_empty()
        && printed.faults.starts_with(b"error: ");
    assert!(rt; is_refused);
}

static IN_FOLDERS: [&[&str]; 3] = [
    &[
        "cubesat", "conquer", "--round", "1", "--part", "1/1", "MISSING",
    ],
    &["cubesat", "divide", "--into", "MISSING", "FORMULA"],
    &["cubesat", "gather", "--proof", "PROOF", "MISSING"],
];

const UNLISTED: Wanted = Wanted {
    status: 1,
    answer: "",
    faults: "cubesat: this call doesn't list folders, which a run needs\n",
};

/// Whether a command line is refused for want of folders, and leaves the proof's file.
fn is_unlisted<R: Files + AllocGlobal + Threads + Wait + Clock + Sync>(
    rt: &R,
    paths: &Paths,
    words: &[&str],
) -> Result<bool, Fail> {
    put_texts(rt, paths, b"", b"old")?;
    let printed = run_words(rt, paths, words)?;
    let is_left = fs::read(rt, paths.proof.as_str())?.as_slice() == b"old".as_slice();
    Ok(is_printed(&printed, &UNLISTED) && is_left)
}

#[test]
fn folders_have_to_be_listed(rt: HostRuntime) -> Result<(), Fail> {
    let paths = Paths::of(&rt, "calls.cnf")?;
    for words in &IN_FOLDERS {
        assert!(rt; is_unlisted(&rt, &paths, words)?, "{words:?}");
    }
    Ok(())
}

//! Command lines one after the other, what each prints, and its status.
use cubesat::{Console, NoLocks, Screen, command_in_folders};
use std::alloc::Global;
use std::fs;
use std::fs::Files;
use std::io::empty;
use std::sync::Wait;
use std::test::Fail;
use std::thread::Threads;
use std::time::Clock;

/// A command line.
#[derive(Clone, Copy)]
pub struct Row<'a> {
    pub words: &'a [&'a str],
    pub status: u8,
    /// What is printed as the answer.
    pub answer: &'a str,
    /// With what the rest that is printed begins; where it is empty, nothing is.
    pub faults: &'a str,
}

/// Whether the command line ends and prints as it is to.
fn is_so<R: Files + AllocGlobal + Threads + Wait + Clock + Sync + Clone + Drop>(
    rt: &R,
    alloc: Global,
    row: &Row,
) -> bool
where
    R::File: Send,
    R::Dir: Send,
{
    let mut console = Console {
        input: empty(),
        answer: Vec::new(alloc),
        faults: Vec::new(alloc),
        screen: Screen::Stream,
    };
    let status = command_in_folders(rt, alloc, row.words, &mut console, &NoLocks);
    let Console { answer, faults, .. } = console;
    let is_silent = faults.is_empty() == row.faults.is_empty();
    status == row.status
        && answer.as_slice() == row.answer.as_bytes()
        && is_silent
        && faults.starts_with(row.faults.as_bytes())
}

/// The place of the first command line that doesn't end or print as it is to, if there is one.
pub fn first_other<R: Files + AllocGlobal + Threads + Wait + Clock + Sync + Clone + Drop>(
    rt: &R,
    rows: &[Row],
) -> Option<usize>
where
    R::File: Send,
    R::Dir: Send,
{
    for place in 0..rows.len() {
        if !is_so(rt, rt.alloc(), &rows[place]) {
            return Some(place);
        }
    }
    None
}

/// Writes the formula of a run, and takes away what an earlier test left of the run.
pub fn begin<R: Files + AllocGlobal>(
    rt: &R,
    run: &str,
    path: &str,
    text: &str,
) -> Result<(), Fail> {
    let _ = fs::remove_dir_all(rt, run);
    fs::write(rt, path, text)?;
    Ok(())
}

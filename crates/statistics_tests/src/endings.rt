//! A run that ends between a look at its figures and the line that is due: a terminal doesn't show
//! it any more.
use statistics::{Board, Manner, Stage, show_progress};
use std::alloc::Global;
use std::io;
use std::io::ErrorKind;
use std::sync::Wait;
use std::time::{Clock, Duration};
use test_console::fake::Fake;

/// A clock that shows a time at which each line is due, and ends the run as it is read.
#[derive(Drop)]
struct Ending<'a, R> {
    rt: &'a R,
    board: &'a Board,
}

impl<R: Wait + Clock> Clock for Ending<'_, R> {
    fn monotonic(&self) -> io::Result<Duration> {
        self.board.end_progress(self.rt);
        Ok(Duration::from_secs(1 << 40))
    }

    fn since_1970(&self) -> io::Result<Duration> {
        Err(io::Error::from(ErrorKind::Unsupported))
    }
}

/// What is printed on a terminal of a run that ends so.
fn shown<R: Wait + Clock>(rt: &R, alloc: Global) -> Vec<u8> {
    let board = Board::new(rt, Stage::Solving);
    let ending = Ending { rt, board: &board };
    let fake = Fake::by(rt, &ending);
    let mut out = Vec::new(alloc);
    show_progress(&fake, &board, &mut out, Manner::Rewritten);
    out
}

#[test]
fn no_line_is_drawn_of_a_run_that_has_ended(rt: HostRuntime) {
    assert!(rt; shown(&rt, rt.alloc()).is_empty());
}

//! Lines that show how far a run is, about one a second.

use crate::board::Board;
use crate::figures::{Figures, Stage};
use crate::search_line::SearchLine;
use std::io::Write;
use std::sync::Wait;
use std::time::{Clock, Duration};
use std::{io, thread};

/// How many milliseconds pass between two lines.
const PAUSE: u64 = 1000;

/// How many milliseconds are slept at most between two looks at the figures. A run that has ended
/// is left after as many.
const LOOK: u64 = 20;

/// How progress is shown.
#[derive(Clone, Copy, Debug, PartialEq, Eq)]
pub enum Manner {
    /// Line under line.
    Listed,
    /// As one line of a terminal, which is written over.
    Rewritten,
}

impl Manner {
    fn start(self) -> &'static str {
        match self {
            Manner::Listed => "",
            Manner::Rewritten => "\r",
        }
    }

    // on a terminal what an earlier, longer line left is erased
    fn end(self) -> &'static str {
        match self {
            Manner::Listed => "\n",
            Manner::Rewritten => "\x1b[K",
        }
    }
}

/// Prints the line of these figures, so many seconds after the run began. A failed write changes
/// nothing.
pub fn print_line<E: Write>(out: &mut E, manner: Manner, seconds: u64, figures: &Figures) {
    print_line_at(out, manner, seconds.saturating_mul(1000), figures);
}

/// The line of a stage that has a name alone.
fn print_named<E: Write>(out: &mut E, manner: Manner, seconds: u64, name: &str) -> io::Result<()> {
    let (start, end) = (manner.start(), manner.end());
    write!(out, "{start}c {seconds} s: {name}{end}")
}

fn print_search<E: Write>(
    out: &mut E,
    manner: Manner,
    now: u64,
    figures: &Figures,
) -> io::Result<()> {
    let (start, end, seconds) = (manner.start(), manner.end(), now / 1000);
    let search = SearchLine::of(figures, now);
    write!(out, "{start}c {seconds} s: {search}{end}")
}

fn print_written<E: Write>(
    out: &mut E,
    manner: Manner,
    seconds: u64,
    figures: &Figures,
) -> io::Result<()> {
    let (start, end, proof) = (manner.start(), manner.end(), figures.proof);
    write!(
        out,
        "{start}c {seconds} s: {proof} of the proof written{end}"
    )
}

fn print_read<E: Write>(
    out: &mut E,
    manner: Manner,
    seconds: u64,
    figures: &Figures,
) -> io::Result<()> {
    let (start, end, proof) = (manner.start(), manner.end(), figures.proof);
    match figures.proof_share() {
        Some(share) => write!(
            out,
            "{start}c {seconds} s: {proof} of the proof read, {share} %{end}"
        ),
        None => write!(out, "{start}c {seconds} s: {proof} of the proof read{end}"),
    }
}

fn print_cubes<E: Write>(
    out: &mut E,
    manner: Manner,
    seconds: u64,
    figures: &Figures,
) -> io::Result<()> {
    let (start, end) = (manner.start(), manner.end());
    let (conflicts, cubes) = (figures.searched().conflicts, figures.cubes.solved_by_all());
    write!(
        out,
        "{start}c {seconds} s: {conflicts} conflicts, {cubes} cubes solved{end}"
    )
}

/// `print_line` so many milliseconds after the run began.
fn print_line_at<E: Write>(out: &mut E, manner: Manner, now: u64, figures: &Figures) {
    let seconds = now / 1000;
    let _ = match figures.stage {
        Stage::Reading => print_named(out, manner, seconds, "reading"),
        Stage::Solving => print_search(out, manner, now, figures),
        Stage::Joining => print_named(out, manner, seconds, "joining"),
        Stage::Writing => print_written(out, manner, seconds, figures),
        Stage::Checking => print_read(out, manner, seconds, figures),
        Stage::Cubes => print_cubes(out, manner, seconds, figures),
    };
}

/// Prints the line of these figures, on a terminal unless the run has ended.
fn show_line<R: Wait, E: Write>(
    rt: &R,
    board: &Board,
    out: &mut E,
    manner: Manner,
    now: u64,
    figures: &Figures,
) {
    if manner == Manner::Listed || board.figures().lock(rt).draw() {
        print_line_at(out, manner, now, figures);
    }
}

/// Erases the line that stands on the terminal, if one does.
fn erase_line<R: Wait, E: Write>(rt: &R, board: &Board, out: &mut E) {
    if board.look(rt).is_drawn {
        let _ = write!(out, "\r\x1b[K");
        board.figures().lock(rt).erase();
    }
}

/// Shows in this manner how far a run is, until it ends. On a terminal nothing is left of that. The
/// first looks come one soon after another, so that a short run isn't held up.
pub fn show_progress<R: Wait + Clock, E: Write>(
    rt: &R,
    board: &Board,
    out: &mut E,
    manner: Manner,
) {
    let mut due = PAUSE;
    let mut look = 1u64;
    for _ in rt.forever() {
        let figures = board.look(rt);
        if figures.is_bare() {
            erase_line(rt, board, out);
        }
        if figures.is_ended {
            break;
        }
        let now = board.now(rt);
        if now >= due {
            due = now.saturating_add(PAUSE);
            show_line(rt, board, out, manner, now, &figures);
        }
        thread::sleep(rt, Duration::from_millis(look));
        look = look.saturating_mul(2).min(LOOK);
    }
}

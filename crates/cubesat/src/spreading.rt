//! `divide`, `conquer`, `gather` and `status`: the calls that do what is asked for, and their statuses.

use crate::gathered::gather;
use crate::open_lines::OpenLines;
use crate::standing_lines::{DONE, print_progress, print_standing};
use cnf::Limits;
use command_line::{Choice, MAX_DIVIDE, Part, SPREAD_BUDGET, Spread, greatest_budget, strategy_of};
use commands::{FAILED, Locks};
use cubes::{HandCount, OpenGate};
use spread::{Ended, Folder, OpenCount, Progress, Said, Slice, conquer, divide, divide_again};
use statistics::{Board, Manner, Stage, Watch, show_progress};
use std::alloc::Global;
use std::fs::Files;
use std::io::Write;
use std::sync::Wait;
use std::thread;
use std::thread::Threads;
use std::time::Clock;
use strategies::Strategy;

/// The status of a part whose time is over: try again, as `sysexits.h` has it.
const OUT_OF_TIME: u8 = 75;

fn status_of(ended: Result<Ended, Said>) -> u8 {
    match ended {
        Ok(Ended::Done) => DONE,
        Ok(Ended::OutOfTime) => OUT_OF_TIME,
        Err(Said) => FAILED,
    }
}

/// How a run's formula is decided, if the numbers are in their ranges, as those of a command line
/// are. The focused search wants as many cubes as are to be open.
fn strategy_asked(
    choice: Choice,
    budget: u32,
    wanted: u32,
    simplify: Option<bool>,
    any_model: bool,
) -> Option<Strategy> {
    if budget < 1 || budget > greatest_budget(choice) || wanted > MAX_DIVIDE {
        return None;
    }
    Some(strategy_of(
        choice,
        budget,
        SPREAD_BUDGET,
        Some(wanted),
        simplify,
        any_model,
    ))
}

/// `divide`, counted on a board; then no more progress is shown.
fn divide_counted<R: Files + Wait + Clock>(
    rt: &R,
    alloc: Global,
    board: &Board,
    into: &str,
    formula: &str,
    strategy: Strategy,
    limits: Limits,
    wanted: usize,
    open: &OpenCount,
    said: &mut Vec<u8>,
) -> Result<Progress, Said> {
    let watch = Watch { rt, alloc, board };
    let folder = Folder { path: into };
    let progress = divide(
        rt, alloc, folder, formula, strategy, limits, wanted, open, &watch, said,
    );
    board.end_progress(rt);
    progress
}

/// Shows how far a run is that is made, and how many of the wanted cubes are open.
fn show_open<R: Wait + Clock, E: Write>(
    rt: &R,
    board: &Board,
    open: &OpenCount,
    wanted: usize,
    faults: &mut E,
) {
    let mut lines = OpenLines {
        lines: faults,
        open,
        wanted,
    };
    show_progress(rt, board, &mut lines, Manner::Listed);
}

/// `divide`, with its progress shown by a thread beside it. What it says is printed behind that.
fn divide_beside<R: Files + Threads + Wait + Clock + Sync, E: Write + Send>(
    rt: &R,
    alloc: Global,
    board: &Board,
    into: &str,
    formula: &str,
    strategy: Strategy,
    limits: Limits,
    wanted: usize,
    open: &OpenCount,
    faults: &mut E,
) -> Result<Progress, Said> {
    let mut said = Vec::new(alloc);
    let (_, progress) = thread::join_mut(
        rt,
        &mut || show_open(rt, board, open, wanted, faults),
        &mut || {
            divide_counted(
                rt, alloc, board, into, formula, strategy, limits, wanted, open, &mut said,
            )
        },
    );
    let _ = faults.write_all(&said);
    progress
}

/// Makes a run; the status.
fn begin<R: Files + Threads + Wait + Clock + Sync, W: Write, E: Write + Send>(
    rt: &R,
    alloc: Global,
    into: &str,
    formula: &str,
    strategy: Option<Strategy>,
    limits: Limits,
    wanted: u32,
    shows: bool,
    answer: &mut W,
    faults: &mut E,
) -> u8 {
    let Some(strategy) = strategy else {
        return FAILED;
    };
    let wanted = wanted as usize;
    let open = OpenCount::new();
    let progress = if shows {
        let board = Board::new(rt, Stage::Cubes);
        divide_beside(
            rt, alloc, &board, into, formula, strategy, limits, wanted, &open, faults,
        )
    } else {
        let folder = Folder { path: into };
        divide(
            rt, alloc, folder, formula, strategy, limits, wanted, &open, &OpenGate, faults,
        )
    };
    print_progress(answer, faults, into, progress)
}

/// `conquer`, counted on a board; then no more progress is shown.
fn conquer_counted<R: Files + Clock + Threads + Wait + Sync + Alloc + Clone + Drop>(
    rt: &R,
    alloc: Global,
    board: &Board,
    run: &str,
    round: u32,
    slice: Slice,
    minutes: Option<u32>,
    hands: HandCount,
    said: &mut Vec<u8>,
) -> Result<Ended, Said>
where
    R::File: Send,
    R::Dir: Send,
    R::A: Send,
{
    let watch = Watch { rt, alloc, board };
    let folder = Folder { path: run };
    let ended = conquer(
        rt, alloc, folder, round, slice, minutes, hands, &watch, said,
    );
    board.end_progress(rt);
    ended
}

/// `conquer`, with its progress shown by a thread beside it. What it says is printed behind that.
fn conquer_beside<R: Files + Clock + Threads + Wait + Sync + Alloc + Clone + Drop, E: Write + Send>(
    rt: &R,
    alloc: Global,
    board: &Board,
    run: &str,
    round: u32,
    slice: Slice,
    minutes: Option<u32>,
    hands: HandCount,
    faults: &mut E,
) -> Result<Ended, Said>
where
    R::File: Send,
    R::Dir: Send,
    R::A: Send,
{
    let mut said = Vec::new(alloc);
    let (_, ended) = thread::join_mut(
        rt,
        &mut || show_progress(rt, board, faults, Manner::Listed),
        &mut || {
            conquer_counted(
                rt, alloc, board, run, round, slice, minutes, hands, &mut said,
            )
        },
    );
    let _ = faults.write_all(&said);
    ended
}

/// Solves a part of a round; the status.
fn conquer_part<R: Files + Clock + Threads + Wait + Sync + Alloc + Clone + Drop, E: Write + Send>(
    rt: &R,
    alloc: Global,
    run: &str,
    round: u32,
    part: Option<Part>,
    minutes: Option<u32>,
    hands: u32,
    shows: bool,
    faults: &mut E,
) -> u8
where
    R::File: Send,
    R::Dir: Send,
    R::A: Send,
{
    let (Some(part), Some(hands)) = (part, HandCount::new(hands as usize)) else {
        return FAILED; // it is refused before
    };
    let Some(slice) = Slice::new(part.number, part.parts) else {
        return FAILED; // it is refused before
    };
    let ended = if shows {
        let board = Board::new(rt, Stage::Cubes);
        conquer_beside(rt, alloc, &board, run, round, slice, minutes, hands, faults)
    } else {
        let folder = Folder { path: run };
        conquer(
            rt, alloc, folder, round, slice, minutes, hands, &OpenGate, faults,
        )
    };
    status_of(ended)
}

/// Does what is asked for of a run that is spread over machines; the status.
pub(crate) fn work_on<
    R: Files + Clock + Threads + Wait + Sync + Alloc + Clone + Drop,
    W: Write,
    E: Write + Send,
    L: Locks<R::File>,
>(rt: &R, alloc: Global, asked: Spread<'_>, answer: &mut W, faults: &mut E, locks: &L) -> u8
where
    R::File: Send,
    R::Dir: Send,
    R::A: Send,
{
    match asked {
        Spread::Begin {
            into,
            formula,
            choice,
            budget,
            simplify,
            any_model,
            limits,
            wanted,
            progress,
        } => {
            let strategy = strategy_asked(choice, budget, wanted, simplify, any_model);
            begin(
                rt, alloc, into, formula, strategy, limits, wanted, progress, answer, faults,
            )
        }
        Spread::Next { into } => {
            let progress = divide_again(rt, alloc, Folder { path: into }, faults);
            print_progress(answer, faults, into, progress)
        }
        Spread::Conquer {
            run,
            round,
            part,
            minutes,
            hands,
            progress,
        } => conquer_part(
            rt, alloc, run, round, part, minutes, hands, progress, faults,
        ),
        Spread::Gather {
            run,
            proof,
            hands,
            solves,
            stats,
            progress,
        } => {
            let Some(hands) = HandCount::new(hands as usize) else {
                return FAILED; // it is refused before
            };
            let folder = Folder { path: run };
            gather(
                rt, alloc, folder, proof, hands, solves, stats, progress, answer, faults, locks,
            )
        }
        Spread::Status { run } => print_standing(rt, alloc, Folder { path: run }, answer, faults),
    }
}

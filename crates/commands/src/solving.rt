//! `solve`: its files, and what is printed of the run.
ghost use Rattle.std.specs.Prelude.{◌≡◌, IsSome, None, option_map};
ghost use Rattle.std.specs.Thread.{IsSync};
ghost use Rattle.cnf.specs.Limits.{limits_of};
ghost use Rattle.strategies.specs.Strategies.{search_by};
ghost use Rattle.runs.specs.Limited.{LimitedSays};
ghost use Rattle.commands.specs.Status.{solve_status, IsSolveStatus};
ghost use Rattle.commands.specs.Ends.{SolveEnds};

use crate::fault_lines::{
    FAILED, Screen, print_fault_by, print_in_use, print_no_memory, print_not_created,
    print_not_opened, print_part_not_created,
};
use crate::formula_text::formula_text;
use crate::input::{open_input, shown_name};
use crate::notes::{note_files, note_number, note_solve};
use crate::placed_proof::{NotBegun, begin_proof};
use crate::watched::run_counted;
use crate::worded::{Known, Opened};
use cnf::Limits;
use command_line::{Effort, FormulaFile, Shown};
use cubes::OpenGate;
use files::{Locks, NoticedReader, NoticedWriter};
use messages::{Command, say_repeats, say_same_file, say_unproved};
use runs::{Options, RunEnd, RunFault, TimeLimit, Verdict, answer_with};
use statistics::{Board, Manner, print_statistics, show_progress};
use std::alloc::Global;
use std::fs::Files;
use std::io::{Read, Write};
use std::sync::Wait;
use std::thread;
use std::thread::Threads;
use std::time::Clock;
use strategies::Unobserved;

/// The status of a satisfiable formula.
pub const SATISFIABLE: u8 = 10;

/// The status of an unsatisfiable formula.
pub const UNSATISFIABLE: u8 = 20;

/// The status of a formula that isn't decided within the limit of time, and of a session without an
/// answer.
pub(crate) const UNKNOWN: u8 = 0;

/// What stands for the proof's path where no proof is asked for.
const NO_PATH: &str = "not written";

/// Prints that the proof would be written over the formula; the status.
fn print_same_file<E: Write>(faults: &mut E, file: &str, proof: &str, is_explained: bool) -> u8
    ensures { result ≡ 1 }
{
    let _ = writeln!(
        faults,
        "fault 57: the proof would be written over the formula"
    );
    say_same_file(faults, shown_name(file));
    if is_explained {
        note_number(faults, 57);
        note_files(faults, 57, file, proof);
    }
    FAILED
}

/// A run that is counted, with its progress shown by a thread beside it. Where that can't be
/// started, nothing is shown.
fn run_beside<
    R: Files + Threads + Wait + Clock + Sync,
    I: Read + Drop,
    W: Write,
    P: Write + Drop,
    E: Write + Send,
>(
    rt: &R,
    alloc: Global,
    board: &Board,
    effort: Effort,
    mut input: I,
    answer: &mut W,
    mut proof: Option<P>,
    faults: &mut E,
    manner: Manner,
) -> Result<RunEnd, RunFault>
    ensures { LimitedSays (limits_of effort.limits) (IsSome effort.seconds) (I.remaining input) effort.strategy (option_map P.contents proof) (W.contents answer.old) (W.contents answer.new) result }
{
    let (_, result) = thread::join_mut(
        rt,
        &mut || show_progress(rt, board, faults, manner),
        &mut || -> Result<RunEnd, RunFault>
            requires { IsSync R.row }
            ensures { LimitedSays (limits_of effort.limits) (IsSome effort.seconds) (I.remaining input.entry) effort.strategy (option_map P.contents proof.entry) (W.contents answer.entry.now) (W.contents answer.exit.now) result }
        { run_counted(rt, alloc, board, effort, &mut input, answer, proof.take()) },
    );
    result
}

/// Says that lrat-check takes no proof of this formula, where one was written and that is known.
fn print_repeats<E: Write>(
    faults: &mut E,
    file: FormulaFile<'_>,
    limits: Limits,
    is_refuted: bool,
    has_repeats: bool,
) {
    if is_refuted && has_repeats {
        say_repeats(faults, shown_name(file.path), file.is_lenient, limits);
    }
}

/// A run that is counted, with its progress in this manner. It says whether lrat-check may refuse the proof.
fn run_shown<
    R: Files + Threads + Wait + Clock + Sync,
    I: Read + Drop,
    W: Write,
    P: Write + Drop,
    E: Write + Send,
>(
    rt: &R,
    alloc: Global,
    effort: Effort,
    input: I,
    answer: &mut W,
    proof: Option<P>,
    file: FormulaFile<'_>,
    stats: bool,
    faults: &mut E,
    manner: Option<Manner>,
) -> Result<RunEnd, RunFault>
    ensures { LimitedSays (limits_of effort.limits) (IsSome effort.seconds) (I.remaining input) effort.strategy (option_map P.contents proof) (W.contents answer.old) (W.contents answer.new) result }
{
    let (limits, hands) = (effort.limits, effort.hands.get());
    let board = Board::of_strategy(rt, effort.strategy, hands, proof.is_some());
    let result = match manner {
        Some(manner) => run_beside(
            rt, alloc, &board, effort, input, answer, proof, faults, manner,
        ),
        None => run_counted(rt, alloc, &board, effort, input, answer, proof),
    };
    let figures = board.look(rt);
    if stats {
        print_statistics(faults, &figures, hands);
    }
    let is_refuted = matches!(result, Ok(RunEnd::Decided(Verdict::Unsatisfiable)));
    print_repeats(faults, file, limits, is_refuted, figures.has_repeats);
    result
}

/// A run without a proof, of which nothing is shown.
fn run_plain<R: Files + Threads + Wait + Clock + Sync, I: Read + Drop, W: Write>(
    rt: &R,
    alloc: Global,
    effort: Effort,
    input: I,
    answer: &mut W,
) -> Result<RunEnd, RunFault>
    ensures { LimitedSays (limits_of effort.limits) (IsSome effort.seconds) (I.remaining input) effort.strategy None (W.contents answer.old) (W.contents answer.new) result }
{
    let options = Options {
        limits: effort.limits,
        strategy: effort.strategy,
        hands: effort.hands,
        gate: &OpenGate,
        limit: &TimeLimit::begin(rt, effort.seconds),
        observer: &Unobserved,
    };
    answer_with(rt, alloc, input, &options, answer)
}

/// A run with what is to be shown of it. Its proof goes to this writer; without one, none is made.
fn run_opened<
    R: Files + Threads + Wait + Clock + Sync,
    I: Read + Drop,
    W: Write,
    P: Write + Drop,
    E: Write + Send,
>(
    rt: &R,
    alloc: Global,
    effort: Effort,
    input: I,
    answer: &mut W,
    proof: Option<P>,
    file: FormulaFile<'_>,
    shown: Shown,
    faults: &mut E,
    screen: Screen,
) -> Result<RunEnd, RunFault>
    ensures { LimitedSays (limits_of effort.limits) (IsSome effort.seconds) (I.remaining input) effort.strategy (option_map P.contents proof) (W.contents answer.old) (W.contents answer.new) result }
{
    let manner = if shown.progress {
        Some(screen.manner())
    } else {
        None
    };
    let stats = shown.stats;
    match proof {
        None if !stats && manner.is_none() => run_plain(rt, alloc, effort, input, answer),
        proof => run_shown(
            rt, alloc, effort, input, answer, proof, file, stats, faults, manner,
        ),
    }
}

/// The proof's writer, if there is to be one, as it is looked at.
fn noticed_proof<P: Write>(proof: Option<Opened<'_, P>>) -> Option<NoticedWriter<P>>
    ensures { option_map ⟦<NoticedWriter<P> as Write>⟧.contents result ≡ option_map (λ o. P.contents o.file) proof.entry }
{
    match proof {
        Some(proof) => Some(NoticedWriter::of(proof.file)),
        None => None,
    }
}

/// Says the answer where the proof alone couldn't be written. Its writer is to write something only
/// once the formula is refuted.
fn print_unproved<E: Write>(faults: &mut E, fault: RunFault, known: &Known<'_>, is_begun: bool) {
    if is_begun && matches!(fault, RunFault::ProofWriteFailed) {
        say_unproved(faults, known.proof_error);
    }
}

/// The status of what a run answered, of which it says what happened if it came to no verdict.
/// `is_begun` tells whether anything of a proof was to be written.
fn end_solve<R: Files, E: Write>(
    rt: &R,
    faults: &mut E,
    answered: Result<RunEnd, RunFault>,
    known: &Known<'_>,
    is_begun: bool,
    is_explained: bool,
) -> u8
    ensures { result ≡ solve_status answered }
{
    match answered {
        Ok(RunEnd::Decided(Verdict::Satisfiable) | RunEnd::NotFirst) => SATISFIABLE,
        Ok(RunEnd::Decided(Verdict::Unsatisfiable)) => UNSATISFIABLE,
        Ok(RunEnd::Unknown) => UNKNOWN,
        Err(fault) => {
            let status = print_fault_by(rt, faults, fault, known, Command::Solve, is_explained);
            print_unproved(faults, fault, known, is_begun);
            status
        }
    }
}

/// Decides the formula that is open, with its proof written to what is open, if there is to be one,
/// and says what happened if it comes to no verdict; the status.
fn solve_opened<
    R: Files + Threads + Wait + Clock + Sync,
    I: Read + Drop,
    P: Write + Drop,
    W: Write,
    E: Write + Send,
>(
    rt: &R,
    alloc: Global,
    effort: Effort,
    formula: Opened<'_, I>,
    is_lenient: bool,
    proof: Option<Opened<'_, P>>,
    shown: Shown,
    answer: &mut NoticedWriter<W>,
    faults: &mut E,
    screen: Screen,
) -> u8
    ensures status { IsSolveStatus (limits_of effort.limits) (IsSome effort.seconds) (search_by effort.strategy) (I.remaining formula.entry.file) (⟦<NoticedWriter<W> as Write>⟧.contents answer.old) (⟦<NoticedWriter<W> as Write>⟧.contents answer.new) result }
    ensures says { SolveEnds (limits_of effort.limits) (IsSome effort.seconds) (I.remaining formula.entry.file) effort.strategy (option_map (λ o. P.contents o.file) proof.entry) (⟦<NoticedWriter<W> as Write>⟧.contents answer.old) (⟦<NoticedWriter<W> as Write>⟧.contents answer.new) result }
{
    let limits = effort.limits;
    let path = match &proof {
        Some(proof) => proof.path,
        None => NO_PATH,
    };
    let file = FormulaFile {
        path: formula.path,
        is_lenient,
    };
    let added_lines = formula.added_lines;
    let mut input = NoticedReader::of(formula.file);
    let mut output = noticed_proof(proof);
    let answered = run_opened(
        rt,
        alloc,
        effort,
        &mut input,
        answer,
        output.as_mut(),
        file,
        shown,
        faults,
        screen,
    );
    let known = Known {
        formula: formula.path,
        proof: path,
        added_lines,
        beginning: input.beginning(),
        formula_error: input.error(),
        proof_error: output.as_ref().and_then(|output| output.error()),
        answer_error: answer.error(),
        limits,
    };
    let is_begun = output.as_ref().is_some_and(|output| output.is_begun());
    end_solve(rt, faults, answered, &known, is_begun, shown.verbose)
}

/// Prints why the proof's file isn't begun; the status.
pub fn print_not_begun<E: Write>(
    faults: &mut E,
    why: NotBegun,
    file: &str,
    path: &str,
    is_explained: bool,
) -> u8
    ensures { result ≡ 1 }
{
    match why {
        NotBegun::Formula => print_same_file(faults, file, path, is_explained),
        NotBegun::Answer => {
            let _ = writeln!(
                faults,
                "cubesat: the proof would be written over the answer, which goes to the same file"
            );
            FAILED
        }
        NotBegun::InUse(part) => print_in_use(faults, path, part.as_str(), is_explained),
        NotBegun::NoPart(part, error) => {
            print_part_not_created(faults, path, part.as_str(), error, is_explained)
        }
        NotBegun::NoFile(error) => print_not_created(faults, path, error, is_explained),
        NotBegun::NoMemory => print_no_memory(faults, file, is_explained),
    }
}

/// Decides the formula in the file, or in the standard input, with its proof written to the other,
/// if there is to be one; the status. The proof isn't written over the formula, and no other run
/// writes it, as far as these locks tell.
pub fn solve<
    R: Files + Threads + Wait + Clock + Sync,
    I: Read + Drop,
    W: Write,
    E: Write + Send,
    L: Locks<R::File>,
>(
    rt: &R,
    alloc: Global,
    effort: Effort,
    proof: Option<&str>,
    formula: FormulaFile<'_>,
    standard: I,
    shown: Shown,
    answer: &mut W,
    faults: &mut E,
    screen: Screen,
    locks: &L,
) -> u8 {
    let (file, is_lenient) = (formula.path, formula.is_lenient);
    if shown.verbose {
        note_solve(faults, &effort, file, proof);
    }
    let input = match open_input(rt, file, &mut Some(standard)) {
        Ok(input) => input,
        Err(error) => return print_not_opened(faults, file, error, shown.verbose),
    };
    let proof = match proof {
        Some(path) => match begin_proof(rt, alloc, path, &input, locks) {
            Ok(placed) => Some(Opened {
                path,
                file: placed,
                added_lines: 0,
            }),
            Err(why) => return print_not_begun(faults, why, file, path, shown.verbose),
        },
        None => None,
    };
    let (limits, command) = (effort.limits, Command::Solve);
    let text = match formula_text(
        rt,
        alloc,
        formula,
        input,
        limits,
        command,
        shown.verbose,
        faults,
    ) {
        Ok(text) => text,
        Err(status) => return status,
    };
    let formula = Opened {
        path: file,
        added_lines: text.added_lines(),
        file: text,
    };
    let mut answer = NoticedWriter::of(answer);
    let answer = &mut answer;
    solve_opened(
        rt, alloc, effort, formula, is_lenient, proof, shown, answer, faults, screen,
    )
}

//! The program: a command line, and what is done for it.

use crate::implied::with_command;
use crate::other_options::option_elsewhere;
use crate::spreading::work_on;
use crate::wrapped::write_wrapped;
use clap::Error;
use clap::error::ErrorKind;
use cnf::Limits;
use command_line::{Request, request_of};
use commands::{
    CheckRules, FAILED, Locks, NoLocks, Screen, check, check_drat_file, explanation, list_models,
    print_fault, session, solve, tidy,
};
use lrat::Variables;
use messages::{say_no_memory, say_not_printed};
use runs::RunFault;
use std::alloc::Global;
use std::fs::Files;
use std::io;
use std::io::{Read, Write};
use std::sync::Wait;
use std::thread::Threads;
use std::time::Clock;

/// The status of a request for help, for the version or for an explanation.
const SHOWN: u8 = 0;

/// Prints that what goes to standard output wasn't written; the status.
fn print_not_written<E: Write>(faults: &mut E, error: io::Error) -> u8 {
    say_not_printed(faults, error);
    FAILED
}

/// Prints the explanation of a number; the status.
fn print_explanation<W: Write, E: Write>(number: u32, answer: &mut W, faults: &mut E) -> u8 {
    let Some(text) = explanation(number) else {
        let _ = writeln!(
            faults,
            "cubesat: no fault or refusal has the number {number}"
        );
        return FAILED;
    };
    match writeln!(answer, "{number}: {text}") {
        Ok(()) => SHOWN,
        Err(error) => print_not_written(faults, error),
    }
}

/// Says what a number means, and the one behind it; the status.
fn explain<W: Write, E: Write>(
    number: u32,
    behind: Option<u32>,
    answer: &mut W,
    faults: &mut E,
) -> u8 {
    let status = print_explanation(number, answer, faults);
    match behind {
        Some(behind) => status.max(print_explanation(behind, answer, faults)),
        None => status,
    }
}

/// Prints that memory didn't suffice for the command line; the status.
fn print_no_words<E: Write>(faults: &mut E) -> u8 {
    print_fault(faults, RunFault::NoMemory);
    say_no_memory(faults, "the command line");
    FAILED
}

/// Prints what is wrong with these words, by the parser's message, or by what there is in the place of
/// an option of another solver; the status.
fn print_wrong<E: Write>(error: &Error, words: &[&str], faults: &mut E) -> u8 {
    let elsewhere = match error.kind() {
        ErrorKind::UnknownArgument => option_elsewhere(words),
        _ => None,
    };
    let _ = match elsewhere {
        Some((option, hint)) => writeln!(
            faults,
            "error: unexpected argument '{option}' found: {hint}\n\nFor more information, try '--help'."
        ),
        None => write!(faults, "{error}"),
    };
    FAILED
}

/// Prints help or the version; the status.
fn print_help<W: Write, E: Write>(
    alloc: Global,
    error: &Error,
    answer: &mut W,
    faults: &mut E,
) -> u8 {
    let Ok(text) = format!(in alloc; "{error}") else {
        return print_no_words(faults);
    };
    match write_wrapped(answer, text.as_str()) {
        Ok(()) => SHOWN,
        Err(error) => print_not_written(faults, error),
    }
}

/// Prints what the parser answered of these words in place of a request, help or the version or what
/// is wrong; the status.
fn print_unparsed<W: Write, E: Write>(
    alloc: Global,
    error: Error,
    words: &[&str],
    answer: &mut W,
    faults: &mut E,
) -> u8 {
    if error.kind() == ErrorKind::OutOfMemory {
        print_no_words(faults)
    } else if error.use_stderr() {
        print_wrong(&error, words, faults)
    } else {
        print_help(alloc, &error, answer, faults)
    }
}

/// By which rules a proof is checked.
fn rules_of(limits: Limits, is_extended: bool) -> CheckRules {
    let variables = if is_extended {
        Variables::Extended
    } else {
        Variables::OfFormula
    };
    CheckRules { limits, variables }
}

/// Does what is asked for; the status.
fn serve<
    R: Files + Threads + Wait + Clock + Sync,
    I: Read + Drop,
    W: Write,
    E: Write + Send,
    L: Locks<R::File>,
>(rt: &R, alloc: Global, request: Request<'_>, console: &mut Console<I, W, E>, locks: &L) -> u8 {
    let (input, screen) = (&mut console.input, console.screen);
    let (answer, faults) = (&mut console.answer, &mut console.faults);
    match request {
        Request::Solve {
            asked,
            proof,
            formula,
            shown,
        } => {
            let effort = asked.effort();
            solve(
                rt, alloc, effort, proof, formula, input, shown, answer, faults, screen, locks,
            )
        }
        Request::Check {
            formula,
            proof,
            limits,
            is_extended,
            distinct_status,
            shown,
        } => {
            let rules = rules_of(limits, is_extended);
            let end = check(
                rt, alloc, formula, proof, rules, input, shown, answer, faults, screen,
            );
            end.status(distinct_status)
        }
        Request::CheckDrat {
            formula,
            proof,
            limits,
            is_extended,
            distinct_status,
            shown,
        } => {
            let rules = rules_of(limits, is_extended);
            let verbose = shown.verbose;
            let end = check_drat_file(
                rt, alloc, formula, proof, rules, input, verbose, answer, faults, locks,
            );
            end.status(distinct_status)
        }
        Request::Tidy { formula, limits } => {
            tidy(rt, alloc, formula, limits, input, answer, faults)
        }
        Request::Session { file, shows_models } => {
            session(rt, alloc, file, shows_models, input, answer, faults)
        }
        Request::Models(asked) => list_models(rt, alloc, asked, input, answer, faults),
        Request::Explain { number, behind } => explain(number, behind, answer, faults),
        Request::Spread(_) => {
            let _ = writeln!(
                faults,
                "cubesat: this call doesn't list folders, which a run needs"
            );
            FAILED
        }
    }
}

/// What a command line reads and prints beside its files.
#[derive(Drop)]
pub struct Console<I, W, E> {
    /// It is read where the line has `-` for a file.
    pub input: I,
    pub answer: W,
    /// Where faults are printed, and what is shown of a run.
    pub faults: E,
    /// Where `faults` leads.
    pub screen: Screen,
}

/// Does all that the program does for a command line, of which the first word is the program's
/// name: reads and writes its files, reads and prints at the console, and answers the exit
/// status: 10 satisfiable, 20 unsatisfiable, 0 for a formula that isn't decided in time, or that is
/// written, for a proof that is accepted, for help and for an explanation, 1 for a proof that is
/// refused, on a fault or a wrong command line. Words without a command are those of `solve`. A failed
/// write to `faults` changes nothing else. Of two runs for one proof the later is refused.
pub fn command_with_input<
    R: Files + Threads + Wait + Clock + Sync,
    I: Read + Drop,
    W: Write,
    E: Write + Send,
>(rt: &R, alloc: Global, words: &[&str], console: &mut Console<I, W, E>) -> u8 {
    let Ok(words) = with_command(rt, alloc, words) else {
        return print_no_words(&mut console.faults);
    };
    match request_of(alloc, &words) {
        Ok(request) => serve(rt, alloc, request, console, &NoLocks),
        Err(error) => print_unparsed(
            alloc,
            error,
            &words,
            &mut console.answer,
            &mut console.faults,
        ),
    }
}

/// What `command_with_input` does, on a system whose folders can be listed: so it also makes runs
/// that are spread over machines (`divide`), solves their cubes (`conquer`), gathers their results
/// (`gather`) and says how far they are (`status`). A proof's part is locked by `locks`: of two
/// runs for one proof at once the later is refused. `divide` prints how many cubes are open, with
/// status 0, or the answer, with that of `solve`; the status of `conquer` is 0, or 75 where its
/// time is over; that of `gather` is that of `solve`, 0 also where cubes are missing; that of
/// `status` is that of `divide`.
pub fn command_in_folders<
    R: Files + Threads + Wait + Clock + Sync + Alloc + Clone + Drop,
    I: Read + Drop,
    W: Write,
    E: Write + Send,
    L: Locks<R::File>,
>(rt: &R, alloc: Global, words: &[&str], console: &mut Console<I, W, E>, locks: &L) -> u8
where
    R::File: Send,
    R::Dir: Send,
    R::A: Send,
{
    let Ok(words) = with_command(rt, alloc, words) else {
        return print_no_words(&mut console.faults);
    };
    match request_of(alloc, &words) {
        Ok(Request::Spread(asked)) => {
            let (answer, faults) = (&mut console.answer, &mut console.faults);
            work_on(rt, alloc, asked, answer, faults, locks)
        }
        Ok(request) => serve(rt, alloc, request, console, locks),
        Err(error) => print_unparsed(
            alloc,
            error,
            &words,
            &mut console.answer,
            &mut console.faults,
        ),
    }
}

/// What `command_with_input` does where nothing is to be read of the standard input.
pub fn command_on<R: Files + Threads + Wait + Clock + Sync, W: Write, E: Write + Send>(
    rt: &R,
    alloc: Global,
    words: &[&str],
    answer: &mut W,
    faults: &mut E,
    screen: Screen,
) -> u8 {
    let mut console = Console {
        input: io::empty(),
        answer,
        faults,
        screen,
    };
    command_with_input(rt, alloc, words, &mut console)
}

/// What `command_on` does where `faults` leads to no terminal.
pub fn command<R: Files + Threads + Wait + Clock + Sync, W: Write, E: Write + Send>(
    rt: &R,
    alloc: Global,
    words: &[&str],
    answer: &mut W,
    faults: &mut E,
) -> u8 {
    command_on(rt, alloc, words, answer, faults, Screen::Stream)
}

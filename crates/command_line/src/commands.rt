//! The commands, as rows of their options and words.

use crate::options::{
    ANY_MODEL, BINARY, CHECK_LARGE, CHECK_PROGRESS, CHECK_STATS, CHECKED_FORMULA, CHECKED_PROOF,
    CONQUER_HANDS, COUNT, CUBE_PROGRESS, DISTINCT_STATUS, DIVIDE, DIVIDE_BUDGET, DIVIDED_FORMULA,
    DRAT, EXTENDED, FORMULA_FILE, GATHER_HANDS, GATHER_PROGRESS, GATHER_PROOF, GATHER_STATS, HANDS,
    INTO, KEPT_LRAT, LARGE, LENIENT, LIMIT, MINUTES, MODEL, NUMBER, PART, PLACED_PROOF, PROJECT,
    PROOF, QUESTIONS, REFUSAL, ROUND, RUN, SEARCH, SECONDS, SIMPLIFY, SOLVE_BUDGET, SOLVE_PROGRESS,
    SOLVE_STATS, SOLVES, VERBOSE, WANTED,
};
use crate::row::{Row, arg_of};
use clap::Command;
use std::alloc::{AllocError, Global};

/// The version, and the logic in which the program is proved. Several kits have one logic; README
/// names the one that proved this version last.
const VERSION: &str = "0.5.0 (logic dac8208d650f15bf)";

const EXAMPLES: &str = "Examples:
  cubesat f.cnf                       the same as `cubesat solve f.cnf`
  cubesat solve --proof f.lrat f.cnf  decide f.cnf, with its first model
  cubesat solve --any-model f.cnf     sooner, with one of its models
  cubesat solve --hands 4 f.cnf       the same bytes, by four threads
  cubesat solve --stats f.cnf         and what it took
  xz -dc f.cnf.xz | cubesat solve -   standard input
  cubesat check f.cnf f.lrat          check the proof
  cubesat tidy f.cnf                  write the formula without what repeats
  cubesat session < questions         answer questions of a growing formula
  cubesat models f.cnf                all models of f.cnf
  cubesat divide --into RUN f.cnf     begin a run on many machines
  cubesat explain 51 5                what `fault 51: refusal 5` means";

/// A command, what it is for, and its arguments in the order of its help.
#[derive(Clone, Copy)]
struct CommandRow {
    name: &'static str,
    about: &'static str,
    args: &'static [Row],
}

// Two tables, since a proof that sees one of all commands comes to a limit.

/// The commands of one machine.
static OWN: [CommandRow; 5] = [
    CommandRow {
        name: "solve",
        about: "Decide a formula: status 10 satisfiable, 20 unsatisfiable, 0 unknown, 1 on a fault",
        args: &[
            SEARCH,
            SOLVE_BUDGET,
            DIVIDE,
            SIMPLIFY,
            ANY_MODEL,
            HANDS,
            SECONDS,
            PROOF,
            LENIENT,
            LARGE,
            SOLVE_STATS,
            SOLVE_PROGRESS,
            VERBOSE,
            FORMULA_FILE,
            PLACED_PROOF,
        ],
    },
    CommandRow {
        name: "check",
        about: "Check a proof: status 0 accepted, 1 refused or on a fault",
        args: &[
            DRAT,
            BINARY,
            KEPT_LRAT,
            EXTENDED,
            DISTINCT_STATUS,
            LENIENT,
            CHECK_LARGE,
            CHECK_STATS,
            CHECK_PROGRESS,
            VERBOSE,
            CHECKED_FORMULA,
            CHECKED_PROOF,
        ],
    },
    CommandRow {
        name: "tidy",
        about: "Write a formula again, each literal of a clause once, without clauses that have both signs of a variable",
        args: &[LENIENT, LARGE, FORMULA_FILE],
    },
    CommandRow {
        name: "session",
        about: "Answer questions of a growing formula, each as soon as it is read: `p inccnf`, clauses, and `a LITERALS 0` for a question under assumptions",
        args: &[MODEL, QUESTIONS],
    },
    CommandRow {
        name: "models",
        about: "Print all models of a formula: status 10, 20 where there is none",
        args: &[LIMIT, PROJECT, COUNT, LENIENT, LARGE, FORMULA_FILE],
    },
];

/// The commands of many machines, and `explain`.
static SPREAD: [CommandRow; 5] = [
    CommandRow {
        name: "divide",
        about: "Begin a run on many machines, or its next round, and print how many cubes are open",
        args: &[
            INTO,
            SEARCH,
            DIVIDE_BUDGET,
            WANTED,
            SIMPLIFY,
            ANY_MODEL,
            LARGE,
            CUBE_PROGRESS,
            DIVIDED_FORMULA,
        ],
    },
    CommandRow {
        name: "conquer",
        about: "Solve a part of a round's cubes: status 0, or 75 where the time is over",
        args: &[ROUND, PART, MINUTES, CONQUER_HANDS, CUBE_PROGRESS, RUN],
    },
    CommandRow {
        name: "gather",
        about: "Check what a run has found, and write proof and answer: `s UNKNOWN`, status 0, where cubes are missing",
        args: &[
            GATHER_PROOF,
            GATHER_HANDS,
            SOLVES,
            GATHER_STATS,
            GATHER_PROGRESS,
            RUN,
        ],
    },
    CommandRow {
        name: "status",
        about: "Say how far a run is",
        args: &[RUN],
    },
    CommandRow {
        name: "explain",
        about: "Say what a number means that `solve` or `check` printed, and what to change",
        args: &[NUMBER, REFUSAL],
    },
];

// Behind calls the tables are no part of the proofs of those that go over them.
fn own() -> &'static [CommandRow] {
    &OWN
}

fn spread() -> &'static [CommandRow] {
    &SPREAD
}

fn is_among(commands: &[CommandRow], word: &str) -> bool {
    commands.iter().any(|command| command.name == word)
}

/// Whether a word is a command's name, or the parser's own command.
pub fn is_command(word: &str) -> bool {
    word == "help" || is_among(own(), word) || is_among(spread(), word)
}

fn with_args<'a>(
    alloc: Global,
    mut command: Command<'a>,
    rows: &[Row],
) -> Result<Command<'a>, AllocError> {
    for row in rows {
        command = command.arg(arg_of(alloc, row)?)?;
    }
    Ok(command)
}

fn command_of<'a>(alloc: Global, row: &CommandRow) -> Result<Command<'a>, AllocError> {
    let command = Command::new(alloc, row.name).about(row.about);
    with_args(alloc, command, row.args)
}

fn with_commands<'a>(
    alloc: Global,
    mut command: Command<'a>,
    rows: &[CommandRow],
) -> Result<Command<'a>, AllocError> {
    for row in rows {
        command = command.subcommand(command_of(alloc, row)?)?;
    }
    Ok(command)
}

/// The program's command, with all that it takes.
pub(crate) fn whole_command<'a>(alloc: Global) -> Result<Command<'a>, AllocError> {
    let command = Command::new(alloc, "cubesat")
        .bin_name("cubesat")?
        .about("A SAT solver with LRAT proofs")
        .version(VERSION)
        .after_help(EXAMPLES)
        .subcommand_required(true);
    let command = with_commands(alloc, command, own())?;
    with_commands(alloc, command, spread())
}

//! What the words of a command line ask for.

use crate::commands::whole_command;
use crate::effort::{Asked, Choice, FOCUSED_BUDGET, SPREAD_BUDGET, greatest_budget};
use crate::refusals::refusal_of;
use crate::request::{DratFile, FormulaFile, ModelsAsked, Request, Shown};
use crate::spread_arguments::{conquer_request, divide_request, gather_request, status_request};
use clap::error::ErrorKind;
use clap::{ArgMatches, Command, Error};
use cnf::Limits;
use cubes::HandCount;
use std::alloc::Global;

/// The budget of the ordered search, where none is asked for, also where it is tried first.
const ORDERED_BUDGET: u32 = 1000;

/// The most cubes that a formula may be divided into.
pub const MAX_DIVIDE: u32 = 65_536;

const BUDGET_TOO_GREAT: &str =
    "only the focused search has budgets above 100000; give --search focused too, or a smaller budget";

/// How the names of formulas end.
static FORMULA_ENDINGS: [&str; 4] = [".cnf", ".dimacs", ".cnf.gz", ".cnf.xz"];

const NOT_IN_DRAT: &str = "--binary and --lrat are for proofs in DRAT; give --drat too";

const PROOF_OVER_FORMULA: &str =
    "the second file is where the proof is written, and its name is that of a formula; give it by --proof if it is meant so";

/// Whether the formula is to be simplified, if that is said.
pub(crate) fn simplify_in(matches: &ArgMatches<'_>) -> Option<bool> {
    match matches.get_str("simplify")? {
        "yes" => Some(true),
        _ => Some(false),
    }
}

/// The choice of this name.
fn choice_named(name: &str) -> Option<Choice> {
    match name {
        "automatic" => Some(Choice::Automatic),
        "ordered" => Some(Choice::Ordered),
        "focused" => Some(Choice::Focused),
        _ => None,
    }
}

/// How a formula is to be decided, and the budget; where none is named that of the focused search is
/// `focused`. Where a budget is named and no search, it is the ordered search.
pub(crate) fn choice_in(matches: &ArgMatches<'_>, focused: u32) -> Option<(Choice, u32)> {
    let budget = matches.get_one::<u32>("budget");
    let choice = match matches.get_str("search") {
        Some(name) => choice_named(name)?,
        None if budget.is_some() => Choice::Ordered,
        None => Choice::Automatic,
    };
    Some((choice, budget.unwrap_or(default_budget(choice, focused))))
}

/// How large the formula and the proof may be.
pub(crate) fn limits_of(matches: &ArgMatches<'_>) -> Limits {
    if matches.get_flag("large") {
        Limits::Large
    } else {
        Limits::Standard
    }
}

/// The budget of the root where none is asked for, if that of the focused search is this one.
fn default_budget(choice: Choice, focused: u32) -> u32 {
    match choice {
        Choice::Automatic | Choice::Ordered => ORDERED_BUDGET,
        Choice::Focused => focused,
    }
}

/// What is to be shown of a run.
fn shown_of(matches: &ArgMatches<'_>) -> Shown {
    Shown {
        stats: matches.get_flag("stats"),
        progress: matches.get_flag("progress"),
        verbose: matches.get_flag("verbose"),
    }
}

/// How a formula is to be solved. The command has been built so that each value is there and in its
/// range; this is tested again, since no clause of the parser's says it of a subcommand.
fn asked_in(matches: &ArgMatches<'_>) -> Option<Asked> {
    let (choice, budget) = choice_in(matches, FOCUSED_BUDGET)?;
    let divide = match matches.get_one::<u32>("divide") {
        Some(cubes) if cubes > MAX_DIVIDE => return None,
        divide => divide,
    };
    let hands = HandCount::new(matches.get_one::<u32>("hands")? as usize)?.get();
    if budget < 1 || budget > greatest_budget(choice) {
        return None;
    }
    Some(Asked {
        choice,
        budget,
        divide,
        simplify: simplify_in(matches),
        any_model: matches.get_flag("any-model"),
        hands,
        seconds: matches.get_one::<u32>("seconds"),
        limits: limits_of(matches),
    })
}

/// The formula's file, which is this word.
fn formula_in<'a>(matches: &ArgMatches<'a>, name: &str) -> Option<FormulaFile<'a>> {
    Some(FormulaFile {
        path: matches.get_str(name)?,
        is_lenient: matches.get_flag("lenient"),
    })
}

fn solve_request<'a>(matches: &ArgMatches<'a>) -> Option<Request<'a>> {
    let asked = asked_in(matches)?;
    let formula = formula_in(matches, "FILE")?;
    Some(Request::Solve {
        asked,
        proof: matches.get_str("proof").or(matches.get_str("PROOF")),
        formula,
        shown: shown_of(matches),
    })
}

fn check_request<'a>(matches: &ArgMatches<'a>) -> Option<Request<'a>> {
    let formula = formula_in(matches, "FORMULA")?;
    let proof = matches.get_str("PROOF")?;
    let limits = limits_of(matches);
    let is_extended = matches.get_flag("extended");
    let distinct_status = matches.get_flag("distinct-status");
    let shown = shown_of(matches);
    if matches.get_flag("drat") {
        return Some(Request::CheckDrat {
            formula,
            proof: DratFile {
                path: proof,
                is_binary: matches.get_flag("binary"),
                kept: matches.get_str("lrat"),
            },
            limits,
            is_extended,
            distinct_status,
            shown,
        });
    }
    Some(Request::Check {
        formula,
        proof,
        limits,
        is_extended,
        distinct_status,
        shown,
    })
}

fn tidy_request<'a>(matches: &ArgMatches<'a>) -> Option<Request<'a>> {
    Some(Request::Tidy {
        formula: formula_in(matches, "FILE")?,
        limits: limits_of(matches),
    })
}

fn session_request<'a>(matches: &ArgMatches<'a>) -> Option<Request<'a>> {
    Some(Request::Session {
        file: matches.get_str("FILE")?,
        shows_models: matches.get_str("model")? == "yes",
    })
}

fn models_request<'a>(matches: &ArgMatches<'a>) -> Option<Request<'a>> {
    Some(Request::Models(ModelsAsked {
        formula: formula_in(matches, "FILE")?,
        limits: limits_of(matches),
        limit: matches.get_one::<u32>("limit"),
        projection: matches.get_str("project"),
        is_counted: matches.get_flag("count"),
    }))
}

fn explain_request<'a>(matches: &ArgMatches<'a>) -> Option<Request<'a>> {
    let number = matches.get_one::<u32>("NUMBER")?;
    let behind = matches.get_one::<u32>("REFUSAL");
    Some(Request::Explain { number, behind })
}

/// The request of what matched the words, if it is one.
fn request_in<'a>(matches: &ArgMatches<'a>) -> Option<Request<'a>> {
    let (name, matches) = matches.subcommand()?;
    match name {
        "check" => check_request(matches),
        "tidy" => tidy_request(matches),
        "session" => session_request(matches),
        "models" => models_request(matches),
        "explain" => explain_request(matches),
        "divide" => Some(Request::Spread(divide_request(matches)?)),
        "conquer" => Some(Request::Spread(conquer_request(matches)?)),
        "gather" => Some(Request::Spread(gather_request(matches)?)),
        "status" => Some(Request::Spread(status_request(matches)?)),
        _ => solve_request(matches),
    }
}

/// Whether what matched the words asks for a greater budget than its search has.
fn is_budget_too_great(matches: &ArgMatches<'_>) -> bool {
    let Some((name, matches)) = matches.subcommand() else {
        return false;
    };
    match name {
        "solve" | "divide" => match choice_in(matches, SPREAD_BUDGET) {
            Some((choice, budget)) => budget > greatest_budget(choice),
            None => false,
        },
        _ => false,
    }
}

/// Whether what matched the words has a proof behind the formula whose name is that of a formula: two
/// formulas were given, one of which the proof would replace.
fn is_proof_over_formula(matches: &ArgMatches<'_>) -> bool {
    let Some(("solve", matches)) = matches.subcommand() else {
        return false;
    };
    match matches.get_str("PROOF") {
        Some(path) => FORMULA_ENDINGS.iter().any(|ending| path.ends_with(*ending)),
        None => false,
    }
}

/// Whether what matched the words has an option for proofs in DRAT, and the proof is none.
fn is_not_in_drat(matches: &ArgMatches<'_>) -> bool {
    let Some(("check", matches)) = matches.subcommand() else {
        return false;
    };
    let is_for_drat = matches.get_flag("binary") || matches.get_str("lrat").is_some();
    is_for_drat && !matches.get_flag("drat")
}

/// The request that these words make of the command, or why they make none.
fn parsed<'a>(
    command: &mut Command<'a>,
    words: &'a [&'a str],
) -> Result<Result<Request<'a>, &'static str>, Error> {
    let matches = command.try_get_matches_from_mut(words)?;
    if is_budget_too_great(&matches) {
        return Ok(Err(BUDGET_TOO_GREAT));
    }
    if is_proof_over_formula(&matches) {
        return Ok(Err(PROOF_OVER_FORMULA));
    }
    if is_not_in_drat(&matches) {
        return Ok(Err(NOT_IN_DRAT));
    }
    Ok(request_in(&matches).ok_or("no request"))
}

/// What the words ask for by this command.
fn request_by<'a>(command: &mut Command<'a>, words: &'a [&'a str]) -> Result<Request<'a>, Error> {
    let request = match parsed(command, words)? {
        Ok(request) => request,
        Err(message) => return Err(command.error(ErrorKind::ArgumentConflict, message)?),
    };
    match refusal_of(&request) {
        Some(message) => Err(command.error(ErrorKind::ArgumentConflict, message)?),
        None => Ok(request),
    }
}

/// What the words ask for; the program's name is the first one. An error is the parser's, with its
/// message: a help or a version that was asked for, words that are no command line, or want of
/// memory.
pub fn request_of<'a>(alloc: Global, words: &'a [&'a str]) -> Result<Request<'a>, Error> {
    let mut command = whole_command(alloc)?;
    request_by(&mut command, words)
}

//! `models`: the models of a formula, in a file or in the standard input.
ghost use Rattle.std.specs.Prelude.{◌≡◌, ◌-◌, ◌^◌, IfOk, unwrap_or, is_some, if◌then◌else◌};
ghost use Rattle.commands.specs.ListedModels.{IsProjection, IsListed, count_status};

use crate::fault_lines::{FAILED, print_fault_by, print_not_opened};
use crate::formula_text::formula_text;
use crate::input::{open_input, shown_name};
use crate::projection::{ProjectionFault, all_variables, variables_in};
use crate::solving::{SATISFIABLE, UNKNOWN, UNSATISFIABLE};
use crate::worded::Known;
use cnf::{Formula, ReadFault, read_from_within};
use command_line::ModelsAsked;
use files::{NoticedReader, NoticedWriter};
use messages::Command;
use models::{Listing, ModelCount, ModelsFault, open_models, write_models};
use runs::RunFault;
use std::alloc::{AllocError, Global};
use std::fs::Files;
use std::io::{Read, Write};

/// What stands for the proof's path, where there is none.
const NO_PATH: &str = "none";

/// Why the models of a formula aren't all printed.
#[derive(Clone, Copy)]
enum Fault<'a> {
    Run(RunFault),
    /// This word of the projection names no variable of the formula, which has so many.
    Unprojected(&'a str, u32),
}

impl<'a> From<AllocError> for Fault<'a> {
    fn from(_error: AllocError) -> Fault<'a> {
        Fault::Run(RunFault::NoMemory)
    }
}

impl<'a> From<ModelsFault> for Fault<'a> {
    fn from(fault: ModelsFault) -> Fault<'a> {
        Fault::Run(match fault {
            ModelsFault::NoMemory => RunFault::NoMemory,
            ModelsFault::NotWritten => RunFault::AnswerWriteFailed,
        })
    }
}

/// The fault of a formula that wasn't read.
fn fault_of_read<'a>(fault: ReadFault) -> Fault<'a> {
    Fault::Run(match fault {
        ReadFault::NoMemory => RunFault::NoMemory,
        other => RunFault::Read(other),
    })
}

/// The variables in which the formula's models are to differ.
fn projection_in<'a>(
    alloc: Global,
    asked: &ModelsAsked<'a>,
    vars: u32,
) -> Result<Vec<u32>, Fault<'a>>
    ensures { IfOk result (λ v. IsProjection vars (is_some asked.now.projection) v.items) }
{
    let Some(words) = asked.projection else {
        let all = all_variables(alloc, vars)?;
        return Ok(all);
    };
    match variables_in(alloc, words, vars) {
        Ok(projection) => Ok(projection),
        Err(ProjectionFault::NoMemory) => Err(Fault::Run(RunFault::NoMemory)),
        Err(ProjectionFault::Unknown(word)) => Err(Fault::Unprojected(word, vars)),
    }
}

/// How many models are printed at most.
fn limit_of(limit: Option<u32>) -> u64
    ensures { result ≡ unwrap_or limit (2 ^ 64 - 1) }
{
    match limit {
        Some(limit) => u64::from(limit),
        None => u64::MAX,
    }
}

/// What is printed of the models.
fn listing_of(is_counted: bool) -> Listing
    ensures { result ≡ (if is_counted then Listing.Count else Listing.Models) }
{
    if is_counted {
        Listing::Count
    } else {
        Listing::Models
    }
}

/// Prints the models of a formula.
fn list_of<'a, W: Write>(
    alloc: Global,
    formula: &Formula,
    asked: &ModelsAsked<'a>,
    answer: &mut W,
) -> Result<ModelCount, Fault<'a>>
    ensures { IfOk result (IsListed formula.now (is_some asked.now.projection) (unwrap_or asked.now.limit (2 ^ 64 - 1)) (if asked.now.is_counted then Listing.Count else Listing.Models)
        (W.contents answer.old) (W.contents answer.new)) }
{
    let projection = projection_in(alloc, asked, formula.vars())?;
    let mut models = open_models(alloc, formula, projection)?;
    let limit = limit_of(asked.limit);
    let listing = listing_of(asked.is_counted);
    let found = write_models(alloc, &mut models, limit, listing, answer)?;
    Ok(found)
}

/// Prints the models of the formula that is read.
fn list_read<'a, I: Read + Drop, W: Write>(
    alloc: Global,
    input: I,
    asked: &ModelsAsked<'a>,
    answer: &mut W,
) -> Result<ModelCount, Fault<'a>> {
    match read_from_within(alloc, input, asked.limits) {
        Ok(formula) => list_of(alloc, &formula, asked, answer),
        Err(fault) => Err(fault_of_read(fault)),
    }
}

/// The status of what was found.
fn status_of(found: ModelCount) -> u8
    ensures { result ≡ count_status found }
{
    if found.count > 0 {
        SATISFIABLE
    } else if found.is_whole {
        UNSATISFIABLE
    } else {
        UNKNOWN
    }
}

/// Prints that a word names no variable of the formula; the status.
fn print_unprojected<E: Write>(faults: &mut E, file: &str, word: &str, vars: u32) -> u8 {
    let name = shown_name(file);
    let _ = match vars {
        0 => writeln!(
            faults,
            "cubesat: --project: '{word}' is no variable of {name}, which has none"
        ),
        _ => writeln!(
            faults,
            "cubesat: --project: '{word}' is no variable of {name}, which has 1 to {vars}"
        ),
    };
    FAILED
}

/// Prints the models of a formula, in a file or in the standard input, each as soon as it is found;
/// the status: 10, 20 without a model, 1 on a fault.
pub fn list_models<R: Files, I: Read + Drop, W: Write, E: Write>(
    rt: &R,
    alloc: Global,
    asked: ModelsAsked<'_>,
    standard: I,
    answer: &mut W,
    faults: &mut E,
) -> u8 {
    let (file, limits, command) = (asked.formula.path, asked.limits, Command::Models);
    let input = match open_input(rt, file, &mut Some(standard)) {
        Ok(input) => input,
        Err(error) => return print_not_opened(faults, file, error, false),
    };
    let text = match formula_text(
        rt,
        alloc,
        asked.formula,
        input,
        limits,
        command,
        false,
        faults,
    ) {
        Ok(text) => text,
        Err(status) => return status,
    };
    let added_lines = text.added_lines();
    let mut input = NoticedReader::of(text);
    let mut answer = NoticedWriter::of(answer);
    let fault = match list_read(alloc, &mut input, &asked, &mut answer) {
        Ok(found) => return status_of(found),
        Err(Fault::Unprojected(word, vars)) => {
            return print_unprojected(faults, file, word, vars);
        }
        Err(Fault::Run(fault)) => fault,
    };
    let known = Known {
        formula: file,
        proof: NO_PATH,
        added_lines,
        beginning: input.beginning(),
        formula_error: input.error(),
        proof_error: None,
        answer_error: answer.error(),
        limits,
    };
    print_fault_by(rt, faults, fault, &known, command, false)
}

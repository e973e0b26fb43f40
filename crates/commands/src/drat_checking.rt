//! `check --drat`: its files, and what is printed of the run.
ghost use Rattle.std.specs.Prelude.{◌≡◌};
ghost use Rattle.cnf.specs.Limits.{limits_of};
ghost use Rattle.runs.specs.Drat.{drat_by};
ghost use Rattle.commands.specs.DratEnds.{DratEnds, IsDratEnd};
ghost use Rattle.commands.specs.Ends.{end_of};

use crate::checking::CheckEnd;
use crate::drat_words::{say_drat_refused, say_passed_deletions};
use crate::fault_lines::{print_fault_of, print_not_opened};
use crate::formula_text::formula_text;
use crate::input::open_input;
use crate::notes::{note_check, note_number};
use crate::placed_proof::begin_proof;
use crate::solving::print_not_begun;
use crate::worded::{Known, Opened};
use command_line::{DratFile, FormulaFile};
use drat::DratForm;
use files::{Locks, NoticedReader, NoticedWriter};
use messages::Command;
use runs::{CheckRules, DratProof, DratTold, RunFault, check_drat};
use std::alloc::Global;
use std::fs::Files;
use std::io::{Read, Write};

/// Says why a proof was refused, if it was, and what was passed over.
fn print_told<E: Write>(faults: &mut E, told: DratTold, known: &Known<'_>, is_explained: bool) {
    let (number, place) = match (told.fault, told.why) {
        (Some(fault), _) => (Some(fault.wrong.number()), Some(fault.place)),
        (None, Some(why)) => (Some(why.number), None),
        (None, None) => (None, None),
    };
    if let Some(number) = number {
        say_drat_refused(faults, number, place, known.limits);
        if is_explained {
            note_number(faults, number);
        }
    }
    say_passed_deletions(faults, told.passed);
}

/// How a check ended that answered so. It says what happened unless the proof is accepted.
fn end_check<R: Files, E: Write>(
    rt: &R,
    faults: &mut E,
    answered: Result<DratTold, RunFault>,
    known: &Known<'_>,
    is_explained: bool,
) -> CheckEnd
    ensures { result ≡ end_of (drat_by answered) }
{
    match answered {
        Ok(told) => {
            print_told(faults, told, known, is_explained);
            CheckEnd::of(told.checked)
        }
        Err(fault) => {
            print_fault_of(rt, faults, fault, known, is_explained);
            CheckEnd::Fault
        }
    }
}

/// Which file a fault of the proof concerns: the one that is checked, or the one that is made.
fn proof_of<'a>(answered: &Result<DratTold, RunFault>, file: DratFile<'a>) -> &'a str {
    match (answered, file.kept) {
        (Err(RunFault::ProofWriteFailed), Some(kept)) => kept,
        _ => file.path,
    }
}

/// Checks the open proof against the open formula, with the proof in LRAT written to what is open
/// for it, and says what happened unless it accepts.
fn check_files<R: Files, F: Read + Drop, P: Read + Drop, K: Write + Drop, W: Write, E: Write>(
    rt: &R,
    alloc: Global,
    formula: Opened<'_, F>,
    file: DratFile<'_>,
    proof: P,
    kept: Option<K>,
    rules: CheckRules,
    answer: &mut NoticedWriter<W>,
    faults: &mut E,
    is_explained: bool,
) -> CheckEnd
    ensures end { IsDratEnd (limits_of rules.limits) (F.remaining formula.entry.file) result }
    ensures says { DratEnds (limits_of rules.limits) (F.remaining formula.entry.file) (⟦<NoticedWriter<W> as Write>⟧.contents answer.old) (⟦<NoticedWriter<W> as Write>⟧.contents answer.new) result }
{
    let added_lines = formula.added_lines;
    let mut text = NoticedReader::of(formula.file);
    let mut steps = NoticedReader::of(proof);
    let mut kept = match kept {
        Some(kept) => Some(NoticedWriter::of(kept)),
        None => None,
    };
    let form = if file.is_binary {
        DratForm::Binary
    } else {
        DratForm::Seen
    };
    let proof = DratProof {
        file: &mut steps,
        form,
        kept: kept.as_mut(),
    };
    let answered = check_drat(alloc, &mut text, proof, rules, answer);
    let is_of_kept = matches!(answered, Err(RunFault::ProofWriteFailed));
    let kept_error = kept.as_ref().and_then(|kept| kept.error());
    let known = Known {
        formula: formula.path,
        proof: proof_of(&answered, file),
        added_lines,
        beginning: text.beginning(),
        formula_error: text.error(),
        proof_error: if is_of_kept {
            kept_error
        } else {
            steps.error()
        },
        answer_error: answer.error(),
        limits: rules.limits,
    };
    end_check(rt, faults, answered, &known, is_explained)
}

/// Checks the proof in DRAT in the file against the formula in the other, one of which may be the
/// standard input. The proof in LRAT that is made is kept, if that is asked for, once it is accepted.
pub fn check_drat_file<R: Files, I: Read + Drop, W: Write, E: Write, L: Locks<R::File>>(
    rt: &R,
    alloc: Global,
    formula: FormulaFile<'_>,
    file: DratFile<'_>,
    rules: CheckRules,
    standard: I,
    is_explained: bool,
    answer: &mut W,
    faults: &mut E,
    locks: &L,
) -> CheckEnd {
    let path = formula.path;
    if is_explained {
        note_check(faults, path, file.path);
    }
    let mut standard = Some(standard);
    let input = match open_input(rt, path, &mut standard) {
        Ok(input) => input,
        Err(error) => {
            print_not_opened(faults, path, error, is_explained);
            return CheckEnd::Fault;
        }
    };
    let proof = match open_input(rt, file.path, &mut standard) {
        Ok(proof) => proof,
        Err(error) => {
            print_not_opened(faults, file.path, error, is_explained);
            return CheckEnd::Fault;
        }
    };
    let kept = match file.kept {
        Some(kept) => match begin_proof(rt, alloc, kept, &input, locks) {
            Ok(placed) => Some(placed),
            Err(why) => {
                print_not_begun(faults, why, path, kept, is_explained);
                return CheckEnd::Fault;
            }
        },
        None => None,
    };
    let (limits, command) = (rules.limits, Command::Check);
    let text = match formula_text(
        rt,
        alloc,
        formula,
        input,
        limits,
        command,
        is_explained,
        faults,
    ) {
        Ok(text) => text,
        Err(_) => return CheckEnd::Fault,
    };
    let formula = Opened {
        path,
        added_lines: text.added_lines(),
        file: text,
    };
    let mut answer = NoticedWriter::of(answer);
    let answer = &mut answer;
    check_files(
        rt,
        alloc,
        formula,
        file,
        proof,
        kept,
        rules,
        answer,
        faults,
        is_explained,
    )
}

//! `check`: its files, and what is printed of the run.
ghost use Rattle.std.specs.Prelude.{◌≡◌, Ok};
ghost use Rattle.std.specs.Thread.{IsSync};
ghost use Rattle.cnf.specs.Limits.{limits_of};
ghost use Rattle.lrat_forms.specs.Comments.{read_as};
ghost use Rattle.runs.specs.Check.{checked_by, CheckSays};
ghost use Rattle.commands.specs.CheckStatus.{check_status, IsCheckEnd};
ghost use Rattle.commands.specs.Ends.{end_of, CheckEnds};

use crate::anew::is_seen_in_binary;
use crate::fault_lines::{FAILED, Screen, print_fault_of, print_no_memory, print_not_opened};
use crate::formula_text::formula_text;
use crate::input::{open_input, size_of};
use crate::notes::{note_check, note_number};
use crate::watched::check_counted;
use crate::worded::{Known, Opened, say_refused};
use command_line::{FormulaFile, Shown};
use files::{NoticedReader, NoticedWriter};
use lrat::Variables;
use lrat_forms::{ProofText, Uncommented};
use messages::{Command, ProofSource, Refused};
use runs::{CheckRules, Checked, RunFault, Told, check_with};
use statistics::{Board, print_check_statistics, show_progress};
use std::alloc::Global;
use std::fs::Files;
use std::io::{Read, Write};
use std::sync::Wait;
use std::thread;
use std::thread::Threads;
use std::time::Clock;
use strategies::Unobserved;

/// The status of a proof that is accepted.
const ACCEPTED: u8 = 0;

/// The status of a fault, where a refused proof is to have another one.
const DISTINCT_FAULT: u8 = 2;

/// How a check ended.
#[derive(Clone, Copy)]
pub enum CheckEnd {
    Accepted,
    Refused,
    Fault,
}

impl CheckEnd {
    /// The end of a check that answered so.
    pub(crate) fn of(checked: Checked) -> CheckEnd
        ensures { result ≡ end_of (Ok checked) }
    {
        match checked {
            Checked::Accepted => CheckEnd::Accepted,
            Checked::Refused => CheckEnd::Refused,
        }
    }

    /// The exit status. A fault has that of a refused proof, unless the two are to be distinct.
    pub fn status(self, are_distinct: bool) -> u8
        ensures { result ≡ check_status self are_distinct }
    {
        match self {
            CheckEnd::Accepted => ACCEPTED,
            CheckEnd::Fault if are_distinct => DISTINCT_FAULT,
            CheckEnd::Refused | CheckEnd::Fault => FAILED,
        }
    }
}

/// A check that is counted, with its progress shown by a thread beside it. Where that can't be
/// started, nothing is shown.
fn check_beside<
    R: Files + Threads + Wait + Clock + Sync,
    F: Read + Drop,
    P: Read + Drop,
    W: Write,
    E: Write + Send,
>(
    rt: &R,
    alloc: Global,
    board: &Board,
    mut formula: F,
    mut proof: P,
    rules: CheckRules,
    answer: &mut W,
    faults: &mut E,
    screen: Screen,
) -> Result<Told, RunFault>
    ensures { CheckSays (limits_of rules.limits) rules.variables (F.remaining formula) (P.remaining proof) (W.contents answer.old) (W.contents answer.new) (checked_by result) }
{
    let manner = screen.manner();
    let (_, result) = thread::join_mut(
        rt,
        &mut || show_progress(rt, board, faults, manner),
        &mut || -> Result<Told, RunFault>
            ensures { CheckSays (limits_of rules.limits) rules.variables (F.remaining formula.entry) (P.remaining proof.entry) (W.contents answer.entry.now) (W.contents answer.exit.now) (checked_by result) }
        { check_counted(rt, alloc, board, &mut formula, &mut proof, rules, answer) },
    );
    result
}

/// Runs the check of what is opened, with what is to be shown of it. It writes what `check_run`
/// writes. The proof has so many bytes, if that is known.
fn check_opened<
    R: Files + Threads + Wait + Clock + Sync,
    F: Read + Drop,
    P: Read + Drop,
    W: Write,
    E: Write + Send,
>(
    rt: &R,
    alloc: Global,
    formula: F,
    proof: P,
    rules: CheckRules,
    size: Option<u64>,
    shown: Shown,
    answer: &mut W,
    faults: &mut E,
    screen: Screen,
) -> Result<Told, RunFault>
    ensures { CheckSays (limits_of rules.limits) rules.variables (F.remaining formula) (P.remaining proof) (W.contents answer.old) (W.contents answer.new) (checked_by result) }
{
    if !shown.progress && !shown.stats {
        return check_with(alloc, formula, proof, rules, answer, &Unobserved);
    }
    let board = Board::of_proof(rt, size);
    let result = if shown.progress {
        check_beside(
            rt, alloc, &board, formula, proof, rules, answer, faults, screen,
        )
    } else {
        check_counted(rt, alloc, &board, formula, proof, rules, answer)
    };
    if shown.stats {
        print_check_statistics(faults, &board.look(rt));
    }
    result
}

/// Says why the proof that was read so was refused, and what that means where it is to be
/// explained.
fn print_refused<R: Files, E: Write>(
    rt: &R,
    faults: &mut E,
    known: &Known<'_>,
    source: ProofSource<'_>,
    why: Refused,
    is_explained: bool,
) {
    say_refused(rt, faults, known, why, source);
    if is_explained {
        note_number(faults, why.number);
    }
}

/// How a check ended that answered so, of a proof that was read so. It says what happened unless
/// the proof is accepted.
fn end_check<R: Files, E: Write>(
    rt: &R,
    faults: &mut E,
    answered: Result<Told, RunFault>,
    known: &Known<'_>,
    source: ProofSource<'_>,
    is_explained: bool,
) -> CheckEnd
    ensures { result ≡ end_of (checked_by answered) }
{
    match answered {
        Ok(told) => {
            if let Some(why) = told.why {
                print_refused(rt, faults, known, source, why, is_explained);
            }
            CheckEnd::of(told.checked)
        }
        Err(fault) => {
            print_fault_of(rt, faults, fault, known, is_explained);
            CheckEnd::Fault
        }
    }
}

/// Checks the open proof, whose text has so many bytes, if that is known, against the open formula,
/// and says what happened unless it accepts. A proof in binary is read as the text of its steps, and a
/// comment in a text as a step that does nothing.
fn check_files<
    R: Files + Threads + Wait + Clock + Sync,
    F: Read + Drop,
    P: Read + Drop,
    W: Write,
    E: Write + Send,
>(
    rt: &R,
    alloc: Global,
    formula: Opened<'_, F>,
    proof: Opened<'_, P>,
    rules: CheckRules,
    size: Option<u64>,
    shown: Shown,
    answer: &mut NoticedWriter<W>,
    faults: &mut E,
    screen: Screen,
) -> CheckEnd
    ensures end { IsCheckEnd (limits_of rules.limits) rules.variables (F.remaining formula.entry.file) (read_as (P.remaining proof.entry.file)) result }
    ensures says { CheckEnds (limits_of rules.limits) rules.variables (F.remaining formula.entry.file) (read_as (P.remaining proof.entry.file)) (⟦<NoticedWriter<W> as Write>⟧.contents answer.old) (⟦<NoticedWriter<W> as Write>⟧.contents answer.new) result }
{
    let added_lines = formula.added_lines;
    let mut text = NoticedReader::of(formula.file);
    let steps = ProofText::of(NoticedReader::of(proof.file));
    let Ok(mut steps) = Uncommented::of(alloc, steps) else {
        print_no_memory(faults, formula.path, shown.verbose);
        return CheckEnd::Fault;
    };
    let answered = check_opened(
        rt, alloc, &mut text, &mut steps, rules, size, shown, answer, faults, screen,
    );
    let known = Known {
        formula: formula.path,
        proof: proof.path,
        added_lines,
        beginning: text.beginning(),
        formula_error: text.error(),
        proof_error: steps.inner().inner().error(),
        answer_error: answer.error(),
        limits: rules.limits,
    };
    let source = ProofSource {
        beginning: steps.inner().inner().beginning(),
        form: steps.inner().form(),
        broken: steps.inner().broken(),
        is_extended: rules.variables == Variables::Extended,
    };
    end_check(rt, faults, answered, &known, source, shown.verbose)
}

/// Checks the proof in the file against the formula in the other, one of which may be the standard
/// input.
pub fn check<R: Files + Threads + Wait + Clock + Sync, I: Read + Drop, W: Write, E: Write + Send>(
    rt: &R,
    alloc: Global,
    formula: FormulaFile<'_>,
    path: &str,
    rules: CheckRules,
    standard: I,
    shown: Shown,
    answer: &mut W,
    faults: &mut E,
    screen: Screen,
) -> CheckEnd {
    let file = formula.path;
    if shown.verbose {
        note_check(faults, file, path);
    }
    let mut standard = Some(standard);
    let input = match open_input(rt, file, &mut standard) {
        Ok(input) => input,
        Err(error) => {
            print_not_opened(faults, file, error, shown.verbose);
            return CheckEnd::Fault;
        }
    };
    let proof = match open_input(rt, path, &mut standard) {
        Ok(proof) => proof,
        Err(error) => {
            print_not_opened(faults, path, error, shown.verbose);
            return CheckEnd::Fault;
        }
    };
    let (limits, command) = (rules.limits, Command::Check);
    let text = match formula_text(
        rt,
        alloc,
        formula,
        input,
        limits,
        command,
        shown.verbose,
        faults,
    ) {
        Ok(text) => text,
        Err(_) => return CheckEnd::Fault,
    };
    let formula = Opened {
        path: file,
        added_lines: text.added_lines(),
        file: text,
    };
    let size = match size_of(&proof) {
        Some(_) if shown.progress && is_seen_in_binary(rt, path) => None,
        size => size,
    };
    let proof = Opened {
        path,
        file: proof,
        added_lines: 0,
    };
    let mut answer = NoticedWriter::of(answer);
    let answer = &mut answer;
    check_files(
        rt, alloc, formula, proof, rules, size, shown, answer, faults, screen,
    )
}

//! What is said in words of a run's fault, and of a proof that is refused.

use crate::anew::{excerpt_of, header_of, proof_excerpt_of};
use crate::input::shown_name;
use cnf::{Limits, Place, ReadFault};
use lenient::Counts;
use messages::{
    Command, Excerpt, FormulaSource, ProofSource, Refused, header_in, say_answer_not_written,
    say_formula_refused, say_no_memory, say_not_read, say_proof_not_written, say_proof_refused,
};
use runs::RunFault;
use std::fs::Files;
use std::io;
use std::io::Write;

/// A file that is open, and its path.
#[derive(Drop)]
pub(crate) struct Opened<'a, F> {
    pub(crate) path: &'a str,
    pub(crate) file: F,
    /// How many lines of the text that is read stand before those of the file.
    pub(crate) added_lines: u64,
}

/// What is known of a run's files, for words about its fault.
#[derive(Clone, Copy)]
pub struct Known<'a> {
    pub formula: &'a str,
    pub proof: &'a str,
    /// How many lines of the formula's text stand before those of its file.
    pub added_lines: u64,
    /// The first bytes that the formula's file gave.
    pub beginning: &'a [u8],
    /// The last errors that the system answered.
    pub formula_error: Option<io::Error>,
    pub proof_error: Option<io::Error>,
    pub answer_error: Option<io::Error>,
    /// Within which limits the files are read.
    pub limits: Limits,
}

/// The place in a file of one in its text, which has so many lines more before it.
fn place_in_file(place: Place, added_lines: u64) -> Place {
    Place {
        line: place.line.saturating_sub(added_lines).max(1),
        column: place.column,
    }
}

/// A fault at its place in the file, of a text that has so many lines more before it. Other faults
/// than these come of no text that got a header.
fn fault_in_file(fault: ReadFault, added_lines: u64) -> ReadFault {
    match fault {
        ReadFault::BadNumber(place) => ReadFault::BadNumber(place_in_file(place, added_lines)),
        ReadFault::ClauseNotEnded(place) => {
            ReadFault::ClauseNotEnded(place_in_file(place, added_lines))
        }
        ReadFault::OverLimit(place) => ReadFault::OverLimit(place_in_file(place, added_lines)),
        other => other,
    }
}

/// A run's fault, at its place in the file.
pub(crate) fn run_fault_in_file(fault: RunFault, known: &Known<'_>) -> RunFault {
    match fault {
        RunFault::Read(read) => RunFault::Read(fault_in_file(read, known.added_lines)),
        other => other,
    }
}

/// Says why a file wasn't read, if the system answered an error.
fn say_error<E: Write>(out: &mut E, file: &str, error: Option<io::Error>) {
    if let Some(error) = error {
        say_not_read(out, shown_name(file), error);
    }
}

/// What is known of a text of which this is the beginning.
fn source_of<'a>(
    beginning: &'a [u8],
    header: Option<Counts>,
    excerpt: Option<&'a Excerpt>,
) -> FormulaSource<'a> {
    FormulaSource {
        beginning,
        header,
        excerpt,
    }
}

/// Says why a text that begins so was refused, with the text around the fault's place.
fn say_text_refused<E: Write>(
    out: &mut E,
    fault: ReadFault,
    known: &Known<'_>,
    header: Option<Counts>,
    excerpt: Option<&Excerpt>,
    command: Command,
) {
    let beginning = known.beginning;
    let source = source_of(beginning, header, excerpt);
    let file = shown_name(known.formula);
    say_formula_refused(out, file, fault, known.limits, &source, command);
}

/// Says why a formula wasn't read.
fn say_unread<R: Files, E: Write>(
    rt: &R,
    out: &mut E,
    fault: ReadFault,
    known: &Known<'_>,
    command: Command,
) {
    match fault.place() {
        Some(place) => {
            let excerpt = excerpt_of(rt, known.formula, place);
            let header = header_of(rt, known.formula).or(header_in(known.beginning));
            say_text_refused(out, fault, known, header, excerpt.as_ref(), command);
        }
        None => say_error(out, known.formula, known.formula_error),
    }
}

/// Says what happened in a run of this command that came to no verdict.
pub(crate) fn say_fault<R: Files, E: Write>(
    rt: &R,
    out: &mut E,
    fault: RunFault,
    known: &Known<'_>,
    command: Command,
) {
    match fault {
        RunFault::Read(read) => say_unread(rt, out, read, known, command),
        RunFault::NoMemory => say_no_memory(out, shown_name(known.formula)),
        RunFault::ProofWriteFailed => say_proof_not_written(out, known.proof, known.proof_error),
        RunFault::AnswerWriteFailed => say_answer_not_written(out, known.answer_error),
        RunFault::ProofReadFailed => say_error(out, known.proof, known.proof_error),
    }
}

/// Says why the proof that was read so was refused.
pub(crate) fn say_refused<R: Files, E: Write>(
    rt: &R,
    out: &mut E,
    known: &Known<'_>,
    refused: Refused,
    source: ProofSource<'_>,
) {
    let excerpt = match refused.line {
        Some(line) => proof_excerpt_of(rt, known.proof, Place { line, column: 1 }),
        None => None,
    };
    let (file, limits) = (shown_name(known.proof), known.limits);
    say_proof_refused(out, file, refused, limits, source, excerpt.as_ref());
}

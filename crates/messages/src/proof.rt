//! What is said of a proof that is refused.

use crate::excerpt::Excerpt;
use crate::format::{Packer, say_packed_proof};
use crate::name::Name;
use crate::refused::Refused;
use cnf::Limits;
use lrat_forms::{Broken, BrokenBy, Form, is_drat};
use std::fmt;
use std::fmt::{Display, Formatter};
use std::io::Write;

/// What a refused proof was read from.
#[derive(Clone, Copy)]
pub struct ProofSource<'a> {
    /// The first bytes of its file.
    pub beginning: &'a [u8],
    pub form: Form,
    /// Where it can't be read on, if it is in binary and that is so.
    pub broken: Option<Broken>,
    /// Whether its clauses may have variables that the formula doesn't have.
    pub is_extended: bool,
}

/// Where a proof is at fault: at a line of a text, or at a step in binary, from 1 on.
#[derive(Clone, Copy)]
struct At {
    form: Form,
    line: u64,
}

impl Display for At {
    fn fmt<W: fmt::Write>(&self, f: &mut Formatter<W>) -> fmt::Result {
        let line = self.line;
        match self.form {
            Form::Text => write!(f, "(line {line})"),
            Form::Binary => write!(f, "(step {line})"),
        }
    }
}

/// What a proof's step adds.
#[derive(Clone, Copy)]
enum Added {
    /// The clause of this number.
    Clause(u64),
    /// The clause of the step of this number, whose own isn't known.
    OfStep(u64),
}

impl Display for Added {
    fn fmt<W: fmt::Write>(&self, f: &mut Formatter<W>) -> fmt::Result {
        match self {
            Added::Clause(number) => write!(f, "clause {number}"),
            Added::OfStep(step) => write!(f, "the clause of step {step}"),
        }
    }
}

/// The words for a clause with a variable that none may have within these limits.
fn words_of_variable(limits: Limits, is_extended: bool) -> &'static str {
    match limits {
        _ if !is_extended => " has a variable that the formula doesn't have",
        Limits::Standard => " has a variable above the limit, 262,143; --large has a higher one",
        Limits::Large => " has a variable above the limit, 100,000,000",
    }
}

/// The words before and behind the clause that is wrongly added, within these limits.
fn words_around(
    number: u32,
    limits: Limits,
    is_extended: bool,
) -> Option<(&'static str, &'static str)> {
    match number {
        21 => Some(("the number of ", " isn't above all numbers before it")),
        22 => Some(("", " has a variable in both signs")),
        23 => Some(("", " names a clause that isn't there")),
        24 => Some(("a hint of ", " is neither false nor unit")),
        25 => Some(("a hint of ", " stands behind the conflict")),
        26 => Some(("the hints of ", " end without a conflict")),
        27 => Some(("", " has no hints for one of its candidates")),
        28 => Some(("a group of ", " is for no candidate that needs one")),
        31 => Some(("", words_of_variable(limits, is_extended))),
        _ => None,
    }
}

/// Which limit of bytes a proof is above.
fn words_of_length(limits: Limits) -> &'static str {
    match limits {
        Limits::Standard => "longer than the limit, 4,294,967,296 bytes; --large has a higher one",
        Limits::Large => "longer than the limit, 4,611,686,018,427,387,904 bytes",
    }
}

/// The words for what is wrong with no clause that is added, within these limits.
fn words_of(number: u32, limits: Limits) -> &'static str {
    match number {
        29 => "a deletion names a clause that isn't there",
        30 => "no step adds the empty clause; the proof may have been cut off",
        41 => "a word is no number in plain digits, or above its limit",
        42 => "the last line isn't ended; the proof may have been cut off",
        43 => "neither an addition `NUMBER LITERALS 0 HINTS 0` nor a deletion `NUMBER d NUMBERS 0`",
        45 => words_of_length(limits),
        _ => "refused",
    }
}

/// The words for what is wrong with the step at this place, but for the clause that it adds.
fn words_at(number: u32, limits: Limits, at: At) -> &'static str {
    match (at.form, number) {
        (Form::Binary, 41) => "a number is -0, or above its limit",
        _ => words_of(number, limits),
    }
}

/// The number that a line of a proof begins with.
fn number_of_line(line: &[u8]) -> Option<u64> {
    let text = str::from_utf8(line).ok()?;
    text.split_whitespace().next()?.parse::<u64>().ok()
}

/// What is added by the step of this line, whose text may be known.
fn added_by(line: u64, excerpt: Option<&Excerpt>) -> Added {
    let number = match excerpt {
        Some(excerpt) => number_of_line(excerpt.line()),
        None => None,
    };
    match number {
        Some(number) => Added::Clause(number),
        None => Added::OfStep(line),
    }
}

/// Says which clause the step of a line names wrongly: one that isn't there, or one that is neither
/// false nor unit.
fn say_named<E: Write>(out: &mut E, name: Name<'_>, number: u32, named: u64, added: Added, at: At) {
    let _ = if number == 23 {
        writeln!(
            out,
            "c {name}: {added} names clause {named}, which isn't there {at}"
        )
    } else {
        writeln!(
            out,
            "c {name}: hint {named} of {added} is neither false nor unit {at}"
        )
    };
}

/// Says where a proof in binary can't be read on, and why.
fn say_broken<E: Write>(out: &mut E, name: Name<'_>, broken: Broken) {
    let (byte, step) = (broken.byte, broken.step);
    let _ = match broken.by {
        BrokenBy::StepByte => writeln!(
            out,
            "c {name}: byte {byte} is neither `a` nor `d`, with which a step in binary begins (step {step})"
        ),
        BrokenBy::Number => writeln!(
            out,
            "c {name}: a number in binary is above its limit at byte {byte} (step {step})"
        ),
        BrokenBy::End => writeln!(
            out,
            "c {name}: it ends inside a step in binary, behind byte {byte}; the proof may have been cut off (step {step})"
        ),
    };
}

/// Says what is wrong with the step or the line at this place.
fn say_refused_at<E: Write>(
    out: &mut E,
    name: Name<'_>,
    refused: Refused,
    limits: Limits,
    at: At,
    is_extended: bool,
    excerpt: Option<&Excerpt>,
) {
    let added = added_by(at.line, excerpt);
    if let Some(named) = refused.named {
        say_named(out, name, refused.number, named, added, at);
        return;
    }
    let _ = match words_around(refused.number, limits, is_extended) {
        Some((before, behind)) => writeln!(out, "c {name}: {before}{added}{behind} {at}"),
        None => {
            let words = words_at(refused.number, limits, at);
            writeln!(out, "c {name}: {words} {at}")
        }
    };
}

/// Where a proof in binary can't be read on, if that is why it is refused.
fn broken_at(refused: Refused, source: ProofSource<'_>) -> Option<Broken> {
    match (source.broken, refused.number) {
        (Some(broken), 41 | 42) if refused.line == Some(broken.step) => Some(broken),
        _ => None,
    }
}

/// Says why a proof was refused, and where.
fn say_why<E: Write>(
    out: &mut E,
    name: Name<'_>,
    refused: Refused,
    limits: Limits,
    source: ProofSource<'_>,
    excerpt: Option<&Excerpt>,
) {
    if let Some(broken) = broken_at(refused, source) {
        say_broken(out, name, broken);
        return;
    }
    let (form, is_extended) = (source.form, source.is_extended);
    match refused.line {
        Some(line) => {
            let at = At { form, line };
            say_refused_at(out, name, refused, limits, at, is_extended, excerpt);
        }
        None => {
            let words = words_of(refused.number, limits);
            let _ = writeln!(out, "c {name}: {words}");
        }
    }
}

/// Whether a refusal looks like that of another formula's proof: the first step doesn't fit, or a
/// variable isn't the formula's.
fn looks_foreign(refused: Refused, is_extended: bool) -> bool {
    match refused.number {
        21 | 23 | 24 | 26 | 27 => refused.line == Some(1),
        31 => !is_extended,
        _ => false,
    }
}

/// Says why a proof was refused within these limits, with the number of the clause at fault where the text at its line
/// is known, and with that of the one that it names wrongly; where it looks like DRAT, also how that
/// is checked. Of a compressed file it says what it is. A failed write changes nothing.
pub fn say_proof_refused<E: Write>(
    out: &mut E,
    file: &str,
    refused: Refused,
    limits: Limits,
    source: ProofSource<'_>,
    excerpt: Option<&Excerpt>,
) {
    if let Some(packer) = Packer::of(source.beginning) {
        say_packed_proof(out, file, packer);
        return;
    }
    say_why(out, Name::of(file), refused, limits, source, excerpt);
    if is_drat(source.beginning) {
        let _ = writeln!(
            out,
            "c it begins as DRAT does, which has no hints; check --drat finds them"
        );
    } else if looks_foreign(refused, source.is_extended) {
        let _ = writeln!(out, "c does the proof belong to this formula?");
    }
}

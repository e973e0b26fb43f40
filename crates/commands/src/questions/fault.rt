//! Why a session ends before its text does, and what is said of it.
ghost use Rattle.std.specs.Prelude.{◌≡◌};

use crate::fault_lines::{FAILED, print_fault};
use crate::input::shown_name;
use cnf::ReadFault;
use messages::{say_answer_not_written, say_no_memory, say_not_read};
use runs::RunFault;
use std::alloc::AllocError;
use std::fmt::{Display, Formatter};
use std::io::Write;
use std::{fmt, io};

/// Why a session ends before its text does.
pub(crate) enum Fault {
    /// A word of the text can't stand where it does, or the text can't end where it does.
    Text(ReadFault),
    NotRead(io::Error),
    NoMemory,
    NotWritten(io::Error),
}

impl From<AllocError> for Fault {
    fn from(_error: AllocError) -> Fault {
        Fault::NoMemory
    }
}

/// A file's name, with `?` in place of each control character, so that it stays on its line.
#[derive(Clone, Copy)]
struct Shown<'a> {
    name: &'a str,
}

impl Display for Shown<'_> {
    fn fmt<W: fmt::Write>(&self, f: &mut Formatter<W>) -> fmt::Result {
        for character in self.name.chars() {
            let shown = if character.is_control() {
                '?'
            } else {
                character
            };
            write!(f, "{shown}")?;
        }
        Ok(())
    }
}

/// Why a word of the text, or its end, can't stand where it does.
fn words_of(fault: ReadFault) -> &'static str {
    match fault {
        ReadFault::NoHeader(_) => "the header `p inccnf` is missing",
        ReadFault::BadHeader(_) => "the header is `p inccnf`",
        ReadFault::SecondHeader(_) => "a second header",
        ReadFault::BadNumber(_) => "a word is no whole number in plain digits, and no `a` or `t`",
        ReadFault::OverLimit(_) => "a variable above 100,000,000",
        ReadFault::ClauseNotEnded(_) => "the text ends inside a clause, without its 0",
        _ => "it couldn't be read",
    }
}

/// Says why a text of questions is refused.
fn say_refused<E: Write>(faults: &mut E, file: &str, fault: ReadFault) {
    print_fault(faults, RunFault::Read(fault));
    let (name, words) = (
        Shown {
            name: shown_name(file),
        },
        words_of(fault),
    );
    let _ = match fault.place() {
        Some(place) => writeln!(faults, "c {name}: {words} ({place})"),
        None => writeln!(faults, "c {name}: {words}"),
    };
}

/// Prints the line of a fault, and what happened; the status.
pub(crate) fn print_fault_of<E: Write>(faults: &mut E, file: &str, fault: Fault) -> u8
    ensures { result ≡ 1 }
{
    match fault {
        Fault::Text(ReadFault::NoMemory) | Fault::NoMemory => {
            print_fault(faults, RunFault::NoMemory);
            say_no_memory(faults, shown_name(file));
        }
        Fault::Text(fault) => say_refused(faults, file, fault),
        Fault::NotRead(error) => {
            print_fault(faults, RunFault::Read(ReadFault::ReadFailed));
            say_not_read(faults, shown_name(file), error);
        }
        Fault::NotWritten(error) => {
            print_fault(faults, RunFault::AnswerWriteFailed);
            say_answer_not_written(faults, Some(error));
        }
    }
    FAILED
}

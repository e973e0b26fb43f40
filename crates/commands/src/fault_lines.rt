//! The lines of faults.
ghost use Rattle.std.specs.Prelude.{◌≡◌};

use crate::input::shown_name;
use crate::notes::{note_file, note_files, note_number};
use crate::worded::{Known, run_fault_in_file, say_fault};
use messages::{
    Command, say_no_memory, say_not_created, say_not_read, say_part_in_use, say_part_not_created,
};
use runs::RunFault;
use statistics::Manner;
use std::fs::Files;
use std::io;
use std::io::Write;

/// The status of a fault, of a proof that is refused and of a wrong command line.
pub const FAILED: u8 = 1;

/// Where the writer of faults leads.
#[derive(Clone, Copy, Debug, PartialEq, Eq)]
pub enum Screen {
    /// To a terminal, on which a line can be written over.
    Terminal,
    /// To a file, a pipe or the like.
    Stream,
}

impl Screen {
    /// How progress is shown there.
    pub(crate) fn manner(self) -> Manner {
        match self {
            Screen::Stream => Manner::Listed,
            Screen::Terminal => Manner::Rewritten,
        }
    }
}

/// Prints the line of a fault. A failed write changes nothing.
pub fn print_fault<E: Write>(faults: &mut E, fault: RunFault) {
    let number = fault.number();
    let _ = match fault {
        RunFault::Read(read) => {
            let refusal = read.number();
            match read.place() {
                Some(place) => writeln!(faults, "fault {number}: refusal {refusal} at {place}"),
                None => writeln!(faults, "fault {number}: refusal {refusal}"),
            }
        }
        _ => writeln!(faults, "fault {number}"),
    };
}

/// Prints the line of a fault of a run that wasn't made by `solve`, what happened, and, where that is
/// to be explained, what it means; the status.
pub fn print_fault_of<R: Files, E: Write>(
    rt: &R,
    faults: &mut E,
    fault: RunFault,
    known: &Known<'_>,
    is_explained: bool,
) -> u8
    ensures { result ≡ 1 }
{
    print_fault_by(rt, faults, fault, known, Command::Check, is_explained)
}

/// Prints the line of a fault of a run that this command made, what happened, and, where that is to
/// be explained, what it means; the status.
pub(crate) fn print_fault_by<R: Files, E: Write>(
    rt: &R,
    faults: &mut E,
    fault: RunFault,
    known: &Known<'_>,
    command: Command,
    is_explained: bool,
) -> u8
    ensures { result ≡ 1 }
{
    let fault = run_fault_in_file(fault, known);
    print_fault(faults, fault);
    say_fault(rt, faults, fault, known, command);
    if is_explained {
        note_number(faults, fault.number());
        if let RunFault::Read(read) = fault {
            note_number(faults, read.number());
        }
        note_files(faults, fault.number(), known.formula, known.proof);
    }
    FAILED
}

/// Prints that memory was refused before a run began, and what that means where it is to be
/// explained; the status.
pub fn print_no_memory<E: Write>(faults: &mut E, formula: &str, is_explained: bool) -> u8
    ensures { result ≡ 1 }
{
    print_fault(faults, RunFault::NoMemory);
    say_no_memory(faults, shown_name(formula));
    if is_explained {
        note_number(faults, RunFault::NoMemory.number());
    }
    FAILED
}

/// Explains, where that is asked for, that a file can't be opened or created; the status.
fn explain_no_file<E: Write>(faults: &mut E, file: &str, is_explained: bool) -> u8
    ensures { result ≡ 1 }
{
    if is_explained {
        note_number(faults, 56);
        note_file(faults, file);
    }
    FAILED
}

/// Prints that a file can't be opened, and why; the status.
pub fn print_not_opened<E: Write>(
    faults: &mut E,
    file: &str,
    error: io::Error,
    is_explained: bool,
) -> u8
    ensures { result ≡ 1 }
{
    let _ = writeln!(faults, "fault 56");
    say_not_read(faults, file, error);
    explain_no_file(faults, file, is_explained)
}

/// Prints that a file can't be created, and why; the status.
pub(crate) fn print_not_created<E: Write>(
    faults: &mut E,
    file: &str,
    error: io::Error,
    is_explained: bool,
) -> u8
    ensures { result ≡ 1 }
{
    let _ = writeln!(faults, "fault 56");
    say_not_created(faults, file, error);
    explain_no_file(faults, file, is_explained)
}

/// Prints that the part of a proof can't be made, and why; the status.
pub(crate) fn print_part_not_created<E: Write>(
    faults: &mut E,
    file: &str,
    part: &str,
    error: io::Error,
    is_explained: bool,
) -> u8
    ensures { result ≡ 1 }
{
    let _ = writeln!(faults, "fault 56");
    say_part_not_created(faults, file, part, error);
    explain_no_file(faults, file, is_explained)
}

/// Prints that another run is writing the proof, in this part of it; the status.
pub(crate) fn print_in_use<E: Write>(
    faults: &mut E,
    file: &str,
    part: &str,
    is_explained: bool,
) -> u8
    ensures { result ≡ 1 }
{
    let _ = writeln!(faults, "fault 56");
    say_part_in_use(faults, file, part);
    explain_no_file(faults, file, is_explained)
}

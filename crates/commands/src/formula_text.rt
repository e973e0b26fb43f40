//! The text of a formula: as its file has it, or the strict text that is made of that.
ghost use Rattle.commands.specs.Inputs.{text_remaining};

use crate::fault_lines::{print_fault_by, print_no_memory};
use crate::input::shown_name;
use crate::worded::Known;
use cnf::{Limits, ReadFault, read_bytes};
use command_line::FormulaFile;
use files::NoticedReader;
use lenient::lenient_text;
use messages::{Command, say_passed_over};
use runs::RunFault;
use std::alloc::Global;
use std::fs::Files;
use std::io;
use std::io::{Cursor, Read, Write};

/// What stands for the proof's path, where a fault is none of it.
const NO_PATH: &str = "none";

/// The text of a formula.
#[derive(Drop)]
pub(crate) enum FormulaText<I> {
    AsItIs(I),
    /// The strict text, and how many lines it has before those of the file.
    Strict(Cursor<Vec<u8>>, u64),
}

impl<I> FormulaText<I> {
    /// How many lines the text has before those of the file.
    pub(crate) fn added_lines(&self) -> u64 {
        match self {
            FormulaText::AsItIs(_) => 0,
            FormulaText::Strict(_, lines) => *lines,
        }
    }
}

impl<I: Read> Read for FormulaText<I> {
    ghost remaining = { text_remaining I.remaining };

    fn read(&mut self, buf: &mut [u8]) -> io::Result<usize> {
        match self {
            FormulaText::AsItIs(input) => input.read(buf),
            FormulaText::Strict(text, _) => text.read(buf),
        }
    }
}

/// All bytes of a formula's file, but no more than one above the limit; or, once the fault is printed
/// that kept them from being read, the status.
fn read_all<R: Files, I: Read + Drop, E: Write>(
    rt: &R,
    alloc: Global,
    file: &str,
    input: I,
    limits: Limits,
    command: Command,
    is_explained: bool,
    faults: &mut E,
) -> Result<Vec<u8>, u8> {
    let mut noticed = NoticedReader::of(input);
    match read_bytes(alloc, &mut noticed, limits.bytes() + 1) {
        Ok(text) => Ok(text),
        Err(ReadFault::NoMemory) => Err(print_no_memory(faults, file, is_explained)),
        Err(fault) => {
            let known = Known {
                formula: file,
                proof: NO_PATH,
                added_lines: 0,
                beginning: noticed.beginning(),
                formula_error: noticed.error(),
                proof_error: None,
                answer_error: None,
                limits,
            };
            let fault = RunFault::Read(fault);
            Err(print_fault_by(rt, faults, fault, &known, command, is_explained))
        }
    }
}

/// The text of an open formula, which this command reads: where it is read leniently, the strict text,
/// once it is said what was passed over; or, once the fault is printed that kept it from being read,
/// the status.
pub(crate) fn formula_text<R: Files, I: Read + Drop, E: Write>(
    rt: &R,
    alloc: Global,
    file: FormulaFile<'_>,
    input: I,
    limits: Limits,
    command: Command,
    is_explained: bool,
    faults: &mut E,
) -> Result<FormulaText<I>, u8> {
    if !file.is_lenient {
        return Ok(FormulaText::AsItIs(input));
    }
    let text = read_all(
        rt,
        alloc,
        file.path,
        input,
        limits,
        command,
        is_explained,
        faults,
    )?;
    match lenient_text(alloc, text, limits) {
        Ok(lenient) => {
            say_passed_over(faults, shown_name(file.path), &lenient.passed);
            let lines = lenient.passed.added_lines();
            Ok(FormulaText::Strict(Cursor::new(lenient.text), lines))
        }
        Err(_) => Err(print_no_memory(faults, file.path, is_explained)),
    }
}

//! A line as bytes.
ghost use Rattle.std.specs.Prelude.{◌≡◌, ◌<◌, ◌≤◌, ◌^◌, ◌∷◌, ◌++◌, [], List, OnOk};
ghost use Rattle.theory.specs.Learning.{Line};
ghost use Rattle.lines.specs.Rows.{Part, row, whole, hints_part, with_list, IsListing, IsFront};

use crate::coding::{MAX_HINT, code, code_number, hint_number};
use crate::number::push_number;
use crate::placed::{line_room, place_line};
use cnf::Lit;
use std::alloc::AllocError;

/// Puts a clause at the end.
fn push_clause(bytes: &mut Vec<u8>, clause: &[Lit]) -> Result<(), AllocError>
    ensures clause { OnOk result ((lines : List Line) → row bytes.old.items ≡ whole lines →
        row bytes.new.items ≡ hints_part lines clause.now [] 0) }
    ensures front { IsFront bytes.old.items bytes.new.items }
{
    let mut last = 0;
    for lit in clause {
        let code = code(*lit);
        push_number(bytes, code_number(last, code))?;
        last = code;
    }
    push_number(bytes, 0)?;
    Ok(())
}

/// Puts numbers of clauses at the end: hints behind their line's clause, or behind these what is
/// forgotten. A number above the greatest one of a clause counts as want of memory.
fn push_numbers(bytes: &mut Vec<u8>, numbers: &[u64]) -> Result<(), AllocError>
    ensures numbers { OnOk result ((p : Part) → IsListing p → row bytes.old.items ≡ p → row bytes.new.items ≡ with_list p numbers.now) }
    ensures front { IsFront bytes.old.items bytes.new.items }
{
    let mut last = 0;
    for number in numbers {
        let number = *number;
        if number > MAX_HINT {
            return Err(AllocError);
        }
        push_number(bytes, hint_number(last, number))?;
        last = number;
    }
    push_number(bytes, 0)?;
    Ok(())
}

/// Puts a line at the end, byte by byte.
fn push_each_byte(
    bytes: &mut Vec<u8>,
    clause: &[Lit],
    hints: &[u64],
    forgets: &[u64],
) -> Result<(), AllocError>
    ensures line { OnOk result ((lines : List Line) → row bytes.old.items ≡ whole lines →
        row bytes.new.items ≡ whole (lines ++ record { clause = clause.now; hints = hints.now; forgets = forgets.now } ∷ [])) }
    ensures front { IsFront bytes.old.items bytes.new.items }
{
    push_clause(bytes, clause)?;
    push_numbers(bytes, hints)?;
    push_numbers(bytes, forgets)?;
    Ok(())
}

/// Puts a line at the end: all at once where there is room for the longest of so many literals
/// and numbers.
pub(crate) fn push_line(
    bytes: &mut Vec<u8>,
    clause: &[Lit],
    hints: &[u64],
    forgets: &[u64],
) -> Result<(), AllocError>
    ensures line { OnOk result ((lines : List Line) → row bytes.old.items ≡ whole lines →
        row bytes.new.items ≡ whole (lines ++ record { clause = clause.now; hints = hints.now; forgets = forgets.now } ∷ [])) }
    ensures front { IsFront bytes.old.items bytes.new.items }
{
    let start = bytes.len();
    let room = line_room(clause.len(), hints.len(), forgets.len());
    if bytes.capacity() - start < room {
        return push_each_byte(bytes, clause, hints, forgets);
    }
    bytes.resize(start + room, 0)?;
    let end = place_line(clause, hints, forgets, bytes, start)?;
    bytes.truncate(end);
    Ok(())
}

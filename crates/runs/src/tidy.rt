//! Run that writes a formula without what repeats.
ghost use Rattle.std.specs.Prelude.{◌≡◌, ℕ, ◌++◌, take, MatchResult};
ghost use Rattle.std.specs.Io.KnownBytes.{Appends};
ghost use Rattle.cnf.specs.Limits.{limits_of};
ghost use Rattle.runs.specs.Tidy.{TidySays};

use crate::fault::RunFault;
use crate::output::{write_bytes, write_text};
use cnf::{Limits, read_from_within};
use std::alloc::Global;
use std::io::{Read, Write};
use tidying::{TidyText, tidy_text};

/// Writes the text in its two parts, and flushes the writer.
fn write_tidy<W: Write>(answer: &mut W, text: &TidyText) -> Result<(), RunFault>
    ensures { MatchResult result
        (λ _. Appends (W.contents answer.old) (W.contents answer.new) (text.now.header.items ++ text.now.clauses.items))
        (λ e. (e ≡ RunFault.AnswerWriteFailed) × (count : ℕ) × Appends (W.contents answer.old) (W.contents answer.new) (take count (text.now.header.items ++ text.now.clauses.items))) }
{
    write_bytes(answer, &text.header, RunFault::AnswerWriteFailed)?;
    write_text(answer, &text.clauses, RunFault::AnswerWriteFailed)
}

/// Writes the formula of a DIMACS text again, each literal of a clause once, without the clauses that
/// have both signs of a variable: reads the formula, writes and flushes its text. `RunFault` says
/// when each fault comes and what is written then.
pub fn tidy_within<R: Read + Drop, W: Write>(
    alloc: Global,
    formula: R,
    limits: Limits,
    answer: &mut W,
) -> Result<(), RunFault>
    ensures { TidySays (limits_of limits) (R.remaining formula) (W.contents answer.old) (W.contents answer.new) result }
{
    let formula = match read_from_within(alloc, formula, limits) {
        Ok(formula) => formula,
        Err(fault) => return Err(RunFault::of_read(fault)),
    };
    let text = match tidy_text(alloc, &formula) {
        Ok(text) => text,
        Err(_) => return Err(RunFault::NoMemory),
    };
    write_tidy(answer, &text)
}

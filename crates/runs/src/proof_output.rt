//! The text of a proof, as it is written: line by line through one buffer.
ghost use Rattle.std.specs.Prelude.{◌≡◌, ℕ, ◌≤◌, List, [], ◌++◌, length, take, IfOk, OnOk, MatchResult};
ghost use Rattle.std.specs.Bool.{OnFalse};
ghost use Rattle.std.specs.Io.KnownBytes.{Appends};
ghost use Rattle.theory.specs.Steps.{Step};
ghost use Rattle.theory.specs.Texts.{proof_text, step_text};
ghost use Rattle.strategies.specs.Begun.{formula_in, lines_in};
ghost use Rattle.join.specs.Before.{before_left, IsBefore};
ghost use Rattle.join.specs.Walking.{line_of, lines_left, IsAtEnd, IsBetweenLines, OnMore};
ghost use Rattle.runs.specs.Written.{Puts};

use crate::fault::RunFault;
use crate::output::write_bytes;
use cnf::Formula;
use join::{Kind, Lines, LinesBefore, ProofLine};
use lrat::{write_clause, write_deletion};
use std::alloc::{AllocError, Global};
use std::io::Write;
use strategies::Begun;

/// How many bytes are written at once, or a few more: whole lines.
pub(crate) const ENOUGH: usize = 65_536;

/// The lines before those of a formula's tree, which is searched from this on.
pub(crate) fn lines_before(
    alloc: Global,
    formula: &Formula,
    begun: &mut Begun,
) -> Result<LinesBefore, AllocError>
    ensures left { IfOk result (λ l. before_left l ≡ lines_in begun.old formula.now) }
    ensures lawful { IfOk result IsBefore }
    ensures formula { OnOk result (formula_in begun.new formula.now ≡ formula_in begun.old formula.now) }
{
    let _vars = formula.vars(); // it ensures what the proof needs of the formula
    let clauses = formula.clause_count() as u64;
    let row = begun.take_lines(alloc);
    let lines = LinesBefore::of(alloc, clauses, row)?;
    Ok(lines)
}

/// Room for lines on their way to a writer. No more is asked for while they are written.
pub(crate) fn room(
    alloc: Global,
    before: &LinesBefore,
    lines: &Lines,
) -> Result<Vec<u8>, AllocError>
    ensures { IfOk result (λ buffer. buffer.items ≡ []) }
{
    let longest = before.line_size().max(lines.line_size());
    Vec::with_capacity(alloc, longest.saturating_add(ENOUGH))
}

/// Puts a line behind the buffer's text.
pub(crate) fn put_text(line: &ProofLine, buffer: &mut Vec<u8>) -> Result<(), AllocError>
    ensures { OnOk result (buffer.new.items ≡ buffer.old.items ++ step_text (line_of line.now)) }
{
    match line.kind {
        Kind::Addition => write_clause(line.id, &line.clause, &line.numbers, buffer)?,
        Kind::Deletion => write_deletion(line.id, &line.numbers, buffer)?,
    }
    Ok(())
}

/// Lines of a proof, of which one after the other is put into a buffer.
pub(crate) trait PutsLines {
    /// The lines that are left.
    ghost left: { Self → List Step };
    /// That the next one can be asked for.
    ghost is_lawful: { Self → Type 0 };
    /// That there is none.
    ghost is_at_end: { Self → Type 0 };

    /// Puts the next line into the buffer; it answers whether there was one more.
    fn put_line(&mut self, buffer: &mut Vec<u8>) -> Result<bool, AllocError>
        requires { is_lawful self.old }
        ensures puts { IfOk result (λ more. Puts (left self.old) (left self.new) buffer.old.items buffer.new.items more) }
        ensures lawful { OnOk result (is_lawful self.new) }
        ensures none { IfOk result (λ more. OnFalse more (left self.new ≡ [])) }
        ensures end { IfOk result (λ more. OnFalse more (is_at_end self.new)) };
}

impl PutsLines for Lines {
    ghost left = { λ lines. lines_left lines };

    ghost is_lawful = { λ lines. IsBetweenLines lines };

    ghost is_at_end = { λ lines. IsAtEnd lines };

    fn put_line(&mut self, buffer: &mut Vec<u8>) -> Result<bool, AllocError> {
        if !self.next_line()? {
            return Ok(false);
        }
        put_text(self.line(), buffer)?;
        Ok(true)
    }
}

impl PutsLines for LinesBefore {
    ghost left = { λ lines. before_left lines };

    ghost is_lawful = { λ lines. IsBefore lines };

    ghost is_at_end = { λ lines. before_left lines ≡ [] };

    fn put_line(&mut self, buffer: &mut Vec<u8>) -> Result<bool, AllocError> {
        if !self.next_line()? {
            return Ok(false);
        }
        put_text(self.line(), buffer)?;
        Ok(true)
    }
}

/// Puts lines into the buffer until it has so many bytes; it answers whether it has.
pub(crate) fn fill<L: PutsLines>(
    lines: &mut L,
    buffer: &mut Vec<u8>,
    enough: usize,
) -> Result<bool, AllocError>
    requires { L.is_lawful lines.old }
    ensures text { OnOk result (buffer.new.items ++ proof_text (L.left lines.new) ≡ buffer.old.items ++ proof_text (L.left lines.old)) }
    ensures lawful { OnOk result (L.is_lawful lines.new) }
    ensures full { IfOk result (λ full. OnMore (enough ≤ length buffer.new.items) full) }
    ensures none { IfOk result (λ full. OnFalse full (L.left lines.new ≡ [])) }
    ensures end { IfOk result (λ full. OnFalse full (L.is_at_end lines.new)) }
{
    'lines: while buffer.len() < enough {
        if !lines.put_line(buffer)? {
            return Ok(false);
        }
    }
    Ok(true)
}

/// Writes the text of lines behind what a buffer has of it, through that buffer, which is empty
/// then. A write fails as in `write_bytes`, and so it does where there is no memory for a line; then
/// a beginning of the text is written.
pub(crate) fn write_lines<W: Write, L: PutsLines>(
    writer: &mut W,
    lines: &mut L,
    buffer: &mut Vec<u8>,
) -> Result<(), RunFault>
    requires { L.is_lawful lines.old }
    ensures written { MatchResult result (λ _. Appends (W.contents writer.old) (W.contents writer.new) (buffer.old.items ++ proof_text (L.left lines.old)))
        (λ e. (e ≡ RunFault.ProofWriteFailed) × (count : ℕ) × Appends (W.contents writer.old) (W.contents writer.new) (take count (buffer.old.items ++ proof_text (L.left lines.old)))) }
    ensures buffer { OnOk result (buffer.new.items ≡ []) }
    ensures end { OnOk result (L.is_at_end lines.new) }
{
    'lines: loop {
        let Ok(full) = fill(lines, buffer, ENOUGH) else {
            return Err(RunFault::ProofWriteFailed);
        };
        let Ok(()) = write_bytes(writer, buffer, RunFault::ProofWriteFailed) else {
            return Err(RunFault::ProofWriteFailed);
        };
        buffer.clear();
        if !full {
            return Ok(());
        }
    }
}

/// Writes the text of lines through a buffer, which is their `room`, and flushes the writer. A
/// write or a flush fails as in `write_text`; then a beginning of the text is written. So it would
/// be where there were no memory for a line.
pub(crate) fn write_proof<W: Write>(
    writer: &mut W,
    lines: &mut Lines,
    buffer: &mut Vec<u8>,
) -> Result<(), RunFault>
    requires buffer { buffer.old.items ≡ [] }
    requires lines { IsBetweenLines lines.old }
    ensures { MatchResult result (λ _. Appends (W.contents writer.old) (W.contents writer.new) (proof_text (lines_left lines.old)))
        (λ e. (e ≡ RunFault.ProofWriteFailed) × (count : ℕ) × Appends (W.contents writer.old) (W.contents writer.new) (take count (proof_text (lines_left lines.old)))) }
{
    write_lines(writer, lines, buffer)?;
    match writer.flush() {
        Ok(()) => Ok(()),
        Err(_) => Err(RunFault::ProofWriteFailed),
    }
}

//! The text of a proof by several hands: each makes that of a part in a thread of its own, and then
//! the parts' texts are written in their order.
ghost use Rattle.std.specs.Prelude.{◌≡◌, ℕ, ◌-◌, ◌<◌, ◌≤◌, List, [], ◌++◌, All, map, length, take, IfOk, OnOk, MatchResult};
ghost use Rattle.std.specs.Io.KnownBytes.{Appends};
ghost use Rattle.theory.specs.Texts.{proof_text};
ghost use Rattle.join.specs.Before.{before_left, IsBefore};
ghost use Rattle.join.specs.Walking.{lines_left, IsBetweenLines, IsBetweenNodes};
ghost use Rattle.runs.specs.Parts.{text_of, whole, AreMade, IsGiven, IsIdle, IsMade};
ghost use Rattle.runs.specs.Written.{IsOnItsWay};

use crate::alone::Output;
use crate::fault::RunFault;
use crate::proof_output::{fill, write_lines, write_proof};
use join::Lines;
use std::alloc::{AllocError, Global};
use std::io::Write;
use std::thread;
use std::thread::Threads;

/// A part has so many bytes of nodes at most, with their lines in rows, but for its last node.
const MOST: usize = 1 << 17;

/// A thread makes so many bytes of a part's text, or a line more: mostly all of it, since a byte in a
/// row comes to two and a half to four of text. What is left is made as the part is written.
const ROOM: usize = 4 * MOST;

/// A part of a proof on its way through a thread.
pub(crate) struct Part {
    lines: Lines,
    buffer: Vec<u8>,
    // a line could not be made
    failed: bool,
}

// written out, so that proofs of its owners stay short (docs/PROVING.md)
impl Drop for Part {
    fn drop(self) {
        let Part {
            lines: _,
            buffer: _,
            failed: _,
        } = self;
    }
}

/// Room for a part of the proof of these lines: some 640 KB, and that of a line and its text. No more
/// is asked for while the proof is written.
fn part_of(alloc: Global, lines: &Lines) -> Result<Part, AllocError>
    ensures { IfOk result IsIdle }
{
    Ok(Part {
        lines: lines.none_beside(alloc, MOST)?,
        buffer: Vec::with_capacity(alloc, lines.line_size().saturating_add(ROOM))?,
        failed: false,
    })
}

/// A part for each hand, and none where there is nothing to share. It fails only where a request for
/// memory is refused.
pub(crate) fn parts_for(alloc: Global, lines: &Lines, hands: usize) -> Result<Vec<Part>, AllocError>
    ensures { IfOk result (λ parts. All IsIdle parts.items) }
{
    let count = if lines.nodes_left() > 1 && hands > 1 {
        hands
    } else {
        0
    };
    let mut parts = Vec::with_capacity(alloc, count)?;
    for _hand in 0..count {
        parts.push(part_of(alloc, lines)?)?;
    }
    Ok(parts)
}

/// How many bytes of nodes a part is to have, for all rounds to be of one size.
fn share_of(lines: &Lines, parts: usize) -> usize {
    let all = lines.size();
    let rounds = all.div_ceil(parts.saturating_mul(MOST).max(1));
    all.div_ceil(parts.saturating_mul(rounds).max(1))
}

impl Part {
    /// Makes the part's text, as far as there is room for it.
    fn make(&mut self)
        requires { IsBetweenLines self.old.lines }
        ensures { IsMade (text_of self.old) self.new }
    {
        self.failed = fill(&mut self.lines, &mut self.buffer, ROOM).is_err();
    }

    /// Writes the part's text, and makes what is left of it. A write fails as in `write_lines`, and so
    /// it does where the part failed; then a beginning of the text is written.
    fn write<W: Write>(&mut self, writer: &mut W) -> Result<(), RunFault>
        requires { (text : List ℕ) × IsMade text self.old }
        ensures written { (text : List ℕ) → IsMade text self.old →
            MatchResult result (λ _. Appends (W.contents writer.old) (W.contents writer.new) text)
            (λ e. (e ≡ RunFault.ProofWriteFailed) × (count : ℕ) × Appends (W.contents writer.old) (W.contents writer.new) (take count text)) }
        ensures idle { OnOk result (IsIdle self.new) }
    {
        if self.failed {
            return Err(RunFault::ProofWriteFailed);
        }
        write_lines(writer, &mut self.lines, &mut self.buffer)?;
        Ok(())
    }
}

/// Hands the next lines out to the parts, in their order.
fn hand_out(lines: &mut Lines, parts: &mut [Part], share: usize) -> Result<(), AllocError>
    requires lines { IsBetweenNodes lines.old }
    requires parts { All IsIdle parts.old }
    ensures text { OnOk result (proof_text (lines_left lines.old) ≡ whole (map text_of parts.new) ++ proof_text (lines_left lines.new)) }
    ensures lines { OnOk result (IsBetweenNodes lines.new) }
    ensures parts { OnOk result (All IsGiven parts.new) }
    ensures fewer { OnOk result (0 < length parts.old → length lines.new.nodes.items ≤ length lines.old.nodes.items - 1) }
{
    for part in parts.iter_mut() {
        lines.hand_over(&mut part.lines, share)?;
    }
    Ok(())
}

/// Makes the texts of the parts, each in a thread of its own where one can be started.
fn make_all<T: Threads + Sync>(rt: &T, parts: &mut [Part])
    requires some { 0 < length parts.old }
    requires given { All IsGiven parts.old }
    ensures { AreMade (map text_of parts.old) parts.new }
{
    let threads = parts.len();
    thread::for_each_mut(
        rt,
        parts,
        threads,
        &|_at: usize, part: &mut Part|
            requires { IsBetweenLines part.now.lines }
            ensures { IsMade (text_of part.entry.now) part.exit.now }
        { part.make() },
    );
}

/// Writes the texts of the parts, in their order. A write fails as that of a part does; then a
/// beginning of them all is written.
fn write_all<W: Write>(writer: &mut W, parts: &mut [Part]) -> Result<(), RunFault>
    requires { (texts : List (List ℕ)) × AreMade texts parts.old }
    ensures written { (texts : List (List ℕ)) → AreMade texts parts.old →
        MatchResult result (λ _. Appends (W.contents writer.old) (W.contents writer.new) (whole texts))
        (λ e. (e ≡ RunFault.ProofWriteFailed) × (count : ℕ) × Appends (W.contents writer.old) (W.contents writer.new) (take count (whole texts))) }
    ensures idle { OnOk result (All IsIdle parts.new) }
{
    for part in parts.iter_mut() {
        let Ok(()) = part.write(writer) else {
            return Err(RunFault::ProofWriteFailed);
        };
    }
    Ok(())
}

/// Writes the text of the next lines: hands them out, has their texts made and writes these. It
/// fails as `write_proof` does.
fn write_round<T: Threads + Sync, W: Write>(
    rt: &T,
    writer: &mut W,
    lines: &mut Lines,
    parts: &mut [Part],
    share: usize,
) -> Result<(), RunFault>
    requires lines { IsBetweenNodes lines.old }
    requires some { 0 < length parts.old }
    requires parts { All IsIdle parts.old }
    ensures written { MatchResult result (λ _. IsOnItsWay (W.contents writer.old) (W.contents writer.new) (proof_text (lines_left lines.new)) (proof_text (lines_left lines.old)))
        (λ e. (e ≡ RunFault.ProofWriteFailed) × (count : ℕ) × Appends (W.contents writer.old) (W.contents writer.new) (take count (proof_text (lines_left lines.old)))) }
    ensures lines { OnOk result (IsBetweenNodes lines.new) }
    ensures parts { OnOk result (All IsIdle parts.new) }
    ensures fewer { OnOk result (length lines.new.nodes.items ≤ length lines.old.nodes.items - 1) }
{
    let Ok(()) = hand_out(lines, parts, share) else {
        return Err(RunFault::ProofWriteFailed);
    };
    make_all(rt, parts);
    let Ok(()) = write_all(writer, parts) else {
        return Err(RunFault::ProofWriteFailed);
    };
    Ok(())
}

/// What `write_proof` does, with the parts of `parts_for`: the same bytes, whatever the schedule.
fn write_by_hands<T: Threads + Sync, W: Write>(
    rt: &T,
    writer: &mut W,
    lines: &mut Lines,
    buffer: &mut Vec<u8>,
    parts: &mut [Part],
) -> Result<(), RunFault>
    requires buffer { buffer.old.items ≡ [] }
    requires lines { IsBetweenNodes lines.old }
    requires parts { All IsIdle parts.old }
    ensures { MatchResult result (λ _. Appends (W.contents writer.old) (W.contents writer.new) (proof_text (lines_left lines.old)))
        (λ e. (e ≡ RunFault.ProofWriteFailed) × (count : ℕ) × Appends (W.contents writer.old) (W.contents writer.new) (take count (proof_text (lines_left lines.old)))) }
{
    let share = share_of(lines, parts.len());
    'rounds: while parts.len() > 0 && lines.nodes_left() > 0 {
        let Ok(()) = write_round(rt, writer, lines, parts, share) else {
            return Err(RunFault::ProofWriteFailed);
        };
    }
    // nothing is left but where there are no parts
    let Ok(()) = write_proof(writer, lines, buffer) else {
        return Err(RunFault::ProofWriteFailed);
    };
    Ok(())
}

/// What `write_output` does, by several hands: one writes the lines before, and all those of the
/// tree.
pub(crate) fn write_output_by_hands<T: Threads + Sync, W: Write>(
    rt: &T,
    writer: &mut W,
    output: &mut Output,
    parts: &mut [Part],
) -> Result<(), RunFault>
    requires before { IsBefore output.old.before }
    requires lines { IsBetweenNodes output.old.lines }
    requires buffer { output.old.buffer.items ≡ [] }
    requires parts { All IsIdle parts.old }
    ensures written { MatchResult result (λ _. Appends (W.contents writer.old) (W.contents writer.new) (proof_text (before_left output.old.before ++ lines_left output.old.lines)))
        (λ e. (e ≡ RunFault.ProofWriteFailed) × (count : ℕ) × Appends (W.contents writer.old) (W.contents writer.new) (take count (proof_text (before_left output.old.before ++ lines_left output.old.lines)))) }
    ensures kept { (output.new.verdict ≡ output.old.verdict) × (output.new.answer ≡ output.old.answer) }
{
    write_lines(writer, &mut output.before, &mut output.buffer)?;
    write_by_hands(rt, writer, &mut output.lines, &mut output.buffer, parts)?;
    Ok(())
}

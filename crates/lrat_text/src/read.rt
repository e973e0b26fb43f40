//! The text of a proof, as it is read.
ghost use Rattle.std.specs.Prelude.{◌≡◌, ◌+◌, ◌<◌, ◌≤◌, length, drop, map, MatchResult, if◌then◌else◌};
ghost use Rattle.theory.specs.Reading.{standard};
ghost use Rattle.theory.specs.ProofReading.{steps, line_fault, line_not_ended, ProofReads};
ghost use Rattle.theory.specs.Tokens.{lines_of};
ghost use Rattle.lrat_text.specs.Steps.{step_of};
ghost use Rattle.lrat_text.specs.Faults.{HasFault};
ghost use Rattle.lrat_text.specs.LineMachine.{has_line_feed, fault_in, read_lines, with_step};
ghost use Rattle.lrat_text.specs.LineStates.{state_of, IsFault};

use crate::fault::TextFault;
use crate::line::Line;
use crate::step::Step;
use crate::word::{LINE_FEED, Word, is_blank, read_word};
use std::alloc::Global;

/// The greatest length of a proof's text, in bytes.
pub const MAX_BYTES: usize = 4_294_967_296;

/// Whether a line feed is among the bytes.
fn has_line_feed(bytes: &[u8]) -> bool
    ensures { result ≡ has_line_feed bytes.now }
{
    for byte in bytes {
        if *byte == LINE_FEED {
            return true;
        }
    }
    false
}

/// The fault of a word that can't stand next, where `rest` follows it: a line that isn't ended is
/// at fault for that alone.
fn refusal(line: &Line, word: Word, rest: &[u8], number: u64) -> TextFault
    ensures { let fault = (if has_line_feed rest.now then fault_in (state_of line.now) word else line_not_ended) in
        IsFault result (line_fault fault number) }
{
    if has_line_feed(rest) {
        line.fault(word).at(number)
    } else {
        TextFault::LineNotEnded(number)
    }
}

/// Reads the line that begins at `start`, and says where the next one begins.
fn read_line(
    line: &mut Line,
    bytes: &[u8],
    start: usize,
    number: u64,
) -> Result<(Step, usize), TextFault>
    requires { start < length bytes.now }
    ensures read { let reading = read_lines number (lines_of (drop start bytes.now)) in
        MatchResult result
        (λ r. reading ≡ with_step (step_of r.0) (read_lines (number + 1) (lines_of (drop r.1 bytes.now))))
        (λ e. IsFault e reading) }
    ensures forward { MatchResult result (λ r. (start < r.1) × (r.1 ≤ length bytes.now)) (λ _. Unit {0}) }
{
    line.begin();
    let mut at = start;
    while at < bytes.len() {
        let byte = bytes[at];
        if byte == LINE_FEED {
            let Some(step) = line.finish()? else {
                return Err(TextFault::BadShape(number));
            };
            return Ok((step, at + 1));
        }
        if is_blank(byte) {
            at += 1;
        } else {
            let (word, end) = read_word(bytes, at);
            if !line.take(word)? {
                return Err(refusal(line, word, &bytes[end..], number));
            }
            at = end;
        }
    }
    Err(TextFault::LineNotEnded(number))
}

/// Reads the text of a proof, in one pass: its steps, in their order, or the fault of the first
/// line at fault. A text of more than 4,294,967,296 bytes is too long, whatever it holds. It takes
/// memory for the steps, and for the lists of one line; where memory is refused, what was read is
/// let go.
pub fn read_proof(alloc: Global, bytes: &[u8]) -> Result<Vec<Step>, TextFault>
    ensures { MatchResult result
        (λ v. ProofReads bytes.now (steps (map step_of v.items)))
        (λ e. HasFault standard bytes.now e) }
{
    if bytes.len() > MAX_BYTES {
        return Err(TextFault::TooLong);
    }
    let mut line = Line::new(alloc);
    let mut steps = Vec::new(alloc);
    let mut at = 0;
    let mut number = 1;
    while at < bytes.len() {
        let (step, end) = read_line(&mut line, bytes, at, number)?;
        steps.push(step)?;
        at = end;
        number += 1;
    }
    Ok(steps)
}

//! The line that the checker writes of a proof.
ghost use Rattle.std.specs.Prelude.{◌≡◌, ℕ, List, true, is_some, IfOk, IfSome, MatchResult};
ghost use Rattle.theory.specs.Truth.{Formula};
ghost use Rattle.theory.specs.Reading.{Limits};
ghost use Rattle.theory.specs.ProofReading.{ProofReading, ProofReadsWithin};
ghost use Rattle.theory.specs.Checking.{accepted};
ghost use Rattle.lrat.specs.Running.{IsSaid};
ghost use Rattle.lrat_text.specs.Streams.{answer_to, checked};
ghost use Rattle.runs.specs.Check.{IsLine, place_in_text, place_in_steps, refused_text};

use itoa::Buffer;
use lrat::{CheckFault, Refusal, TextFault};
use std::alloc::{AllocError, Global};

/// What the checker says of a proof.
#[derive(Clone, Copy, Debug, PartialEq, Eq)]
pub enum Checked {
    Accepted,
    Refused,
}

/// Where a proof is at fault.
#[derive(Clone, Copy)]
enum Place {
    Step(u64),
    Line(u64),
}

/// The verdict on a proof, and its line.
#[derive(Drop)]
pub(crate) struct CheckedLine {
    pub(crate) checked: Checked,
    pub(crate) text: Vec<u8>,
}

/// The line of a proof that is refused.
fn refused_text(alloc: Global, number: u32, place: Place) -> Result<Vec<u8>, AllocError>
    ensures { IfOk result (λ v. v.items ≡ refused_text number place) }
{
    let mut buffer = Buffer::new();
    let mut line = Vec::from_slice(alloc, b"refused ")?;
    line.extend_from_slice(buffer.format(number).as_bytes())?;
    match place {
        Place::Step(step) => {
            line.extend_from_slice(b" step ")?;
            line.extend_from_slice(buffer.format(step).as_bytes())?;
        }
        Place::Line(number) => {
            line.extend_from_slice(b" line ")?;
            line.extend_from_slice(buffer.format(number).as_bytes())?;
        }
    }
    line.push(b'\n')?;
    Ok(line)
}

/// The line of the text at fault, where there is one.
fn place_in_text(fault: TextFault) -> Option<Place>
    ensures { result ≡ place_in_text fault }
{
    match fault {
        TextFault::BadNumber(line) | TextFault::LineNotEnded(line) | TextFault::BadShape(line) =>
            Some(Place::Line(line)),
        TextFault::TooLong | TextFault::NoMemory => None,
    }
}

/// The step at fault, where there is one.
fn place_in_steps(fault: CheckFault) -> Option<Place>
    ensures { result ≡ place_in_steps fault }
{
    match fault.step() {
        Some(step) => Some(Place::Step(step)),
        None => None,
    }
}

/// The line of a proof that is at fault at a place. Without one, memory was refused.
fn refused(alloc: Global, number: u32, place: Option<Place>) -> Result<CheckedLine, AllocError>
    ensures { IfOk result (λ l. (l.checked ≡ Checked.Refused) × IfSome place (λ p. l.text.items ≡ refused_text number p) × (is_some place ≡ true)) }
{
    match place {
        None => Err(AllocError),
        Some(place) => Ok(CheckedLine {
            checked: Checked::Refused,
            text: refused_text(alloc, number, place)?,
        }),
    }
}

/// The line of a proof that is refused as a whole.
fn refused_whole(alloc: Global, line: &[u8]) -> Result<CheckedLine, AllocError>
    ensures { IfOk result (λ l. (l.checked ≡ Checked.Refused) × (l.text.items ≡ line.now)) }
{
    Ok(CheckedLine {
        checked: Checked::Refused,
        text: Vec::from_slice(alloc, line)?,
    })
}

/// The line of a verdict on a proof. It fails only where a request for memory is refused.
pub(crate) fn checked_line(
    alloc: Global,
    verdict: Result<(), Refusal>,
) -> Result<CheckedLine, AllocError>
    ensures { (L : Limits) (F : Formula) (bytes : List ℕ) (r : ProofReading) → ProofReadsWithin L bytes r →
        MatchResult verdict (λ _. answer_to F r ≡ checked accepted) (IsSaid (answer_to F r)) →
        IfOk result (λ l. IsLine L F bytes l.checked l.text.items) }
{
    match verdict {
        Ok(()) => Ok(CheckedLine {
            checked: Checked::Accepted,
            text: Vec::from_slice(alloc, b"accepted\n")?,
        }),
        Err(Refusal::Text(TextFault::TooLong)) => refused_whole(alloc, b"refused 45\n"),
        Err(Refusal::Text(fault)) => refused(alloc, fault.number(), place_in_text(fault)),
        Err(Refusal::Steps(CheckFault::NoEmptyClause)) => refused_whole(alloc, b"refused 30\n"),
        Err(Refusal::Steps(fault)) => refused(alloc, fault.number(), place_in_steps(fault)),
    }
}

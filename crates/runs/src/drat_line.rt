//! The line that the checker writes of a proof in DRAT.
ghost use Rattle.std.specs.Prelude.{◌≡◌, ℕ, List, IsSome, IfOk, MatchResult};
ghost use Rattle.theory.specs.Truth.{Formula};
ghost use Rattle.theory.specs.Reading.{Limits};
ghost use Rattle.theory.specs.ProofReading.{ProofReading, ProofReadsWithin};
ghost use Rattle.theory.specs.Checking.{accepted};
ghost use Rattle.lrat.specs.Running.{IsSaid};
ghost use Rattle.lrat_text.specs.Streams.{answer_to, checked};
ghost use Rattle.runs.specs.Drat.{IsDratLine};

use crate::checked_line::{Checked, CheckedLine, checked_line};
use drat::{DratFault, FaultPlace};
use itoa::Buffer;
use lrat::Refusal;
use std::alloc::{AllocError, Global};

/// The line of a proof with this fault.
fn fault_text(alloc: Global, fault: DratFault) -> Result<Vec<u8>, AllocError> {
    let mut buffer = Buffer::new();
    let mut line = Vec::from_slice(alloc, b"refused ")?;
    line.extend_from_slice(buffer.format(fault.wrong.number()).as_bytes())?;
    let place = match fault.place {
        FaultPlace::Line(place) => {
            line.extend_from_slice(b" line ")?;
            place
        }
        FaultPlace::Byte(place) => {
            line.extend_from_slice(b" byte ")?;
            place
        }
    };
    line.extend_from_slice(buffer.format(place).as_bytes())?;
    line.push(b'\n')?;
    Ok(line)
}

/// The line of a proof in DRAT that has this fault or none, where this is the verdict on the proof
/// in LRAT that was made of it. A fault refuses it, whatever the verdict.
pub(crate) fn drat_line(
    alloc: Global,
    verdict: Result<(), Refusal>,
    fault: Option<DratFault>,
) -> Result<CheckedLine, AllocError>
    ensures line { (L : Limits) (F : Formula) (bytes : List ℕ) (r : ProofReading) → ProofReadsWithin L bytes r →
        MatchResult verdict (λ _. answer_to F r ≡ checked accepted) (IsSaid (answer_to F r)) →
        IfOk result (λ l. IsDratLine F l.checked l.text.items) }
    ensures fault { IsSome fault → IfOk result (λ l. l.checked ≡ Checked.Refused) }
{
    match fault {
        Some(fault) => Ok(CheckedLine {
            checked: Checked::Refused,
            text: fault_text(alloc, fault)?,
        }),
        None => checked_line(alloc, verdict),
    }
}

//! The text of a proof.
ghost use Rattle.std.specs.Prelude.{◌≡◌, map, IfOk};
ghost use Rattle.theory.specs.Texts.{proof_text};
ghost use Rattle.lrat_text.specs.Steps.{step_of};

use lrat::{Step, line_size, write_step};
use std::alloc::{AllocError, Global};

/// How many bytes steps have.
fn text_size(steps: &[Step]) -> usize {
    let mut size = 0usize;
    for step in steps {
        size = size.saturating_add(line_size(step));
    }
    size
}

/// The text of the steps: a line each. Its memory is asked for once, in a first pass over the
/// steps. It fails only where that is refused.
pub fn proof_bytes(alloc: Global, steps: &[Step]) -> Result<Vec<u8>, AllocError>
    ensures { IfOk result (λ v. v.items ≡ proof_text (map step_of steps.now)) }
{
    let mut text = Vec::with_capacity(alloc, text_size(steps))?;
    for step in steps {
        write_step(step, &mut text)?;
    }
    Ok(text)
}

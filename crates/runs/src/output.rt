//! Writing a text, with nothing tried again.
ghost use Rattle.std.specs.Prelude.{◌≡◌, ℕ, take, MatchResult};
ghost use Rattle.std.specs.Io.KnownBytes.{Appends};

use crate::fault::RunFault;
use std::io::Write;

/// Writes the text. A write that answers an error, or takes no byte of a text that isn't empty, has
/// failed; then a beginning of the text is written, and the answer is `fault`.
pub(crate) fn write_bytes<W: Write>(
    writer: &mut W,
    text: &[u8],
    fault: RunFault,
) -> Result<(), RunFault>
    ensures { MatchResult result (λ _. Appends (W.contents writer.old) (W.contents writer.new) text.now)
        (λ e. (e ≡ fault) × (count : ℕ) × Appends (W.contents writer.old) (W.contents writer.new) (take count text.now)) }
{
    let mut written = 0usize;
    while written < text.len() {
        match writer.write(&text[written..]) {
            Ok(0) | Err(_) => return Err(fault),
            Ok(count) => written += count,
        }
    }
    Ok(())
}

/// Writes the text and flushes the writer. A flush that answers an error has failed, as has a write
/// as in `write_bytes`; then a beginning of the text is written, and the answer is `fault`.
pub(crate) fn write_text<W: Write>(
    writer: &mut W,
    text: &[u8],
    fault: RunFault,
) -> Result<(), RunFault>
    ensures { MatchResult result (λ _. Appends (W.contents writer.old) (W.contents writer.new) text.now)
        (λ e. (e ≡ fault) × (count : ℕ) × Appends (W.contents writer.old) (W.contents writer.new) (take count text.now)) }
{
    write_bytes(writer, text, fault)?;
    match writer.flush() {
        Ok(()) => Ok(()),
        Err(_) => Err(fault),
    }
}

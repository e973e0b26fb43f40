//! A word while its bytes come one by one.
ghost use Rattle.std.specs.Prelude.{◌≡◌, ◌≤◌, None, IfOk, length};
ghost use Rattle.lrat_text.specs.LineMachine.{IsWithin};
ghost use Rattle.lrat_text.specs.LineStates.{state_of};
ghost use Rattle.lrat_text.specs.Streams.{with_byte, ended};
ghost use Rattle.lrat_text.specs.Begun.{begun_of, IsCounted, Ends};
ghost use Rattle.lrat_text.specs.Pieces.{IsBegunWord, TakesWord};

use crate::fault::LineFault;
use crate::line::Line;
use crate::word::{ABOVE_MAX, Word, ends_word, with_digit};
use std::alloc::AllocError;

/// A word of which so many bytes came. The size of a number above the greatest is one above it.
#[derive(Clone, Copy)]
pub(crate) enum Begun {
    Nothing,
    Zero,
    Minus,
    Mark,
    Other,
    Positive(u64),
    Negative(u64),
}

/// The word with one byte more.
pub(crate) fn with_byte(begun: Begun, byte: u8) -> Begun
    requires { IsCounted begun }
    ensures word { begun_of result ≡ with_byte (begun_of begun) byte }
    ensures counted { IsCounted result }
{
    let is_digit = byte.is_ascii_digit();
    match begun {
        Begun::Nothing => {
            if is_digit && byte != b'0' {
                Begun::Positive((byte - b'0') as u64)
            } else if byte == b'0' {
                Begun::Zero
            } else if byte == b'-' {
                Begun::Minus
            } else if byte == b'd' {
                Begun::Mark
            } else {
                Begun::Other
            }
        }
        Begun::Minus => {
            if is_digit && byte != b'0' {
                Begun::Negative((byte - b'0') as u64)
            } else {
                Begun::Other
            }
        }
        Begun::Positive(size) => {
            if is_digit {
                Begun::Positive(with_digit(size, byte - b'0'))
            } else {
                Begun::Other
            }
        }
        Begun::Negative(size) => {
            if is_digit {
                Begun::Negative(with_digit(size, byte - b'0'))
            } else {
                Begun::Other
            }
        }
        Begun::Zero | Begun::Mark | Begun::Other => Begun::Other,
    }
}

/// Takes the digits from `start` on behind a number of this size, and says where the first byte
/// stands that is none.
pub(crate) fn take_digits(size: u64, bytes: &[u8], start: usize) -> (u64, usize)
    requires size { (1 ≤ size) × (size ≤ ABOVE_MAX) }
    requires inside { start ≤ length bytes.now }
    ensures size { (1 ≤ result.0) × (result.0 ≤ ABOVE_MAX) }
    ensures positive { TakesWord bytes.now (Begun.Positive size) start (Begun.Positive result.0) result.1 }
    ensures negative { TakesWord bytes.now (Begun.Negative size) start (Begun.Negative result.0) result.1 }
    ensures begun { (IsBegunWord (Begun.Positive size) → IsBegunWord (Begun.Positive result.0)) × (IsBegunWord (Begun.Negative size) → IsBegunWord (Begun.Negative result.0)) }
    ensures forward { start ≤ result.1 }
    ensures within { result.1 ≤ length bytes.now }
{
    let mut size = size;
    let mut at = start;
    while at < bytes.len() && bytes[at].is_ascii_digit() {
        size = with_digit(size, bytes[at] - b'0');
        at += 1;
    }
    (size, at)
}

/// Takes the bytes of the word that is begun, from `start` on, and says where the first byte stands
/// that is none of it.
pub(crate) fn take_word(begun: Begun, bytes: &[u8], start: usize) -> (Begun, usize)
    requires begun { IsBegunWord begun }
    requires inside { start ≤ length bytes.now }
    ensures begun { IsBegunWord result.0 }
    ensures taken { TakesWord bytes.now begun start result.0 result.1 }
    ensures forward { start ≤ result.1 }
    ensures within { result.1 ≤ length bytes.now }
{
    let mut begun = begun;
    let mut at = start;
    while at < bytes.len() && !ends_word(bytes[at]) {
        begun = with_byte(begun, bytes[at]);
        at += 1;
        match begun {
            Begun::Positive(size) => {
                let (more, end) = take_digits(size, bytes, at);
                begun = Begun::Positive(more);
                at = end;
            }
            Begun::Negative(size) => {
                let (more, end) = take_digits(size, bytes, at);
                begun = Begun::Negative(more);
                at = end;
            }
            _ => {}
        }
    }
    (begun, at)
}

/// Ends the word that is begun, if one is: its fault, where it can't stand in the line.
pub(crate) fn end_word(line: &mut Line, begun: Begun) -> Result<Option<LineFault>, AllocError>
    requires within { IsWithin (state_of line.old) }
    requires counted { IsCounted begun }
    ensures { IfOk result (λ fault. Ends (ended (state_of line.old) (begun_of begun)) fault line.old line.new) }
{
    let word = match begun {
        Begun::Nothing => return Ok(None),
        Begun::Zero => Word::Zero,
        Begun::Mark => Word::Mark,
        Begun::Minus | Begun::Other => Word::Other,
        Begun::Positive(size) => Word::Positive(size),
        Begun::Negative(size) => Word::Negative(size),
    };
    if line.take(word)? {
        Ok(None)
    } else {
        Ok(Some(line.fault(word)))
    }
}

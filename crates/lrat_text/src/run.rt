//! Numbers that stand whole among the bytes of a piece, each with a blank behind it: nearly all of
//! a proof's bytes. What else comes, and what stands at a piece's edge, is read byte by byte.
ghost use Rattle.std.specs.Prelude.{◌≡◌, ◌≤◌, ◌<◌, ℕ, List, All, IfOk, IfSome, OnOk, length, slice_index};
ghost use Rattle.theory.specs.ProofReading.{IsNumber, IsLiteral};
ghost use Rattle.theory.specs.Texts.{minus};
ghost use Rattle.lrat_text.specs.LineMachine.{LineState, at_clause};
ghost use Rattle.lrat_text.specs.Runs.{StandsWhole, IsLiteralAt, TakesNumbers, TakesRun};

use crate::begun::take_digits;
use crate::word::{MAX_LITERAL, MAX_NUMBER, is_blank};
use cnf::Lit;
use std::alloc::AllocError;

/// The number that stands whole from `start` on, and where the blank behind it stands.
fn whole_number(bytes: &[u8], start: usize) -> Option<(u64, usize)>
    requires inside { start < length bytes.now }
    ensures { IfSome result (λ r. StandsWhole bytes.now start r.0 r.1) }
{
    let first = bytes[start];
    if !first.is_ascii_digit() || first == b'0' {
        return None;
    }
    let (number, end) = take_digits((first - b'0') as u64, bytes, start + 1);
    if end < bytes.len() && is_blank(bytes[end]) && number <= MAX_NUMBER {
        Some((number, end))
    } else {
        None
    }
}

/// The literal without a sign that stands whole from `start` on, and where the blank behind it
/// stands.
fn positive_literal(bytes: &[u8], start: usize) -> Option<(Lit, usize)>
    requires inside { start < length bytes.now }
    ensures { IfSome result (λ r. IsLiteralAt bytes.now start r.0 r.1) }
{
    match whole_number(bytes, start) {
        Some((size, end)) if size <= MAX_LITERAL => Some((Lit::of(size as u32, true), end)),
        _ => None,
    }
}

/// The literal with the minus at `start` that stands whole, and where the blank behind it stands.
fn negative_literal(bytes: &[u8], start: usize) -> Option<(Lit, usize)>
    requires inside { start < length bytes.now }
    requires sign { slice_index bytes.now start ≡ minus }
    ensures { IfSome result (λ r. IsLiteralAt bytes.now start r.0 r.1) }
{
    if start + 1 >= bytes.len() {
        return None;
    }
    match whole_number(bytes, start + 1) {
        Some((size, end)) if size <= MAX_LITERAL => Some((Lit::of(size as u32, false), end)),
        _ => None,
    }
}

/// The literal that stands whole from `start` on, and where the blank behind it stands.
fn whole_literal(bytes: &[u8], start: usize) -> Option<(Lit, usize)>
    requires inside { start < length bytes.now }
    ensures { IfSome result (λ r. IsLiteralAt bytes.now start r.0 r.1) }
{
    if bytes[start] == b'-' {
        negative_literal(bytes, start)
    } else {
        positive_literal(bytes, start)
    }
}

/// Puts the numbers that stand whole from `start` on behind others, and says where the first byte
/// stands that wasn't taken.
pub(crate) fn take_numbers(
    numbers: &mut Vec<u64>,
    bytes: &[u8],
    start: usize,
) -> Result<usize, AllocError>
    requires inside { start ≤ length bytes.now }
    ensures taken { IfOk result (λ end. (f : List ℕ → LineState) → TakesNumbers f → TakesRun bytes.now (f numbers.old.items) start (f numbers.new.items) end) }
    ensures numbers { OnOk result (All IsNumber numbers.old.items → All IsNumber numbers.new.items) }
    ensures forward { IfOk result (λ end. (start ≤ end) × (end ≤ length bytes.now)) }
{
    let mut at = start;
    while at < bytes.len() {
        let Some((number, end)) = whole_number(bytes, at) else {
            break;
        };
        numbers.push(number)?;
        at = end + 1;
    }
    Ok(at)
}

/// Puts the literals that stand whole from `start` on behind others, and says where the first byte
/// stands that wasn't taken.
pub(crate) fn take_literals(
    clause: &mut Vec<Lit>,
    bytes: &[u8],
    start: usize,
) -> Result<usize, AllocError>
    requires inside { start ≤ length bytes.now }
    ensures taken { IfOk result (λ end. (id : ℕ) → TakesRun bytes.now (at_clause id clause.old.items) start (at_clause id clause.new.items) end) }
    ensures literals { OnOk result (All IsLiteral clause.old.items → All IsLiteral clause.new.items) }
    ensures forward { IfOk result (λ end. (start ≤ end) × (end ≤ length bytes.now)) }
{
    let mut at = start;
    while at < bytes.len() {
        let Some((lit, end)) = whole_literal(bytes, at) else {
            break;
        };
        clause.push(lit)?;
        at = end + 1;
    }
    Ok(at)
}

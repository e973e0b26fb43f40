//! Bytes of a text: places, blanks, comments and words.
ghost use Rattle.std.specs.Prelude.{◌≡◌, ℕ, ◌≤◌, ◌<◌, ◌+◌, ◌≢◌, true, false, length, drop, slice_index};
ghost use Rattle.theory.specs.Tokens as tokens;
ghost use Rattle.theory.specs.Tokens.{lines_of, is_text};
ghost use Rattle.cnf.specs.Faults.{place_in};
ghost use Rattle.cnf.specs.Tokens.{Part, in_header, place_at, place_behind, tokens_left, lines_tokens, is_word_byte};

use crate::fault::Place;

/// How many bytes are searched for LF at a time.
const BLOCK: usize = 128;

/// How many of at most 255 bytes are LF. A count that is a byte itself compiles to code that takes
/// 16 bytes at once.
fn count_lf(block: &[u8]) -> u8
    requires { length block.now ≤ 255 }
    ensures lines { (p : tokens.Place) → (place_behind p block.now).line ≡ p.line + result }
    ensures few { result ≤ length block.now }
{
    let mut count = 0;
    for byte in block {
        if *byte == b'\n' {
            count += 1;
        }
    }
    count
}

/// The line of the byte at an index, from 1. Line and column counted together, byte by byte, took a
/// fifth of the time in which a long text was refused.
fn line_of(bytes: &[u8], index: usize) -> u64
    requires { index ≤ length bytes.now }
    ensures { result ≡ (place_at bytes.now index).line }
{
    let mut line = 1;
    let mut at = 0;
    while at < index {
        let next = index.min(at + BLOCK);
        line += u64::from(count_lf(&bytes[at..next]));
        at = next;
    }
    line
}

/// The index of the first byte of the line of the byte at an index.
fn line_start(bytes: &[u8], index: usize) -> usize
    requires { index ≤ length bytes.now }
    ensures within { result ≤ index }
    ensures first { (place_at bytes.now result).column ≡ 1 }
    ensures all { (k : ℕ) → result ≤ k → k < index → slice_index bytes.now k ≢ 10 }
{
    let mut at = index;
    while at > 0 && bytes[at - 1] != b'\n' {
        at -= 1;
    }
    at
}

/// Where the byte at an index stands. It walks over the bytes before it.
#[cold]
#[inline(never)]
pub fn place_at(bytes: &[u8], index: usize) -> Place
    requires { index ≤ length bytes.now }
    ensures { place_in result ≡ place_at bytes.now index }
{
    let before = index - line_start(bytes, index);
    Place {
        line: line_of(bytes, index),
        column: before as u64 + 1,
    }
}

/// Whether bytes are a text.
pub fn is_text(bytes: &[u8], text: &[u8]) -> bool
    ensures { result ≡ is_text bytes.now text.now }
{
    bytes == text
}

/// Whether a byte is neither blank nor LF.
#[inline]
pub fn is_word_byte(byte: u8) -> bool
    ensures { result ≡ is_word_byte byte }
{
    !(byte == b' ' || (byte == b'\t' || byte == b'\r') || byte == b'\n')
}

/// The index of the first byte from an index on that is no part of a word.
#[inline]
pub fn word_end(bytes: &[u8], from: usize) -> usize
    requires { from ≤ length bytes.now }
    ensures above { from ≤ result }
    ensures within { result ≤ length bytes.now }
    ensures all { (k : ℕ) → from ≤ k → k < result → is_word_byte (slice_index bytes.now k) ≡ true }
    ensures end { result < length bytes.now → is_word_byte (slice_index bytes.now result) ≡ false }
{
    let mut at = from;
    while at < bytes.len() && is_word_byte(bytes[at]) {
        at += 1;
    }
    at
}

/// The index of the first LF from an index on.
fn line_end(bytes: &[u8], from: usize) -> usize
    requires { from ≤ length bytes.now }
    ensures above { from ≤ result }
    ensures within { result ≤ length bytes.now }
    ensures all { (k : ℕ) → from ≤ k → k < result → slice_index bytes.now k ≢ 10 }
    ensures end { result < length bytes.now → slice_index bytes.now result ≡ 10 }
{
    let mut at = from;
    while at < bytes.len() && bytes[at] != b'\n' {
        at += 1;
    }
    at
}

/// From the first byte of a line to its end if it is a comment.
#[inline]
pub fn skip_comment(bytes: &[u8], from: usize) -> usize
    requires within { from ≤ length bytes.now }
    requires first { (place_at bytes.now from).column ≡ 1 }
    ensures above { from ≤ result }
    ensures within { result ≤ length bytes.now }
    ensures tokens { (part : Part) → part ≢ in_header →
        tokens_left part bytes.now result ≡ lines_tokens part (place_at bytes.now from).line (lines_of (drop from bytes.now)) }
{
    if from < bytes.len() && bytes[from] == b'c' {
        line_end(bytes, from)
    } else {
        from
    }
}

/// The index of the next token's first byte from an index within a line on, or the text's length.
/// Comments are passed over.
#[inline]
pub fn skip_to_token(bytes: &[u8], from: usize) -> usize
    requires { from ≤ length bytes.now }
    ensures above { from ≤ result }
    ensures within { result ≤ length bytes.now }
    ensures tokens { (part : Part) → part ≢ in_header → tokens_left part bytes.now result ≡ tokens_left part bytes.now from }
    ensures word { result < length bytes.now → is_word_byte (slice_index bytes.now result) ≡ true }
{
    let mut at = from;
    while at < bytes.len() && !is_word_byte(bytes[at]) {
        let next = at + 1;
        at = if bytes[at] == b'\n' {
            skip_comment(bytes, next)
        } else {
            next
        };
    }
    at
}

/// The index of the next token's first byte in the header's line from an index on, or that of the
/// line's end.
pub fn skip_blanks(bytes: &[u8], from: usize) -> usize
    requires { from ≤ length bytes.now }
    ensures above { from ≤ result }
    ensures within { result ≤ length bytes.now }
    ensures tokens { tokens_left in_header bytes.now result ≡ tokens_left in_header bytes.now from }
    ensures end { result < length bytes.now → slice_index bytes.now result ≢ 10 → is_word_byte (slice_index bytes.now result) ≡ true }
{
    let mut at = from;
    while at < bytes.len() && bytes[at] != b'\n' && !is_word_byte(bytes[at]) {
        at += 1;
    }
    at
}

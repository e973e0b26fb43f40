//! Words read as numbers.
ghost use Rattle.std.specs.Prelude.{◌≡◌, ℕ, ◌≤◌, ◌<◌, true, false, min, length, slice_index, slice_range};
ghost use Rattle.std.specs.Char.{is_ascii_digit};
ghost use Rattle.std.specs.Str.{all_ascii_digits};
ghost use Rattle.std.specs.Str.Parse.{digits_value};
ghost use Rattle.cnf.specs.Tokens.{is_word_byte};
ghost use Rattle.cnf.specs.Words.{IsWordAt, IsNumberOf, is_plain_text};

use crate::scan::{is_word_byte, word_end};

/// A size above each limit. Greater sizes are read as this one.
const CAP: u64 = 10_000_000_000;

/// A word from a byte on: where it ends, whether it is a natural or a negative number, and the
/// number's size.
#[derive(Clone, Copy)]
pub struct Number {
    pub end: usize,
    pub natural: bool,
    pub negative: bool,
    pub size: u64,
}

/// Digits from a byte on: where they end, and their value.
#[derive(Clone, Copy)]
struct Digits {
    end: usize,
    size: u64,
}

/// Digits from an index on, up to the first size that reaches the cap: so their value needs no cap
/// of its own at each of them.
#[inline]
fn read_short(bytes: &[u8], from: usize) -> Digits
    requires { from ≤ length bytes.now }
    ensures above { from ≤ result.end }
    ensures within { result.end ≤ length bytes.now }
    ensures digits { all_ascii_digits (slice_range bytes.now from result.end) ≡ true }
    ensures size { result.size ≡ digits_value 10 (slice_range bytes.now from result.end) }
{
    let mut end = from;
    let mut size = 0;
    while end < bytes.len() && bytes[end].is_ascii_digit() && size < CAP {
        size = size * 10 + u64::from(bytes[end] - b'0');
        end += 1;
    }
    Digits { end, size }
}

/// The longest run of digits from an index on.
fn read_digits(bytes: &[u8], from: usize) -> Digits
    requires { from ≤ length bytes.now }
    ensures above { from ≤ result.end }
    ensures within { result.end ≤ length bytes.now }
    ensures digits { all_ascii_digits (slice_range bytes.now from result.end) ≡ true }
    ensures end { result.end < length bytes.now → is_ascii_digit (slice_index bytes.now result.end) ≡ false }
    ensures size { result.size ≡ min 10000000000 (digits_value 10 (slice_range bytes.now from result.end)) }
{
    let mut end = from;
    let mut size = 0;
    while end < bytes.len() && bytes[end].is_ascii_digit() {
        size = CAP.min(size * 10 + u64::from(bytes[end] - b'0'));
        end += 1;
    }
    Digits { end, size }
}

/// Whether digits are a number's: without a leading zero, and no lone zero behind a minus.
#[inline]
fn is_plain(bytes: &[u8], from: usize, end: usize, minus: bool) -> bool
    requires above { from ≤ end }
    requires within { end ≤ length bytes.now }
    requires digits { all_ascii_digits (slice_range bytes.now from end) ≡ true }
    ensures { result ≡ is_plain_text minus (slice_range bytes.now from end) }
{
    from < end && (bytes[from] != b'0' || (end == from + 1 && !minus))
}

/// What `read_plain` says, of any word.
#[cold]
#[inline(never)]
fn read_long(bytes: &[u8], from: usize, minus: bool) -> (Digits, bool)
    requires { from ≤ length bytes.now }
    ensures above { from ≤ result.0.end }
    ensures within { result.0.end ≤ length bytes.now }
    ensures all { (k : ℕ) → from ≤ k → k < result.0.end → is_word_byte (slice_index bytes.now k) ≡ true }
    ensures end { result.0.end < length bytes.now → is_word_byte (slice_index bytes.now result.0.end) ≡ false }
    ensures plain { result.1 ≡ is_plain_text minus (slice_range bytes.now from result.0.end) }
    ensures size { result.1 ≡ true → result.0.size ≡ min 10000000000 (digits_value 10 (slice_range bytes.now from result.0.end)) }
{
    let digits = read_digits(bytes, from);
    let end = word_end(bytes, digits.end);
    let whole = end == digits.end && is_plain(bytes, from, digits.end, minus);
    (
        Digits {
            end,
            size: digits.size,
        },
        whole,
    )
}

/// The rest of a word from an index on, behind a minus or not: where it ends, whether it is a
/// number's digits, and their value. A word of few digits and nothing else is looked at once.
#[inline]
fn read_plain(bytes: &[u8], from: usize, minus: bool) -> (Digits, bool)
    requires { from ≤ length bytes.now }
    ensures above { from ≤ result.0.end }
    ensures within { result.0.end ≤ length bytes.now }
    ensures all { (k : ℕ) → from ≤ k → k < result.0.end → is_word_byte (slice_index bytes.now k) ≡ true }
    ensures end { result.0.end < length bytes.now → is_word_byte (slice_index bytes.now result.0.end) ≡ false }
    ensures plain { result.1 ≡ is_plain_text minus (slice_range bytes.now from result.0.end) }
    ensures size { result.1 ≡ true → result.0.size ≡ min 10000000000 (digits_value 10 (slice_range bytes.now from result.0.end)) }
{
    let short = read_short(bytes, from);
    if short.end < bytes.len() && is_word_byte(bytes[short.end]) {
        return read_long(bytes, from, minus);
    }
    let digits = Digits {
        end: short.end,
        size: CAP.min(short.size),
    };
    (digits, is_plain(bytes, from, short.end, minus))
}

/// The word from an index on, and what it says as a number.
#[inline]
pub fn read_number(bytes: &[u8], start: usize) -> Number
    requires within { start < length bytes.now }
    requires word { is_word_byte (slice_index bytes.now start) ≡ true }
    ensures word { IsWordAt bytes.now start result.end }
    ensures within { result.end ≤ length bytes.now }
    ensures end { result.end < length bytes.now → is_word_byte (slice_index bytes.now result.end) ≡ false }
    ensures number { IsNumberOf (slice_range bytes.now start result.end) result.natural result.negative result.size }
{
    let minus = bytes[start] == b'-';
    let from = start + usize::from(minus);
    let (digits, plain) = read_plain(bytes, from, minus);
    Number {
        end: digits.end,
        natural: plain & !minus,
        negative: plain & minus,
        size: digits.size,
    }
}

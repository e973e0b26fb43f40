//! The words of a line.
ghost use Rattle.std.specs.Prelude.{◌≡◌, ◌+◌, ◌*◌, ◌<◌, ◌≤◌, false, length, drop, slice_index, IsTrue, if◌then◌else◌};
ghost use Rattle.std.specs.Str.{all_ascii_digits};
ghost use Rattle.std.specs.Str.Parse.{digits_value};
ghost use Rattle.theory.specs.Tokens.{is_blank, is_positive_text};
ghost use Rattle.lrat_text.specs.LineWords.{ends_word, first_word, after_word, capped, word_of, plain_word, IsCounting, number_in, candidate_in, literal_in};

use cnf::Lit;

pub const LINE_FEED: u8 = b'\n';

/// The greatest number of a clause.
pub const MAX_NUMBER: u64 = 9_223_372_036_854_775_807;

/// The greatest size of a literal.
pub const MAX_LITERAL: u64 = 2_147_483_647;

/// What stands for every number above the greatest.
pub(crate) const ABOVE_MAX: u64 = MAX_NUMBER + 1;

/// What a word is. The size of a number above the greatest is one above it.
#[derive(Clone, Copy)]
pub enum Word {
    Zero,
    Positive(u64),
    Negative(u64),

    /// The `d` of a deletion.
    Mark,
    Other,
}

/// A word's bytes from some place on: whether they are digits all, then their value, and where the
/// word ends.
#[derive(Drop)]
struct Digits {
    all: bool,
    size: u64,
    end: usize,
}

/// Whether a byte is space, tab or carriage return.
pub fn is_blank(byte: u8) -> bool
    ensures { result ≡ is_blank byte }
{
    byte == b' ' || byte == b'\t' || byte == b'\r'
}

/// Whether a byte is no byte of a word.
pub(crate) fn ends_word(byte: u8) -> bool
    ensures { result ≡ ends_word byte }
{
    byte == LINE_FEED || is_blank(byte)
}

/// A number's size with one digit more, where the size is one at which one digit more can lead
/// above the greatest number. It stands apart, so that any other digit costs one comparison.
#[cold]
#[inline(never)]
fn with_late_digit(size: u64, digit: u8) -> u64
    requires size { size ≤ ABOVE_MAX }
    requires digit { digit < 10 }
    ensures { result ≡ capped (size * 10 + digit) }
{
    if size <= MAX_NUMBER / 10 {
        (size * 10 + digit as u64).min(ABOVE_MAX)
    } else {
        ABOVE_MAX
    }
}

/// A number's size with one digit more.
pub(crate) fn with_digit(size: u64, digit: u8) -> u64
    requires size { size ≤ ABOVE_MAX }
    requires digit { digit < 10 }
    ensures { result ≡ capped (size * 10 + digit) }
{
    if size < MAX_NUMBER / 10 {
        size * 10 + digit as u64
    } else {
        with_late_digit(size, digit)
    }
}

/// Reads a word's bytes from `start` to its end.
fn read_digits(bytes: &[u8], start: usize) -> Digits
    requires { start ≤ length bytes.now }
    ensures all { result.all ≡ all_ascii_digits (first_word (drop start bytes.now)) }
    ensures size { IsTrue result.all → result.size ≡ capped (digits_value 10 (first_word (drop start bytes.now))) }
    ensures end { result.end ≡ start + length (first_word (drop start bytes.now)) }
    ensures rest { drop result.end bytes.now ≡ after_word (drop start bytes.now) }
    ensures within { result.end ≤ length bytes.now }
{
    let mut all = true;
    let mut size = 0;
    let mut end = start;
    while end < bytes.len() {
        let byte = bytes[end];
        if byte.is_ascii_digit() {
            size = with_digit(size, byte - b'0');
        } else if ends_word(byte) {
            break;
        } else {
            all = false;
        }
        end += 1;
    }
    Digits { all, size, end }
}

/// The word of a minus and the bytes behind it, which begin at `start`.
fn negative_word(bytes: &[u8], start: usize, digits: &Digits) -> Word
    requires all { digits.now.all ≡ all_ascii_digits (first_word (drop start bytes.now)) }
    requires end { digits.now.end ≡ start + length (first_word (drop start bytes.now)) }
    requires within { digits.now.end ≤ length bytes.now }
    ensures { let is_negative = is_positive_text (first_word (drop start bytes.now)) in
        result ≡ (if is_negative then Word.Negative digits.now.size else Word.Other) }
{
    if digits.all && digits.end > start && bytes[start] != b'0' {
        Word::Negative(digits.size)
    } else {
        Word::Other
    }
}

/// The word of this many bytes that begin with `first`, which is no minus.
fn plain_word(first: u8, len: usize, digits: &Digits) -> Word
    ensures { result ≡ plain_word first len digits.now.all digits.now.size }
{
    if digits.all {
        if first != b'0' {
            Word::Positive(digits.size)
        } else if len == 1 {
            Word::Zero
        } else {
            Word::Other
        }
    } else if first == b'd' && len == 1 {
        Word::Mark
    } else {
        Word::Other
    }
}

/// Reads the word that begins at `start`, and says where it ends.
pub fn read_word(bytes: &[u8], start: usize) -> (Word, usize)
    requires inside { start < length bytes.now }
    requires begins { ends_word (slice_index bytes.now start) ≡ false }
    ensures word { result.0 ≡ word_of (first_word (drop start bytes.now)) }
    ensures rest { drop result.1 bytes.now ≡ after_word (drop start bytes.now) }
    ensures forward { start < result.1 }
    ensures within { result.1 ≤ length bytes.now }
{
    let first = bytes[start];
    if first == b'-' {
        let digits = read_digits(bytes, start + 1);
        (negative_word(bytes, start + 1, &digits), digits.end)
    } else {
        let digits = read_digits(bytes, start);
        (plain_word(first, digits.end - start, &digits), digits.end)
    }
}

impl Word {
    /// The number of a clause, if it is one and within its limit.
    pub fn number(self) -> Option<u64>
        ensures { result ≡ number_in self }
    {
        match self {
            Word::Positive(n) if n <= MAX_NUMBER => Some(n),
            _ => None,
        }
    }

    /// The number of a candidate, if it is one and within its limit.
    pub fn candidate(self) -> Option<u64>
        ensures { result ≡ candidate_in self }
    {
        match self {
            Word::Negative(n) if n <= MAX_NUMBER => Some(n),
            _ => None,
        }
    }

    /// The literal, if it is one and within its limit.
    pub fn literal(self) -> Option<Lit>
        requires { IsCounting self }
        ensures { result ≡ literal_in self }
    {
        match self {
            Word::Positive(n) if n <= MAX_LITERAL => Some(Lit::of(n as u32, true)),
            Word::Negative(n) if n <= MAX_LITERAL => Some(Lit::of(n as u32, false)),
            _ => None,
        }
    }
}

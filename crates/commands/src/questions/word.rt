//! Words of a text of questions.

use cnf::Lit;

/// A formula has variables up to this one.
pub(crate) const MOST_VARS: u32 = 100_000_000;

/// Whether a word is digits that don't begin with 0, so that a number has one text.
fn is_plain(digits: &[u8]) -> bool {
    match digits.first() {
        None => false,
        Some(first) => *first != b'0' && digits.iter().all(|byte| byte.is_ascii_digit()),
    }
}

/// The word as a number other than 0, if it is one. A greater one than `i32` has is the greatest.
pub(crate) fn number_of(word: &[u8]) -> Option<i32> {
    if !is_plain(word.strip_prefix(b"-").unwrap_or(word)) {
        return None;
    }
    let Ok(text) = str::from_utf8(word) else {
        return None;
    };
    match text.parse::<i32>() {
        Ok(number) => Some(number),
        Err(_) => Some(i32::MAX),
    }
}

/// The literal of a number, unless its variable is above the limit.
pub(crate) fn literal_of(number: i32) -> Option<Lit> {
    if number.unsigned_abs() > MOST_VARS {
        return None;
    }
    Lit::new(number)
}

/// The word as a number of seconds, if it is one from 1 on.
pub(crate) fn seconds_of(word: &[u8]) -> Option<u32> {
    if !is_plain(word) {
        return None;
    }
    let Ok(text) = str::from_utf8(word) else {
        return None;
    };
    match text.parse::<u32>() {
        Ok(seconds) => Some(seconds),
        Err(_) => Some(u32::MAX),
    }
}

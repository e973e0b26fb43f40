//! Words that are numbers, in plain digits or not.

/// A word that is a number: its sign, and its digits without leading zeros.
#[derive(Clone, Copy)]
pub(crate) struct Number<'a> {
    is_negative: bool,
    digits: &'a [u8],
}

/// Digits without the zeros before others.
fn without_zeros(digits: &[u8]) -> &[u8] {
    match digits.iter().position(|byte| *byte != b'0') {
        Some(start) => &digits[start..],
        None => &digits[digits.len().saturating_sub(1)..],
    }
}

impl<'a> Number<'a> {
    /// The number that a word is, if it is digits, maybe behind a sign.
    pub(crate) fn of(word: &'a [u8]) -> Option<Number<'a>> {
        let (is_negative, digits) = match word {
            [b'-', digits @ ..] => (true, digits),
            [b'+', digits @ ..] => (false, digits),
            digits => (false, digits),
        };
        if digits.is_empty() || !digits.iter().all(|byte| byte.is_ascii_digit()) {
            return None;
        }
        Some(Number {
            is_negative,
            digits: without_zeros(digits),
        })
    }

    pub(crate) fn is_zero(&self) -> bool {
        matches!(self.digits, [b'0'])
    }

    pub(crate) fn is_negative(&self) -> bool {
        self.is_negative && !self.is_zero()
    }

    pub(crate) fn digits(&self) -> &'a [u8] {
        self.digits
    }

    /// Without its sign; where that is too large, the greatest number.
    pub(crate) fn size(&self) -> u64 {
        let mut size = 0u64;
        for digit in self.digits {
            size = size
                .saturating_mul(10)
                .saturating_add(u64::from(digit.saturating_sub(b'0')));
        }
        size
    }
}

//! Whether a proof is one in DRAT, which has neither numbers nor hints.

use crate::first::{FIRST, is_binary};

/// Whether a line of a text is a step of DRAT: maybe a `d`, then literals, then its only 0.
fn is_drat_line(line: &[u8]) -> bool {
    let Ok(text) = str::from_utf8(line) else {
        return false;
    };
    let mut may_be_mark = true;
    let mut has_ended = false;
    for word in text.split_whitespace() {
        if has_ended {
            return false;
        }
        match word.parse::<i64>() {
            Ok(number) => has_ended = number == 0,
            Err(_) => {
                if !may_be_mark || word != "d" {
                    return false;
                }
            }
        }
        may_be_mark = false;
    }
    has_ended
}

/// The first line of a text, if it is among these first bytes.
fn first_line(first: &[u8]) -> Option<&[u8]> {
    let end = first.iter().position(|byte| *byte == b'\n')?;
    Some(&first[..end])
}

/// Whether the first bytes of a proof in binary are steps of DRAT: an `a` or a `d`, then literals,
/// then a 0, and so on. In LRAT hints stand behind the first 0 of an addition.
fn is_drat_binary(first: &[u8]) -> bool {
    let mut has_step = false;
    let mut is_followed = false;
    let mut is_at_step = true;
    let mut is_in_number = false;
    for byte in first {
        if is_at_step {
            if *byte != b'a' && *byte != b'd' {
                return false;
            }
            is_followed = has_step;
            is_at_step = false;
        } else if *byte == 0 && !is_in_number {
            has_step = true;
            is_at_step = true;
        } else {
            is_in_number = *byte >= 128;
        }
    }
    is_followed || (has_step && first.len() < FIRST)
}

/// Whether a proof with these first bytes, which was refused as LRAT, is one in DRAT, text or
/// binary. Sometimes a broken proof in LRAT looks so too.
pub fn is_drat(first: &[u8]) -> bool {
    if is_binary(first) {
        return is_drat_binary(first);
    }
    match first_line(first) {
        Some(line) => is_drat_line(line),
        None => false,
    }
}

//! The header of a text of which the first bytes are known.

use lenient::Counts;

/// What a line counts, if it is a header with two numbers.
fn counts_of(line: &[u8]) -> Option<Counts> {
    let text = str::from_utf8(line).ok()?;
    let mut words = text.split_whitespace();
    if words.next() != Some("p") || words.next() != Some("cnf") {
        return None;
    }
    Some(Counts {
        vars: words.next()?.parse::<u64>().ok()?,
        clauses: words.next()?.parse::<u64>().ok()?,
    })
}

/// Whether a line has a word, and is no comment.
fn has_words(line: &[u8]) -> bool {
    !line.starts_with(b"c") && !line.iter().all(|byte| byte.is_ascii_whitespace())
}

/// What the header counts, if it stands whole in the first bytes of a text.
pub fn header_in(beginning: &[u8]) -> Option<Counts> {
    let end = beginning.iter().rposition(|byte| *byte == b'\n')?;
    for line in beginning[..end].split(|byte| *byte == b'\n') {
        if has_words(line) {
            return counts_of(line);
        }
    }
    None
}

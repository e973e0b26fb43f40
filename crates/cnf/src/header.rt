//! The header of a text: `p cnf`, the number of variables and the number of clauses.
ghost use Rattle.std.specs.Prelude.{◌≡◌, ℕ, ◌≤◌, ◌<◌, length, MatchResult, Option, []};
ghost use Rattle.theory.specs.Reading as reading;
ghost use Rattle.theory.specs.Reading.{large, max_vars, max_clauses};
ghost use Rattle.theory.proofs.reading.ReadingMachine.{at_cnf, at_vars, at_body};
ghost use Rattle.cnf.specs.Faults.{IsRefusal};
ghost use Rattle.cnf.specs.Limits.{limits_of};
ghost use Rattle.cnf.specs.Tokens.{in_header, behind_header};
ghost use Rattle.cnf.specs.Machine.{reads_from, reading_of, number_limit, at_number, behind_number};

use crate::fault::ReadFault;
use crate::limits::Limits;
use crate::number::read_number;
use crate::scan::{is_text, place_at, skip_blanks, skip_comment, skip_to_token, word_end};

/// A header's numbers of variables and clauses, and the index of its line's end.
#[derive(Clone, Copy)]
pub struct Header {
    pub vars: u32,
    pub clauses: u32,
    pub end: usize,
}

/// The end of the first token, which must be `p`.
fn read_p(bytes: &[u8]) -> Result<usize, ReadFault>
    ensures { (L : reading.Limits) → MatchResult result
        (λ end. (end ≤ length bytes.now) × (reading_of L bytes.now ≡ reads_from L at_cnf in_header bytes.now end))
        (IsRefusal (λ r. reading_of L bytes.now ≡ r)) }
{
    let start = skip_to_token(bytes, skip_comment(bytes, 0));
    let end = word_end(bytes, start);
    if is_text(&bytes[start..end], b"p") {
        Ok(end)
    } else {
        Err(ReadFault::NoHeader(place_at(bytes, start)))
    }
}

/// The end of the header's second word, which must be `cnf`.
fn read_cnf(bytes: &[u8], from: usize) -> Result<usize, ReadFault>
    requires { from ≤ length bytes.now }
    ensures { (L : reading.Limits) → MatchResult result
        (λ end. (end ≤ length bytes.now) × (reads_from L at_cnf in_header bytes.now from ≡ reads_from L at_vars in_header bytes.now end))
        (IsRefusal (λ r. reads_from L at_cnf in_header bytes.now from ≡ r)) }
{
    let start = skip_blanks(bytes, from);
    let end = word_end(bytes, start);
    if is_text(&bytes[start..end], b"cnf") {
        Ok(end)
    } else {
        Err(ReadFault::BadHeader(place_at(bytes, start)))
    }
}

/// A number of the header, and the index of its word's end.
#[derive(Clone, Copy)]
struct Count {
    size: u32,
    end: usize,
}

/// The next word of the header's line, which must be a natural number of at most `most`.
fn read_count(bytes: &[u8], from: usize, most: u32) -> Result<Count, ReadFault>
    requires within { from ≤ length bytes.now }
    requires small { most ≤ max_clauses large }
    ensures { (L : reading.Limits) (vars : Option ℕ) → most ≡ number_limit L vars → MatchResult result
        (λ n. (n.end ≤ length bytes.now) × (n.size ≤ most)
        × (reads_from L (at_number vars) in_header bytes.now from ≡ reads_from L (behind_number vars n.size) in_header bytes.now n.end))
        (IsRefusal (λ r. reads_from L (at_number vars) in_header bytes.now from ≡ r)) }
{
    let start = skip_blanks(bytes, from);
    if start == bytes.len() || bytes[start] == b'\n' {
        return Err(ReadFault::BadHeader(place_at(bytes, start)));
    }
    let number = read_number(bytes, start);
    if !number.natural {
        return Err(ReadFault::BadHeader(place_at(bytes, start)));
    }
    if number.size > u64::from(most) {
        return Err(ReadFault::OverLimit(place_at(bytes, start)));
    }
    Ok(Count {
        size: number.size as u32,
        end: number.end,
    })
}

/// The header of a text.
pub fn read_header(bytes: &[u8], limits: Limits) -> Result<Header, ReadFault>
    ensures { MatchResult result
        (λ h. (h.end ≤ length bytes.now) × (h.vars ≤ max_vars (limits_of limits)) × (h.clauses ≤ max_clauses (limits_of limits))
        × (reading_of (limits_of limits) bytes.now ≡ reads_from (limits_of limits) (at_body h.vars h.clauses [] []) behind_header bytes.now h.end))
        (IsRefusal (λ r. reading_of (limits_of limits) bytes.now ≡ r)) }
{
    let p = read_p(bytes)?;
    let cnf = read_cnf(bytes, p)?;
    let vars = read_count(bytes, cnf, limits.vars())?;
    let clauses = read_count(bytes, vars.end, limits.clauses())?;
    let end = skip_blanks(bytes, clauses.end);
    if end < word_end(bytes, end) {
        return Err(ReadFault::BadHeader(place_at(bytes, end)));
    }
    Ok(Header {
        vars: vars.size,
        clauses: clauses.size,
        end,
    })
}

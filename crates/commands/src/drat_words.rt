//! What is said of a proof in DRAT.

use cnf::Limits;
use drat::{FaultPlace, Passed};
use std::fmt;
use std::fmt::{Display, Formatter};
use std::io::Write;

/// Where a proof is at fault, if it is one place.
#[derive(Clone, Copy)]
struct DratPlace(Option<FaultPlace>);

impl Display for DratPlace {
    fn fmt<W: fmt::Write>(&self, f: &mut Formatter<W>) -> fmt::Result {
        match self.0 {
            Some(FaultPlace::Line(line)) => write!(f, " (line {line})"),
            Some(FaultPlace::Byte(byte)) => write!(f, " (byte {byte})"),
            None => Ok(()),
        }
    }
}

/// The words for what is wrong with a proof, within these limits.
fn words_of(number: u32, limits: Limits) -> &'static str {
    match (number, limits) {
        (30, _) => {
            "no step adds the empty clause, and propagation finds none; the proof may have been cut off"
        }
        (31, _) => "a clause has a variable that no clause of the proof may have",
        (33, _) => {
            "an added clause follows neither by propagation nor by resolution on its first literal"
        }
        (41, _) => {
            "a word is no number in plain digits, or above its limit; a step in binary begins with `a` or `d`"
        }
        (42, _) => "it ends inside a step; the proof may have been cut off",
        (45, Limits::Standard) => {
            "the proof in LRAT is longer than the limit, 4,294,967,296 bytes; --large has a higher one"
        }
        (45, Limits::Large) => {
            "the proof in LRAT is longer than the limit, 4,611,686,018,427,387,904 bytes"
        }
        _ => "the hints that were found for it are refused",
    }
}

/// Says why a proof was refused within these limits, and where, if it is one place. A failed write
/// changes nothing.
pub(crate) fn say_drat_refused<E: Write>(
    out: &mut E,
    number: u32,
    place: Option<FaultPlace>,
    limits: Limits,
) {
    let (words, at) = (words_of(number, limits), DratPlace(place));
    let _ = writeln!(out, "c proof: {words}{at}");
}

/// Says how many deletions were passed over, where any were. A failed write changes nothing.
pub(crate) fn say_passed_deletions<E: Write>(out: &mut E, passed: Passed) {
    let (of_units, of_missing) = (passed.of_units, passed.of_missing);
    if of_units > 0 {
        let _ = writeln!(
            out,
            "c proof: deletions passed over of clauses that are why a literal is true: {of_units}"
        );
    }
    if of_missing > 0 {
        let _ = writeln!(
            out,
            "c proof: deletions passed over of clauses that aren't there: {of_missing}"
        );
    }
}

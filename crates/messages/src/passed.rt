//! What is said of a formula's text that was read leniently.

use crate::name::Name;
use lenient::{PassedHeader, PassedOver};
use std::io::Write;

/// Says what was passed over in a header, or that there was none.
fn say_header<E: Write>(out: &mut E, name: Name<'_>, header: PassedHeader) {
    let _ = match header {
        PassedHeader::Kept => Ok(()),
        PassedHeader::Corrected { header, text } => {
            let (vars, clauses) = (header.vars, header.clauses);
            let (found_vars, found_clauses) = (text.vars, text.clauses);
            writeln!(
                out,
                "c {name}: passed over: the header's counts, {vars} variables and {clauses} clauses, where the text has {found_vars} and {found_clauses}"
            )
        }
        PassedHeader::Added(counts) => {
            let (vars, clauses) = (counts.vars, counts.clauses);
            writeln!(
                out,
                "c {name}: passed over: the header is missing; the text has {vars} variables and {clauses} clauses"
            )
        }
    };
}

/// Says what was passed over in a text; nothing, if that is nothing. A failed write changes nothing.
pub fn say_passed_over<E: Write>(out: &mut E, file: &str, passed: &PassedOver) {
    let name = Name::of(file);
    say_header(out, name, passed.header);
    let (numbers, comments) = (passed.numbers, passed.comments);
    if numbers > 0 {
        let _ = writeln!(
            out,
            "c {name}: passed over: `+`, zeros in front or a minus before 0, in {numbers} numbers"
        );
    }
    if comments > 0 {
        let _ = writeln!(
            out,
            "c {name}: passed over: {comments} comments that don't begin their line"
        );
    }
    if let Some(line) = passed.end {
        let _ = writeln!(
            out,
            "c {name}: passed over: the `%` in line {line}, and all behind it"
        );
    }
}

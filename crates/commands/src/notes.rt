//! What `--verbose` prints: lines that begin with `c`, of what is done, and of what a fault means.

use crate::explanations::explanation;
use crate::input::shown_name;
use cdcl::Search;
use command_line::Effort;
use std::io::Write;

/// Prints a line. A failed write changes nothing.
fn note<E: Write>(out: &mut E, said: &str, what: &str) {
    let _ = writeln!(out, "c {said} {what}");
}

/// By which search a formula is about to be solved.
fn note_search<E: Write>(out: &mut E, effort: &Effort) {
    let (hands, plan) = (effort.hands.get(), effort.strategy.plan());
    if let Some(first) = effort.strategy.first() {
        let _ = writeln!(
            out,
            "c solving it by the automatic search, hands {hands}, first {first} conflicts of the ordered search"
        );
        return;
    }
    let search = match plan.search() {
        Search::Ordered => "ordered",
        Search::Focused => "focused",
    };
    let budget = plan.budget();
    let _ = writeln!(
        out,
        "c solving it by the {search} search, hands {hands}, budget {budget} conflicts"
    );
}

/// What `solve` is about to do.
pub(crate) fn note_solve<E: Write>(out: &mut E, effort: &Effort, file: &str, proof: Option<&str>) {
    note(out, "reading the formula from", shown_name(file));
    note_search(out, effort);
    let cubes = effort.strategy.plan().divide();
    if cubes > 1 {
        let _ = writeln!(
            out,
            "c dividing it into cubes, {cubes} wanted, if its first conflicts tell that this helps"
        );
    }
    if let Some(seconds) = effort.seconds {
        let _ = writeln!(out, "c for {seconds} seconds at most");
    }
    match proof {
        Some(path) => note(out, "writing the proof to", path),
        None => note(out, "writing", "no proof"),
    }
}

/// What `check` is about to do.
pub(crate) fn note_check<E: Write>(out: &mut E, formula: &str, proof: &str) {
    note(out, "reading the formula from", shown_name(formula));
    note(out, "checking the proof in", shown_name(proof));
}

/// What a number means.
pub(crate) fn note_number<E: Write>(out: &mut E, number: u32) {
    if let Some(text) = explanation(number) {
        let _ = writeln!(out, "c {number}: {text}");
    }
}

/// Which files a fault concerns.
pub(crate) fn note_files<E: Write>(out: &mut E, number: u32, formula: &str, proof: &str) {
    if number == 51 || number == 57 {
        note(out, "the formula is", shown_name(formula));
    }
    if number == 53 || number == 55 || number == 57 {
        note(out, "the proof is", shown_name(proof));
    }
}

/// Which file can't be opened or created.
pub(crate) fn note_file<E: Write>(out: &mut E, file: &str) {
    note(out, "the file is", file);
}

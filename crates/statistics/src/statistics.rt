//! What `--stats` prints: lines that begin with `c`, of as much of the run as it came to.

use crate::division_lines::print_division;
use crate::figures::{Figures, StageEnd};
use crate::search_counts::a_second;
use cdcl::Search;
use std::io::Write;
use strategies::SimplifiedCounts;

/// Prints the end of a stage, with its time from an earlier end on, and answers when it ended.
fn print_stage<E: Write>(out: &mut E, name: &str, from: u64, end: Option<StageEnd>) -> u64 {
    let Some(end) = end else {
        return from;
    };
    let time = end.at.saturating_sub(from);
    let (seconds, milliseconds) = (time / 1000, time % 1000);
    let _ = match end.peak {
        Some(peak) => writeln!(
            out,
            "c {name}: {seconds}.{milliseconds:03} s, peak memory {peak} KiB"
        ),
        None => writeln!(out, "c {name}: {seconds}.{milliseconds:03} s"),
    };
    end.at
}

/// Prints the times of the stages that ended.
fn print_stages<E: Write>(out: &mut E, figures: &Figures) {
    let read = print_stage(out, "reading", 0, figures.read);
    let solved = print_stage(out, "solving", read, figures.solved);
    let joined = print_stage(out, "joining", solved, figures.joined);
    print_stage(out, "writing", joined, figures.written);
}

/// Prints what is known of the cubes. Of a tree without a model that is all; of another one a gate
/// isn't told which cubes were split or skipped, but for those whose halves were begun.
fn print_cubes<E: Write>(out: &mut E, figures: &Figures) {
    let _ = match figures.tree {
        Some(tree) => {
            let (splits, solved) = (tree.splits, tree.splits.saturating_add(tree.leaves));
            writeln!(
                out,
                "c cubes: {solved} solved, {splits} split, 0 skipped\nc learnt: {} lines in refuted cubes, kept in {} bytes",
                tree.learnt, tree.bytes
            )
        }
        None => match (figures.cubes.solved(), figures.cubes.splits()) {
            (solved, 0) => writeln!(out, "c cubes: {solved} solved"),
            (solved, splits) => {
                writeln!(out, "c cubes: {solved} solved, at least {splits} split")
            }
        },
    };
}

/// Prints how long hands waited while the formula was solved, where there are several.
fn print_waits<E: Write>(out: &mut E, figures: &Figures, hands: usize) {
    let (Some(read), Some(solved)) = (figures.read, figures.solved) else {
        return;
    };
    if hands < 2 {
        return;
    }
    let waited = figures.times.waited(hands, read.at, solved.at);
    let (seconds, milliseconds) = (waited.waited / 1000, waited.waited % 1000);
    let share = waited.waited.saturating_mul(1000).checked_div(waited.all);
    let share = share.unwrap_or(0);
    let (whole, tenths) = (share / 10, share % 10);
    let _ = writeln!(
        out,
        "c hands waited: {seconds}.{milliseconds:03} s in all, {whole}.{tenths} % of the hands' time"
    );
}

/// Prints how many cubes each hand solved.
fn print_hands<E: Write>(out: &mut E, figures: &Figures, hands: usize) {
    let _ = write!(out, "c solved by each hand:");
    for count in figures.cubes.by_hand(hands) {
        let _ = write!(out, " {count}");
    }
    let _ = writeln!(out);
}

/// Prints how far the search came that was made first, where there is one.
fn print_first<E: Write>(out: &mut E, figures: &Figures) {
    let Some(first) = figures.first else {
        return;
    };
    let conflicts = first.counts().conflicts;
    let end = if first.has_decided() {
        "decided"
    } else {
        "undecided"
    };
    let _ = writeln!(out, "c first search: ordered, {conflicts} conflicts, {end}");
}

/// Prints what the simplification came to, where the formula is simplified.
fn print_simplified<E: Write>(out: &mut E, figures: &Figures) {
    let Some(beginning) = figures.beginning else {
        return;
    };
    let Some(simplified) = beginning.simplified() else {
        return;
    };
    let SimplifiedCounts {
        vars,
        vars_left,
        clauses,
        clauses_left,
        literals,
    } = simplified.counts;
    let (seconds, milliseconds) = (simplified.time / 1000, simplified.time % 1000);
    let _ = writeln!(
        out,
        "c simplified: {vars} variables and {clauses} clauses become {vars_left} and {clauses_left}, {literals} literals looked at, {seconds}.{milliseconds:03} s"
    );
}

/// Prints how far a lowering came, where one was begun.
fn print_lowering<E: Write>(out: &mut E, figures: &Figures) {
    let Some(lowering) = figures.lowering else {
        return;
    };
    let (settled, vars) = (lowering.settled(), figures.vars());
    let (questions, models) = (lowering.questions, lowering.models);
    let (refuted, conflicts) = (lowering.refuted, lowering.search.conflicts);
    let _ = writeln!(
        out,
        "c lowering: {settled} of {vars} variables settled, {questions} questions, {models} with a model, {refuted} without, {conflicts} conflicts"
    );
}

/// Prints what all searches have done.
fn print_counts<E: Write>(out: &mut E, figures: &Figures) {
    let done = figures.searched();
    let (conflicts, decisions) = (done.conflicts, done.decisions);
    let (propagations, restarts) = (done.propagations, done.restarts);
    let (learnt, forgotten) = (done.learnt, done.forgotten);
    let _ = writeln!(
        out,
        "c search: {conflicts} conflicts, {decisions} decisions, {propagations} propagations, {restarts} restarts\nc clauses: {learnt} learnt, {forgotten} forgotten"
    );
}

/// Prints what the focused search alone counts, unless the search that was made first decides.
fn print_rounds<E: Write>(out: &mut E, figures: &Figures) {
    let is_decided = match figures.first {
        Some(first) => first.has_decided(),
        None => false,
    };
    if figures.search != Search::Focused || is_decided {
        return;
    }
    let done = figures.searched();
    let (rounds, switches) = (done.rounds, done.switches);
    let (removed, units) = (done.minimised, done.units);
    let _ = writeln!(
        out,
        "c focused search: {rounds} rounds, {switches} changes of mode, {removed} literals removed, {units} units"
    );
}

/// Prints how many conflicts a second there were while the formula was solved, where that ended and
/// took time.
fn print_speed<E: Write>(out: &mut E, figures: &Figures) {
    let Some(end) = figures.solved else {
        return;
    };
    let time = end.at.saturating_sub(figures.began_solving());
    if let Some(speed) = a_second(figures.searched().conflicts, time) {
        let _ = writeln!(out, "c conflicts a second: {speed}");
    }
}

/// Prints what was counted in a run of so many hands. A failed write changes nothing.
pub fn print_statistics<E: Write>(out: &mut E, figures: &Figures, hands: usize) {
    let Some(formula) = figures.formula else {
        return;
    };
    let (vars, clauses, literals) = (formula.vars, formula.clauses, formula.literals);
    let _ = writeln!(
        out,
        "c formula: {vars} variables, {clauses} clauses, {literals} literals\nc hands: {hands}"
    );
    print_first(out, figures);
    print_simplified(out, figures);
    print_counts(out, figures);
    print_rounds(out, figures);
    print_division(out, figures);
    print_cubes(out, figures);
    print_hands(out, figures, hands);
    print_waits(out, figures, hands);
    print_lowering(out, figures);
    if !figures.has_no_proof {
        let proof = figures.proof;
        let _ = writeln!(out, "c proof: {proof}");
    }
    print_stages(out, figures);
    print_speed(out, figures);
}

/// Prints what was counted in a check. A failed write changes nothing.
pub fn print_check_statistics<E: Write>(out: &mut E, figures: &Figures) {
    let (text, proof) = (figures.text, figures.proof);
    let _ = writeln!(out, "c formula: {text}\nc proof: {proof}");
    print_stage(out, "checking", 0, figures.checked);
}

//! What `--stats` prints of the division of a formula.

use crate::division::Done;
use crate::figures::Figures;
use cubes::{FirstAnswer, FirstSearch};
use std::io::Write;

/// Prints by which figures of the first search the formula isn't divided.
fn print_whole<E: Write>(out: &mut E, first: FirstSearch) {
    let (decisions, stable, conflicts) = (first.decisions, first.stable_conflicts, first.conflicts);
    let _ = if first.answer == FirstAnswer::Ended {
        writeln!(
            out,
            "c not divided: the focused search ended after {conflicts} conflicts"
        )
    } else {
        writeln!(
            out,
            "c not divided: {decisions} decisions in {stable} conflicts of stable mode"
        )
    };
}

/// Prints by which figures it is divided, and into how many cubes.
fn print_divided<E: Write>(out: &mut E, first: FirstSearch, done: Done) {
    let (decisions, stable, wanted) = (first.decisions, first.stable_conflicts, done.wanted);
    let _ = writeln!(
        out,
        "c divided: {decisions} decisions in {stable} conflicts of stable mode, into at most {wanted} cubes"
    );
}

/// How many cubes were solved.
fn solved_of(figures: &Figures) -> u64 {
    match figures.tree {
        Some(tree) => tree.splits.saturating_add(tree.leaves),
        None => figures.cubes.solved(),
    }
}

/// Prints how many cubes were looked at, how many literals failed there and how long that took, and
/// how many cubes were searched: each one that was solved and not looked at.
fn print_looks<E: Write>(out: &mut E, figures: &Figures) {
    let counts = figures.searched();
    let (looks, failed) = (counts.looks, counts.failed_literals);
    let searched = solved_of(figures).saturating_sub(looks);
    let time = figures.division.look_time();
    let (seconds, milliseconds) = (time / 1000, time % 1000);
    let _ = writeln!(
        out,
        "c looked at: {looks} cubes, {failed} failed literals, {seconds}.{milliseconds:03} s\nc searched: {searched} cubes"
    );
}

/// Prints whether the formula is divided and by which figures of the first search, and of a divided
/// one what came of that; nothing where there was no first search.
pub(crate) fn print_division<E: Write>(out: &mut E, figures: &Figures) {
    let Some(first) = figures.division.first() else {
        return;
    };
    match figures.division.done() {
        Some(done) => {
            print_divided(out, first, done);
            print_looks(out, figures);
        }
        None => print_whole(out, first),
    }
}

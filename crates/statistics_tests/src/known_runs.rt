//! What `--stats` prints of known figures.
use crate::figures::{put_first, put_lowering, some_figures};
use cdcl::Search;
use cnf::{Formula, read_formula};
use statistics::{Figures, FormulaSize, Stage, StageEnd, TreeSize, print_statistics};
use std::alloc::Global;
use std::test::Fail;
use test_samples::FOUR;

/// Without a model: five splits and six leaves, with 40 lines in 900 bytes.
const TREE: TreeSize = TreeSize {
    splits: 5,
    leaves: 6,
    learnt: 40,
    bytes: 900,
    most_lines: 7,
    most_literals: 8,
    most_numbers: 9,
};

/// When a stage ended, in milliseconds since the run began, and the memory by then in KiB.
type End = (u64, Option<u64>);

/// A hand, and when it began and ended its last cube.
type Last = (usize, u64, u64);

/// What is known of other searches than that of hands.
#[derive(Clone, Copy)]
enum Beside {
    Nothing,
    /// A search was made first, and decided the formula or not, if it has ended.
    First(Option<bool>),
    /// It didn't, and a model was lowered.
    Lowered,
}

/// The search, what is known beside it, the size of the tree, the ends of the four stages, if they are ended, the last cubes of
/// hands, how many hands there are, and what is printed.
type Row = (
    Search,
    Beside,
    Option<TreeSize>,
    &'static [End],
    &'static [Last],
    usize,
    &'static str,
);

static ROWS: [Row; 7] = [
    (
        Search::Focused,
        Beside::Nothing,
        None,
        &[
            (500, Some(1024)),
            (12_500, Some(4096)),
            (12_750, None),
            (72_757, Some(8192)),
        ],
        &[(0, 1500, 12_000), (1, 1600, 12_500)],
        16,
        "c formula: 2 variables, 4 clauses, 8 literals
c hands: 16
c search: 350000 conflicts, 1600000 decisions, 20000000 propagations, 750 restarts
c clauses: 338000 learnt, 80000 forgotten
c focused search: 36 rounds, 12 changes of mode, 400000 literals removed, 200 units
c cubes: 4 solved, at least 3 split
c solved by each hand: 3 1 0 0 0 0 0 0 0 0 0 0 0 0 0 0
c hands waited: 169.600 s in all, 88.3 % of the hands' time
c proof: 2 lines, 7 bytes
c reading: 0.500 s, peak memory 1024 KiB
c solving: 12.000 s, peak memory 4096 KiB
c joining: 0.250 s
c writing: 60.007 s, peak memory 8192 KiB
c conflicts a second: 29166
",
    ),
    (
        Search::Focused,
        Beside::Nothing,
        Some(TREE),
        &[(3, None), (1003, None), (1004, Some(1024)), (1024, None)],
        &[(0, 3, 903), (1, 5, 1003)],
        2,
        "c formula: 2 variables, 4 clauses, 8 literals
c hands: 2
c search: 350000 conflicts, 1600000 decisions, 20000000 propagations, 750 restarts
c clauses: 338000 learnt, 80000 forgotten
c focused search: 36 rounds, 12 changes of mode, 400000 literals removed, 200 units
c cubes: 11 solved, 5 split, 0 skipped
c learnt: 40 lines in refuted cubes, kept in 900 bytes
c solved by each hand: 3 1
c hands waited: 0.102 s in all, 5.1 % of the hands' time
c proof: 2 lines, 7 bytes
c reading: 0.003 s
c solving: 1.000 s
c joining: 0.001 s, peak memory 1024 KiB
c writing: 0.020 s
c conflicts a second: 350000
",
    ),
    // the clock stands still while the formula is solved
    (
        Search::Focused,
        Beside::Nothing,
        None,
        &[(500, None), (500, None), (500, None), (510, None)],
        &[(0, 500, 500)],
        1,
        "c formula: 2 variables, 4 clauses, 8 literals
c hands: 1
c search: 350000 conflicts, 1600000 decisions, 20000000 propagations, 750 restarts
c clauses: 338000 learnt, 80000 forgotten
c focused search: 36 rounds, 12 changes of mode, 400000 literals removed, 200 units
c cubes: 4 solved, at least 3 split
c solved by each hand: 3
c proof: 2 lines, 7 bytes
c reading: 0.500 s
c solving: 0.000 s
c joining: 0.000 s
c writing: 0.010 s
",
    ),
    // the search that was made first decides it
    (
        Search::Focused,
        Beside::First(Some(true)),
        None,
        &[(500, None), (1500, None)],
        &[(0, 1500, 1500)],
        1,
        "c formula: 2 variables, 4 clauses, 8 literals
c hands: 1
c first search: ordered, 1000 conflicts, decided
c search: 351000 conflicts, 1603000 decisions, 20040000 propagations, 750 restarts
c clauses: 338800 learnt, 80000 forgotten
c cubes: 4 solved, at least 3 split
c solved by each hand: 3
c proof: 2 lines, 7 bytes
c reading: 0.500 s
c solving: 1.000 s
c conflicts a second: 351000
",
    ),
    // it is cut off
    (
        Search::Focused,
        Beside::First(None),
        None,
        &[(500, None)],
        &[],
        1,
        "c formula: 2 variables, 4 clauses, 8 literals
c hands: 1
c first search: ordered, 1000 conflicts, undecided
c search: 351000 conflicts, 1603000 decisions, 20040000 propagations, 750 restarts
c clauses: 338800 learnt, 80000 forgotten
c focused search: 36 rounds, 12 changes of mode, 400000 literals removed, 200 units
c cubes: 4 solved, at least 3 split
c solved by each hand: 3
c proof: 2 lines, 7 bytes
c reading: 0.500 s
",
    ),
    // the lowering's line stands behind those of hands
    (
        Search::Focused,
        Beside::Lowered,
        None,
        &[(500, None), (1500, None)],
        &[(0, 500, 1000), (1, 500, 1500)],
        2,
        "c formula: 2 variables, 4 clauses, 8 literals
c hands: 2
c first search: ordered, 1000 conflicts, undecided
c search: 351500 conflicts, 1606000 decisions, 20080000 propagations, 750 restarts
c clauses: 339600 learnt, 80000 forgotten
c focused search: 36 rounds, 12 changes of mode, 400000 literals removed, 200 units
c cubes: 4 solved, at least 3 split
c solved by each hand: 3 1
c hands waited: 0.500 s in all, 25.0 % of the hands' time
c lowering: 1 of 2 variables settled, 3 questions, 1 with a model, 2 without, 500 conflicts
c proof: 2 lines, 7 bytes
c reading: 0.500 s
c solving: 1.000 s
c conflicts a second: 351500
",
    ),
    // the formula wasn't read
    (Search::Ordered, Beside::Nothing, None, &[], &[], 1, ""),
];

fn stage_end(end: End) -> StageEnd {
    StageEnd {
        at: end.0,
        peak: end.1,
    }
}

/// The stages of a row are ended, as many as are said.
fn end_stages(figures: &mut Figures, formula: &Formula, row: &Row) {
    let mut ends = row.3.iter();
    if let Some(end) = ends.next() {
        figures.end_reading(FormulaSize::of(formula), stage_end(*end));
    }
    if let Some(end) = ends.next() {
        figures.end_solving(row.2, stage_end(*end));
    }
    if let Some(end) = ends.next() {
        figures.end_joining(stage_end(*end));
    }
    if let Some(end) = ends.next() {
        figures.end_writing(stage_end(*end));
    }
}

/// What is printed of a row's figures.
fn printed(alloc: Global, formula: &Formula, row: &Row) -> Vec<u8> {
    let mut figures = some_figures(Stage::Reading, row.0);
    end_stages(&mut figures, formula, row);
    match row.1 {
        Beside::Nothing => {}
        Beside::First(is_decided) => put_first(&mut figures, is_decided),
        Beside::Lowered => {
            put_first(&mut figures, Some(false));
            put_lowering(&mut figures);
        }
    }
    for (hand, began, ended) in row.4 {
        figures.times.begin(*hand, *began);
        figures.times.end(*hand, *ended);
    }
    let mut text = Vec::new(alloc);
    print_statistics(&mut text, &figures, row.5);
    text
}

#[test]
fn statistics_of_known_figures(rt: HostRuntime) -> Result<(), Fail> {
    let formula = read_formula(rt.alloc(), FOUR.as_bytes())?;
    for row in &ROWS {
        let text = printed(rt.alloc(), &formula, row);
        assert!(rt; text.as_slice() == row.6.as_bytes(), "{}", row.6);
    }
    Ok(())
}

//! The lines of `--progress` of known figures, at each stage, as a list has them and a terminal.
use crate::figures::{put_first, put_lowering, some_figures};
use cdcl::{Counts, Search};
use cnf::read_formula;
use cubes::{FirstAnswer, FirstSearch};
use statistics::{BeginningCounts, Figures, FormulaSize, Manner, Stage, StageEnd, print_line};
use std::alloc::Global;
use std::test::Fail;
use test_samples::FOUR;

/// What is known of a run beside some figures.
#[derive(Clone, Copy)]
enum Beside {
    Nothing,
    /// How many bytes a proof has of which 7 are read.
    Whole(u64),
    /// How many milliseconds it took to read the formula.
    Read(u64),
    /// How many cubes are wanted, and how many literals each refuted cube has.
    Divided(u32, &'static [usize]),
    /// The search goes on that says whether the formula is simplified.
    Short,
    /// A search was made first, and decided the formula or not, if it has ended.
    First(Option<bool>),
    /// It didn't, and a model is lowered.
    Lowered,
}

/// A stage, a search, what is known beside some figures, how many seconds a run takes, and its line.
type Row = (Stage, Search, Beside, u64, &'static str);

static ROWS: [Row; 30] = [
    (
        Stage::Reading,
        Search::Ordered,
        Beside::Nothing,
        12,
        "c 12 s: reading",
    ),
    (
        Stage::Solving,
        Search::Ordered,
        Beside::Nothing,
        12,
        "c 12 s: 350000 conflicts, 4 cubes solved, at most 3 waiting, depth 2, at least 0.00 % of the tree closed",
    ),
    (
        Stage::Solving,
        Search::Focused,
        Beside::Nothing,
        12,
        "c 12 s: 350000 conflicts, 29166 a second, 36 rounds, 258000 learnt clauses, 200 variables fixed, 4 cubes solved",
    ),
    (
        Stage::Cubes,
        Search::Ordered,
        Beside::Nothing,
        12,
        "c 12 s: 350000 conflicts, 4 cubes solved",
    ),
    (
        Stage::Joining,
        Search::Ordered,
        Beside::Nothing,
        12,
        "c 12 s: joining",
    ),
    (
        Stage::Writing,
        Search::Focused,
        Beside::Nothing,
        12,
        "c 12 s: 2 lines, 7 bytes of the proof written",
    ),
    (
        Stage::Checking,
        Search::Ordered,
        Beside::Nothing,
        12,
        "c 12 s: 2 lines, 7 bytes of the proof read",
    ),
    (
        Stage::Checking,
        Search::Ordered,
        Beside::Whole(700),
        12,
        "c 12 s: 2 lines, 7 bytes of the proof read, 1 %",
    ),
    (
        Stage::Checking,
        Search::Ordered,
        Beside::Whole(14),
        12,
        "c 12 s: 2 lines, 7 bytes of the proof read, 50 %",
    ),
    (
        Stage::Checking,
        Search::Ordered,
        Beside::Whole(7),
        12,
        "c 12 s: 2 lines, 7 bytes of the proof read, 100 %",
    ),
    // the file has grown since
    (
        Stage::Checking,
        Search::Ordered,
        Beside::Whole(5),
        12,
        "c 12 s: 2 lines, 7 bytes of the proof read, 100 %",
    ),
    // the clock stood still
    (
        Stage::Solving,
        Search::Focused,
        Beside::Nothing,
        0,
        "c 0 s: 350000 conflicts, 36 rounds, 258000 learnt clauses, 200 variables fixed, 4 cubes solved",
    ),
    // ten of twelve seconds are of solving
    (
        Stage::Reading,
        Search::Focused,
        Beside::Read(2000),
        12,
        "c 12 s: 350000 conflicts, 35000 a second, 36 rounds, 258000 learnt clauses, 200 variables fixed, 4 cubes solved",
    ),
    (
        Stage::Solving,
        Search::Focused,
        Beside::Divided(2, &[]),
        12,
        "c 12 s: 350000 conflicts, 29166 a second, 0 of at most 2 cubes done, 0 %",
    ),
    (
        Stage::Solving,
        Search::Focused,
        Beside::Divided(2, &[1]),
        12,
        "c 12 s: 350000 conflicts, 29166 a second, 1 of at most 2 cubes done, 50 %",
    ),
    (
        Stage::Solving,
        Search::Focused,
        Beside::Divided(2, &[1, 1]),
        12,
        "c 12 s: 350000 conflicts, 29166 a second, 2 of at most 2 cubes done, 100 %",
    ),
    (
        Stage::Solving,
        Search::Focused,
        Beside::Divided(3, &[1]),
        12,
        "c 12 s: 350000 conflicts, 29166 a second, 2 of at most 4 cubes done, 50 %",
    ),
    (
        Stage::Solving,
        Search::Focused,
        Beside::Divided(64, &[0]),
        12,
        "c 12 s: 350000 conflicts, 29166 a second, 64 of at most 64 cubes done, 100 %",
    ),
    // two cubes of 62 literals are one of 61
    (
        Stage::Solving,
        Search::Focused,
        Beside::Divided(
            64,
            &[
                1, 2, 3, 4, 5, 6, 7, 8, 9, 10, 11, 12, 13, 14, 15, 16, 17, 18, 19, 20, 21, 22, 23,
                24, 25, 26, 27, 28, 29, 30, 31, 32, 33, 34, 35, 36, 37, 38, 39, 40, 41, 42, 43, 44,
                45, 46, 47, 48, 49, 50, 51, 52, 53, 54, 55, 56, 57, 58, 59, 60, 61, 62, 62,
            ],
        ),
        12,
        "c 12 s: 350000 conflicts, 29166 a second, 64 of at most 64 cubes done, 100 %",
    ),
    (
        Stage::Solving,
        Search::Focused,
        Beside::Divided(60, &[3, 7, 6]),
        12,
        "c 12 s: 350000 conflicts, 29166 a second, 9 of at most 64 cubes done, 14 %",
    ),
    (
        Stage::Solving,
        Search::Focused,
        Beside::Divided(64, &[1, 2, 3, 4, 5, 6, 7, 8, 9, 9]),
        12,
        "c 12 s: 350000 conflicts, 29166 a second, 64 of at most 64 cubes done, 100 %",
    ),
    (
        Stage::Solving,
        Search::Focused,
        Beside::Divided(65_536, &[17]),
        12,
        "c 12 s: 350000 conflicts, 29166 a second, 0 of at most 65536 cubes done, 0 %",
    ),
    (
        Stage::Solving,
        Search::Focused,
        Beside::Divided(65_536, &[17, 17]),
        12,
        "c 12 s: 350000 conflicts, 29166 a second, 1 of at most 65536 cubes done, 0 %",
    ),
    (
        Stage::Solving,
        Search::Focused,
        Beside::Divided(65, &[63]),
        12,
        "c 12 s: 350000 conflicts, 29166 a second, 0 of at most 128 cubes done, 0 %",
    ),
    (
        Stage::Solving,
        Search::Focused,
        Beside::First(None),
        12,
        "c 12 s: first search, 1000 conflicts",
    ),
    (
        Stage::Solving,
        Search::Focused,
        Beside::First(Some(true)),
        12,
        "c 12 s: first search, 1000 conflicts",
    ),
    (
        Stage::Solving,
        Search::Focused,
        Beside::Short,
        12,
        "c 12 s: short focused search, 300 conflicts",
    ),
    // its conflicts count among those of hands
    (
        Stage::Solving,
        Search::Focused,
        Beside::First(Some(false)),
        12,
        "c 12 s: 351000 conflicts, 29250 a second, 36 rounds, 258000 learnt clauses, 200 variables fixed, 4 cubes solved",
    ),
    (
        Stage::Reading,
        Search::Focused,
        Beside::Lowered,
        12,
        "c 12 s: lowering, 1 of 2 variables settled, 3 questions, 2 without a model",
    ),
    // the stages have their own lines
    (
        Stage::Joining,
        Search::Focused,
        Beside::First(None),
        12,
        "c 12 s: joining",
    ),
];

/// The formula is read.
fn end_reading(alloc: Global, figures: &mut Figures, millis: u64) -> Result<(), Fail> {
    let formula = read_formula(alloc, FOUR.as_bytes())?;
    let end = StageEnd {
        at: millis,
        peak: None,
    };
    figures.end_reading(FormulaSize::of(&formula), end);
    Ok(())
}

/// The formula is divided, and cubes are refuted.
fn divide(figures: &mut Figures, cubes: u32, refuted: &[usize]) {
    let first = FirstSearch {
        decisions: 12_000,
        conflicts: 20_000,
        stable_conflicts: 10_000,
        answer: FirstAnswer::Divided(cubes),
    };
    figures.division.set_first(first, 0);
    for literals in refuted {
        figures.division.close(*literals);
    }
}

/// What a short search has done.
fn short_search() -> BeginningCounts {
    let mut beginning = BeginningCounts::none();
    beginning.count_try(Counts {
        conflicts: 300,
        ..Counts::none()
    });
    beginning
}

/// The figures of a row.
fn figures_of(alloc: Global, row: &Row) -> Result<Figures, Fail> {
    let mut figures = some_figures(row.0, row.1);
    match row.2 {
        Beside::Nothing => {}
        Beside::Whole(bytes) => figures.whole = Some(bytes),
        Beside::Read(millis) => end_reading(alloc, &mut figures, millis)?,
        Beside::Divided(cubes, refuted) => divide(&mut figures, cubes, refuted),
        Beside::First(is_decided) => put_first(&mut figures, is_decided),
        Beside::Short => figures.beginning = Some(short_search()),
        Beside::Lowered => {
            end_reading(alloc, &mut figures, 0)?;
            put_first(&mut figures, Some(false));
            put_lowering(&mut figures);
        }
    }
    Ok(figures)
}

/// Whether this is the line of some figures, as a list has it or a terminal.
fn has_line(alloc: Global, row: &Row, manner: Manner) -> Result<bool, Fail> {
    let figures = figures_of(alloc, row)?;
    let (seconds, text) = (row.3, row.4);
    let mut line = Vec::new(alloc);
    print_line(&mut line, manner, seconds, &figures);
    let wanted = match manner {
        Manner::Listed => format!(in alloc; "{text}\n")?,
        Manner::Rewritten => format!(in alloc; "\r{text}\x1b[K")?,
    };
    Ok(line.as_slice() == wanted.as_bytes())
}

#[test]
fn lines_of_known_figures(rt: HostRuntime) -> Result<(), Fail> {
    for row in &ROWS {
        assert!(rt; has_line(rt.alloc(), row, Manner::Listed)?, "{}", row.4);
        assert!(rt; has_line(rt.alloc(), row, Manner::Rewritten)?, "{}", row.4);
    }
    Ok(())
}

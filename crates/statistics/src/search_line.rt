//! How far a search is, in a line of progress.

use crate::cube_counts::CubeCounts;
use crate::division::Done;
use crate::figures::Figures;
use crate::search_counts::a_second;
use cdcl::{Counts, Search};
use std::fmt;
use std::fmt::{Display, Formatter};

/// How far the focused search of a formula is that isn't divided.
#[derive(Clone, Copy)]
struct Progressed {
    rounds: u64,
    /// Learnt clauses that aren't forgotten.
    held: u64,
    /// Literals of level 0.
    fixed: u64,
}

impl Progressed {
    fn of(counts: Counts) -> Progressed {
        Progressed {
            rounds: counts.rounds,
            held: counts.learnt.saturating_sub(counts.forgotten),
            fixed: counts.units,
        }
    }
}

impl Display for Progressed {
    fn fmt<W: fmt::Write>(&self, f: &mut Formatter<W>) -> fmt::Result {
        let Progressed {
            rounds,
            held,
            fixed,
        } = self;
        write!(
            f,
            "{rounds} rounds, {held} learnt clauses, {fixed} variables fixed"
        )
    }
}

/// What is shown of hands' search that goes on. Its conflicts come first: by the focused search most
/// formulas are one cube for long, of which the cubes say nothing.
#[derive(Clone, Copy)]
pub(crate) struct HandsLine {
    search: Search,
    /// Those of a search that was made first are among them.
    conflicts: u64,
    /// How many a second, where the clock went on.
    speed: Option<u64>,
    cubes: CubeCounts,
    /// The cubes that are done, where the formula is divided.
    done: Option<Done>,
    progressed: Progressed,
}

impl HandsLine {
    fn of(figures: &Figures, now: u64) -> HandsLine {
        let conflicts = figures.searched().conflicts;
        HandsLine {
            search: figures.search,
            conflicts,
            speed: a_second(conflicts, now.saturating_sub(figures.began_solving())),
            cubes: figures.cubes,
            done: figures.division.done(),
            progressed: Progressed::of(figures.deciding()),
        }
    }
}

impl Display for HandsLine {
    fn fmt<W: fmt::Write>(&self, f: &mut Formatter<W>) -> fmt::Result {
        let (conflicts, cubes) = (self.conflicts, self.cubes);
        write!(f, "{conflicts} conflicts, ")?;
        if self.search == Search::Ordered {
            return write!(f, "{cubes}");
        }
        if let Some(speed) = self.speed {
            write!(f, "{speed} a second, ")?;
        }
        if let Some(done) = self.done {
            return write!(f, "{done}");
        }
        let (solved, progressed) = (cubes.solved(), self.progressed);
        write!(f, "{progressed}")?;
        if solved > 0 {
            write!(f, ", {solved} cubes solved")?;
        }
        Ok(())
    }
}

/// How far a lowering is, of so many variables.
#[derive(Clone, Copy)]
pub(crate) struct LoweringLine {
    settled: u32,
    vars: u32,
    questions: u64,
    refuted: u64,
}

/// What is shown while a formula is solved.
#[derive(Clone, Copy)]
pub(crate) enum SearchLine {
    /// The search that is made first has had so many conflicts, and hands haven't begun.
    First(u64),
    /// The short focused search has had so many, which says whether the formula is simplified.
    Short(u64),
    /// The formula is simplified; so many literals were looked at.
    Simplifies(u64),
    Hands(HandsLine),
    Lowering(LoweringLine),
}

impl SearchLine {
    /// Of these figures, so many milliseconds after the run began.
    pub(crate) fn of(figures: &Figures, now: u64) -> SearchLine {
        if let Some(lowering) = figures.lowering {
            return SearchLine::Lowering(LoweringLine {
                settled: lowering.settled(),
                vars: figures.vars(),
                questions: lowering.questions,
                refuted: lowering.refuted,
            });
        }
        if let Some(conflicts) = figures.first_conflicts() {
            return SearchLine::First(conflicts);
        }
        if let Some(beginning) = figures.beginning {
            if let Some(conflicts) = beginning.tries() {
                return SearchLine::Short(conflicts);
            }
            if let Some(literals) = beginning.literals() {
                return SearchLine::Simplifies(literals);
            }
        }
        SearchLine::Hands(HandsLine::of(figures, now))
    }
}

impl Display for SearchLine {
    fn fmt<W: fmt::Write>(&self, f: &mut Formatter<W>) -> fmt::Result {
        match self {
            SearchLine::First(conflicts) => write!(f, "first search, {conflicts} conflicts"),
            SearchLine::Short(conflicts) => {
                write!(f, "short focused search, {conflicts} conflicts")
            }
            SearchLine::Simplifies(literals) => {
                write!(f, "simplifying, {literals} literals looked at")
            }
            SearchLine::Hands(line) => write!(f, "{line}"),
            SearchLine::Lowering(line) => {
                let LoweringLine {
                    settled,
                    vars,
                    questions,
                    refuted,
                } = line;
                write!(
                    f,
                    "lowering, {settled} of {vars} variables settled, {questions} questions, {refuted} without a model"
                )
            }
        }
    }
}

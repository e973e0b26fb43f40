//! What is counted in a run, as plain numbers; a number that can't grow stays as it is.

use crate::beginning_counts::BeginningCounts;
use crate::cube_counts::CubeCounts;
use crate::division::DivisionCounts;
use crate::first_counts::FirstCounts;
use crate::hand_times::HandTimes;
use crate::search_counts::SearchCounts;
use cdcl::{Counts, Search};
use cnf::Formula;
pub use cubes::TreeSize;
use cubes::{FirstAnswer, FirstSearch};
use messages::line_feeds;
use std::fmt;
use std::fmt::{Display, Formatter};
use strategies::{LoweringCounts, Strategy};

/// The size of a formula.
#[derive(Clone, Copy)]
pub struct FormulaSize {
    pub(crate) vars: u32,
    pub(crate) clauses: usize,
    /// The literals of all clauses, each as often as it stands there.
    pub(crate) literals: usize,
}

impl FormulaSize {
    /// The size of this formula. It takes no longer for a large one.
    pub fn of(formula: &Formula) -> FormulaSize {
        FormulaSize {
            vars: formula.vars(),
            clauses: formula.clause_count(),
            literals: formula.literal_count(),
        }
    }
}

/// How much of a text went by.
#[derive(Clone, Copy)]
pub struct TextSize {
    pub(crate) lines: usize,
    pub(crate) bytes: usize,
}

impl TextSize {
    pub(crate) fn none() -> TextSize {
        TextSize { lines: 0, bytes: 0 }
    }

    /// How many bytes a text has, and how many of them end a line.
    pub fn of(text: &[u8]) -> TextSize {
        TextSize {
            lines: line_feeds(text) as usize,
            bytes: text.len(),
        }
    }

    fn add(&mut self, piece: TextSize) {
        self.lines = self.lines.saturating_add(piece.lines);
        self.bytes = self.bytes.saturating_add(piece.bytes);
    }
}

impl Display for TextSize {
    fn fmt<W: fmt::Write>(&self, f: &mut Formatter<W>) -> fmt::Result {
        let (lines, bytes) = (self.lines, self.bytes);
        write!(f, "{lines} lines, {bytes} bytes")
    }
}

/// How a stage of a run ended.
#[derive(Clone, Copy)]
pub struct StageEnd {
    /// Milliseconds since the run began.
    pub at: u64,
    /// The most memory that the process had by then, in KiB, where the system tells it.
    pub peak: Option<u64>,
}

/// What a run is at.
#[derive(Clone, Copy, Debug, PartialEq, Eq)]
pub enum Stage {
    /// The formula is read.
    Reading,
    /// It is solved, or decided where no proof is written.
    Solving,
    /// The answer is made, and all that the proof's lines are made of.
    Joining,
    /// The proof is written, and then the answer.
    Writing,
    /// `check` reads the formula, and then the proof.
    Checking,
    /// `divide` or `conquer` solves cubes.
    Cubes,
}

/// All that is counted in a run; none of what it didn't come to.
#[derive(Clone, Copy)]
pub struct Figures {
    /// What it is at.
    pub(crate) stage: Stage,
    /// By which search hands solve the formula.
    pub search: Search,
    /// The search that is made before that, if there is one.
    pub first: Option<FirstCounts>,
    /// Whether the plan divides some formulas.
    pub(crate) may_divide: bool,
    /// How far the beginning of the plan's search is, once it has begun.
    pub beginning: Option<BeginningCounts>,
    /// Whether a limit was reached before the formula was solved.
    is_out_of_time: bool,
    /// Whether no more progress is to be shown.
    pub(crate) is_ended: bool,
    /// Whether a line of progress stands on the terminal.
    pub(crate) is_drawn: bool,
    /// No line of it is to be drawn for now.
    pub(crate) is_hidden: bool,
    /// The formula's size, once it is read.
    pub(crate) formula: Option<FormulaSize>,
    /// Whether a literal stands twice in a clause of it, where a proof is to be written.
    pub has_repeats: bool,
    /// How many hands solve it, 1 to 16.
    pub hands: usize,
    /// Which cubes hands have begun and solved.
    pub cubes: CubeCounts,
    /// What is known of the formula's division.
    pub division: DivisionCounts,
    /// When hands began and ended cubes.
    pub times: HandTimes,
    /// What the hands' solvers have done.
    pub counts: SearchCounts,
    /// How far the lowering of a model to the first one is, once it has begun.
    pub lowering: Option<LoweringCounts>,
    /// The size of the tree, once the formula is solved with a proof and has no model.
    pub(crate) tree: Option<TreeSize>,
    /// The formula's text, as far as `check` has read it.
    pub(crate) text: TextSize,
    /// The proof's text, as far as it is written, or as `check` has read it.
    pub(crate) proof: TextSize,
    /// Whether it is known that no proof is written.
    pub(crate) has_no_proof: bool,
    /// How many bytes the proof that is checked has, if that is known.
    pub whole: Option<u64>,
    /// How reading ended.
    pub(crate) read: Option<StageEnd>,
    /// How solving ended, or deciding where no proof is written.
    pub(crate) solved: Option<StageEnd>,
    /// How joining ended.
    pub(crate) joined: Option<StageEnd>,
    /// How writing the proof ended.
    pub(crate) written: Option<StageEnd>,
    /// How the check ended.
    pub(crate) checked: Option<StageEnd>,
}

impl Figures {
    /// Nothing is counted yet, of a run by the ordered search and one hand.
    pub fn none(stage: Stage) -> Figures {
        Figures {
            stage,
            search: Search::Ordered,
            first: None,
            may_divide: false,
            beginning: None,
            is_out_of_time: false,
            is_ended: false,
            is_drawn: false,
            is_hidden: false,
            formula: None,
            has_repeats: false,
            hands: 1,
            cubes: CubeCounts::none(),
            division: DivisionCounts::none(),
            times: HandTimes::none(),
            counts: SearchCounts::none(),
            lowering: None,
            tree: None,
            text: TextSize::none(),
            proof: TextSize::none(),
            has_no_proof: false,
            whole: None,
            read: None,
            solved: None,
            joined: None,
            written: None,
            checked: None,
        }
    }

    /// The run goes by this strategy.
    pub fn set_strategy(&mut self, strategy: Strategy) {
        self.search = strategy.plan().search();
        self.may_divide = strategy.plan().may_divide();
        self.first = match strategy.first() {
            Some(_) => Some(FirstCounts::none()),
            None => None,
        };
    }

    /// The search that is made first has done so much.
    pub(crate) fn count_first(&mut self, counts: Counts) {
        if let Some(first) = &mut self.first {
            first.count(counts);
        }
    }

    /// That search has ended, and decided the formula or not.
    pub(crate) fn end_first(&mut self, is_decided: bool) {
        if let Some(first) = &mut self.first {
            first.end(is_decided);
        }
    }

    /// The short search of the beginning has ended, and decided the formula or not. Where it has,
    /// nothing is asked of a division.
    pub(crate) fn end_try(&mut self, is_decided: bool, now: u64) {
        let beginning = self.begun();
        beginning.end_try(is_decided, now);
        let conflicts = beginning.search().conflicts;
        if is_decided && self.may_divide {
            let first = FirstSearch {
                decisions: 0,
                conflicts,
                stable_conflicts: 0,
                answer: FirstAnswer::Ended,
            };
            self.set_first(first, now);
        }
    }

    /// The beginning of the plan's search, which has begun by now.
    pub(crate) fn begun(&mut self) -> &mut BeginningCounts {
        self.beginning.get_or_insert(BeginningCounts::none())
    }

    /// How many variables the formula has, once it is read.
    pub(crate) fn vars(&self) -> u32 {
        match self.formula {
            Some(formula) => formula.vars,
            None => 0,
        }
    }

    /// The lowering is so far.
    pub(crate) fn count_lowering(&mut self, counts: LoweringCounts) {
        self.lowering = Some(counts);
        self.is_hidden = false;
    }

    /// How many conflicts the search that is made first has had, if there is one and hands haven't
    /// begun behind it.
    pub(crate) fn first_conflicts(&self) -> Option<u64> {
        let first = self.first?;
        if first.is_used_up() {
            return None;
        }
        Some(first.counts().conflicts)
    }

    /// What all searches have done together: the one that is made first, the one that says whether
    /// the formula is simplified, those of hands, and those of the lowering.
    pub(crate) fn searched(&self) -> Counts {
        let mut sum = self.counts.sum();
        if let Some(first) = self.first {
            sum = sum.with(first.counts());
        }
        if let Some(beginning) = self.beginning {
            sum = sum.with(beginning.search());
        }
        if let Some(lowering) = self.lowering {
            sum = sum.with(lowering.search);
        }
        sum
    }

    /// What the search has done that decides the formula: that of hands, or the one that says whether
    /// the formula is simplified, where that has decided it.
    pub(crate) fn deciding(&self) -> Counts {
        if let Some(beginning) = self.beginning {
            if beginning.has_decided() {
                return beginning.search();
            }
        }
        self.counts.sum()
    }

    /// Whether it is asked when each cube begins and ends: for the time of looks, and for the time
    /// that hands wait.
    pub(crate) fn times_cubes(&self) -> bool {
        self.hands >= 2 || self.division.depth().is_some()
    }

    /// A hand begins a cube of so many literals, the last one with this sign.
    pub(crate) fn begin_cube(&mut self, hand: usize, depth: usize, last: Option<bool>, now: u64) {
        self.cubes.begin(hand, depth, last);
        self.times.begin(hand, now);
    }

    /// A hand is done with a cube of so many literals; it has left it unsolved where the time is over.
    pub(crate) fn end_cube(&mut self, hand: usize, depth: usize, now: u64) {
        if !self.is_out_of_time {
            self.cubes.end(hand, depth);
        }
        self.times.end(hand, now);
        if self.division.looks_at(depth) {
            self.division.add_look(self.times.began(hand), now);
        }
    }

    /// The first search was asked whether the formula is divided, or ended before.
    pub(crate) fn set_first(&mut self, first: FirstSearch, now: u64) {
        self.division.set_first(first, now);
    }

    /// A cube of so many literals is refuted.
    pub(crate) fn close_cube(&mut self, literals: usize) {
        self.division.close(literals);
    }

    /// Before hands began so much was done.
    pub(crate) fn count_prepared(&mut self, counts: Counts, now: u64) {
        self.counts.set_prepared(counts);
        self.division.end_preparing(now);
    }

    /// A hand's solver has done so much in all.
    pub(crate) fn count(&mut self, hand: usize, counts: Counts) {
        self.counts.set(hand, counts);
    }

    /// When solving began, in milliseconds since the run did.
    pub(crate) fn began_solving(&self) -> u64 {
        match self.read {
            Some(end) => end.at,
            None => 0,
        }
    }

    /// A piece of the formula's text goes by.
    pub(crate) fn add_text(&mut self, piece: TextSize) {
        self.text.add(piece);
    }

    /// A piece of the proof goes by.
    pub fn add_proof(&mut self, piece: TextSize) {
        self.proof.add(piece);
    }

    /// The formula is read.
    pub fn end_reading(&mut self, size: FormulaSize, end: StageEnd) {
        self.stage = Stage::Solving;
        self.formula = Some(size);
        self.read = Some(end);
    }

    /// It is known whether a literal stands twice in a clause.
    pub(crate) fn set_repeats(&mut self, has_repeats: bool) {
        self.has_repeats = has_repeats;
    }

    /// It is solved, without a model where the tree has a size.
    pub fn end_solving(&mut self, size: Option<TreeSize>, end: StageEnd) {
        self.stage = Stage::Joining;
        self.tree = size;
        self.solved = Some(end);
    }

    /// It is decided, and no proof is made of a tree.
    pub fn end_deciding(&mut self, end: StageEnd) {
        self.end_solving(None, end);
    }

    /// The answer is made, and all that the proof's lines are made of.
    pub fn end_joining(&mut self, end: StageEnd) {
        self.stage = Stage::Writing;
        self.joined = Some(end);
    }

    /// The proof is written.
    pub fn end_writing(&mut self, end: StageEnd) {
        self.written = Some(end);
    }

    /// The proof is checked.
    pub(crate) fn end_checking(&mut self, end: StageEnd) {
        self.checked = Some(end);
    }

    /// How much of the proof has gone by, in hundredths, where its size is known.
    pub(crate) fn proof_share(&self) -> Option<u64> {
        let whole = self.whole?;
        let read = (self.proof.bytes as u64).saturating_mul(100);
        Some(read.checked_div(whole)?.min(100))
    }

    /// A limit is reached.
    pub(crate) fn end_time(&mut self) {
        self.is_out_of_time = true;
    }

    pub(crate) fn end_progress(&mut self) {
        self.is_ended = true;
    }

    pub(crate) fn hide_progress(&mut self) {
        self.is_hidden = true;
    }

    /// Whether no line may stand on the terminal.
    pub(crate) fn is_bare(&self) -> bool {
        self.is_ended || self.is_hidden
    }

    /// A line is about to be drawn; whether it still may be.
    pub(crate) fn draw(&mut self) -> bool {
        self.is_drawn = !self.is_bare();
        self.is_drawn
    }

    pub(crate) fn erase(&mut self) {
        self.is_drawn = false;
    }
}

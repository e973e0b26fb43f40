//! What watches a run: at a gate, between its stages, and as its proof goes by. It counts on a
//! board; nothing that the run writes depends on it.

use crate::board::Board;
use crate::counted::Counter;
use crate::figures::{FormulaSize, StageEnd, TextSize, TreeSize};
use crate::peak::peak_memory;
use cdcl::Counts;
use cnf::Formula;
use cubes::{FirstAnswer, FirstSearch, Gate, Tree};
use kernel::Cube;
use lines::Row;
use std::alloc::Global;
use std::rt::Files;
use std::sync::Wait;
use std::time::Clock;
use strategies::{LoweringCounts, Observer, SimplifiedCounts};
use tidying::has_repeats;

/// Counts a run on a board.
#[derive(Drop)]
pub struct Watch<'a, R> {
    pub rt: &'a R,
    pub alloc: Global,
    pub board: &'a Board,
}

impl<R: Files + Clock> Watch<'_, R> {
    fn stage_end(&self) -> StageEnd {
        StageEnd {
            at: self.board.now(self.rt),
            peak: peak_memory(self.rt),
        }
    }
}

impl<R: Wait + Clock> Counter for Watch<'_, R> {
    fn went_by(&self, piece: &[u8]) {
        let size = TextSize::of(piece);
        self.board.figures().lock(self.rt).add_proof(size);
    }
}

impl<R: Wait> Watch<'_, R> {
    /// Notes whether a literal stands twice in a clause, if a proof is to be written; where memory
    /// is refused, nothing.
    fn note_repeats(&self, formula: &Formula) {
        let has_no_proof = self.board.look(self.rt).has_no_proof;
        if has_no_proof {
            return;
        }
        if let Ok(has_repeats) = has_repeats(self.alloc, formula) {
            self.board.figures().lock(self.rt).set_repeats(has_repeats);
        }
    }
}

impl<R: Files + Wait + Clock> Watch<'_, R> {
    /// A check has ended.
    pub fn checked(&self) {
        let end = self.stage_end();
        self.board.figures().lock(self.rt).end_checking(end);
    }
}

/// Counts the text of a formula that goes by on a board.
#[derive(Drop)]
pub struct TextWatch<'a, R> {
    pub rt: &'a R,
    pub board: &'a Board,
}

impl<R: Wait> Counter for TextWatch<'_, R> {
    fn went_by(&self, piece: &[u8]) {
        let size = TextSize::of(piece);
        self.board.figures().lock(self.rt).add_text(size);
    }
}

impl<R: Wait + Clock> Watch<'_, R> {
    /// The time of a cube's beginning or end, where that is asked for; else 0.
    fn cube_time(&self) -> u64 {
        let is_asked = self.board.figures().lock(self.rt).times_cubes();
        if is_asked { self.board.now(self.rt) } else { 0 }
    }

    /// The time of an answer that divides the formula; else 0.
    fn answer_time(&self, first: FirstSearch) -> u64 {
        match first.answer {
            FirstAnswer::Divided(_) => self.board.now(self.rt),
            _ => 0,
        }
    }

    /// The time of the end of the first look, where it goes on; else 0.
    fn first_look_time(&self) -> u64 {
        let is_looking = self.board.figures().lock(self.rt).division.is_looking();
        if is_looking {
            self.board.now(self.rt)
        } else {
            0
        }
    }
}

impl<R: Wait + Clock> Gate for Watch<'_, R> {
    fn before(&self, hand: usize, cube: &Cube) {
        let now = self.cube_time();
        let depth = cube.lits().len();
        let last = match cube.lits().last() {
            Some(lit) => Some(lit.positive()),
            None => None,
        };
        self.board
            .figures()
            .lock(self.rt)
            .begin_cube(hand, depth, last, now);
    }

    fn after(&self, hand: usize, cube: &Cube) {
        let now = self.cube_time();
        let depth = cube.lits().len();
        self.board
            .figures()
            .lock(self.rt)
            .end_cube(hand, depth, now);
    }

    fn prepared(&self, counts: Counts) {
        let now = self.first_look_time();
        self.board
            .figures()
            .lock(self.rt)
            .count_prepared(counts, now);
    }

    fn asked(&self, first: FirstSearch) {
        let now = self.answer_time(first);
        self.board.figures().lock(self.rt).set_first(first, now);
    }

    fn refuted(&self, _hand: usize, cube: &Cube) {
        let literals = cube.lits().len();
        self.board.figures().lock(self.rt).close_cube(literals);
    }

    fn counted(&self, hand: usize, counts: Counts) {
        self.board.figures().lock(self.rt).count(hand, counts);
    }
}

impl<R: Files + Wait + Clock> Observer for Watch<'_, R> {
    fn read(&self, formula: &Formula) {
        self.note_repeats(formula);
        let size = FormulaSize::of(formula);
        let end = self.stage_end();
        self.board.figures().lock(self.rt).end_reading(size, end);
    }

    fn searched_first(&self, counts: Counts) {
        self.board.figures().lock(self.rt).count_first(counts);
    }

    fn ended_first(&self, is_decided: bool) {
        self.board.figures().lock(self.rt).end_first(is_decided);
    }

    fn tried(&self, counts: Counts) {
        self.board.figures().lock(self.rt).begun().count_try(counts);
    }

    fn ended_try(&self, is_decided: bool) {
        let now = self.board.now(self.rt);
        self.board.figures().lock(self.rt).end_try(is_decided, now);
    }

    fn simplifying(&self, literals: u64) {
        self.board
            .figures()
            .lock(self.rt)
            .begun()
            .count_literals(literals);
    }

    fn simplified(&self, counts: SimplifiedCounts) {
        let now = self.board.now(self.rt);
        self.board.figures().lock(self.rt).begun().end(counts, now);
    }

    fn has_model(&self) {
        self.board.hide_progress(self.rt);
    }

    fn lowering(&self, counts: LoweringCounts) {
        self.board.figures().lock(self.rt).count_lowering(counts);
    }

    fn solved(&self, tree: &Tree<Row>) {
        let size = TreeSize::of(tree);
        let end = self.stage_end();
        self.board.figures().lock(self.rt).end_solving(size, end);
    }

    fn decided(&self) {
        let end = self.stage_end();
        self.board.figures().lock(self.rt).end_deciding(end);
    }

    fn joined(&self) {
        let end = self.stage_end();
        self.board.figures().lock(self.rt).end_joining(end);
    }

    fn written(&self) {
        let end = self.stage_end();
        self.board.figures().lock(self.rt).end_writing(end);
    }

    fn answers(&self) {
        self.board.end_progress(self.rt);
    }
}

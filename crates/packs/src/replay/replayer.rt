//! What replays lines of one cube after the other.
ghost use Rattle.std.specs.Prelude.{◌≡◌, ◌≤◌, ◌↔◌, [], length, IsTrue, IfOk};
ghost use Rattle.theory.specs.Checked.{AreCheckedLines};
ghost use Rattle.theory.specs.Truth.{IsOver};
ghost use Rattle.packs.specs.Opened.{opened, with_units};

use crate::replay::line_clauses::LineClauses;
use crate::replay::passing::refute;
use cnf::{Formula, Lit};
use lines::Row;
use lrat::Held;
use std::alloc::{AllocError, Global};
use std::marker::Model;
use trail::Cube;

/// Replays the lines of a formula's cubes, one cube after the other. It takes memory by the
/// variables, and by the literals of the longest row that it was given.
#[derive(Drop)]
pub struct Replayer {
    // the literals whose unit clauses the search begins with too, by rising variable
    units: Vec<Lit>,
    // what is held true; nothing between two cubes
    held: Held,
    // the clauses of a cube's lines; none between two cubes
    lines: LineClauses,
}

impl Model for Replayer {
    ghost use Rattle.std.specs.Prelude.{◌≡◌, ◌≤◌, [], length};
    ghost use Rattle.theory.specs.Truth.{IsOver};
    ghost use Rattle.packs.specs.Opened.{Opened};

    ghost Value = { Opened };

    ghost view = { λ a. record { vars = a.held.vars; units = a.units.items } };

    ghost invariant = { λ a. (a.held.literals ≡ []) × (a.lines ≡ []) × IsOver a.held.vars a.units.items × (length a.units.items ≤ a.held.vars) };
}

impl Replayer {
    /// A replayer for a formula, where a search of it begins with the unit clauses of these literals
    /// too. It takes memory by the variables, and fails where that is refused.
    pub fn open(alloc: Global, formula: &Formula, units: Vec<Lit>) -> Result<Replayer, AllocError>
        requires over { IsOver formula.now.vars units.items }
        requires few { length units.items ≤ formula.now.vars }
        ensures { IfOk result (λ r. r ≡ opened formula.now units.items) }
    {
        Ok(Replayer {
            units,
            held: Held::new(alloc, formula.vars())?,
            lines: LineClauses::new(alloc),
        })
    }

    /// Whether the lines of a row replay as a refutation of a cube, over the clauses that a search
    /// of the formula begins with: each line's clause with the negations of the cube's literals
    /// passes by its hints, and the last one's is empty; no hint names a line that is forgotten,
    /// and only lines before are, each once, behind the last one none. The row and the cube may be
    /// any. It takes time by the literals of the cube, of the lines and of the clauses that hints
    /// name, and none by the formula. It fails where a request for memory is refused, and can be
    /// asked again.
    pub fn replays(&mut self, formula: &Formula, cube: &Cube, row: &Row) -> Result<bool, AllocError>
        requires { self.old.vars ≡ formula.now.vars }
        ensures replays { IfOk result (λ b. IsTrue b ↔ AreCheckedLines (with_units formula.now self.old.units) cube.now row.now) }
        ensures stays { self.new ≡ self.old }
    {
        let answer = refute(
            &mut self.held,
            &mut self.lines,
            formula,
            &self.units,
            cube,
            row,
        );
        self.held.go_back(0);
        self.lines.clear();
        answer
    }
}

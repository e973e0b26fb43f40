//! A simplification as a whole.
ghost use Rattle.std.specs.Prelude.{◌≡◌, ◌≤◌, List, IfOk};
ghost use Rattle.theory.specs.Simplifying.{Change};
ghost use Rattle.theory.specs.Trying.{IsSimplification};
ghost use Rattle.simplify.specs.Extending.{AreOver};
ghost use Rattle.simplify.specs.Left.{left_clauses};
ghost use Rattle.simplify.specs.Made.{IsMadeBy};

use crate::effort::literal_count;
use crate::left::{count_left, left_formula};
use crate::room::Room;
use crate::simplification::Simplification;
use crate::trial::Trial;
use crate::watcher::Watcher;
use cnf::Formula;
use std::alloc::{AllocError, Global};

/// So many times the formula's literals are looked at.
const EFFORT: u64 = 100;

/// Simplifies a formula: variables are eliminated by resolution, where that takes no more clauses.
/// It is the definition's simplification of the formula, whatever the watcher is told. It takes time
/// by up to a hundred times the formula's literals, and memory by the formula. It fails where a
/// request for memory is refused, and where the watcher stops it.
pub fn simplify<W: Watcher>(
    alloc: Global,
    formula: &Formula,
    watcher: &W,
) -> Result<Simplification, AllocError>
    requires { 1 ≤ formula.now.vars }
    ensures { IfOk result (λ s. (cs : List Change) × IsSimplification formula.now cs × IsMadeBy formula.now cs s) }
{
    let _vars = formula.vars(); // it ensures that clauses are over the variables
    let most = EFFORT * literal_count(alloc, formula)?;
    let mut trial = Trial::open(alloc, formula)?;
    trial.run(&mut Room::new(alloc), most, watcher)?;
    finish(alloc, formula, trial)
}

/// What the tries have left.
fn finish(alloc: Global, formula: &Formula, trial: Trial) -> Result<Simplification, AllocError>
    requires vars { (1 ≤ formula.now.vars) × (trial.vars ≡ formula.now.vars) }
    requires over { AreOver trial.vars trial.eliminated }
    ensures { IfOk result (λ s. s ≡ record {
      formula = record { vars = trial.vars; clauses = left_clauses formula.now trial.entries };
      lines = trial.lines;
      eliminated = trial.eliminated;
    }) }
{
    let left = left_formula(alloc, formula, &trial.database)?;
    let Trial {
        database,
        candidates: _,
        lines,
        eliminated,
        work,
    } = trial;
    Ok(Simplification {
        formula: left,
        lines,
        eliminated,
        clauses: count_left(&database),
        work,
    })
}

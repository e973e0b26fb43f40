//! Calls that the program doesn't need and others may make: for one conflict and for one cube, and
//! with each line of a refuted cube in memory of its own.
ghost use Rattle.std.specs.Prelude.{◌≡◌, ◌≤◌, IfOk, Some};
ghost use Rattle.theory.specs.Truth.{IsOver};
ghost use Rattle.theory.specs.Pure.{searched};
ghost use Rattle.theory.specs.Trails.{literals};
ghost use Rattle.theory.specs.Propagation.{least_false};
ghost use Rattle.theory.specs.Learning.{learn, back_level};
ghost use Rattle.theory.specs.Plans.{ordered, ordered_within};
ghost use Rattle.theory.specs.Runs.{Runs};
ghost use Rattle.theory.specs.Results.{OutcomeSays};
ghost use Rattle.cdcl.specs.Learnt.{line_of};
ghost use Rattle.cdcl.specs.Outcome.{outcome_of};

use crate::analysis::first_uip::{Learnt, analyze_in};
use crate::analysis::marks::AnalysisScratch;
use crate::api::counts::Unwatched;
use crate::api::keeping::KeepsLines;
use crate::api::outcome::Outcome;
use crate::api::plan::Plan;
use crate::api::solver::Solver;
use crate::search::line_log::LineLog;
use cnf::{Formula, Lit};
use kernel::{Cube, Kernel};
use lines::Reader;
use std::alloc::{AllocError, Global};
use std::marker::Model;

/// A learnt clause without the cube's literals, by rising variable, the numbers of the clauses that
/// it was resolved from, and of those that are forgotten behind it. Behind the formula's clauses
/// come, with the ordered search, the unit clauses of its pure literals; the numbers above these
/// count the cube's own lines.
#[derive(Drop)]
pub struct Line {
    clause: Vec<Lit>,
    hints: Vec<u64>,
    forgets: Vec<u64>,
}

impl Model for Line {
    ghost use Rattle.theory.specs.Learning as learning;

    ghost Value = { learning.Line };

    ghost view = { λ l. record { clause = l.clause.items; hints = l.hints.items; forgets = l.forgets.items } };
}

impl Line {
    /// The clause.
    pub fn clause(&self) -> &[Lit]
        ensures { result.now ≡ self.now.clause }
    {
        &self.clause
    }

    /// The hints.
    pub fn hints(&self) -> &[u64]
        ensures { result.now ≡ self.now.hints }
    {
        &self.hints
    }

    /// The numbers of the clauses that are forgotten behind it, which no later line has as hints.
    pub fn forgets(&self) -> &[u64]
        ensures { result.now ≡ self.now.forgets }
    {
        &self.forgets
    }

    /// The clause, the hints and what is forgotten, by value.
    pub fn into_parts(self) -> (Vec<Lit>, Vec<u64>, Vec<u64>)
        ensures clause { result.0.items ≡ self.clause }
        ensures hints { result.1.items ≡ self.hints }
        ensures forgets { result.2.items ≡ self.forgets }
    {
        (self.clause, self.hints, self.forgets)
    }
}

/// The lines of a refuted cube, in the order in which they were learnt; the last one's clause is
/// empty.
#[derive(Drop)]
pub struct Refutation {
    pub lines: Vec<Line>,
}

impl Model for Refutation {
    ghost use Rattle.std.specs.Prelude.{List};
    ghost use Rattle.theory.specs.Learning as learning;

    ghost Value = { List learning.Line };

    ghost view = { λ r. r.lines.items };
}

impl KeepsLines for Refutation {
    ghost lines = { λ refutation. refutation };

    fn keeps() -> bool {
        true
    }

    fn keep(alloc: Global, log: LineLog) -> Result<Refutation, AllocError> {
        let row = log.into_row()?;
        let mut lines = Vec::with_capacity(alloc, row.len())?;
        let mut reader = Reader::of(row);
        'lines: loop {
            let mut clause = Vec::new(alloc);
            let mut hints = Vec::new(alloc);
            let mut forgets = Vec::new(alloc);
            if !reader.next(&mut clause, &mut hints, &mut forgets)? {
                return Ok(Refutation { lines });
            }
            lines.push(Line {
                clause,
                hints,
                forgets,
            })?;
        }
    }
}

/// The outcome of one cube over the formula's variables, by the ordered search of the formula with the
/// unit clauses of its pure variables, where the root has a budget of 1 to 100,000 conflicts, and the
/// cube one by its literals. It takes time and memory by
/// the formula too: who has many cubes keeps a `Solver`. An error comes only where memory was
/// refused.
pub fn solve_cube(
    alloc: Global,
    formula: &Formula,
    cube: &Cube,
    budget: u32,
) -> Result<Outcome, AllocError>
    requires budget { (1 ≤ budget) × (budget ≤ 100000) }
    requires over { IsOver formula.now.vars cube.now }
    ensures runs { IfOk result (λ o. Runs (searched formula.now) (ordered_within budget) cube.now (outcome_of o)) }
    ensures says { IfOk result (λ o. OutcomeSays ordered (searched formula.now) cube.now (outcome_of o)) }
{
    let mut solver = Solver::open(alloc, formula, Plan::ordered(budget))?;
    let outcome = solver.solve_as(cube, &Unwatched)?;
    Ok(outcome)
}

/// The line that the conflict with the clause of this number teaches, and the level to go back to.
/// The last `close` answered this conflict, and nothing was changed since. It takes time by the
/// literals of the clauses resolved with, with a logarithm for the order of their variables and
/// places, and at first by the variables. An error comes only where memory was refused.
pub fn analyze(alloc: Global, kernel: &Kernel, conflict: u64) -> Result<Learnt, AllocError>
    requires { least_false (literals kernel.now.trail) kernel.now.clauses ≡ Some conflict }
    ensures line { IfOk result (λ r. line_of r ≡ learn kernel.now.clauses kernel.now.trail conflict) }
    ensures level { IfOk result (λ r. r.level ≡ back_level kernel.now.trail (learn kernel.now.clauses kernel.now.trail conflict).clause) }
{
    let mut learnt = Learnt::none(alloc);
    analyze_in(
        kernel.as_search(),
        &mut AnalysisScratch::new(),
        conflict,
        &mut learnt,
    )?;
    Ok(learnt)
}

//! Solving the cubes of a part, as one hand does.
ghost use Rattle.std.specs.Prelude.{◌≡◌, ℕ, List, [], ◌++◌, All, IfOk, IfNone, OnOk};
ghost use Rattle.theory.specs.Literals.{Literal};
ghost use Rattle.theory.specs.Beginnings.{begun_by};
ghost use Rattle.theory.specs.Checked.{IsFitSplit};
ghost use Rattle.theory.specs.Truth.{IsOver};
ghost use Rattle.cubes.specs.Division.{IsSolverOf};
ghost use Rattle.packs.specs.declared.fact.Claim.TheVariants.{Split};
ghost use Rattle.gathering.specs.Facts.{IsTrueFact};
ghost use Rattle.spread.specs.Solving.{IsStepBy, IsStep};

use crate::folder::Folder;
use crate::notes::{is_needless, note_model};
use crate::pack_file::write_pack;
use crate::run_file::RunFile;
use crate::said::{Said, say_no_memory};
use crate::solving::solve;
use crate::way::Way;
use cdcl::{Plan, split};
use cnf::Formula;
use cubes::{CubeSolver, Gate, Limit, Root, TimeLimit, Watched};
use kernel::Cube;
use packs::{Claim, Fact};
use std::alloc::{AllocError, Global};
use std::fs::Files;
use std::io::Write;
use std::time::Clock;

/// After how many seconds what was found is written.
const SECONDS_OF_A_PACK: u32 = 60;

/// How a part ended, or a hand of it.
#[derive(Clone, Copy, Debug, PartialEq, Eq)]
pub enum Ended {
    /// Its cubes are solved, or a model was found, right of which nothing is needed.
    Done,
    OutOfTime,
}

/// Puts the halves of a split cube on the way; whether the cube has a model.
fn put_halves(formula: &Formula, way: &mut Vec<Cube>, fact: &Fact) -> Result<bool, AllocError>
    requires { (x : ℕ) → fact.now.claim ≡ Split x → IsFitSplit formula.now fact.now.cube x }
    ensures { IfOk result (λ has_model. (put : List (List Literal)) × IsStepBy fact.now.cube fact.now.claim has_model put × (way.new.items ≡ way.old.items ++ put)) }
{
    let _vars = formula.vars(); // it ensures what the proof needs of the variable
    match &fact.claim {
        Claim::Refuted(_) => Ok(false),
        Claim::Model => Ok(true),
        Claim::Split(var) => {
            let (left, right) = split(&fact.cube, *var)?;
            way.push(right)?;
            way.push(left)?;
            Ok(false)
        }
    }
}

/// Solves a cube, and puts its halves on the way, if it is split; whether it has a model.
fn step<G: Gate>(
    formula: &Formula,
    plan: Plan,
    solver: &mut CubeSolver,
    cube: Cube,
    way: &mut Vec<Cube>,
    facts: &mut Vec<Fact>,
    watched: &Watched<'_, G>,
) -> Result<bool, AllocError>
    requires solver { IsSolverOf (begun_by plan.search formula.now) plan solver.old }
    requires facts { All (IsTrueFact formula.now plan) facts.old.items }
    ensures solver { OnOk result (IsSolverOf (begun_by plan.search formula.now) plan solver.new) }
    ensures facts { OnOk result (All (IsTrueFact formula.now plan) facts.new.items) }
    ensures way { IsOver formula.now.vars cube → IfOk result (λ has_model. IsStep formula.now plan cube has_model way.old.items way.new.items) }
{
    let Some(fact) = solve(formula, plan, solver, cube, watched)? else {
        return Ok(false);
    };
    let has_model = put_halves(formula, way, &fact)?;
    facts.push(fact)?;
    Ok(has_model)
}

/// Notes that the cube of the last fact has a model. That it can't be noted only costs time.
fn note_last<R: Files>(rt: &R, alloc: Global, folder: Folder, facts: &[Fact]) {
    if let Some(fact) = facts.last() {
        let _ = note_model(rt, alloc, folder, &fact.cube);
    }
}

/// Solves a cube. Where a model is found or known left of it, nothing is left on the way, nor for
/// other hands: all that lies right of that.
fn solve_next<R: Files + Alloc + Clone + Drop, E: Write, G: Gate>(
    rt: &R,
    alloc: Global,
    folder: Folder,
    formula: &Formula,
    plan: Plan,
    solver: &mut CubeSolver,
    cube: Cube,
    way: &mut Way<'_>,
    facts: &mut Vec<Fact>,
    watched: &Watched<'_, G>,
    faults: &mut E,
) -> Result<(), Said>
    requires solver { IsSolverOf (begun_by plan.search formula.now) plan solver.old }
    requires facts { All (IsTrueFact formula.now plan) facts.old.items }
    ensures solver { OnOk result (IsSolverOf (begun_by plan.search formula.now) plan solver.new) }
    ensures facts { OnOk result (All (IsTrueFact formula.now plan) facts.new.items) }
{
    if is_needless(rt, alloc, folder, &cube) {
        way.leave();
        return Ok(());
    }
    match step(formula, plan, solver, cube, &mut way.own, facts, watched) {
        Ok(false) => Ok(()),
        Ok(true) => {
            note_last(rt, alloc, folder, facts);
            way.leave();
            Ok(())
        }
        Err(_) => Err(say_no_memory(faults, folder.path)),
    }
}

/// Writes what was found in a minute, and begins anew.
fn write_where_due<'a, R: Files + Clock, E: Write>(
    rt: &'a R,
    alloc: Global,
    folder: Folder,
    run: &RunFile,
    formula: &Formula,
    facts: &mut Vec<Fact>,
    due: &mut TimeLimit<'a, R>,
    faults: &mut E,
) -> Result<(), Said>
    requires { All (IsTrueFact formula.now run.now.plan) facts.old.items }
    ensures { OnOk result (All (IsTrueFact formula.now run.now.plan) facts.new.items) }
{
    if due.reached() {
        write_pack(rt, alloc, folder, run, formula, facts, faults)?;
        facts.clear();
        *due = TimeLimit::begin(rt, Some(SECONDS_OF_A_PACK));
    }
    Ok(())
}

/// The next cube on the way, if there is one.
fn next_cube<E: Write>(
    way: &mut Way<'_>,
    folder: Folder,
    faults: &mut E,
) -> Result<Option<Cube>, Said>
    ensures { IfOk result (λ next. IfNone next (way.new.own.items ≡ [])) }
{
    match way.next() {
        Ok(cube) => Ok(cube),
        Err(_) => Err(say_no_memory(faults, folder.path)),
    }
}

/// Solves the cubes on the way, with what their splits leave, until none is left, a model is found
/// or the time is over. What was found is written about every minute, and left among the facts since
/// then.
fn solve_all<R: Files + Clock + Alloc + Clone + Drop, E: Write, G: Gate>(
    rt: &R,
    alloc: Global,
    folder: Folder,
    run: &RunFile,
    formula: &Formula,
    solver: &mut CubeSolver,
    way: &mut Way<'_>,
    seconds: Option<u32>,
    facts: &mut Vec<Fact>,
    watched: &Watched<'_, G>,
    faults: &mut E,
) -> Result<Ended, Said>
    requires solver { IsSolverOf (begun_by run.now.plan.search formula.now) run.now.plan solver.old }
    requires facts { All (IsTrueFact formula.now run.now.plan) facts.old.items }
    ensures facts { OnOk result (All (IsTrueFact formula.now run.now.plan) facts.new.items) }
    ensures done { IfOk result (λ ended. ended ≡ Ended.Done → way.new.own.items ≡ []) }
{
    let limit = TimeLimit::begin(rt, seconds);
    let mut due = TimeLimit::begin(rt, Some(SECONDS_OF_A_PACK));
    'cubes: for _ in 0..u64::MAX {
        if limit.reached() {
            return Ok(Ended::OutOfTime);
        }
        write_where_due(rt, alloc, folder, run, formula, facts, &mut due, faults)?;
        let Some(cube) = next_cube(way, folder, faults)? else {
            return Ok(Ended::Done);
        };
        solve_next(
            rt, alloc, folder, formula, run.plan, solver, cube, way, facts, watched, faults,
        )?;
    }
    Ok(Ended::OutOfTime) // no time is enough for so many cubes
}

/// Solves the cubes on the way, and writes what was found; after so many seconds those that are
/// left stay open.
pub(crate) fn go_on<R: Files + Clock + Alloc + Clone + Drop, E: Write, G: Gate>(
    rt: &R,
    alloc: Global,
    folder: Folder,
    run: &RunFile,
    formula: &Formula,
    way: &mut Way<'_>,
    seconds: Option<u32>,
    watched: &Watched<'_, G>,
    faults: &mut E,
) -> Result<Ended, Said>
    ensures { IfOk result (λ ended. ended ≡ Ended.Done → way.new.own.items ≡ []) }
{
    let Ok(mut solver) = CubeSolver::open(alloc, formula, run.plan, Root::Unknown, true) else {
        return Err(say_no_memory(faults, folder.path));
    };
    let mut facts = Vec::new(alloc);
    let ended = solve_all(
        rt,
        alloc,
        folder,
        run,
        formula,
        &mut solver,
        way,
        seconds,
        &mut facts,
        watched,
        faults,
    )?;
    write_pack(rt, alloc, folder, run, formula, &facts, faults)?;
    Ok(ended)
}

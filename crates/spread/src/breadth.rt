//! Solving cubes by breadth, until so many are open.
ghost use Rattle.std.specs.Prelude.{◌≡◌, ℕ, [], ◌∷◌, ◌++◌, Bool, true, if◌then◌else◌, List, All, IfOk, IfSome, IsSome, MatchOption, OnOk};
ghost use Rattle.theory.specs.Plans.{Plan};
ghost use Rattle.theory.specs.Beginnings.{begun_by};
ghost use Rattle.theory.specs.Checked.{IsFitSplit};
ghost use Rattle.cubes.specs.Division.{IsSolverOf};
ghost use Rattle.packs.specs.declared.fact.Claim.TheVariants.{Split};
ghost use Rattle.packs.specs.declared.fact.Fact as facts;
ghost use Rattle.gathering.specs.Facts.{IsTrueFact};
ghost use Rattle.spread.specs.Dividing.{from_longer, longer_first, IsBreadth, Divides};
ghost use Rattle.spread.specs.Solving.{IsOfTree, IsSaidOf};

use crate::bound::{BoundedGate, End};
use crate::open_count::OpenCount;
use crate::solving::solve;
use cdcl::{Plan, Search, split};
use cnf::Formula;
use cubes::{CubeSolver, Gate, Root, Watched};
use kernel::Cube;
use packs::{Claim, Fact};
use std::alloc::{AllocError, Global};
use std::collections::VecDeque;

/// What solving by breadth came to.
pub(crate) struct Division {
    pub(crate) facts: Vec<Fact>,
    /// The open cubes, from left to right.
    pub(crate) waiting: VecDeque<Cube>,
    /// Whether a model was found right of the open cubes.
    pub(crate) has_model: bool,
    pub(crate) end: End,
    /// How many conflicts were met.
    pub(crate) conflicts: u64,
}

// written out, so that proofs of its owners stay short (docs/PROVING.md)
impl Drop for Division {
    fn drop(self) {
        let Division {
            facts: _,
            waiting: _,
            has_model: _,
            end: _,
            conflicts: _,
        } = self;
    }
}

/// Takes the cubes away that lie right of one with so many literals: they wait before those that lie
/// left of it, which have one more.
fn drop_right(queue: &mut VecDeque<Cube>, count: usize) -> Result<(), AllocError>
    ensures { OnOk result (queue.new.items ≡ from_longer count queue.old.items) }
{
    'cubes: while let Some(cube) = queue.pop_front() {
        if cube.lits().len() > count {
            queue.push_front(cube)?;
            return Ok(());
        }
    }
    Ok(())
}

/// Puts open cubes into their order from left to right: of those that wait, the ones with one
/// literal more lie left of the others.
fn put_in_order(queue: &mut VecDeque<Cube>) -> Result<(), AllocError>
    ensures { OnOk result (queue.new.items ≡ longer_first queue.old.items) }
{
    let count = match queue.front() {
        Some(first) => first.lits().len(),
        None => return Ok(()),
    };
    'cubes: for _moved in 0..queue.len() {
        let Some(next) = queue.pop_front() else {
            return Ok(());
        };
        if next.lits().len() > count {
            queue.push_front(next)?;
            return Ok(());
        }
        queue.push_back(next)?;
    }
    Ok(())
}

/// Takes up what is said of a cube: its halves wait behind the others, or of those that wait what
/// lies right of its model is taken away. Whether it has a model.
fn take_up(formula: &Formula, queue: &mut VecDeque<Cube>, fact: &Fact) -> Result<bool, AllocError>
    requires { (x : ℕ) → fact.now.claim ≡ Split x → IsFitSplit formula.now fact.now.cube x }
    ensures cubes { (plan : Plan) → IsOfTree formula.now plan fact.now.cube → IsTrueFact formula.now plan fact.now → All (IsOfTree formula.now plan) queue.old.items →
        OnOk result (All (IsOfTree formula.now plan) queue.new.items) }
    ensures waits { (plan : Plan) (before : List facts.Fact) (known : Bool) → IsTrueFact formula.now plan fact.now → IsBreadth formula.now plan before (fact.now.cube ∷ queue.old.items) known →
        IfOk result (λ found. IsBreadth formula.now plan (before ++ fact.now ∷ []) queue.new.items (if found then true else known)) }
{
    let _vars = formula.vars(); // it ensures what the proof needs of the variable
    match &fact.claim {
        Claim::Refuted(_) => Ok(false),
        Claim::Model => {
            drop_right(queue, fact.cube.lits().len())?;
            Ok(true)
        }
        Claim::Split(var) => {
            let (left, right) = split(&fact.cube, *var)?;
            queue.push_back(left)?;
            queue.push_back(right)?;
            Ok(false)
        }
    }
}

/// Solves a cube, and answers what is said of it; nothing where the bound ends its search, or it isn't
/// over the formula's variables.
fn attempt<G: Gate>(
    formula: &Formula,
    plan: Plan,
    solver: &mut CubeSolver,
    cube: Cube,
    gate: &BoundedGate<'_, G>,
) -> Result<Option<Fact>, AllocError>
    requires { IsSolverOf (begun_by plan.search formula.now) plan solver.old }
    ensures solver { IfOk result (λ said. IsSome said → IsSolverOf (begun_by plan.search formula.now) plan solver.new) }
    ensures said { IfOk result (λ said. IfSome said (IsSaidOf formula.now plan cube)) }
{
    let watched = Watched { gate, hand: 0 };
    match solve(formula, plan, solver, cube, &watched) {
        Ok(Some(fact)) => Ok(Some(fact)),
        Err(error) if !gate.is_reached() => Err(error),
        Ok(None) | Err(_) => Ok(None),
    }
}

/// Solves a cube, and takes up what is said of it; whether it has a model. Nothing where the bound ends
/// its search: then it waits before the others again.
fn step<G: Gate>(
    formula: &Formula,
    plan: Plan,
    solver: &mut CubeSolver,
    cube: Cube,
    queue: &mut VecDeque<Cube>,
    facts: &mut Vec<Fact>,
    gate: &BoundedGate<'_, G>,
) -> Result<Option<bool>, AllocError>
    requires solver { IsSolverOf (begun_by plan.search formula.now) plan solver.old }
    requires facts { All (IsTrueFact formula.now plan) facts.old.items }
    ensures solver { IfOk result (λ found. IsSome found → IsSolverOf (begun_by plan.search formula.now) plan solver.new) }
    ensures facts { OnOk result (All (IsTrueFact formula.now plan) facts.new.items) }
    ensures cubes { IsOfTree formula.now plan cube → All (IsOfTree formula.now plan) queue.old.items → OnOk result (All (IsOfTree formula.now plan) queue.new.items) }
    ensures waits { (known : Bool) → IsOfTree formula.now plan cube → IsBreadth formula.now plan facts.old.items (cube ∷ queue.old.items) known →
        IfOk result (λ found. MatchOption found (IsBreadth formula.now plan facts.new.items queue.new.items known) (λ found. IsBreadth formula.now plan facts.new.items queue.new.items (if found then true else known))) }
{
    let kept = cube.copied()?;
    let Some(fact) = attempt(formula, plan, solver, cube, gate)? else {
        queue.push_front(kept)?;
        return Ok(None);
    };
    let has_model = take_up(formula, queue, &fact)?;
    facts.push(fact)?;
    Ok(Some(has_model))
}

/// How a division ended that has these facts, and whose last cube came to the bound or didn't.
fn end_of(plan: Plan, facts: &[Fact], is_bounded: bool) -> End {
    if !is_bounded {
        return End::Done;
    }
    if let Search::Focused = plan.search() {
        if facts.is_empty() {
            return End::Whole;
        }
    }
    End::AtBound
}

/// Solves the cubes of a formula by breadth, from the one without literals on, until at least so
/// many are open, none is, or the search of one comes to its bound. What is said of them is true, and
/// those that wait are just the cubes that it leaves open, which are counted on the way. It fails where a
/// request for memory is refused.
pub(crate) fn by_breadth<G: Gate>(
    alloc: Global,
    formula: &Formula,
    plan: Plan,
    wanted: usize,
    open: &OpenCount,
    gate: &G,
) -> Result<Division, AllocError>
    ensures facts { IfOk result (λ d. All (IsTrueFact formula.now plan) d.facts.items) }
    ensures cubes { IfOk result (λ d. All (IsOfTree formula.now plan) d.waiting.items) }
    ensures divides { IfOk result (λ d. Divides formula.now plan d.facts.items d.waiting.items d.has_model) }
{
    let gate = BoundedGate::of(gate);
    let mut solver = CubeSolver::open(alloc, formula, plan, Root::Unknown, true)?;
    let mut facts = Vec::new(alloc);
    let mut has_model = false;
    let mut is_bounded = false;
    let mut queue = VecDeque::new(alloc);
    queue.push_back(Cube::root(alloc))?;
    'cubes: for _ in 0..u64::MAX {
        open.set(queue.len());
        if queue.len() >= wanted {
            break;
        }
        let Some(cube) = queue.pop_front() else {
            break;
        };
        let Some(found) = step(
            formula,
            plan,
            &mut solver,
            cube,
            &mut queue,
            &mut facts,
            &gate,
        )?
        else {
            is_bounded = true;
            break;
        };
        if found {
            has_model = true;
        }
    }
    put_in_order(&mut queue)?;
    let end = end_of(plan, &facts, is_bounded);
    Ok(Division {
        facts,
        waiting: queue,
        has_model,
        end,
        conflicts: gate.conflicts(),
    })
}

//! Calls that the program doesn't need and others may make: each is by the ordered search, with a
//! budget of 1 to 100,000 conflicts for the root in place of a plan, and keeps each line of a
//! refuted cube in memory of its own.
ghost use Rattle.std.specs.Prelude.{◌≡◌, ℕ, ◌≤◌, ◌<◌, ◌^◌, false, List, [], map, flat_map, All, Option, IfOk};
ghost use Rattle.theory.specs.Literals.{Literal};
ghost use Rattle.theory.specs.Truth.{Formula};
ghost use Rattle.theory.specs.Pure.{searched};
ghost use Rattle.theory.specs.Plans.{ordered, ordered_within};
ghost use Rattle.theory.specs.Plans as plans;
ghost use Rattle.theory.specs.Ledger.{times, all_got};
ghost use Rattle.theory.specs.Harvest.{IsClosed, ledgers_of};
ghost use Rattle.theory.specs.Work.{IsWork};
ghost use Rattle.theory.specs.Results.{IsWhole};
ghost use Rattle.pool.specs.Hands.{SameHand};
ghost use Rattle.pool.specs.Pools.{AreAllOf};
ghost use Rattle.cubes.specs.Hands.{Worked_as, GoesHome};
ghost use Rattle.cubes.specs.Looks.{TakeTurns};
ghost use Rattle.cubes.specs.Result.{IsResultOf, Says};
ghost use Rattle.cubes.specs.Shares.{LinesWorked, share_of, AreByNumber};
ghost use Rattle.cubes.specs.Solved.{AreTrueResults, solved_of};

use crate::closing::close_all;
use crate::division::root::Root;
use crate::gate::{Gate, OpenGate};
use crate::hand_count::HandCount;
use crate::hands::{Worked, work_in};
use crate::results::{assemble_in, gather_in};
use crate::solved::Solved;
use crate::threads::solve_by_plan;
use crate::tree::Tree;
use cdcl::Plan;
use cnf::Formula;
use pool::{Hand, Pool};
use std::alloc::{AllocError, Global};
use std::sync::Wait;
use std::thread::Threads;
use std::time::Clock;

/// The work of a hand: it takes cubes from its own deque, or else steals from the others, solves or
/// skips them, and puts the halves of those that are exhausted. It waits until nothing is left to be
/// done by any hand, or a hand halted.
pub fn work<R: Wait + Clock, G: Gate>(
    rt: &R,
    alloc: Global,
    hand: Hand,
    formula: &Formula,
    budget: u32,
    gate: &G,
) -> Worked
    requires budget { (1 ≤ budget) × (budget ≤ 100000) }
    requires vars { hand.vars ≡ formula.now.vars }
    ensures same { SameHand hand result.hand }
    ensures work { Worked_as (searched formula.now) (ordered_within budget) result.short_of_memory hand.ledger result.hand.ledger result.solved.items }
    ensures looks { result.short_of_memory ≡ false → TakeTurns hand.ledger result.hand.ledger (map solved_of result.solved.items) }
    ensures home { GoesHome result.short_of_memory hand.ledger result.hand.ledger }
{
    let plan = Plan::ordered(budget);
    work_in(rt, alloc, hand, formula, plan, Root::Unknown, gate)
}

/// The results of all hands of a pool, one list after the other, once the pool is closed. The hands
/// come in any order; each did its work for this formula and this budget, and none is short of
/// memory. At the close no cube was left and none to be done, and the results are
/// enough for the whole tree. It waits for nothing, and fails only where a request for memory is
/// refused.
pub fn harvest(
    alloc: Global,
    formula: &Formula,
    budget: u32,
    pool: Pool,
    works: Vec<Worked>,
) -> Result<Vec<Solved>, AllocError>
    requires pool { AreAllOf pool (map (λ w. w.hand) works.items) }
    requires root { pool.root ≡ [] }
    requires works { All (λ w. IsWork (searched formula.now) (ordered_within budget) w.short_of_memory w.hand.ledger (map solved_of w.solved.items)) works.items }
    requires long { All (λ w. w.short_of_memory ≡ false) works.items }
    ensures results { IfOk result (λ r. r.items ≡ flat_map (λ w. w.solved.items) works.items) }
    ensures closed { IfOk result (λ _. (least : Option ℕ) × ((sorted : List LinesWorked) → AreByNumber works.items sorted → IsClosed (searched formula.now) (ordered_within budget) (map share_of sorted) [] least 0)) }
    ensures once { IfOk result (λ _. (Q : List Literal) → times Q (flat_map all_got (ledgers_of (map share_of works.items))) ≤ 1) }
    ensures whole { IfOk result (λ r. IsWhole (searched formula.now) (ordered_within budget) (map solved_of r.items)) }
{
    let _budget = budget; // it is there for the contract alone
    close_all(alloc, formula, pool, works)
}

/// The result of the formula and the plan of which the results are whole, whichever these are. It
/// fails only where a request for memory is refused.
pub fn assemble(alloc: Global, results: Vec<Solved>) -> Result<Tree, AllocError>
    requires { (F : Formula) × (plan : plans.Plan) × (F.vars < 2 ^ 31) × IsWhole F plan (map solved_of results.items) }
    ensures { IfOk result (λ t. (F : Formula) (plan : plans.Plan) → IsWhole F plan (map solved_of results.items) → IsResultOf F plan t) }
{
    assemble_in(alloc, results)
}

/// As `gather_by_plan`, from results that are true.
pub fn gather(
    alloc: Global,
    formula: &Formula,
    budget: u32,
    results: Vec<Solved>,
) -> Result<Tree, AllocError>
    requires budget { (1 ≤ budget) × (budget ≤ 100000) }
    requires results { AreTrueResults (searched formula.now) (ordered_within budget) results.items }
    ensures result { IfOk result (λ t. IsResultOf (searched formula.now) (ordered_within budget) t) }
    ensures says { IfOk result (λ t. Says ordered formula.now t) }
{
    let _vars = formula.vars(); // it ensures what the proof needs of the formula
    let plan = Plan::ordered(budget);
    gather_in(alloc, formula, plan, Root::Unknown, results, &OpenGate)
}

/// As `solve_one_by_plan`.
pub fn solve_one(alloc: Global, formula: &Formula, budget: u32) -> Result<Tree, AllocError>
    requires { (1 ≤ budget) × (budget ≤ 100000) }
    ensures result { IfOk result (λ t. IsResultOf (searched formula.now) (ordered_within budget) t) }
    ensures says { IfOk result (λ t. Says ordered formula.now t) }
{
    gather(alloc, formula, budget, Vec::new(alloc))
}

/// As `solve_by_plan`.
pub fn solve_with<R: Threads + Wait + Clock + Sync, G: Gate + Sync>(
    rt: &R,
    alloc: Global,
    formula: &Formula,
    budget: u32,
    hands: usize,
    gate: &G,
) -> Result<Tree, AllocError>
    requires budget { (1 ≤ budget) × (budget ≤ 100000) }
    requires hands { (1 ≤ hands) × (hands ≤ 16) }
    ensures result { IfOk result (λ t. IsResultOf (searched formula.now) (ordered_within budget) t) }
    ensures says { IfOk result (λ t. Says ordered formula.now t) }
{
    let hands = HandCount::of(hands);
    solve_by_plan(rt, alloc, formula, Plan::ordered(budget), hands, gate)
}

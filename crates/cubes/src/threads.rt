//! The result of a formula, by several hands in threads of their own.
ghost use Rattle.std.specs.Prelude.{◌≡◌, [], false, length, All, IfOk};
ghost use Rattle.theory.specs.Results.{IsWhole};
ghost use Rattle.pool.specs.Pools.{AreNew};
ghost use Rattle.theory.specs.Beginnings.{begun_by};
ghost use Rattle.cubes.specs.Division.{IsRootOf};
ghost use Rattle.cubes.specs.Result.{IsResultBy, Says};
ghost use Rattle.cubes.specs.Shares.{HasDone, HaveDone};
ghost use Rattle.cubes.specs.Solved.{results_by};

use crate::closing::close_all;
use crate::division::preparing::{Beginning, prepare};
use crate::division::root::Root;
use crate::gate::Gate;
use crate::hand_count::HandCount;
use crate::hands::{Worked, work_in};
use crate::results::{assemble_in, gather_in};
use crate::solved::Solved;
use crate::tree::Tree;
use cdcl::{KeepsLines, Plan};
use cnf::Formula;
use kernel::Cube;
use pool::{Hand, Pool};
use std::alloc::{AllocError, Global};
use std::sync::Wait;
use std::thread;
use std::thread::Threads;
use std::time::Clock;

/// What each hand leaves behind, in the order of the hands. Each works in a thread of its own,
/// where one can be started.
fn all_work<L: KeepsLines + Send, R: Threads + Wait + Clock + Sync, G: Gate + Sync>(
    rt: &R,
    alloc: Global,
    formula: &Formula,
    plan: Plan,
    root: Root,
    gate: &G,
    hands: Vec<Hand>,
) -> Result<Vec<Worked<L>>, AllocError>
    requires vars { All (λ h. h.vars ≡ formula.now.vars) hands.items }
    requires root { IsRootOf (begun_by plan.search formula.now) plan root }
    ensures len { IfOk result (λ v. length v.items ≡ length hands.items) }
    ensures each { IfOk result (λ v. HaveDone L.lines (begun_by plan.search formula.now) plan hands.items v.items) }
{
    thread::map_vec(
        rt,
        hands,
        &|hand: Hand| -> Worked<L>
            requires { (hand.vars ≡ formula.now.vars) × IsRootOf (begun_by plan.search formula.now) plan root }
            ensures { HasDone L.lines (begun_by plan.search formula.entry.now) plan hand result }
        { work_in(rt, alloc, hand, formula, plan, root, gate) },
    )
}

fn ran_out_of_memory<L>(works: &[Worked<L>]) -> bool
    ensures { result ≡ false → All (λ w. w.short_of_memory ≡ false) works.now }
{
    for worked in works {
        if worked.short_of_memory {
            return true;
        }
    }
    false
}

/// The results of these hands of the pool, once all are home, where this is known of the cube
/// without literals. They are enough for the whole tree.
fn results_in<L: KeepsLines + Send, R: Threads + Wait + Clock + Sync, G: Gate + Sync>(
    rt: &R,
    alloc: Global,
    formula: &Formula,
    plan: Plan,
    known: Root,
    gate: &G,
    pool: Pool,
    hands: Vec<Hand>,
) -> Result<Vec<Solved<L>>, AllocError>
    requires root { pool.root ≡ [] }
    requires hands { AreNew pool formula.now.vars hands.items }
    requires known { IsRootOf (begun_by plan.search formula.now) plan known }
    ensures { IfOk result (λ r. IsWhole (begun_by plan.search formula.now) plan (results_by L.lines r.items)) }
{
    let works = all_work(rt, alloc, formula, plan, known, gate, hands)?;
    if ran_out_of_memory(&works) {
        return Err(AllocError);
    }
    close_all(alloc, formula, pool, works)
}

/// The result, by these hands of the pool.
fn solve_by_hands<L: KeepsLines + Send, R: Threads + Wait + Clock + Sync, G: Gate + Sync>(
    rt: &R,
    alloc: Global,
    formula: &Formula,
    plan: Plan,
    known: Root,
    gate: &G,
    pool: Pool,
    hands: Vec<Hand>,
) -> Result<Tree<L>, AllocError>
    requires root { pool.root ≡ [] }
    requires hands { AreNew pool formula.now.vars hands.items }
    requires known { IsRootOf (begun_by plan.search formula.now) plan known }
    ensures result { IfOk result (λ t. IsResultBy L.lines (begun_by plan.search formula.now) plan t) }
    ensures says { IfOk result (λ t. Says plan.search formula.now t) }
{
    let _vars = formula.vars(); // it ensures what the proof needs of the formula
    let results = results_in(rt, alloc, formula, plan, known, gate, pool, hands)?;
    assemble_in(alloc, results)
}

/// The result, by this thread alone. The gate is told what its solver does, as of the hand 0.
fn solve_here<L: KeepsLines, G: Gate>(
    alloc: Global,
    formula: &Formula,
    plan: Plan,
    root: Root,
    gate: &G,
) -> Result<Tree<L>, AllocError>
    requires { IsRootOf (begun_by plan.search formula.now) plan root }
    ensures result { IfOk result (λ t. IsResultBy L.lines (begun_by plan.search formula.now) plan t) }
    ensures says { IfOk result (λ t. Says plan.search formula.now t) }
{
    gather_in(alloc, formula, plan, root, Vec::new(alloc), gate)
}

/// The result, by hands that are told this of the cube without literals.
fn solve_from<L: KeepsLines + Send, R: Threads + Wait + Clock + Sync, G: Gate + Sync>(
    rt: &R,
    alloc: Global,
    formula: &Formula,
    plan: Plan,
    root: Root,
    hands: HandCount,
    gate: &G,
) -> Result<Tree<L>, AllocError>
    requires root { IsRootOf (begun_by plan.search formula.now) plan root }
    ensures result { IfOk result (λ t. IsResultBy L.lines (begun_by plan.search formula.now) plan t) }
    ensures says { IfOk result (λ t. Says plan.search formula.now t) }
{
    match pool::open(alloc, hands.get(), formula.vars(), Cube::root(alloc)) {
        Ok((pool, all)) => solve_by_hands(rt, alloc, formula, plan, root, gate, pool, all),
        Err(_) => solve_here(alloc, formula, plan, root, gate),
    }
}

/// The result of the formula by the plan, by 1 to 16 hands, each in a thread of its own where one
/// can be started. It is the same for any number of hands, any gate and any schedule, whatever keeps
/// the lines of refuted cubes: where nothing does, its memory is that of the searches, and a few
/// bytes a cube. It fails only where a request for memory is refused or the gate stops the hands,
/// once all hands are home. If the pool isn't opened, all is solved here.
pub fn solve_by_plan<L: KeepsLines + Send, R: Threads + Wait + Clock + Sync, G: Gate + Sync>(
    rt: &R,
    alloc: Global,
    formula: &Formula,
    plan: Plan,
    hands: HandCount,
    gate: &G,
) -> Result<Tree<L>, AllocError>
    ensures result { IfOk result (λ t. IsResultBy L.lines (begun_by plan.search formula.now) plan t) }
    ensures says { IfOk result (λ t. Says plan.search formula.now t) }
{
    match prepare(alloc, formula, plan, gate)? {
        Beginning::Decided(tree) => Ok(tree),
        Beginning::Open(root) => solve_from(rt, alloc, formula, plan, root, hands, gate),
    }
}

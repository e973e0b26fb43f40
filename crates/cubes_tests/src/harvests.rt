//! Worked rows: what the hands of a pool bring home together, with a budget of one conflict for the
//! root, and the tree that is assembled from it.
ghost use Rattle.std.specs.Prelude.{◌≡◌, false, map, length, All, IfOk};
ghost use Rattle.theory.specs.Plans.{ordered_within};
ghost use Rattle.theory.specs.Pure.{searched};
ghost use Rattle.theory.specs.Results.{IsWhole};
ghost use Rattle.cubes.specs.Shares.{HasDone, HaveDone};
ghost use Rattle.cubes.specs.Solved.{solved_of};

use crate::hands::is_result;
use crate::results::{Given, NODES, NODES_OF_SIXTEEN, WantedTree, is_tree};
use cnf::{Formula, read_formula};
use cubes::{HandCount, OpenGate, Solved, Tree, Worked, assemble, harvest, work};
use kernel::Cube;
use pool::Hand;
use std::alloc::{AllocError, Global};
use std::sync::Wait;
use std::test::Fail;
use std::thread;
use std::thread::Threads;
use std::time::Clock;
use test_samples::{EIGHT, SIXTEEN, TWO_MODELS};

/// A cube, and what it comes to.
type Row = (&'static [i32], Given);

/// What each hand leaves behind, in the order of the hands, each in a thread of its own.
fn all_work<R: Threads + Wait + Clock + Sync>(
    rt: &R,
    alloc: Global,
    formula: &Formula,
    hands: Vec<Hand>,
) -> Result<Vec<Worked>, AllocError>
    requires { All (λ h. h.vars ≡ formula.now.vars) hands.items }
    ensures len { IfOk result (λ v. length v.items ≡ length hands.items) }
    ensures each { IfOk result (λ v. HaveDone (λ lines. lines) (searched formula.now) (ordered_within 1) hands.items v.items) }
{
    thread::map_vec(
        rt,
        hands,
        &|hand: Hand| -> Worked
            requires { hand.vars ≡ formula.now.vars }
            ensures { HasDone (λ lines. lines) (searched formula.entry.now) (ordered_within 1) hand result }
        { work(rt, alloc, hand, formula, 1, &OpenGate) },
    )
}

fn ran_out_of_memory(works: &[Worked]) -> bool
    ensures { result ≡ false → All (λ w. w.short_of_memory ≡ false) works.now }
{
    for worked in works {
        if worked.short_of_memory {
            return true;
        }
    }
    false
}

/// The results of so many hands, the last one first: `harvest` takes them in any order.
fn harvested<R: Threads + Wait + Clock + Sync>(
    rt: &R,
    alloc: Global,
    formula: &Formula,
    hands: HandCount,
) -> Result<Vec<Solved>, Fail>
    ensures { IfOk result (λ r. IsWhole (searched formula.now) (ordered_within 1) (map solved_of r.items)) }
{
    let (pool, all) = pool::open(alloc, hands.get(), formula.vars(), Cube::root(alloc))?;
    let mut works = all_work(rt, alloc, formula, all)?;
    works.reverse();
    if ran_out_of_memory(&works) {
        return Err("short of memory".into());
    }
    Ok(harvest(alloc, formula, 1, pool, works)?)
}

fn tree_of(alloc: Global, formula: &Formula, results: Vec<Solved>) -> Result<Tree, AllocError>
    requires { IsWhole (searched formula.now) (ordered_within 1) (map solved_of results.items) }
{
    let _vars = formula.vars(); // it ensures that there are fewer than 2^31
    assemble(alloc, results)
}

/// Whether one of the results is this one, and no more.
fn is_there_once(results: &[Solved], row: &Row) -> bool {
    let mut found = false;
    for solved in results {
        if is_result(solved, row.0, row.1) {
            if found {
                return false;
            }
            found = true;
        }
    }
    found
}

/// Whether each of the rows is among the results once, and nothing else is.
fn are_these(results: &[Solved], rows: &[Row]) -> bool {
    if results.len() != rows.len() {
        return false;
    }
    for row in rows {
        if !is_there_once(results, row) {
            return false;
        }
    }
    true
}

/// A text, how many hands solve it, what they bring home, and the tree of that.
#[derive(Clone, Copy)]
struct Harvest {
    text: &'static str,
    hands: usize,
    rows: &'static [Row],
    tree: WantedTree,
}

/// Whether hands bring each result once, and the tree of the results is the one that is wanted.
fn brings<R: Threads + Wait + Clock + Sync>(
    rt: &R,
    alloc: Global,
    formula: &Formula,
    hands: HandCount,
    wanted: &Harvest,
) -> Result<bool, Fail> {
    let results = harvested(rt, alloc, formula, hands)?;
    if !are_these(&results, wanted.rows) {
        return Ok(false);
    }
    let tree = tree_of(alloc, formula, results)?;
    Ok(is_tree(&tree, wanted.tree)?)
}

/// The same, twenty times.
fn brings_each_time<R: Threads + Wait + Clock + Sync>(
    rt: &R,
    alloc: Global,
    wanted: &Harvest,
) -> Result<bool, Fail> {
    let Some(hands) = HandCount::new(wanted.hands) else {
        return Ok(false);
    };
    let formula = read_formula(alloc, wanted.text.as_bytes())?;
    for _ in 0..20 {
        if !brings(rt, alloc, &formula, hands, wanted)? {
            return Ok(false);
        }
    }
    Ok(true)
}

const OF_EIGHT: [Row; 3] = [
    (&[], Given::Exhausted(1)),
    (&[-1], Given::Refuted),
    (&[1], Given::Refuted),
];

const OF_SIXTEEN: [Row; 7] = [
    (&[], Given::Exhausted(1)),
    (&[-1], Given::Exhausted(2)),
    (&[1], Given::Exhausted(2)),
    (&[-1, -2], Given::Refuted),
    (&[-1, 2], Given::Refuted),
    (&[1, -2], Given::Refuted),
    (&[1, 2], Given::Refuted),
];

// one hand brings what it skipped
const OF_TWO_MODELS: [Row; 3] = [
    (&[], Given::Exhausted(1)),
    (&[-1], Given::Model(&[false, true, false])),
    (&[1], Given::Skipped(0)),
];

static HARVESTS: [Harvest; 4] = [
    Harvest {
        text: EIGHT,
        hands: 2,
        rows: &OF_EIGHT,
        tree: WantedTree::Refuted(&NODES),
    },
    Harvest {
        text: SIXTEEN,
        hands: 2,
        rows: &OF_SIXTEEN,
        tree: WantedTree::Refuted(&NODES_OF_SIXTEEN),
    },
    Harvest {
        text: SIXTEEN,
        hands: 4,
        rows: &OF_SIXTEEN,
        tree: WantedTree::Refuted(&NODES_OF_SIXTEEN),
    },
    Harvest {
        text: TWO_MODELS,
        hands: 1,
        rows: &OF_TWO_MODELS,
        tree: WantedTree::Model(&[false, true, false]),
    },
];

#[test]
fn hands_bring_each_result_once(rt: HostRuntime) -> Result<(), Fail> {
    for harvest in &HARVESTS {
        let is_right = brings_each_time(&rt, rt.alloc(), harvest)?;
        assert!(rt; is_right, "{} hands at {:?}", harvest.hands, harvest.text);
    }
    Ok(())
}

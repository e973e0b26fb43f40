//! Runs over the facts of packs that solvers made: all that they say is taken, and the bytes are those
//! of a run.

use crate::facts_in_memory::FactsInMemory;
use crate::plainly::{gathering_of, run_plainly};
use cdcl::{Plan, Search, Solver};
use cnf::{Formula, read_formula};
use cubes::HandCount;
use gathering::fact_of;
use packs::{Claim, read_pack, write_fact};
use runs::{GatheredFrom, RunEnd, RunFault, Verdict, gather_at_once, gather_stored};
use std::alloc::{AllocError, Global};
use std::sync::Wait;
use std::test::Fail;
use std::thread::Threads;
use std::time::Clock;
use test_samples::{EIGHT, SIXTEEN, TWO_MODELS, cube_of};

/// Puts what is so of a cube behind a pack. It answers the variable that the cube is split on.
fn put_fact(
    alloc: Global,
    formula: &Formula,
    plan: Plan,
    numbers: &[i32],
    pack: &mut Vec<u8>,
) -> Result<Option<u32>, AllocError> {
    let cube = cube_of(alloc, formula.vars(), numbers)?;
    let mut solver = Solver::open(alloc, formula, plan)?;
    let outcome = solver.solve(&cube)?;
    let fact = fact_of(cube, outcome);
    write_fact(pack, &fact)?;
    match fact.claim {
        Claim::Split(var) => Ok(Some(var)),
        Claim::Refuted(_) => Ok(None),
        Claim::Model => Ok(None),
    }
}

/// The numbers of a cube with one more.
fn with_number(alloc: Global, numbers: &[i32], number: i32) -> Result<Vec<i32>, AllocError> {
    let mut longer = Vec::from_slice(alloc, numbers)?;
    longer.push(number)?;
    Ok(longer)
}

/// A pack of the cubes of a formula's tree, if these are at most a hundred.
pub(crate) fn pack_of(alloc: Global, formula: &Formula, plan: Plan) -> Result<Vec<u8>, AllocError> {
    let mut pack = Vec::new(alloc);
    let mut cubes = Vec::new(alloc);
    cubes.push(Vec::new(alloc))?;
    for _ in 0..100 {
        let Some(numbers) = cubes.pop() else {
            break;
        };
        let Some(var) = put_fact(alloc, formula, plan, &numbers, &mut pack)? else {
            continue;
        };
        if var < 100 {
            cubes.push(with_number(alloc, &numbers, var as i32)?)?;
            cubes.push(with_number(alloc, &numbers, -(var as i32))?)?;
        }
    }
    Ok(pack)
}

/// What a run over facts has written, and what it answered.
#[derive(Drop)]
struct Written<T> {
    gathered: T,
    proof: Vec<u8>,
    answer: Vec<u8>,
}

/// A run over the facts of a pack that a store keeps.
fn gathered_from<R: Threads + Sync>(
    rt: &R,
    alloc: Global,
    text: &str,
    store: FactsInMemory,
    plan: Plan,
) -> Result<Written<GatheredFrom>, RunFault> {
    let mut proof = Vec::new(alloc);
    let mut answer = Vec::new(alloc);
    let gathering = gathering_of(store, plan, HandCount::of(1));
    let input = text.as_bytes();
    let gathered = gather_stored(rt, alloc, input, gathering, &mut answer, &mut proof)?;
    Ok(Written {
        gathered,
        proof,
        answer,
    })
}

/// A run over the facts of a pack that a store keeps, which goes through the tree once.
fn gathered_at_once<R: Threads + Sync>(
    rt: &R,
    alloc: Global,
    text: &str,
    store: FactsInMemory,
    plan: Plan,
) -> Result<Written<Option<GatheredFrom>>, RunFault> {
    let mut proof = Vec::new(alloc);
    let mut answer = Vec::new(alloc);
    let gathering = gathering_of(store, plan, HandCount::of(1));
    let input = text.as_bytes();
    let gathered = gather_at_once(rt, alloc, input, gathering, &mut answer, &mut proof)?;
    Ok(Written {
        gathered,
        proof,
        answer,
    })
}

/// Whether a run without facts comes to this verdict and writes the same.
fn is_written_by_run<R: Threads + Wait + Clock + Sync, T>(
    rt: &R,
    alloc: Global,
    text: &str,
    plan: Plan,
    verdict: Verdict,
    written: &Written<T>,
) -> Result<bool, RunFault> {
    let mut proof = Vec::new(alloc);
    let mut answer = Vec::new(alloc);
    let hand = HandCount::of(1);
    let own = run_plainly(rt, alloc, text, plan, hand, &mut answer, &mut proof)?;
    Ok(
        own == RunEnd::Decided(verdict)
            && proof.as_slice() == written.proof.as_slice()
            && answer.as_slice() == written.answer.as_slice(),
    )
}

/// A formula, a search, how many facts its tree has, and how many of them are models.
type Row = (&'static str, Search, u64, u64);

static ROWS: [Row; 4] = [
    (EIGHT, Search::Ordered, 3, 0),
    (EIGHT, Search::Focused, 3, 0),
    (SIXTEEN, Search::Ordered, 7, 0),
    (TWO_MODELS, Search::Ordered, 3, 2),
];

/// The plan of a search at budget 1.
pub(crate) fn plan_of(search: Search) -> Plan {
    match search {
        Search::Ordered => Plan::ordered(1),
        Search::Focused => Plan::focused(1).simplifying(false),
    }
}

/// A store of the facts of a formula's tree.
fn store_of(alloc: Global, text: &str, plan: Plan) -> Result<FactsInMemory, Fail> {
    let formula = read_formula(alloc, text.as_bytes())?;
    let pack = read_pack(alloc, formula.vars(), &pack_of(alloc, &formula, plan)?)?;
    Ok(FactsInMemory::new(alloc, pack.facts)?)
}

/// Whether all that a store of the tree says is taken on the way to the answer, but for models, and the
/// bytes are a run's.
fn is_taken<R: Threads + Wait + Clock + Sync>(
    rt: &R,
    alloc: Global,
    row: &Row,
) -> Result<bool, Fail> {
    let (text, search, facts, models) = *row;
    let plan = plan_of(search);
    let store = store_of(alloc, text, plan)?;
    let written = gathered_from(rt, alloc, text, store, plan)?;
    let GatheredFrom {
        verdict,
        taken,
        solved,
    } = written.gathered;
    // the first model ends the way, and it is only claimed
    Ok(
        taken == facts.saturating_sub(models)
            && solved == models.min(1)
            && is_written_by_run(rt, alloc, text, plan, verdict, &written)?,
    )
}

/// And so it is by going through the tree once, where there is no model.
fn is_taken_at_once<R: Threads + Wait + Clock + Sync>(
    rt: &R,
    alloc: Global,
    row: &Row,
) -> Result<bool, Fail> {
    let (text, search, facts, models) = *row;
    let plan = plan_of(search);
    let store = store_of(alloc, text, plan)?;
    let written = gathered_at_once(rt, alloc, text, store, plan)?;
    let Some(gathered) = written.gathered else {
        return Ok(models > 0 && written.answer.is_empty());
    };
    Ok(
        gathered.taken == facts
            && gathered.solved == 0
            && is_written_by_run(rt, alloc, text, plan, gathered.verdict, &written)?,
    )
}

#[test]
fn true_packs_are_taken(rt: HostRuntime) -> Result<(), Fail> {
    for row in &ROWS {
        assert!(rt; is_taken(&rt, rt.alloc(), row)?, "{} of {}", row.2, row.0);
        assert!(rt;
            is_taken_at_once(&rt, rt.alloc(), row)?,
            "{} of {} at once",
            row.2,
            row.0
        );
    }
    Ok(())
}

//! Runs over stored facts by several hands: whatever the facts are, they write what one hand does, and
//! take as many facts.

use crate::facts_in_memory::FactsInMemory;
use crate::plainly::gathering_of;
use crate::true_packs::{pack_of, plan_of};
use cdcl::{Plan, Search};
use cnf::read_formula;
use cubes::HandCount;
use lines::Row;
use packs::{Claim, Fact, read_pack};
use runs::{GatheredFrom, RunFault, gather_stored};
use std::alloc::{AllocError, Global};
use std::test::Fail;
use std::thread::Threads;
use test_samples::{EIGHT, SIXTEEN, TWO_MODELS};

/// What becomes of the facts of a whole tree.
#[derive(Clone, Copy)]
enum Change {
    None,
    /// The fact at this place isn't so.
    Lie(usize),
    /// It is missing.
    Missing(usize),
    /// Behind the others stands one of the same cube that isn't so.
    LieBehind(usize),
    /// Behind the others stands one of the same cube that isn't so, and then it stands there again.
    TwiceAndLie(usize),
}

/// A formula, and a search.
static RUNS: [(&str, Search); 4] = [
    (SIXTEEN, Search::Ordered),
    (SIXTEEN, Search::Focused),
    (EIGHT, Search::Focused),
    (TWO_MODELS, Search::Ordered),
];

static CHANGES: [Change; 12] = [
    Change::None,
    Change::Lie(0),
    Change::Lie(1),
    Change::Lie(2),
    Change::Missing(0),
    Change::Missing(1),
    Change::Missing(2),
    Change::LieBehind(0),
    Change::LieBehind(1),
    Change::LieBehind(2),
    Change::TwiceAndLie(1),
    Change::TwiceAndLie(2),
];

/// A fact of the same cube that isn't so: no lines refute it.
fn lie_of(alloc: Global, fact: &Fact) -> Result<Fact, AllocError> {
    Ok(Fact {
        cube: fact.cube.copied()?,
        claim: Claim::Refuted(Row::new(alloc)),
    })
}

/// The facts of a formula's tree.
fn facts_of(alloc: Global, text: &str, plan: Plan) -> Result<Vec<Fact>, Fail> {
    let formula = read_formula(alloc, text.as_bytes())?;
    let pack = read_pack(alloc, formula.vars(), &pack_of(alloc, &formula, plan)?)?;
    Ok(pack.facts)
}

/// The facts of a formula's tree with a change.
fn changed_facts(alloc: Global, text: &str, plan: Plan, change: Change) -> Result<Vec<Fact>, Fail> {
    let mut facts = facts_of(alloc, text, plan)?;
    let (Change::Lie(place)
    | Change::Missing(place)
    | Change::LieBehind(place)
    | Change::TwiceAndLie(place)) = change
    else {
        return Ok(facts);
    };
    if place >= facts.len() {
        return Ok(facts);
    }
    let lie = lie_of(alloc, &facts[place])?;
    if matches!(change, Change::Lie(_) | Change::Missing(_)) {
        facts.remove(place);
    }
    if !matches!(change, Change::Missing(_)) {
        facts.push(lie)?;
    }
    if matches!(change, Change::TwiceAndLie(_)) {
        let mut again = facts_of(alloc, text, plan)?;
        if place < again.len() {
            facts.push(again.swap_remove(place))?;
        }
    }
    Ok(facts)
}

/// What a run has written, and what it answered.
#[derive(Drop)]
struct Written {
    gathered: GatheredFrom,
    proof: Vec<u8>,
    answer: Vec<u8>,
}

/// A run over facts by so many hands.
fn written_by<R: Threads + Sync>(
    rt: &R,
    alloc: Global,
    text: &str,
    facts: Vec<Fact>,
    plan: Plan,
    hands: HandCount,
) -> Result<Written, RunFault> {
    let store = FactsInMemory::new(alloc, facts).map_err(|_| RunFault::NoMemory)?;
    let (mut proof, mut answer) = (Vec::new(alloc), Vec::new(alloc));
    let gathering = gathering_of(store, plan, hands);
    let input = text.as_bytes();
    let gathered = gather_stored(rt, alloc, input, gathering, &mut answer, &mut proof)?;
    Ok(Written {
        gathered,
        proof,
        answer,
    })
}

/// Whether so many hands write what one does of a formula's facts with a change.
fn is_same<R: Threads + Sync>(
    rt: &R,
    alloc: Global,
    run: (&str, Search),
    change: Change,
    hands: HandCount,
) -> Result<bool, Fail> {
    let (text, search) = run;
    let plan = plan_of(search);
    let facts = changed_facts(alloc, text, plan, change)?;
    let alone = written_by(rt, alloc, text, facts, plan, HandCount::of(1))?;
    let facts = changed_facts(alloc, text, plan, change)?;
    let by = written_by(rt, alloc, text, facts, plan, hands)?;
    Ok(
        by.gathered == alone.gathered
            && by.proof.as_slice() == alone.proof.as_slice()
            && by.answer.as_slice() == alone.answer.as_slice(),
    )
}

#[test]
fn hands_write_what_one_hand_writes(rt: HostRuntime) -> Result<(), Fail> {
    for run in &RUNS {
        for place in 0..CHANGES.len() {
            for hands in [2, 3, 8] {
                let same = is_same(&rt, rt.alloc(), *run, CHANGES[place], HandCount::of(hands))?;
                assert!(rt; same, "change {place} of {} by {hands} hands", run.0);
            }
        }
    }
    Ok(())
}

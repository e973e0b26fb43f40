//! Which facts of a store a run takes, and what it solves for want of one. The budget is enough for
//! each cube: a formula that has no facts is solved at its root.

use crate::facts_in_memory::FactsInMemory;
use crate::plainly::gathering_of;
use cdcl::{Plan, Search};
use cnf::Lit;
use cubes::HandCount;
use lines::Row;
use packs::{Claim, Fact};
use runs::{GatheredFrom, RunFault, gather_at_once, gather_stored};
use std::alloc::{AllocError, Global};
use std::test::Fail;
use std::thread::Threads;
use test_samples::{FOUR, cube_of};

/// What is said of a cube; where it is refuted, by an empty clause with these hints.
#[derive(Clone, Copy)]
enum Said {
    Split(u32),
    Refuted(&'static [u64]),
    Model,
}

/// A formula, what is said of cubes over its two variables, how many facts are taken and how many
/// cubes are solved, and the answer.
struct Case {
    name: &'static str,
    text: &'static str,
    search: Search,
    facts: &'static [(&'static [i32], Said)],
    taken: u64,
    solved: u64,
    answer: &'static str,
}

/// The first model has 1 false.
const ONE: &str = "p cnf 2 3\n1 2 0\n-1 2 0\n1 -2 2 0\n";

const REFUTED: &str = "s UNSATISFIABLE\n";

const MODEL: &str = "s SATISFIABLE\nv -1 2 0\n";

static CASES: [Case; 12] = [
    Case {
        name: "no facts",
        text: FOUR,
        search: Search::Ordered,
        facts: &[],
        taken: 0,
        solved: 1,
        answer: REFUTED,
    },
    Case {
        name: "a tree",
        text: FOUR,
        search: Search::Ordered,
        facts: &[
            (&[], Said::Split(1)),
            (&[-1], Said::Refuted(&[1, 2])),
            (&[1], Said::Refuted(&[3, 4])),
        ],
        taken: 3,
        solved: 0,
        answer: REFUTED,
    },
    Case {
        name: "in another order, with one half missing",
        text: FOUR,
        search: Search::Ordered,
        facts: &[(&[1], Said::Refuted(&[3, 4])), (&[], Said::Split(1))],
        taken: 2,
        solved: 1,
        answer: REFUTED,
    },
    Case {
        name: "with lines that don't replay",
        text: FOUR,
        search: Search::Ordered,
        facts: &[(&[], Said::Split(1)), (&[-1], Said::Refuted(&[3, 4]))],
        taken: 1,
        solved: 2,
        answer: REFUTED,
    },
    Case {
        name: "a split that isn't the least",
        text: FOUR,
        search: Search::Ordered,
        facts: &[(&[], Said::Split(2))],
        taken: 0,
        solved: 1,
        answer: REFUTED,
    },
    Case {
        name: "the same by the focused search",
        text: FOUR,
        search: Search::Focused,
        facts: &[(&[], Said::Split(2))],
        taken: 1,
        solved: 2,
        answer: REFUTED,
    },
    Case {
        name: "a split on nothing",
        text: FOUR,
        search: Search::Focused,
        facts: &[(&[], Said::Split(0))],
        taken: 0,
        solved: 1,
        answer: REFUTED,
    },
    Case {
        name: "a split in the cube",
        text: FOUR,
        search: Search::Focused,
        facts: &[(&[], Said::Split(1)), (&[1], Said::Split(1))],
        taken: 1,
        solved: 2,
        answer: REFUTED,
    },
    Case {
        name: "a model that isn't there",
        text: FOUR,
        search: Search::Ordered,
        facts: &[(&[], Said::Model)],
        taken: 0,
        solved: 1,
        answer: REFUTED,
    },
    Case {
        name: "no facts of a model",
        text: ONE,
        search: Search::Ordered,
        facts: &[],
        taken: 0,
        solved: 1,
        answer: MODEL,
    },
    Case {
        name: "a model called refuted",
        text: ONE,
        search: Search::Ordered,
        facts: &[(&[], Said::Split(1)), (&[-1], Said::Refuted(&[1, 2]))],
        taken: 1,
        solved: 1,
        answer: MODEL,
    },
    Case {
        name: "a model in its cube",
        text: ONE,
        search: Search::Ordered,
        facts: &[(&[], Said::Split(1)), (&[-1], Said::Model)],
        taken: 1,
        solved: 1,
        answer: MODEL,
    },
];

/// The row of an empty clause with these hints.
fn row_of(alloc: Global, hints: &[u64]) -> Result<Row, AllocError> {
    let clause: [Lit; 0] = [];
    let mut row = Row::new(alloc);
    row.push(&clause, hints, &[])?;
    Ok(row)
}

/// What is said of a cube over two variables.
fn fact_of(alloc: Global, numbers: &[i32], said: Said) -> Result<Fact, AllocError> {
    let claim = match said {
        Said::Split(var) => Claim::Split(var),
        Said::Refuted(hints) => Claim::Refuted(row_of(alloc, hints)?),
        Said::Model => Claim::Model,
    };
    Ok(Fact {
        cube: cube_of(alloc, 2, numbers)?,
        claim,
    })
}

/// A store of a case's facts.
fn store_of(alloc: Global, case: &Case) -> Result<FactsInMemory, AllocError> {
    let mut facts = Vec::new(alloc);
    for (numbers, said) in case.facts {
        facts.push(fact_of(alloc, numbers, *said)?)?;
    }
    FactsInMemory::new(alloc, facts)
}

fn plan_of(search: Search) -> Plan {
    match search {
        Search::Ordered => Plan::ordered(1000),
        Search::Focused => Plan::focused(1000),
    }
}

/// Whether a run over a case's store takes, solves and answers what is wanted.
fn is_taken<R: Threads + Sync>(
    rt: &R,
    alloc: Global,
    case: &Case,
    store: FactsInMemory,
) -> Result<bool, RunFault> {
    let (mut proof, mut answer) = (Vec::new(alloc), Vec::new(alloc));
    let gathering = gathering_of(store, plan_of(case.search), HandCount::of(1));
    let text = case.text.as_bytes();
    let gathered = gather_stored(rt, alloc, text, gathering, &mut answer, &mut proof)?;
    let GatheredFrom { taken, solved, .. } = gathered;
    Ok(taken == case.taken && solved == case.solved && answer.as_slice() == case.answer.as_bytes())
}

/// Whether it is so by going through the tree once, which answers nothing of a model.
fn is_taken_at_once<R: Threads + Sync>(
    rt: &R,
    alloc: Global,
    case: &Case,
    store: FactsInMemory,
) -> Result<bool, RunFault> {
    let (mut proof, mut answer) = (Vec::new(alloc), Vec::new(alloc));
    let gathering = gathering_of(store, plan_of(case.search), HandCount::of(1));
    let text = case.text.as_bytes();
    let gathered = gather_at_once(rt, alloc, text, gathering, &mut answer, &mut proof)?;
    let Some(gathered) = gathered else {
        return Ok(case.answer == MODEL && answer.is_empty());
    };
    Ok(
        gathered.taken == case.taken
            && gathered.solved == case.solved
            && answer.as_slice() == case.answer.as_bytes(),
    )
}

#[test]
fn checked_facts_are_taken(rt: HostRuntime) -> Result<(), Fail> {
    for case in &CASES {
        let store = store_of(rt.alloc(), case)?;
        assert!(rt; is_taken(&rt, rt.alloc(), case, store)?, "{}", case.name);
        let store = store_of(rt.alloc(), case)?;
        assert!(rt;
            is_taken_at_once(&rt, rt.alloc(), case, store)?,
            "{} at once",
            case.name
        );
    }
    Ok(())
}

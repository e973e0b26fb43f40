//! Runs by strategies: which plan decides, by how many conflicts the search before it has; and the
//! first model, whatever model was found.

use crate::facts_in_memory::FactsInMemory;
use cdcl::Plan;
use cnf::{Limits, read_formula};
use cubes::{HandCount, OpenGate};
use runs::{Gathering, Options, RunFault, TimeLimit, answer_with, gather_stored, run_with};
use std::alloc::Global;
use std::sync::Wait;
use std::test::Fail;
use std::thread::Threads;
use std::time::Clock;
use strategies::{Strategy, Unobserved, chosen};
use test_samples::{FOUR, FOUR_PROOF};

/// Two clauses and more that make variable 1 true: the ordered search has a conflict before it finds
/// the first model.
const SECOND: &str = "p cnf 2 2\n1 2 0\n1 -2 0\n";

/// Three clauses of one model.
const ONLY: &str = "p cnf 2 3\n1 2 0\n1 -2 0\n-1 2 0\n";

/// By the clauses 1 is true. Then 2 and 3 are equal, and so are 4 and 5: all four are false in the
/// first model.
const PAIRS: &str = "p cnf 5 6\n1 2 0\n1 -2 0\n2 -3 -1 0\n-2 3 -1 0\n4 -5 -1 0\n-4 5 -1 0\n";

/// Exactly one of 2, 3 and 4 is true, and 1 is: the last one is, in the first model.
const ONE_OF_THREE: &str = "p cnf 4 6\n1 2 0\n1 -2 0\n2 3 4 0\n-2 -3 0\n-2 -4 0\n-3 -4 0\n";

const UNSATISFIABLE: &str = "s UNSATISFIABLE\n";

/// The four clauses by the ordered search as one cube; of one conflict, each half is refuted.
const WHOLE: &str = "5 1 0 1 2 0\n6 0 5 3 4 0\n";

/// A formula, a strategy, and what a run writes.
struct Row {
    text: &'static str,
    /// The conflicts of the search that is made first.
    first: u32,
    /// Whether the plan behind it is the focused search, or the ordered one with one conflict.
    is_focused: bool,
    /// Whether the answer is the model that is found.
    any_model: bool,
    proof: &'static str,
    answer: &'static str,
}

const FIRST: Row = Row {
    text: SECOND,
    first: 1,
    is_focused: true,
    any_model: false,
    proof: "",
    answer: "s SATISFIABLE\nv 1 -2 0\n",
};

static ROWS: [Row; 9] = [
    // the search that is made first decides: its own proof
    Row {
        text: FOUR,
        first: 2,
        proof: WHOLE,
        answer: UNSATISFIABLE,
        ..FIRST
    },
    // its one conflict is used up, and so is the plan's: the plan's proof
    Row {
        text: FOUR,
        is_focused: false,
        proof: FOUR_PROOF,
        answer: UNSATISFIABLE,
        ..FIRST
    },
    FIRST,
    Row { first: 2, ..FIRST },
    Row {
        is_focused: false,
        ..FIRST
    },
    Row {
        text: ONLY,
        any_model: true,
        answer: "s SATISFIABLE\nv 1 2 0\n",
        ..FIRST
    },
    Row {
        text: PAIRS,
        answer: "s SATISFIABLE\nv 1 -2 -3 -4 -5 0\n",
        ..FIRST
    },
    Row {
        text: ONE_OF_THREE,
        answer: "s SATISFIABLE\nv 1 -2 -3 4 0\n",
        ..FIRST
    },
    Row {
        text: "p cnf 0 0\n",
        answer: "s SATISFIABLE\nv 0\n",
        ..FIRST
    },
];

fn strategy_of(row: &Row) -> Option<Strategy> {
    if row.first < 1 || row.first > 100_000 {
        return None;
    }
    let plan = if row.is_focused {
        Plan::focused(1000)
    } else {
        Plan::ordered(1)
    };
    let strategy = Strategy::automatic(row.first, plan);
    Some(if row.any_model {
        strategy.with_any_model()
    } else {
        strategy
    })
}

/// Whether runs by so many hands, with a proof and without one, write what a row says.
fn writes<R: Threads + Wait + Clock + Sync>(
    rt: &R,
    alloc: Global,
    row: &Row,
    hands: HandCount,
) -> Result<bool, RunFault> {
    let Some(strategy) = strategy_of(row) else {
        return Ok(false);
    };
    let options = Options {
        limits: Limits::Standard,
        strategy,
        hands,
        gate: &OpenGate,
        limit: &TimeLimit::begin(rt, None),
        observer: &Unobserved,
    };
    let text = row.text.as_bytes();
    let (mut answer, mut proof, mut alone) = (Vec::new(alloc), Vec::new(alloc), Vec::new(alloc));
    run_with(rt, alloc, text, &options, &mut answer, &mut proof)?;
    answer_with(rt, alloc, text, &options, &mut alone)?;
    Ok(
        answer.as_slice() == row.answer.as_bytes()
            && proof.as_slice() == row.proof.as_bytes()
            && alone.as_slice() == row.answer.as_bytes(),
    )
}

/// Whether the plan that a row's strategy chooses writes the same where nothing is known of cubes,
/// with the first model.
fn gathers(rt: &(impl Threads + Sync), alloc: Global, row: &Row) -> Result<bool, Fail> {
    let Some(strategy) = strategy_of(row) else {
        return Ok(false);
    };
    let formula = read_formula(alloc, row.text.as_bytes())?;
    let plan = chosen(alloc, &formula, strategy, &OpenGate, &Unobserved)?;
    let store = FactsInMemory::new(alloc, Vec::new(alloc))?;
    let (mut answer, mut proof) = (Vec::new(alloc), Vec::new(alloc));
    let gathering = Gathering {
        store,
        limits: Limits::Standard,
        strategy: strategy.chosen(plan),
        hands: HandCount::of(1),
    };
    let text = row.text.as_bytes();
    gather_stored(rt, alloc, text, gathering, &mut answer, &mut proof)?;
    Ok(answer.as_slice() == row.answer.as_bytes() && proof.as_slice() == row.proof.as_bytes())
}

#[test]
fn strategies_write(rt: HostRuntime) -> Result<(), Fail> {
    for row in &ROWS {
        for hands in [1, 2] {
            assert!(rt;
                writes(&rt, rt.alloc(), row, HandCount::of(hands))?,
                "{}",
                row.text
            );
        }
        assert!(rt; gathers(&rt, rt.alloc(), row)?, "gathered {}", row.text);
    }
    Ok(())
}

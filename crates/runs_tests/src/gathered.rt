//! Runs over packs: whole ones, broken ones, and such as say what isn't so. The bytes of their facts
//! are worked out by hand.

use crate::facts_in_memory::FactsInMemory;
use crate::plainly::gathering_of;
use crate::true_packs::plan_of;
use cdcl::Search;
use cnf::read_formula;
use cubes::HandCount;
use packs::{Fact, read_pack};
use runs::{gather_at_once, gather_stored};
use std::alloc::{AllocError, Global};
use std::test::Fail;
use std::thread::Threads;
use test_samples::{FOUR, FOUR_PROOF};

/// The cube without literals is split on 1, or on 2, or on 3.
const SPLIT_1: &[u8] = &[0, 2, 1, 0, 0];

const SPLIT_2: &[u8] = &[0, 2, 2, 0, 0];

const SPLIT_3: &[u8] = &[0, 2, 4, 0, 0];

/// The cube without literals has a model.
const MODEL: &[u8] = &[0, 6, 0, 0];

/// The empty clause refutes the cube -1, with the hints 1 and 2, and the cube 1, with 3 and 4.
const LEFT: &[u8] = &[2, 0, 4, 0, 0, 0, 2, 2, 0, 0];

const RIGHT: &[u8] = &[3, 0, 4, 0, 0, 0, 6, 2, 0, 0];

/// The cube -1 again, with the hints of the other one.
const WRONG_LEFT: &[u8] = &[2, 0, 4, 0, 0, 0, 6, 2, 0, 0];

/// The root is refuted by three lines: `1` by 1 and 2, `-2` by 2 and 4, behind which the first one is
/// forgotten, and the empty clause by 6, 1 and 3.
const FORGETS: &[u8] = &[
    0, 4, 0, 0, 3, 0, 2, 2, 0, 0, 4, 0, 4, 4, 0, 10, 0, 0, 12, 11, 4, 0, 0,
];

const FORGETS_PROOF: &str = "5 1 0 1 2 0\n6 -2 0 2 4 0\n6 d 5 0\n7 0 6 1 3 0\n";

/// The cube -1: `2` by 1, three times, and behind the second one the first is forgotten; the empty
/// clause by 6 and 2. The cube 1: `2` by 3, twice, and so; the empty clause by 6 and 4.
const LEFT_FORGETS: &[u8] = &[
    2, 0, 4, 0, 0, 5, 0, 2, 0, 0, 5, 0, 2, 0, 10, 0, 5, 0, 2, 0, 0, 0, 12, 9, 0, 0,
];

const RIGHT_FORGETS: &[u8] = &[
    3, 0, 4, 0, 0, 5, 0, 6, 0, 0, 5, 0, 6, 0, 10, 0, 0, 12, 5, 0, 0,
];

const HALVES_FORGET: &str =
    "5 2 1 0 1 0\n6 2 1 0 1 0\n6 d 5 0\n7 2 1 0 1 0\n8 1 0 6 2 0\n8 d 6 7 0\n9 2 -1 0 3 0\n10 2 -1 0 3 0\n10 d 9 0\n11 -1 0 10 4 0\n11 d 10 0\n12 0 8 11 0\n";

/// The cube -1 by `2`, twice, and the empty clause by a line that is forgotten, and 2.
const LEFT_BY_FORGOTTEN: &[u8] = &[
    2, 0, 4, 0, 0, 5, 0, 2, 0, 0, 5, 0, 2, 0, 10, 0, 0, 10, 7, 0, 0,
];

/// What is written of `FOUR` by the focused search where it is split on 2, and where on 1: in each half
/// propagation gives a literal, which has a line of its own.
const PROOF_BY_2: &str =
    "5 1 2 0 1 0\n6 2 0 5 3 0\n6 d 5 0\n7 1 -2 0 2 0\n8 -2 0 7 4 0\n8 d 7 0\n9 0 6 8 0\n";

const PROOF_BY_1: &str =
    "5 2 1 0 1 0\n6 1 0 5 2 0\n6 d 5 0\n7 2 -1 0 3 0\n8 -1 0 7 4 0\n8 d 7 0\n9 0 6 8 0\n";

/// Its first model has 1 false.
const ONE_MODEL: &str = "p cnf 2 3\n1 2 0\n-1 2 0\n1 -2 2 0\n";

const REFUTED: &str = "s UNSATISFIABLE\n";

/// A formula, packs of facts, what stands behind the last one, and what a run at budget 1 does.
struct Row {
    name: &'static str,
    text: &'static str,
    search: Search,
    packs: &'static [&'static [&'static [u8]]],
    behind: &'static [u8],
    // how many facts are read, bodies passed over, and packs that break off
    read: [u64; 3],
    taken: u64,
    solved: u64,
    proof: &'static str,
    answer: &'static str,
}

static ROWS: [Row; 17] = [
    Row {
        name: "no packs",
        text: FOUR,
        search: Search::Ordered,
        packs: &[],
        behind: &[],
        read: [0, 0, 0],
        taken: 0,
        solved: 3,
        proof: FOUR_PROOF,
        answer: REFUTED,
    },
    Row {
        name: "a pack without facts",
        text: FOUR,
        search: Search::Ordered,
        packs: &[&[]],
        behind: &[],
        read: [0, 0, 0],
        taken: 0,
        solved: 3,
        proof: FOUR_PROOF,
        answer: REFUTED,
    },
    Row {
        name: "a whole tree",
        text: FOUR,
        search: Search::Ordered,
        packs: &[&[SPLIT_1, LEFT, RIGHT]],
        behind: &[],
        read: [3, 0, 0],
        taken: 3,
        solved: 0,
        proof: FOUR_PROOF,
        answer: REFUTED,
    },
    Row {
        name: "a tree in two packs, from its end",
        text: FOUR,
        search: Search::Ordered,
        packs: &[&[RIGHT], &[LEFT, SPLIT_1]],
        behind: &[],
        read: [3, 0, 0],
        taken: 3,
        solved: 0,
        proof: FOUR_PROOF,
        answer: REFUTED,
    },
    Row {
        name: "a tree with one half missing",
        text: FOUR,
        search: Search::Ordered,
        packs: &[&[SPLIT_1, RIGHT]],
        behind: &[],
        read: [2, 0, 0],
        taken: 2,
        solved: 1,
        proof: FOUR_PROOF,
        answer: REFUTED,
    },
    Row {
        name: "a pack that breaks off",
        text: FOUR,
        search: Search::Ordered,
        packs: &[&[SPLIT_1, LEFT]],
        behind: &[10, 0, 0, 0, 0, 0, 0, 0, 3, 0, 4, 0, 0, 0, 6, 2],
        read: [2, 0, 1],
        taken: 2,
        solved: 1,
        proof: FOUR_PROOF,
        answer: REFUTED,
    },
    Row {
        name: "lines that don't replay",
        text: FOUR,
        search: Search::Ordered,
        packs: &[&[SPLIT_1, WRONG_LEFT, RIGHT]],
        behind: &[],
        read: [3, 0, 0],
        taken: 2,
        solved: 1,
        proof: FOUR_PROOF,
        answer: REFUTED,
    },
    Row {
        name: "a line that is forgotten",
        text: FOUR,
        search: Search::Ordered,
        packs: &[&[FORGETS]],
        behind: &[],
        read: [1, 0, 0],
        taken: 1,
        solved: 0,
        proof: FORGETS_PROOF,
        answer: REFUTED,
    },
    Row {
        name: "lines of halves that are forgotten",
        text: FOUR,
        search: Search::Ordered,
        packs: &[&[SPLIT_1, LEFT_FORGETS, RIGHT_FORGETS]],
        behind: &[],
        read: [3, 0, 0],
        taken: 3,
        solved: 0,
        proof: HALVES_FORGET,
        answer: REFUTED,
    },
    Row {
        name: "a hint to a line that is forgotten",
        text: FOUR,
        search: Search::Ordered,
        packs: &[&[SPLIT_1, LEFT_BY_FORGOTTEN, RIGHT]],
        behind: &[],
        read: [3, 0, 0],
        taken: 2,
        solved: 1,
        proof: FOUR_PROOF,
        answer: REFUTED,
    },
    Row {
        name: "a split that isn't the least",
        text: FOUR,
        search: Search::Ordered,
        packs: &[&[SPLIT_2]],
        behind: &[],
        read: [1, 0, 0],
        taken: 0,
        solved: 3,
        proof: FOUR_PROOF,
        answer: REFUTED,
    },
    Row {
        name: "a split beyond the formula",
        text: FOUR,
        search: Search::Ordered,
        packs: &[&[SPLIT_3, SPLIT_1]],
        behind: &[],
        read: [1, 1, 0],
        taken: 1,
        solved: 2,
        proof: FOUR_PROOF,
        answer: REFUTED,
    },
    Row {
        name: "a model that isn't there",
        text: FOUR,
        search: Search::Ordered,
        packs: &[&[MODEL]],
        behind: &[],
        read: [1, 0, 0],
        taken: 0,
        solved: 3,
        proof: FOUR_PROOF,
        answer: REFUTED,
    },
    Row {
        name: "a model that is called refuted",
        text: ONE_MODEL,
        search: Search::Ordered,
        packs: &[&[SPLIT_1, LEFT]],
        behind: &[],
        read: [2, 0, 0],
        taken: 1,
        solved: 1,
        proof: "",
        answer: "s SATISFIABLE\nv -1 2 0\n",
    },
    Row {
        name: "no packs, by the focused search",
        text: FOUR,
        search: Search::Focused,
        packs: &[],
        behind: &[],
        read: [0, 0, 0],
        taken: 0,
        solved: 3,
        proof: PROOF_BY_2,
        answer: REFUTED,
    },
    Row {
        name: "its own split",
        text: FOUR,
        search: Search::Focused,
        packs: &[&[SPLIT_2]],
        behind: &[],
        read: [1, 0, 0],
        taken: 1,
        solved: 2,
        proof: PROOF_BY_2,
        answer: REFUTED,
    },
    Row {
        name: "another split, and lines that don't replay",
        text: FOUR,
        search: Search::Focused,
        packs: &[&[SPLIT_1, WRONG_LEFT]],
        behind: &[],
        read: [2, 0, 0],
        taken: 1,
        solved: 2,
        proof: PROOF_BY_1,
        answer: REFUTED,
    },
];

/// A pack of these bodies.
fn pack_of(alloc: Global, bodies: &[&[u8]]) -> Result<Vec<u8>, AllocError> {
    let mut pack = Vec::new(alloc);
    for body in bodies {
        pack.extend_from_slice(&(body.len() as u64).to_le_bytes())?;
        pack.extend_from_slice(body)?;
    }
    Ok(pack)
}

/// The packs of a row.
fn packs_of(alloc: Global, row: &Row) -> Result<Vec<Vec<u8>>, AllocError> {
    let mut packs = Vec::new(alloc);
    for bodies in row.packs {
        let pack = pack_of(alloc, bodies)?;
        packs.push(pack)?;
    }
    if let Some(last) = packs.last_mut() {
        last.extend_from_slice(row.behind)?;
    }
    Ok(packs)
}

/// The facts of packs, over so many variables, and what is counted of the packs.
fn facts_of(
    alloc: Global,
    packs: &[Vec<u8>],
    vars: u32,
) -> Result<(Vec<Fact>, [u64; 3]), AllocError> {
    let mut facts = Vec::new(alloc);
    let (mut passed_over, mut broken_off): (u64, u64) = (0, 0);
    for bytes in packs {
        let mut pack = read_pack(alloc, vars, bytes)?;
        passed_over = pack.passed_over.saturating_add(passed_over);
        broken_off = u64::from(!pack.whole).saturating_add(broken_off);
        facts.append(&mut pack.facts)?;
    }
    let read = [facts.len() as u64, passed_over, broken_off];
    Ok((facts, read))
}

/// A store of a row's facts, if its packs are read as is wanted.
fn store_of(alloc: Global, row: &Row) -> Result<Option<FactsInMemory>, Fail> {
    let packs = packs_of(alloc, row)?;
    let formula = read_formula(alloc, row.text.as_bytes())?;
    let (facts, read) = facts_of(alloc, &packs, formula.vars())?;
    if read != row.read {
        return Ok(None);
    }
    Ok(Some(FactsInMemory::new(alloc, facts)?))
}

/// Whether a row's run takes, solves and writes what is wanted.
fn writes(rt: &(impl Threads + Sync), alloc: Global, row: &Row) -> Result<bool, Fail> {
    let Some(store) = store_of(alloc, row)? else {
        return Ok(false);
    };
    let (mut proof, mut answer) = (Vec::new(alloc), Vec::new(alloc));
    let gathering = gathering_of(store, plan_of(row.search), HandCount::of(1));
    let text = row.text.as_bytes();
    let gathered = gather_stored(rt, alloc, text, gathering, &mut answer, &mut proof)?;
    Ok(
        gathered.taken == row.taken
            && gathered.solved == row.solved
            && proof.as_slice() == row.proof.as_bytes()
            && answer.as_slice() == row.answer.as_bytes(),
    )
}

/// Whether a row's run writes the same where it goes through the tree once, with a store that is lent;
/// of a formula with a model, which has no proof, it answers nothing.
fn writes_at_once(rt: &(impl Threads + Sync), alloc: Global, row: &Row) -> Result<bool, Fail> {
    let Some(mut store) = store_of(alloc, row)? else {
        return Ok(false);
    };
    let (mut proof, mut answer) = (Vec::new(alloc), Vec::new(alloc));
    let gathering = gathering_of(&mut store, plan_of(row.search), HandCount::of(1));
    let text = row.text.as_bytes();
    let gathered = gather_at_once(rt, alloc, text, gathering, &mut answer, &mut proof)?;
    let Some(gathered) = gathered else {
        return Ok(row.proof.is_empty() && answer.is_empty());
    };
    Ok(
        gathered.taken == row.taken
            && gathered.solved == row.solved
            && proof.as_slice() == row.proof.as_bytes()
            && answer.as_slice() == row.answer.as_bytes(),
    )
}

#[test]
fn runs_over_packs(rt: HostRuntime) -> Result<(), Fail> {
    for row in &ROWS {
        assert!(rt; writes(&rt, rt.alloc(), row)?, "{}", row.name);
        assert!(rt;
            writes_at_once(&rt, rt.alloc(), row)?,
            "{} at once",
            row.name
        );
    }
    Ok(())
}

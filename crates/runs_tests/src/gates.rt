//! Runs of two hands at a gate that holds one of them until the other has come to another cube.
//! That shows that both are at work at once.
use cubes::Gate;
use kernel::Cube;
use runs::{RunFault, Verdict, run};
use std::alloc::Global;
use std::sync::Wait;
use std::sync::atomic::{AtomicU64, Ordering};
use std::test::Fail;
use std::thread;
use std::thread::Threads;
use std::time::Clock;
use test_samples::{FOUR, FOUR_PROOF};

/// How often a hand that is held looks. Then the gate lets it go, and the test fails.
const TURNS: u32 = 1 << 24;

/// The number of no hand.
const NOBODY: u64 = u64::MAX;

/// Which hand was last at a place.
#[derive(Drop)]
struct Mark(AtomicU64);

impl Mark {
    fn new() -> Mark {
        Mark(AtomicU64::new(NOBODY))
    }

    fn set(&self, hand: usize) {
        self.0.store(hand as u64, Ordering::SeqCst);
    }

    fn hand(&self) -> u64 {
        self.0.load(Ordering::SeqCst)
    }

    /// Whether another hand came, before so many looks.
    fn sees_another(&self, hand: usize) -> bool {
        for _ in 0..TURNS {
            let there = self.hand();
            if there != NOBODY && there != hand as u64 {
                return true;
            }
            thread::yield_now();
        }
        false
    }
}

/// Whether the cube is a half of the root, and if so, whether the true one.
fn half_of_root(cube: &Cube) -> Option<bool> {
    match cube.lits().first() {
        Some(lit) if cube.lits().len() == 1 => Some(lit.positive()),
        _ => None,
    }
}

/// Holds the half of the root that is entered first until another hand has entered the other.
struct BothHalves {
    left: Mark,
    right: Mark,
    let_go: Mark,
}

// written out, so that proofs of its owners stay short (docs/PROVING.md)
impl Drop for BothHalves {
    fn drop(self) {
        let BothHalves {
            left: _,
            right: _,
            let_go: _,
        } = self;
    }
}

impl BothHalves {
    fn new() -> BothHalves {
        BothHalves {
            left: Mark::new(),
            right: Mark::new(),
            let_go: Mark::new(),
        }
    }
}

impl Gate for BothHalves {
    fn before(&self, hand: usize, cube: &Cube) {
        let (own, other) = match half_of_root(cube) {
            Some(false) => (&self.left, &self.right),
            Some(true) => (&self.right, &self.left),
            None => return,
        };
        own.set(hand);
        if !other.sees_another(hand) {
            self.let_go.set(hand);
        }
    }

    fn after(&self, _hand: usize, _cube: &Cube) {}
}

/// Holds the left half of the root until another hand has solved the right one.
struct RightFirst {
    solved: Mark,
    let_go: Mark,
}

// written out, so that proofs of its owners stay short (docs/PROVING.md)
impl Drop for RightFirst {
    fn drop(self) {
        let RightFirst {
            solved: _,
            let_go: _,
        } = self;
    }
}

impl RightFirst {
    fn new() -> RightFirst {
        RightFirst {
            solved: Mark::new(),
            let_go: Mark::new(),
        }
    }
}

impl Gate for RightFirst {
    fn before(&self, hand: usize, cube: &Cube) {
        if half_of_root(cube) == Some(false) && !self.solved.sees_another(hand) {
            self.let_go.set(hand);
        }
    }

    fn after(&self, hand: usize, cube: &Cube) {
        if half_of_root(cube) == Some(true) {
            self.solved.set(hand);
        }
    }
}

/// What a run writes, and what it comes to.
#[derive(Clone, Copy)]
struct Written<'a> {
    verdict: Verdict,
    proof: &'a str,
    answer: &'a str,
}

/// Whether two hands at a gate write this, with a budget of one conflict for the root.
fn write<R: Threads + Wait + Clock + Sync, G: Gate + Sync>(
    rt: &R,
    alloc: Global,
    text: &str,
    gate: &G,
    wanted: &Written,
) -> Result<bool, RunFault> {
    let mut proof = Vec::new(alloc);
    let mut answer = Vec::new(alloc);
    let text = text.as_bytes();
    let verdict = run(rt, alloc, text, &mut answer, &mut proof, 1, 2, gate)?;
    Ok(
        verdict == wanted.verdict
            && proof.as_slice() == wanted.proof.as_bytes()
            && answer.as_slice() == wanted.answer.as_bytes(),
    )
}

const REFUTED: Written = Written {
    verdict: Verdict::Unsatisfiable,
    proof: FOUR_PROOF,
    answer: "s UNSATISFIABLE\n",
};

/// Whether two hands are at work at once.
fn are_at_work<R: Threads + Wait + Clock + Sync>(rt: &R, alloc: Global) -> Result<bool, RunFault> {
    let gate = BothHalves::new();
    let is_written = write(rt, alloc, FOUR, &gate, &REFUTED)?;
    let is_held = gate.let_go.hand() == NOBODY;
    Ok(is_written && is_held && gate.left.hand() != gate.right.hand())
}

const SATISFIED: Written = Written {
    verdict: Verdict::Satisfiable,
    proof: "",
    answer: "s SATISFIABLE\nv -1 2 -3 0\n",
};

/// Whether a model in the right half that is found first isn't the answer.
fn is_left_answered<R: Threads + Wait + Clock + Sync>(
    rt: &R,
    alloc: Global,
) -> Result<bool, RunFault> {
    let gate = RightFirst::new();
    let text = "p cnf 3 2\n1 2 3 0\n1 2 -3 0\n";
    let is_written = write(rt, alloc, text, &gate, &SATISFIED)?;
    let is_held = gate.let_go.hand() == NOBODY;
    Ok(is_written && is_held && gate.solved.hand() != NOBODY)
}

#[test]
fn two_hands_at_a_gate(rt: HostRuntime) -> Result<(), Fail> {
    for _ in 0..20 {
        assert!(rt; are_at_work(&rt, rt.alloc())?);
        assert!(rt; is_left_answered(&rt, rt.alloc())?);
    }
    Ok(())
}

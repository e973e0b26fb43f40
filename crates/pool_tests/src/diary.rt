//! What a hand brings home from a thread, and the promise that it is the same hand.
use kernel::Cube;
use pool::Hand;
use std::alloc::{AllocError, Global};
use std::snapshot::Snapshot;
use std::thread::Promise;

/// A hand that is back, and the cube that it brings.
#[derive(Drop)]
pub struct Visit {
    pub hand: Hand,
    pub got: Option<Cube>,
}

/// What a hand did in a long run, beside its ledger. A cube goes by its number.
pub struct Diary {
    // the number of the last cube put
    pub last: u32,
    pub put: Vec<u32>,
    pub got: Vec<u32>,
    pub more: u64,
    pub less: u64,
    pub least: Option<u64>,
}

// written out, so that proofs of its owners stay short (docs/PROVING.md)
impl Drop for Diary {
    fn drop(self) {
        let Diary {
            last: _,
            put: _,
            got: _,
            more: _,
            less: _,
            least: _,
        } = self;
    }
}

impl Diary {
    /// The diary of the hand of this number, with room for so many cubes put and got.
    pub fn new(alloc: Global, hand: u32, turns: usize) -> Result<Diary, AllocError> {
        Ok(Diary {
            last: hand << 16,
            put: Vec::with_capacity(alloc, turns)?,
            got: Vec::with_capacity(alloc, turns)?,
            more: 0,
            less: 0,
            least: None,
        })
    }
}

/// A hand that is back from a long run.
#[derive(Drop)]
pub struct Home {
    pub hand: Hand,
    pub diary: Diary,
}

/// The hand that comes back is this one.
#[derive(Drop)]
pub struct SameAs(pub Snapshot<Hand>);

impl Promise<Visit> for SameAs {
    ghost use Rattle.pool.specs.Hands.{SameHand};

    ghost kept_by = { λ p v. SameHand p.0.value v.hand };
}

impl Promise<Home> for SameAs {
    ghost use Rattle.pool.specs.Hands.{SameHand};

    ghost kept_by = { λ p h. SameHand p.0.value h.hand };
}

/// The hand that comes back is this one, with one call of `less` more in its ledger.
#[derive(Drop)]
pub struct LessOf(pub Snapshot<Hand>);

impl Promise<Visit> for LessOf {
    ghost use Rattle.std.specs.Prelude.{◌≡◌};
    ghost use Rattle.theory.specs.Ledger.{calling, less};
    ghost use Rattle.pool.specs.Hands.{adds};

    ghost kept_by = { λ p v. v.hand ≡ adds p.0.value (calling less) };
}

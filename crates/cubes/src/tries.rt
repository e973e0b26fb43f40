//! Looking for a cube in the deques of all hands, one after the other.
ghost use Rattle.std.specs.Prelude.{◌≡◌, ◌≢◌, ◌<◌, ◌≤◌, ◌+◌, ℕ, MatchOption};
ghost use Rattle.theory.specs.Ledger.{IsFit};
ghost use Rattle.pool.specs.Hands.{SameHand, IsAllTaken};
ghost use Rattle.cubes.specs.Hands.{Gets};

use kernel::Cube;
use pool::{Hand, Taken};
use std::marker::Model;

/// How many deques a hand has tried and found no cube in: its own first, then the others by the
/// numbers of their hands. Only `try_next` counts one, so a hand that says it found none has tried
/// them all.
#[derive(Drop)]
pub(crate) struct Tries {
    count: usize,
}

impl Model for Tries {
    ghost use Rattle.std.specs.Prelude.{ℕ};

    ghost Value = { ℕ };

    ghost view = { λ t. t.count };
}

/// The deque that comes at a place behind the hand's own.
fn other_at(own: usize, place: usize) -> usize
    requires { 1 ≤ place }
    ensures other { result ≢ own }
    ensures within { result ≤ place }
{
    if place <= own { place - 1 } else { place }
}

/// A cube of another hand's deque, if it gives one.
fn steal(hand: &mut Hand, from: usize) -> Option<Cube>
    requires other { from ≢ hand.old.number }
    requires hand { from < hand.old.hands }
    ensures same { SameHand hand.old hand.new }
    ensures got { MatchOption result (hand.new ≡ hand.old)
        (λ c. IsFit hand.old.vars c × Gets hand.old.ledger hand.new.ledger c) }
{
    match hand.steal(from) {
        Taken::Got(cube) => Some(cube),
        Taken::Empty => None,
        Taken::Again => None,
    }
}

impl Tries {
    /// No deque was tried yet.
    pub(crate) fn none() -> Tries
        ensures { result ≡ 0 }
    {
        Tries { count: 0 }
    }

    /// How many were tried.
    pub(crate) fn count(&self) -> usize
        ensures { result ≡ self.now }
    {
        self.count
    }

    /// Tries the next deque. None comes of the hand's own only where it was empty at a moment of
    /// the call; another's may also have been left to a hand that was quicker.
    pub(crate) fn try_next(&mut self, hand: &mut Hand) -> Option<Cube>
        requires left { self.old < hand.old.hands }
        ensures same { SameHand hand.old hand.new }
        ensures got { MatchOption result ((hand.new ≡ hand.old) × (self.new ≡ self.old + 1))
            (λ c. IsFit hand.old.vars c × Gets hand.old.ledger hand.new.ledger c) }
        ensures own { MatchOption result (self.old ≡ 0 → IsAllTaken hand.old) (λ _. self.new ≡ self.old) }
    {
        let _hands = hand.hands(); // it bounds the count
        let place = self.count;
        let found = if place == 0 {
            hand.take()
        } else {
            let from = other_at(hand.number(), place);
            steal(hand, from)
        };
        if found.is_none() {
            self.count = place + 1;
        }
        found
    }
}

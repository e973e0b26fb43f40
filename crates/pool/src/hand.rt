//! A hand: what one thread works with.
ghost use Rattle.std.specs.Prelude.{◌≡◌, ◌≢◌, ◌<◌, ◌^◌, ◌++◌, [], ◌∷◌, MatchOption, MatchResult, All};
ghost use Rattle.theory.specs.Ledger.{IsFit, putting, getting, calling, offer, look, more, less, still_open, halt, halted};
ghost use Rattle.pool.specs.Words.{IsBoundBy, StaysHalted};
ghost use Rattle.pool.specs.Ends.{MatchTaken};
ghost use Rattle.pool.specs.Hands.{adds, SameHand, put_by, IsAllTaken, IsFront, IsAllStolen, IsNextOf, hand_view, IsHand};

use crate::ends::{Owner, Thief};
use crate::seat::WordSeat;
use crate::taken::Taken;
use kernel::Cube;
use std::marker::Model;

/// What one thread works with: its own deque, a thief of each other hand's, and a seat at the three
/// shared words. No call waits for another thread, and each takes a few steps on shared memory.
pub struct Hand {
    number: usize,
    vars: u32,
    owner: Owner,
    // by the number of the hand that owns the deque; at its own number one that never steals
    thieves: Vec<Thief>,
    words: WordSeat,
}

// written out, so that proofs of its owners stay short (docs/PROVING.md)
impl Drop for Hand {
    fn drop(self) {
        let Hand {
            number: _,
            vars: _,
            owner: _,
            thieves: _,
            words: _,
        } = self;
    }
}

impl Model for Hand {
    ghost use Rattle.pool.specs.Hands.{HandView, hand_view, IsHand};

    ghost Value = { HandView };

    ghost view = { λ h. hand_view h.number h.vars h.owner h.thieves.items h.words };

    ghost invariant = { λ h. IsHand h.number h.vars h.owner h.thieves.items h.words };
}

impl Hand {
    /// Its place in the list that `open` gave, from 0.
    pub fn number(&self) -> usize
        ensures number { result ≡ self.now.number }
        ensures below { self.now.number < self.now.hands }
    {
        self.number
    }

    /// How many hands `open` gave.
    pub fn hands(&self) -> usize
        ensures { result ≡ self.now.hands }
    {
        self.thieves.len()
    }

    /// The number of variables that `open` was given.
    pub fn vars(&self) -> u32
        ensures { result ≡ self.now.vars }
    {
        self.vars
    }

    // a hand from its parts
    pub(crate) fn new(
        number: usize,
        vars: u32,
        owner: Owner,
        thieves: Vec<Thief>,
        words: WordSeat,
    ) -> Hand
        requires { IsHand number vars owner thieves.items words }
        ensures { result ≡ hand_view number vars owner thieves.items words }
    {
        Hand {
            number,
            vars,
            owner,
            thieves,
            words,
        }
    }

    // its parts
    pub(crate) fn split(self) -> (Owner, Vec<Thief>, WordSeat)
        ensures parts { IsHand self.number self.vars result.0 result.1.items result.2 }
        ensures same { hand_view self.number self.vars result.0 result.1.items result.2 ≡ self }
    {
        let Hand {
            number: _,
            vars: _,
            owner,
            thieves,
            words,
        } = self;
        (owner, thieves, words)
    }

    // puts the root of all cubes, before any other; a refused one comes back
    pub(crate) fn put_root(&mut self, cube: Cube) -> Result<(), Cube>
        requires fit { IsFit self.old.vars cube }
        requires first { self.old.ledger.put ≡ [] }
        ensures { MatchResult result (λ _. self.new ≡ record self.old { roots = self.old.roots ++ cube ∷ [] })
            (λ c. (c ≡ cube) × (self.new ≡ self.old)) }
    {
        self.owner.put_root(self.vars, cube)
    }

    /// Puts a fit cube, one of at most 32 literals over the variables 1 to `vars`, at the back of
    /// its own deque. Where a request for memory is refused the same cube comes back and nothing
    /// changed. It takes constant time, and the length of the deque where that grows.
    pub fn put(&mut self, cube: Cube) -> Result<(), Cube>
        requires fit { IsFit self.old.vars cube }
        ensures same { SameHand self.old self.new }
        ensures put { MatchResult result (λ _. self.new ≡ adds self.old (putting cube)) (λ c. (c ≡ cube) × (self.new ≡ self.old)) }
    {
        self.owner.put(self.vars, cube)
    }

    /// The front of its own deque; none only where that was empty at a moment of the call.
    pub fn take(&mut self) -> Option<Cube>
        ensures same { SameHand self.old self.new }
        ensures alone { self.old.hands ≡ 1 → IsNextOf self.old result }
        ensures taken { MatchOption result ((self.new ≡ self.old) × IsAllTaken self.old)
            (λ c. IsFit self.old.vars c × IsFront self.old c × (self.new ≡ adds self.old (getting self.old.number c))) }
    {
        self.owner.take()
    }

    /// The front of another hand's deque. `Empty` is answered where the deque was found so at a moment
    /// of the call, but the contract says of it only that what this hand took from there may be all
    /// that was put. Nothing says that a steal ever succeeds.
    pub fn steal(&mut self, from: usize) -> Taken
        requires other { from ≢ self.old.number }
        requires hand { from < self.old.hands }
        ensures same { SameHand self.old self.new }
        ensures taken { MatchTaken result (λ c. IsFit self.old.vars c × (self.new ≡ adds self.old (getting from c)))
            ((self.new ≡ self.old) × IsAllStolen self.old from) (self.new ≡ self.old) }
    {
        let thief = &mut self.thieves[from];
        thief.steal()
    }

    /// Says that a model was found at this place.
    pub fn offer(&mut self, place: u64)
        requires small { place < 2 ^ 32 }
        ensures same { SameHand self.old self.new }
        ensures noted { self.new ≡ adds self.old (calling (offer place)) }
    {
        self.words.offer(place);
    }

    /// The least place that any hand offered so far. It is at most each place that this hand has
    /// offered or seen.
    pub fn look(&mut self) -> Option<u64>
        ensures same { SameHand self.old self.new }
        ensures noted { self.new ≡ adds self.old (calling (look result)) }
        ensures bound { All (IsBoundBy result) self.old.ledger.calls }
    {
        self.words.look()
    }

    /// Counts one cube more as to be done.
    pub fn more(&mut self)
        ensures same { SameHand self.old self.new }
        ensures noted { self.new ≡ adds self.old (calling more) }
    {
        self.words.more();
    }

    /// Counts one cube less as to be done.
    pub fn less(&mut self)
        ensures same { SameHand self.old self.new }
        ensures noted { self.new ≡ adds self.old (calling less) }
    {
        self.words.less();
    }

    /// How many cubes are to be done at one moment: 1, and one for each `more`, less one for each
    /// `less`, of all hands, modulo 2^64.
    pub fn still_open(&mut self) -> u64
        ensures same { SameHand self.old self.new }
        ensures noted { self.new ≡ adds self.old (calling (still_open result)) }
    {
        self.words.still_open()
    }

    /// Tells all hands to go home.
    pub fn halt(&mut self)
        ensures same { SameHand self.old self.new }
        ensures noted { self.new ≡ adds self.old (calling halt) }
    {
        self.words.halt();
    }

    /// Whether some hand halted; so it is where this hand did, or has seen it.
    pub fn halted(&mut self) -> bool
        ensures same { SameHand self.old self.new }
        ensures noted { self.new ≡ adds self.old (calling (halted result)) }
        ensures bound { All (StaysHalted result) self.old.ledger.calls }
    {
        self.words.halted()
    }
}

//! What a gate is told of cubes, counted. Within one machine it is told of none with more than 32
//! literals.
//!
//! Each hand takes the cube that was put first, from its own deque or from another's. So the tree
//! is gone through by depth: while each hand is at a cube of a depth of d or more, all cubes of a
//! lesser depth are done with. All that is known of the tree follows from this.

use std::fmt;
use std::fmt::{Display, Formatter};

/// The depths of cubes in the pool, 0 to 32.
const DEPTHS: usize = 33;

/// The most hands.
pub(crate) const HANDS: usize = 16;

/// What each hand did, and how many cubes of each depth there were.
#[derive(Clone, Copy)]
pub struct CubeCounts {
    /// The cubes that were begun, by their depth.
    begun: [u64; DEPTHS],
    /// Those of them that are solved.
    solved: [u64; DEPTHS],
    /// The cubes that each hand solved.
    by_hand: [u64; HANDS],
    /// The depth of the cube that each hand began last.
    depths: [Option<usize>; HANDS],
    /// Halves that were begun, by the sign of their last literal.
    false_halves: u64,
    true_halves: u64,
}

fn more(counts: &mut [u64], at: usize) {
    if let Some(count) = counts.get_mut(at) {
        *count = count.saturating_add(1);
    }
}

fn sum(counts: &[u64]) -> u64 {
    let mut sum = 0u64;
    for count in counts {
        sum = sum.saturating_add(*count);
    }
    sum
}

impl CubeCounts {
    /// No cube was begun.
    pub fn none() -> CubeCounts {
        CubeCounts {
            begun: [0; DEPTHS],
            solved: [0; DEPTHS],
            by_hand: [0; HANDS],
            depths: [None; HANDS],
            false_halves: 0,
            true_halves: 0,
        }
    }

    /// A hand begins a cube of so many literals, the last one with this sign.
    pub fn begin(&mut self, hand: usize, depth: usize, last: Option<bool>) {
        more(&mut self.begun, depth);
        if let Some(at) = self.depths.get_mut(hand) {
            *at = Some(depth);
        }
        match last {
            Some(true) => self.true_halves = self.true_halves.saturating_add(1),
            Some(false) => self.false_halves = self.false_halves.saturating_add(1),
            None => {}
        }
    }

    /// A hand has solved a cube of so many literals.
    pub fn end(&mut self, hand: usize, depth: usize) {
        more(&mut self.solved, depth);
        more(&mut self.by_hand, hand);
    }

    /// How many cubes are solved.
    pub(crate) fn solved(&self) -> u64 {
        sum(&self.solved)
    }

    /// How many cubes all hands solved, those with more than 32 literals too, of a run of which a gate
    /// is told these.
    pub(crate) fn solved_by_all(&self) -> u64 {
        sum(&self.by_hand)
    }

    /// How many cubes each of so many hands solved.
    pub(crate) fn by_hand(&self, hands: usize) -> &[u64] {
        let hands = hands.min(HANDS);
        &self.by_hand[..hands]
    }

    /// How many cubes were split, at least: a split whose halves weren't begun isn't known.
    pub(crate) fn splits(&self) -> u64 {
        self.false_halves.max(self.true_halves)
    }

    /// The least depth that a hand is at.
    pub(crate) fn depth(&self) -> usize {
        let mut least = DEPTHS;
        for depth in self.depths {
            if let Some(depth) = depth {
                least = least.min(depth);
            }
        }
        if least == DEPTHS { 0 } else { least }
    }

    /// How many cubes may lie in the deques at most: each one that is solved has put two, or none.
    pub fn waiting(&self) -> u64 {
        let depth = self.depth();
        let mut put = 0u64;
        let mut got = 0u64;
        for above in 0..DEPTHS - 1 {
            if above + 1 >= depth {
                put = put.saturating_add(self.solved[above].saturating_mul(2));
                got = got.saturating_add(self.begun[above + 1]);
            }
        }
        put.saturating_sub(got)
    }

    /// The part of the tree that is closed at least, in hundredths of a per cent: a cube of d
    /// literals is one part in 2^d of it. Where all cubes above a depth are done with, what isn't
    /// closed above it lies in the cubes of the depth before.
    pub fn closed(&self) -> u64 {
        let depth = self.depth();
        let Some(above) = depth.checked_sub(1) else {
            return 0;
        };
        let open = match self.begun.get(above) {
            Some(begun) => begun.saturating_mul(10_000),
            None => 10_000,
        };
        let mut share = open;
        for _ in 0..above {
            share = share.div_ceil(2);
        }
        10_000u64.saturating_sub(share)
    }
}

impl Display for CubeCounts {
    fn fmt<W: fmt::Write>(&self, f: &mut Formatter<W>) -> fmt::Result {
        let (solved, waiting, depth) = (self.solved(), self.waiting(), self.depth());
        let closed = self.closed();
        let (whole, hundredths) = (closed / 100, closed % 100);
        write!(
            f,
            "{solved} cubes solved, at most {waiting} waiting, depth {depth}, at least {whole}.{hundredths:02} % of the tree closed"
        )
    }
}

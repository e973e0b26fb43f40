//! How far a formula that was divided by lookahead is.
ghost use Rattle.std.specs.Prelude.{◌≤◌, IfSome};

use cubes::{FirstAnswer, FirstSearch};
use std::fmt;
use std::fmt::{Display, Formatter};

/// The exponent of 2 of the parts that the tree is counted in; a cube of so many literals is one.
const PARTS: u32 = 62;

/// What the first search answered, which part of the tree is refuted, and how long the looks took.
#[derive(Clone, Copy)]
pub struct DivisionCounts {
    /// The first search, once it was asked or has ended.
    first: Option<FirstSearch>,
    /// How many parts of 2^62 are refuted.
    closed: u64,
    /// When the look at the cube without literals began, in milliseconds since the run did, while it
    /// goes on.
    look_began: Option<u64>,
    /// The milliseconds of all looks, by all hands together.
    look_time: u64,
}

/// The least depth at which there are as many cubes as are wanted; 17 where that is more than
/// 65,536.
fn depth_of(cubes: u32) -> u32
    ensures { result ≤ 17 }
{
    for depth in 0..17u32 {
        if 1u32 << depth >= cubes {
            return depth;
        }
    }
    17
}

impl DivisionCounts {
    /// The first search wasn't asked.
    pub fn none() -> DivisionCounts {
        DivisionCounts {
            first: None,
            closed: 0,
            look_began: None,
            look_time: 0,
        }
    }

    /// The first search was asked or ended before, so many milliseconds after the run began. Where
    /// the formula is divided, a look at the cube without literals begins.
    pub fn set_first(&mut self, first: FirstSearch, now: u64) {
        self.first = Some(first);
        if let FirstAnswer::Divided(_) = first.answer {
            self.look_began = Some(now);
        }
    }

    /// What was done before the hands began has ended.
    pub(crate) fn end_preparing(&mut self, now: u64) {
        if let Some(began) = self.look_began.take() {
            self.add_look(began, now);
        }
    }

    /// A look has taken from this time to that.
    pub fn add_look(&mut self, began: u64, now: u64) {
        let time = now.saturating_sub(began);
        self.look_time = self.look_time.saturating_add(time);
    }

    /// A cube of so many literals is refuted. One of more than 62 is less than a part, and isn't
    /// counted.
    pub fn close(&mut self, literals: usize) {
        if literals <= PARTS as usize {
            let part = 1u64 << (PARTS - literals as u32);
            self.closed = self.closed.saturating_add(part);
        }
    }

    pub(crate) fn first(&self) -> Option<FirstSearch> {
        self.first
    }

    /// Whether the look at the cube without literals goes on.
    pub(crate) fn is_looking(&self) -> bool {
        self.look_began.is_some()
    }

    /// The milliseconds of all looks.
    pub(crate) fn look_time(&self) -> u64 {
        self.look_time
    }

    /// The depth at which the formula's cubes are searched, where it is divided.
    pub(crate) fn depth(&self) -> Option<u32>
        ensures { IfSome result (λ depth. depth ≤ 17) }
    {
        match self.first?.answer {
            FirstAnswer::Divided(cubes) => Some(depth_of(cubes)),
            _ => None,
        }
    }

    /// Whether a cube of so many literals is looked at, by a hand: what the cube without literals
    /// comes to is known before.
    pub(crate) fn looks_at(&self, literals: usize) -> bool {
        match self.depth() {
            Some(depth) => literals >= 1 && literals < depth as usize,
            None => false,
        }
    }

    /// How many cubes the formula is divided into, how many of them are done with, and which part
    /// that is in hundredths, where it is divided.
    pub(crate) fn done(&self) -> Option<Done> {
        let depth = self.depth()?;
        Some(Done {
            wanted: 1u64 << depth,
            done: self.closed >> (PARTS - depth),
            share: (self.closed >> 32).saturating_mul(100) >> 30,
        })
    }
}

/// How many cubes of a division are done with.
#[derive(Clone, Copy)]
pub(crate) struct Done {
    pub(crate) wanted: u64,
    pub(crate) done: u64,
    /// In hundredths.
    pub(crate) share: u64,
}

impl Display for Done {
    fn fmt<W: fmt::Write>(&self, f: &mut Formatter<W>) -> fmt::Result {
        let (wanted, done, share) = (self.wanted, self.done, self.share);
        write!(f, "{done} of at most {wanted} cubes done, {share} %")
    }
}

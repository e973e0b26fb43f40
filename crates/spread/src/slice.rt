//! Which cubes of a round a part solves.
ghost use Rattle.std.specs.Prelude.{◌≡◌, ◌≤◌, ◌↔◌, IfSome, IsSome};

use std::marker::Model;

/// A part of a round: of so many parts, each takes every so-manieth cube, the first one from the
/// first cube on. Its number is from 1 to the number of parts, so that no cube is left out where
/// each part is solved.
#[derive(Clone, Copy, Debug, PartialEq, Eq)]
pub struct Slice {
    number: u32,
    parts: u32,
}

impl Model for Slice {
    ghost use Rattle.std.specs.Prelude.{◌≤◌};
    ghost use Rattle.spread.specs.Parts.{Part};

    ghost Value = { Part };

    ghost view = { λ a. record { number = a.number; parts = a.parts } };

    ghost invariant = { λ a. (1 ≤ a.number) × (a.number ≤ a.parts) };

    ghost inverse = { λ p. record { number = p.number; parts = p.parts } };
}

impl Slice {
    /// The part of a number, of so many, if there is one.
    pub fn new(number: u32, parts: u32) -> Option<Slice>
        ensures same { IfSome result (λ part. (part.number ≡ number) × (part.parts ≡ parts)) }
        ensures some { IsSome result ↔ ((1 ≤ number) × (number ≤ parts)) }
    {
        if 1 <= number && number <= parts {
            Some(Slice { number, parts })
        } else {
            None
        }
    }

    /// Its number, from 1 on.
    pub fn number(self) -> u32
        ensures { result ≡ self.number }
    {
        self.number
    }

    /// How many parts there are, 1 or more.
    pub fn parts(self) -> u32
        ensures same { result ≡ self.parts }
        ensures some { 1 ≤ result }
    {
        self.parts
    }
}

//! How many hands work side by side.
ghost use Rattle.std.specs.Prelude.{◌≡◌, ◌≤◌, ◌↔◌, IfSome, IsSome};

use std::marker::Model;

/// A number of hands, from 1 to 16: with none nothing would be solved.
#[derive(Clone, Copy, Debug, PartialEq, Eq)]
pub struct HandCount {
    count: usize,
}

impl Model for HandCount {
    ghost use Rattle.std.specs.Prelude.{ℕ, ◌≤◌};

    ghost Value = { ℕ };

    ghost view = { λ a. a.count };

    ghost invariant = { λ a. (1 ≤ a.count) × (a.count ≤ 16) };

    ghost inverse = { λ n. record { count = n } };
}

impl HandCount {
    /// So many hands, if these are 1 to 16.
    pub fn new(count: usize) -> Option<HandCount>
        ensures same { IfSome result (λ hands. hands ≡ count) }
        ensures some { IsSome result ↔ ((1 ≤ count) × (count ≤ 16)) }
    {
        if 1 <= count && count <= 16 {
            Some(HandCount { count })
        } else {
            None
        }
    }

    /// So many hands, 1 to 16.
    pub fn of(count: usize) -> HandCount
        requires { (1 ≤ count) × (count ≤ 16) }
        ensures { result ≡ count }
    {
        HandCount { count }
    }

    /// The number, from 1 to 16.
    pub fn get(self) -> usize
        ensures same { result ≡ self }
        ensures within { (1 ≤ result) × (result ≤ 16) }
    {
        self.count
    }
}

//! The rounds of the focused search, at whose ends clauses are forgotten and saved values change.
ghost use Rattle.std.specs.Prelude.{◌≡◌, true};
ghost use Rattle.theory.specs.Truth.{Assignment};
ghost use Rattle.theory.specs.Rephasing.{first_turn, is_over, next_turn, rephased};
ghost use Rattle.heuristics.specs.Changes.{changed};

use crate::constants::Constants;
use std::marker::Model;

/// How all saved values change.
#[derive(Clone, Copy, Debug, PartialEq, Eq)]
pub enum Change {
    /// All become true.
    AllTrue,
    /// Each becomes the other one.
    AllOther,
    /// All become false.
    AllFalse,
}

/// A round's number, counted from 1, and from which conflict of the cube on it ends.
#[derive(Clone, Copy, Debug, PartialEq, Eq)]
pub struct Round {
    number: u64,
    end: u64,
}

impl Model for Round {
    ghost use Rattle.std.specs.Prelude.{◌≤◌};
    ghost use Rattle.theory.specs.Rephasing as rephasing;

    ghost Value = { rephasing.Turn };

    ghost view = { λ r. record { number = r.number; end = r.end } };

    ghost invariant = { λ r. r.number ≤ r.end };

    ghost inverse = { λ r. record { number = r.number; end = r.end } };
}

impl Round {
    /// The first round of a cube.
    pub fn first(constants: Constants) -> Round
        ensures { result ≡ first_turn constants }
    {
        constants.are_in_range();
        Round {
            number: 1,
            end: u64::from(constants.round_length),
        }
    }

    /// Whether it ends with the cube's conflict of that number, counted from 1.
    pub fn is_over(&self, conflicts: u32) -> bool
        ensures { result ≡ is_over self.now conflicts }
    {
        self.end <= u64::from(conflicts)
    }

    /// How saved values change at its end.
    pub fn change(&self) -> Change
        ensures { (saved : Assignment) → changed result saved ≡ rephased self.now.number saved }
    {
        match self.number % 3 {
            1 => Change::AllTrue,
            2 => Change::AllOther,
            _ => Change::AllFalse,
        }
    }

    /// Goes on to the next round, after a conflict with which this one ends.
    pub fn advance(&mut self, constants: Constants, conflicts: u32)
        requires { is_over self.old conflicts ≡ true }
        ensures { self.new ≡ next_turn constants conflicts self.old }
    {
        constants.are_in_range();
        self.number += 1;
        self.end = u64::from(conflicts) + u64::from(constants.round_length) * self.number;
    }
}

//! A learnt clause that may be forgotten.
use std::marker::Model;

/// A learnt clause that may be forgotten, by its number, its glue and its size.
#[derive(Clone, Copy, Debug, PartialEq, Eq)]
pub struct Candidate {
    /// The clause's number.
    pub number: u64,
    /// In how many levels above 0 it had literals, when it was learnt.
    pub glue: u32,
    /// How many literals it has.
    pub size: u32,
}

impl Model for Candidate {
    ghost use Rattle.theory.specs.Forgetting as forgetting;

    ghost Value = { forgetting.Candidate };

    ghost view = { λ c. record { number = c.number; glue = c.glue; size = c.size } };

    ghost inverse = { λ c. record { number = c.number; glue = c.glue; size = c.size } };
}

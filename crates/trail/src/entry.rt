//! The entries of the trail.
ghost use Rattle.std.specs.Prelude.{◌≡◌};

use cnf::Lit;
use std::marker::Model;

/// A literal on the trail; its level; and the number of the clause that was unit in it, if that is
/// why it is there. In this order it takes 24 bytes, and 32 with the level behind the reason.
#[derive(Clone, Copy)]
pub struct Entry {
    pub lit: Lit,
    pub level: u32,
    pub reason: Option<u64>,
}

impl Model for Entry {
    ghost use Rattle.theory.specs.Trails as trails;

    ghost Value = { trails.Entry };

    ghost view = { λ e. record { lit = e.lit; reason = e.reason; level = e.level } };

    ghost inverse = { λ e. record { lit = e.lit; reason = e.reason; level = e.level } };
}

//! The numbers of the focused search.
ghost use Rattle.std.specs.Prelude.{◌≡◌, ◌+◌, nat_le};
ghost use Rattle.theory.specs.Plans.{default_constants};
ghost use Rattle.theory.specs.Scores.{growth};
ghost use Rattle.heuristics.specs.Ranges.{AreInRange};
ghost use Rattle.heuristics.specs.Modes.{mode_of};

use crate::mode::Mode;
use std::marker::Model;

/// The numbers of the focused search. Whoever writes one proves that each is in its range.
#[derive(Clone, Copy, Debug, PartialEq, Eq)]
pub struct Constants {
    /// What a score gains at a cube's first conflict: 64 or more, and below the greatest step.
    pub first_step: u64,
    /// In restarting mode a step grows by its quotient by this: 1 to 20.
    pub restarting_growth: u64,
    /// The same in stable mode.
    pub stable_growth: u64,
    /// From this step on, the step and all scores are divided: at most 2 ^ 56.
    pub greatest_step: u64,
    /// What they are divided by: 2 or more, and at most a 64th of the greatest step.
    pub divisor: u64,
    /// How many glues count as recent: 1 to 64.
    pub window: u32,
    /// The search restarts where their sum is above this many average glues: at most 64.
    pub above: u32,
    /// How many conflicts are between two restarts at least.
    pub apart: u32,
    /// How many conflicts the first mode has; each further one has twice as many.
    pub mode_length: u32,
    /// How many conflicts the first round has, and each further one more than that before: 1 or
    /// more.
    pub round_length: u32,
    /// The greatest glue of a clause that is never forgotten.
    pub kept_glue: u32,
}

impl Model for Constants {
    ghost use Rattle.theory.specs.Plans as plans;
    ghost use Rattle.heuristics.specs.Ranges.{AreInRange};

    ghost Value = { plans.Constants };

    ghost view = { λ c. record {
      first_step = c.first_step;
      restarting_growth = c.restarting_growth;
      stable_growth = c.stable_growth;
      greatest_step = c.greatest_step;
      divisor = c.divisor;
      window = c.window;
      above = c.above;
      apart = c.apart;
      mode_length = c.mode_length;
      round_length = c.round_length;
      kept_glue = c.kept_glue;
    } };

    ghost invariant = { λ c. AreInRange (record {
      first_step = c.first_step;
      restarting_growth = c.restarting_growth;
      stable_growth = c.stable_growth;
      greatest_step = c.greatest_step;
      divisor = c.divisor;
      window = c.window;
      above = c.above;
      apart = c.apart;
      mode_length = c.mode_length;
      round_length = c.round_length;
      kept_glue = c.kept_glue;
    }) };

    ghost inverse = { λ c. record {
      first_step = c.first_step;
      restarting_growth = c.restarting_growth;
      stable_growth = c.stable_growth;
      greatest_step = c.greatest_step;
      divisor = c.divisor;
      window = c.window;
      above = c.above;
      apart = c.apart;
      mode_length = c.mode_length;
      round_length = c.round_length;
      kept_glue = c.kept_glue;
    } };
}

impl Default for Constants {
    ghost is_default = { λ c. c ≡ default_constants };

    /// The numbers that a plan has where it gives none.
    fn default() -> Constants {
        Constants {
            first_step: 65_536,
            restarting_growth: 5,
            stable_growth: 20,
            greatest_step: 1 << 56,
            divisor: 1 << 40,
            window: 32,
            above: 35,
            apart: 5,
            mode_length: 1000,
            round_length: 300,
            kept_glue: 3,
        }
    }
}

impl Constants {
    /// That each number is in its range.
    pub fn are_in_range(&self)
        ensures { AreInRange self.now }
    {
        let _ = &self.window;
    }

    /// The part by which a step grows in a mode.
    pub(crate) fn growth(&self, mode: Mode) -> u64
        ensures { result ≡ growth self.now (mode_of mode) }
    {
        match mode {
            Mode::Restarting => self.restarting_growth,
            Mode::Stable => self.stable_growth,
        }
    }

    /// Whether a conflict is far enough behind the last restart.
    pub(crate) fn are_apart(&self, restarted: u32, conflicts: u32) -> bool
        ensures { result ≡ nat_le (restarted + self.now.apart) conflicts }
    {
        u64::from(restarted) + u64::from(self.apart) <= u64::from(conflicts)
    }
}

//! Which mode the focused search is in, and when it gives way to the other one.
ghost use Rattle.std.specs.Prelude.{◌≡◌};
ghost use Rattle.theory.specs.Modes.{first_pace, pace_after};
ghost use Rattle.heuristics.specs.Modes.{mode_of};

use crate::constants::Constants;
use crate::mode::Mode;
use std::marker::Model;

/// The mode, how many conflicts it has, and from which conflict of the cube on it gives way.
#[derive(Debug, Drop)]
pub struct ModeSchedule {
    mode: Mode,
    length: u64,
    switch: u64,
}

impl Model for ModeSchedule {
    ghost use Rattle.std.specs.Prelude.{◌≤◌};
    ghost use Rattle.theory.specs.Modes as modes;
    ghost use Rattle.heuristics.specs.Modes.{mode_of};

    ghost Value = { modes.Pace };

    ghost view = { λ p. record { mode = mode_of p.mode; length = p.length; switch = p.switch } };

    ghost invariant = { λ p. p.length ≤ p.switch };
}

impl ModeSchedule {
    /// The pace as a cube begins.
    pub fn first(constants: Constants) -> ModeSchedule
        ensures { result ≡ first_pace constants }
    {
        let length = u64::from(constants.mode_length);
        ModeSchedule {
            mode: Mode::Restarting,
            length,
            switch: length,
        }
    }

    /// The mode.
    pub fn mode(&self) -> Mode
        ensures { mode_of result ≡ self.now.mode }
    {
        self.mode
    }

    /// Takes the end of a round with the cube's conflict of that number, counted from 1: a mode that
    /// is over gives way to the other one, which has twice as many conflicts.
    pub fn end_round(&mut self, conflicts: u32)
        ensures { self.new ≡ pace_after conflicts self.old }
    {
        let conflicts = u64::from(conflicts);
        if self.switch <= conflicts {
            self.mode = self.mode.other();
            self.length *= 2;
            self.switch = conflicts + self.length;
        }
    }
}

//! The two modes of the focused search.
ghost use Rattle.std.specs.Prelude.{◌≡◌};
ghost use Rattle.theory.specs.Modes as modes;
ghost use Rattle.heuristics.specs.Modes.{mode_of};

/// A mode of the focused search. They differ in how fast scores grow, and whether it restarts.
#[derive(Clone, Copy, Debug, PartialEq, Eq)]
pub enum Mode {
    /// It restarts often.
    Restarting,
    /// It never restarts.
    Stable,
}

impl Mode {
    /// Whether the search restarts in it.
    pub fn is_restarting(self) -> bool
        ensures { result ≡ modes.is_restarting (mode_of self) }
    {
        match self {
            Mode::Restarting => true,
            Mode::Stable => false,
        }
    }

    /// The other mode.
    pub fn other(self) -> Mode
        ensures { mode_of result ≡ modes.other (mode_of self) }
    {
        match self {
            Mode::Restarting => Mode::Stable,
            Mode::Stable => Mode::Restarting,
        }
    }
}

//! The commands that read a formula, as they are called in words about it.

/// A command that reads a formula.
#[derive(Clone, Copy, Debug, PartialEq, Eq)]
pub enum Command {
    Solve,
    Check,
    Tidy,
    Models,
}

impl Command {
    /// Its call that reads the formula from standard input.
    pub(crate) fn of_unpacked(self) -> &'static str {
        match self {
            Command::Solve => "cubesat solve -",
            Command::Check => "cubesat check - PROOF",
            Command::Tidy => "cubesat tidy -",
            Command::Models => "cubesat models -",
        }
    }
}

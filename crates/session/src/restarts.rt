//! When the search goes back to its first level.

/// So many conflicts are between two restarts at least.
const UNIT: u64 = 100;

/// The restarts of a search: after 1, 1, 2, 1, 1, 2, 4 and so on times so many conflicts, which is
/// Luby's sequence, by Knuth's reluctant doubling.
#[derive(Drop)]
pub(crate) struct Restarts {
    turn: u64,
    length: u64,
    // how many conflicts are left before the next one
    left: u64,
}

impl Restarts {
    /// Before the first conflict.
    pub(crate) fn first() -> Restarts {
        Restarts {
            turn: 1,
            length: 1,
            left: UNIT,
        }
    }

    /// Counts a conflict; whether the search restarts.
    pub(crate) fn count_conflict(&mut self) -> bool {
        self.left = self.left.saturating_sub(1);
        if self.left > 0 {
            return false;
        }
        self.advance();
        true
    }

    /// The next number of the sequence.
    fn advance(&mut self) {
        let lowest = self.turn & self.turn.wrapping_neg();
        if lowest == self.length {
            self.turn = self.turn.saturating_add(1);
            self.length = 1;
        } else {
            self.length = self.length.saturating_mul(2);
        }
        self.left = self.length.saturating_mul(UNIT);
    }
}

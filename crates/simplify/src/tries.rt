//! Variables are tried, one after the other.
ghost use Rattle.std.specs.Prelude.{◌≡◌, ◌≤◌, OnOk};
ghost use Rattle.simplify.specs.Tried.{IsReady, next_in};
ghost use Rattle.simplify.specs.Following.{IsFinished};

use crate::room::Room;
use crate::trial::Trial;
use crate::watcher::Watcher;
use std::alloc::AllocError;

/// The watcher is asked before one in so many tries: a try takes some microseconds.
const ASKED: u64 = 1024;

impl Trial {
    /// Tells the watcher how far the tries are, and fails where it stops them.
    fn ask<W: Watcher>(&self, watcher: &W) -> Result<(), AllocError> {
        watcher.looked_at(self.work);
        if watcher.stops() {
            Err(AllocError)
        } else {
            Ok(())
        }
    }

    /// The variable that is tried next: the lightest that waits and has few pairs of clauses. None
    /// is, where a clause is empty, or enough literals were looked at.
    fn next(&self, most: u64) -> Option<u32>
        ensures { result ≡ next_in most self.now }
    {
        if self.database.has_empty() || self.work >= most {
            return None;
        }
        self.candidates.first()
    }

    /// Tries variables until none is left to be tried.
    pub(crate) fn run<W: Watcher>(
        &mut self,
        room: &mut Room,
        most: u64,
        watcher: &W,
    ) -> Result<(), AllocError>
        requires { IsReady self.old × (most ≤ 4611686018427387904) }
        ensures { OnOk result (IsFinished most self.old self.new) }
    {
        for count in 0..u64::MAX {
            let Some(variable) = self.next(most) else {
                return Ok(());
            };
            if count % ASKED == 0 {
                self.ask(watcher)?;
            }
            self.try_variable(room, variable)?;
        }
        Err(AllocError)
    }
}

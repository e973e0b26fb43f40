//! A limit that is noted on a board once it is reached.
ghost use Rattle.std.specs.Prelude.{◌≡◌, true};

use crate::board::Board;
use cubes::Limit;
use std::sync::Wait;

/// Asks a limit, and notes that it is reached: hands leave the cubes then that they are at, which
/// don't count as solved.
#[derive(Drop)]
pub struct NotedLimit<'a, R, L> {
    pub rt: &'a R,
    pub board: &'a Board,
    pub limit: &'a L,
}

impl<R: Wait, L: Limit> Limit for NotedLimit<'_, R, L> {
    ghost is_reached = { λ noted. L.is_reached noted.limit.now };

    fn reached(&self) -> bool {
        let is_reached = self.limit.reached();
        if is_reached {
            self.board.figures().lock(self.rt).end_time();
        }
        is_reached
    }
}

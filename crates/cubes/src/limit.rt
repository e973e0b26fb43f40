//! A limit of time.
ghost use Rattle.std.specs.Prelude.{◌≡◌, true, IsSome};

use std::time::{Clock, Instant};

/// Says whether a run is to end before it has an answer.
pub trait Limit {
    /// That the limit is reached.
    ghost is_reached: { Self → Type 0 };

    /// Whether the limit is reached. The solvers of a run ask before each cube, and about each
    /// thousand conflicts or 100,000 entries of the trail inside one.
    fn reached(&self) -> bool
        ensures { result ≡ true → is_reached self.now };
}

/// So many seconds from a beginning on, if there is a limit. That it is reached no sooner is only
/// tested, since no contract of a clock says what it reads. Where it can't be read, it isn't
/// reached.
#[derive(Drop)]
pub struct TimeLimit<'a, R> {
    rt: &'a R,
    since: Option<Instant>,
    seconds: Option<u32>,
}

impl<'a, R: Clock> TimeLimit<'a, R> {
    /// The seconds begin to run.
    pub fn begin(rt: &'a R, seconds: Option<u32>) -> TimeLimit<'a, R>
        ensures { result.seconds ≡ seconds }
    {
        let since = match seconds {
            Some(_) => Instant::now(rt).ok(),
            None => None,
        };
        TimeLimit { rt, since, seconds }
    }
}

impl<R: Clock> Limit for TimeLimit<'_, R> {
    ghost is_reached = { λ limit. IsSome limit.seconds };

    fn reached(&self) -> bool {
        let (Some(since), Some(seconds)) = (self.since, self.seconds) else {
            return false;
        };
        match since.elapsed(self.rt) {
            Ok(time) => time.as_secs() >= u64::from(seconds),
            Err(_) => false,
        }
    }
}

//! How long hands were at cubes.

use crate::cube_counts::HANDS;

/// In milliseconds since the run began.
#[derive(Clone, Copy)]
pub struct HandTimes {
    /// When the first cube was begun, by any hand.
    first: Option<u64>,
    /// When the last cube was ended, by any hand.
    last: Option<u64>,
    /// When each hand began a cube last.
    began: [u64; HANDS],
    /// How long each hand was at cubes that it ended.
    worked: [u64; HANDS],
}

/// How long hands waited, and how long they were there, all together and in milliseconds.
#[derive(Clone, Copy)]
pub(crate) struct Waited {
    pub(crate) waited: u64,
    pub(crate) all: u64,
}

impl HandTimes {
    /// No cube was begun.
    pub fn none() -> HandTimes {
        HandTimes {
            first: None,
            last: None,
            began: [0; HANDS],
            worked: [0; HANDS],
        }
    }

    /// A hand begins a cube. There are hands 0 to 15.
    pub fn begin(&mut self, hand: usize, now: u64) {
        if self.first.is_none() {
            self.first = Some(now);
        }
        if let Some(at) = self.began.get_mut(hand) {
            *at = now;
        }
    }

    /// A hand ends its cube.
    pub fn end(&mut self, hand: usize, now: u64) {
        self.last = Some(now);
        let time = now.saturating_sub(self.began(hand));
        if let Some(worked) = self.worked.get_mut(hand) {
            *worked = worked.saturating_add(time);
        }
    }

    /// When a hand began its cube.
    pub(crate) fn began(&self, hand: usize) -> u64 {
        match self.began.get(hand) {
            Some(at) => *at,
            None => 0,
        }
    }

    /// How long one thread alone was at work between these times: before the first cube, when it
    /// searches first or asks whether to divide, and behind the last one, when it lowers a model.
    fn alone(&self, from: u64, end: u64) -> u64 {
        match (self.first, self.last) {
            (Some(first), Some(last)) => {
                let before = first.saturating_sub(from);
                before.saturating_add(end.saturating_sub(last))
            }
            _ => end.saturating_sub(from),
        }
    }

    /// How long so many hands had no cube between these times, of which one is at work where no hand
    /// has a cube yet or any more.
    pub(crate) fn waited(&self, hands: usize, from: u64, end: u64) -> Waited {
        let hands = hands.min(HANDS);
        let all = end.saturating_sub(from).saturating_mul(hands as u64);
        let mut worked = self.alone(from, end);
        for time in &self.worked[..hands] {
            worked = worked.saturating_add(*time);
        }
        Waited {
            waited: all.saturating_sub(worked),
            all,
        }
    }
}

//! What tells that a part of a run is at work: its note is written anew about each minute.

use crate::folder::Folder;
use crate::notes::note_at_work;
use crate::slice::Slice;
use cdcl::Counts;
use cubes::{FirstSearch, Gate};
use kernel::Cube;
use std::alloc::Global;
use std::fs::Files;
use std::sync::atomic::{AtomicU64, Ordering};
use std::time::{Clock, SystemTime, UNIX_EPOCH};

/// So many seconds lie between two notes.
const SECONDS_OF_A_NOTE: u64 = 60;

/// The clock is looked at each time that hands have told so often what they have done, which they do
/// about each thousand conflicts.
const TELLS_OF_A_LOOK: u64 = 16;

/// A gate that also writes the note of a part anew.
#[derive(Drop)]
pub(crate) struct Heartbeat<'a, R, G> {
    rt: &'a R,
    alloc: Global,
    folder: Folder<'a>,
    round: u32,
    slice: Slice,
    gate: &'a G,
    /// How often hands told what they have done.
    tells: AtomicU64,
    /// When the next note is due, in seconds since 1970.
    due: AtomicU64,
}

impl<'a, R, G> Heartbeat<'a, R, G> {
    pub(crate) fn of(
        rt: &'a R,
        alloc: Global,
        folder: Folder<'a>,
        round: u32,
        slice: Slice,
        gate: &'a G,
    ) -> Heartbeat<'a, R, G> {
        Heartbeat {
            rt,
            alloc,
            folder,
            round,
            slice,
            gate,
            tells: AtomicU64::new(0),
            due: AtomicU64::new(0),
        }
    }
}

impl<R: Files + Clock, G> Heartbeat<'_, R, G> {
    /// The seconds since 1970, if the clock tells them.
    fn now(&self) -> Option<u64> {
        let now = SystemTime::now(self.rt).ok()?;
        match now.duration_since(UNIX_EPOCH) {
            Ok(time) => Some(time.as_secs()),
            Err(_) => None,
        }
    }

    /// Writes the note, if it is due.
    fn look(&self) {
        let Some(now) = self.now() else {
            return;
        };
        if now >= self.due.load(Ordering::SeqCst) {
            let due = now.saturating_add(SECONDS_OF_A_NOTE);
            self.due.store(due, Ordering::SeqCst);
            note_at_work(self.rt, self.alloc, self.folder, self.round, self.slice);
        }
    }
}

impl<R: Files + Clock, G: Gate> Gate for Heartbeat<'_, R, G> {
    fn before(&self, hand: usize, cube: &Cube) {
        self.gate.before(hand, cube);
    }

    fn after(&self, hand: usize, cube: &Cube) {
        self.gate.after(hand, cube);
    }

    fn counted(&self, hand: usize, counts: Counts) {
        let tells = self.tells.fetch_add(1, Ordering::SeqCst);
        if tells % TELLS_OF_A_LOOK == TELLS_OF_A_LOOK - 1 {
            self.look();
        }
        self.gate.counted(hand, counts);
    }

    fn prepared(&self, counts: Counts) {
        self.gate.prepared(counts);
    }

    fn asked(&self, first: FirstSearch) {
        self.gate.asked(first);
    }

    fn refuted(&self, hand: usize, cube: &Cube) {
        self.gate.refuted(hand, cube);
    }

    fn stops(&self) -> bool {
        self.gate.stops()
    }
}

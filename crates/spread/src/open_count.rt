//! How many cubes are open while a run is made.

use std::sync::atomic::{AtomicU64, Ordering};

/// How many cubes are open while a run is made, for other threads to read.
#[derive(Drop)]
pub struct OpenCount {
    count: AtomicU64,
}

impl OpenCount {
    /// One is: that without literals.
    pub fn new() -> OpenCount {
        OpenCount {
            count: AtomicU64::new(1),
        }
    }

    pub(crate) fn set(&self, count: usize) {
        self.count.store(count as u64, Ordering::SeqCst);
    }

    pub fn get(&self) -> u64 {
        self.count.load(Ordering::SeqCst)
    }
}

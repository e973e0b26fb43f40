//! Clocks that a test sets: one that shows given times, one of which a reading waits for the next,
//! and one that goes on only while a read waits.
use std::io::ErrorKind;
use std::sync::atomic::{AtomicU64, Ordering};
use std::time::{Clock, Duration};
use std::{io, thread};

/// What stands for a reading that fails.
pub const UNREAD: u64 = u64::MAX;

/// A clock that shows these milliseconds one after the other, and the last ones from then on.
#[derive(Drop)]
pub struct Readings<'a> {
    millis: &'a [u64],
    next: AtomicU64,
}

impl<'a> Readings<'a> {
    pub fn new(millis: &'a [u64]) -> Readings<'a> {
        Readings {
            millis,
            next: AtomicU64::new(0),
        }
    }

    fn reading(&self) -> u64 {
        let at = self.next.fetch_add(1, Ordering::SeqCst);
        let shown = match self.millis.get(at as usize) {
            Some(millis) => Some(millis),
            None => self.millis.last(),
        };
        match shown {
            Some(millis) => *millis,
            None => UNREAD,
        }
    }
}

impl Clock for Readings<'_> {
    fn monotonic(&self) -> io::Result<Duration> {
        let millis = self.reading();
        if millis == UNREAD {
            return Err(io::Error::from(ErrorKind::Other));
        }
        Ok(Duration::from_millis(millis))
    }

    fn since_1970(&self) -> io::Result<Duration> {
        Err(io::Error::from(ErrorKind::Unsupported))
    }
}

/// How often what waits looks for what it waits for: for some seconds.
pub const LONG: u32 = 1 << 22;

/// How often it looks where that isn't to come.
pub const SHORT: u32 = 1 << 18;

/// In microseconds, a time by which each thread that shows something of a run has shown it.
const LATE: u64 = 12_000_000;

/// A clock that stands still. One of its readings waits for the next one, which can only be another
/// thread's.
#[derive(Drop)]
pub struct Meeting {
    /// Which reading waits, counted from 0.
    waits: u64,
    /// How often it looks for the next one before it goes on without.
    looks: u32,
    readings: AtomicU64,
    met: AtomicU64,
}

impl Meeting {
    pub fn at(waits: u64, looks: u32) -> Meeting {
        Meeting {
            waits,
            looks,
            readings: AtomicU64::new(0),
            met: AtomicU64::new(0),
        }
    }

    fn wait(&self) {
        for _ in 0..self.looks {
            if self.readings.load(Ordering::SeqCst) > self.waits.saturating_add(1) {
                self.met.store(1, Ordering::SeqCst);
                return;
            }
            thread::yield_now();
        }
    }

    /// Whether the next reading came while the one before waited.
    pub fn is_met(&self) -> bool {
        self.met.load(Ordering::SeqCst) == 1
    }
}

impl Clock for Meeting {
    fn monotonic(&self) -> io::Result<Duration> {
        if self.readings.fetch_add(1, Ordering::SeqCst) == self.waits {
            self.wait();
        }
        Ok(Duration::from_secs(0))
    }

    fn since_1970(&self) -> io::Result<Duration> {
        Err(io::Error::from(ErrorKind::Unsupported))
    }

    fn sleep(&self, _duration: Duration) {
        thread::yield_now();
    }
}

/// Holds reads of a file until so many lines are shown. Its clock goes on only while a read waits,
/// by what is slept, so that lines come in no time and say the same each time.
#[derive(Drop)]
pub struct Pace<'a> {
    /// How many lines each read waits for, counted from the beginning of the run. Later reads don't
    /// wait.
    waits: &'a [u64],
    /// How often a read looks for them before it goes on without, unless a thread sleeps.
    looks: u32,
    reads: AtomicU64,
    wanted: AtomicU64,
    lines: AtomicU64,
    micros: AtomicU64,
    shortest: AtomicU64,
    longest: AtomicU64,
}

impl<'a> Pace<'a> {
    pub fn new(waits: &'a [u64], looks: u32) -> Pace<'a> {
        Pace {
            waits,
            looks,
            reads: AtomicU64::new(0),
            wanted: AtomicU64::new(0),
            lines: AtomicU64::new(0),
            micros: AtomicU64::new(0),
            shortest: AtomicU64::new(u64::MAX),
            longest: AtomicU64::new(0),
        }
    }

    /// Whether a read waits.
    fn is_waited(&self) -> bool {
        self.lines.load(Ordering::SeqCst) < self.wanted.load(Ordering::SeqCst)
    }

    /// Whether a thread sleeps that may still show a line.
    fn is_early(&self) -> bool {
        self.sleeps().is_some() && self.micros.load(Ordering::SeqCst) < LATE
    }

    /// How many reads were begun.
    pub fn reads(&self) -> u64 {
        self.reads.load(Ordering::SeqCst)
    }

    /// A read begins.
    pub fn hold(&self) {
        let at = self.reads.fetch_add(1, Ordering::SeqCst);
        let Some(lines) = self.waits.get(at as usize) else {
            return;
        };
        self.wanted.store(*lines, Ordering::SeqCst);
        for look in 0..LONG {
            if !self.is_waited() {
                return;
            }
            if look >= self.looks && !self.is_early() {
                break;
            }
            thread::yield_now();
        }
        self.wanted.store(0, Ordering::SeqCst);
    }

    /// A line is shown.
    pub fn add_line(&self) {
        self.lines.fetch_add(1, Ordering::SeqCst);
    }

    /// The microseconds of the shortest and the longest sleep that were asked for, where there was
    /// one.
    pub fn sleeps(&self) -> Option<(u64, u64)> {
        let longest = self.longest.load(Ordering::SeqCst);
        if longest == 0 {
            return None;
        }
        Some((self.shortest.load(Ordering::SeqCst), longest))
    }
}

impl Clock for Pace<'_> {
    fn monotonic(&self) -> io::Result<Duration> {
        Ok(Duration::from_micros(self.micros.load(Ordering::SeqCst)))
    }

    fn since_1970(&self) -> io::Result<Duration> {
        Err(io::Error::from(ErrorKind::Unsupported))
    }

    fn sleep(&self, duration: Duration) {
        let micros = duration
            .as_secs()
            .saturating_mul(1_000_000)
            .saturating_add(u64::from(duration.subsec_micros()));
        self.shortest.fetch_min(micros, Ordering::SeqCst);
        self.longest.fetch_max(micros, Ordering::SeqCst);
        if self.is_waited() {
            self.micros.fetch_add(micros, Ordering::SeqCst);
        }
        thread::yield_now();
    }
}

//! The figures of a run that is going on. All its threads share them, and one at a time writes
//! them.

use crate::figures::{Figures, Stage};
use std::sync::{Mutex, Wait};
use std::thread;
use std::time::{Clock, Duration, Instant};
use strategies::Strategy;

/// How long is slept between two looks at a line that another thread is to erase.
const LOOK: u64 = 1;

/// The figures, and when the run began.
#[derive(Drop)]
pub struct Board {
    figures: Mutex<Figures>,
    since: Option<Instant>,
}

impl Board {
    /// A run begins.
    pub fn new<R: Clock>(rt: &R, stage: Stage) -> Board {
        Board::of(rt, Figures::none(stage))
    }

    /// A run begins that decides a formula by a strategy and so many hands, and writes its proof if
    /// there is to be one.
    pub fn of_strategy<R: Clock>(
        rt: &R,
        strategy: Strategy,
        hands: usize,
        has_proof: bool,
    ) -> Board {
        let mut figures = Figures::none(Stage::Reading);
        figures.set_strategy(strategy);
        figures.hands = hands;
        figures.has_no_proof = !has_proof;
        Board::of(rt, figures)
    }

    /// A check begins, of a proof of so many bytes, if that is known.
    pub fn of_proof<R: Clock>(rt: &R, size: Option<u64>) -> Board {
        let mut figures = Figures::none(Stage::Checking);
        figures.whole = size;
        Board::of(rt, figures)
    }

    fn of<R: Clock>(rt: &R, figures: Figures) -> Board {
        Board {
            figures: Mutex::new(figures),
            since: Instant::now(rt).ok(),
        }
    }

    pub(crate) fn figures(&self) -> &Mutex<Figures> {
        &self.figures
    }

    /// The milliseconds since it began; 0 where the clock can't be read.
    pub(crate) fn now<R: Clock>(&self, rt: &R) -> u64 {
        let Some(since) = self.since else {
            return 0;
        };
        match since.elapsed(rt) {
            Ok(time) => time
                .as_secs()
                .saturating_mul(1000)
                .saturating_add(u64::from(time.subsec_millis())),
            Err(_) => 0,
        }
    }

    /// What is counted so far.
    pub fn look<R: Wait>(&self, rt: &R) -> Figures {
        *self.figures.lock(rt)
    }

    /// Ends the showing of progress, and waits until no line of it stands on the terminal. One
    /// stands there only where its thread runs.
    pub fn end_progress<R: Wait + Clock>(&self, rt: &R) {
        self.figures.lock(rt).end_progress();
        self.wait_until_erased(rt);
    }

    /// Shows no progress until the lowering says how far it is, and waits as `end_progress` does.
    pub(crate) fn hide_progress<R: Wait + Clock>(&self, rt: &R) {
        self.figures.lock(rt).hide_progress();
        self.wait_until_erased(rt);
    }

    fn wait_until_erased<R: Wait + Clock>(&self, rt: &R) {
        for _ in rt.forever() {
            let figures = self.look(rt);
            if !figures.is_drawn {
                break;
            }
            thread::sleep(rt, Duration::from_millis(LOOK));
        }
    }
}

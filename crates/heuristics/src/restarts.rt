//! When the focused search restarts: the glues learnt of late, and those of the whole cube.
ghost use Rattle.std.specs.Prelude.{◌≡◌, ◌≤◌, ◌<◌, ◌+◌, ◌*◌, ◌^◌, ◌∷◌, ◌++◌, [], length, sum, nat_lt, IfOk};
ghost use Rattle.theory.specs.Restarts.{with_glue, glues_after, are_greater, restarts};
ghost use Rattle.circular_buffer.specs.Buffer.{buffer, keep_last};
ghost use Rattle.heuristics.specs.Averages.{Averages, first_averages, with_next};
ghost use Rattle.heuristics.specs.Modes.{mode_of};

use crate::constants::Constants;
use crate::mode::Mode;
use circular_buffer::HeapCircularBuffer;
use std::alloc::{AllocError, Global};
use std::marker::Model;

/// The glues of the lines that a cube learnt in restarting mode: the last ones, at most a window of
/// them, the sum of all, and how many all are.
#[derive(Drop)]
pub struct GlueAverages {
    constants: Constants,
    // as many fit as the window has
    recent: HeapCircularBuffer<u32>,
    // of the recent ones
    recent_sum: u64,
    total: u64,
    count: u32,
    // how often the search has restarted, in all cubes; nothing goes by it
    restarts: u64,
}

impl Model for GlueAverages {
    ghost use Rattle.std.specs.Prelude.{◌≡◌, ◌≤◌, ◌*◌, ◌^◌, length, sum, All};
    ghost use Rattle.heuristics.specs.Averages.{Averages};
    ghost use Rattle.heuristics.specs.Ranges.{AreInRange};

    ghost Value = { Averages };

    ghost view = { λ a. record { constants = a.constants; glues = record { recent = a.recent.items; total = a.total; count = a.count } } };

    ghost invariant = { λ a. (a.recent_sum ≡ sum a.recent.items) × AreInRange a.constants × (a.recent.capacity ≡ a.constants.window)
        × (length a.recent.items ≤ a.recent.capacity) × All (λ g. g ≤ 2 ^ 27) a.recent.items
        × (a.total ≤ a.count * 2 ^ 27) × (a.count ≤ 2 ^ 30) };
}

/// Puts a glue behind the recent ones, the first of which leaves where they are full; the sum of
/// those that are there then.
fn push(recent: &mut HeapCircularBuffer<u32>, recent_sum: u64, glue: u32) -> u64
    requires sum { (recent_sum ≡ sum recent.old.items) × (recent_sum ≤ 2 ^ 40) }
    requires full { (1 ≤ recent.old.capacity) × (length recent.old.items ≤ recent.old.capacity) }
    ensures sum { result ≡ sum recent.new.items }
    ensures recent { recent.new ≡ buffer (keep_last recent.old.capacity (recent.old.items ++ glue ∷ [])) recent.old.capacity }
{
    match recent.push_back(glue) {
        None => recent_sum + u64::from(glue),
        Some(first) => recent_sum + u64::from(glue) - u64::from(first),
    }
}

/// Whether the sum of the recent glues is above so many average glues, of which there are so many.
fn is_above(recent_sum: u64, count: u32, total: u64, above: u32) -> bool
    requires sum { (recent_sum ≤ 2 ^ 33) × (count ≤ 2 ^ 30) }
    requires total { (total ≤ 2 ^ 57) × (above ≤ 64) }
    ensures { result ≡ nat_lt (total * above) (recent_sum * count) }
{
    total * u64::from(above) < recent_sum * u64::from(count)
}

impl GlueAverages {
    /// No glues. It takes four bytes for each place of the window.
    pub fn open(alloc: Global, constants: Constants) -> Result<GlueAverages, AllocError>
        ensures { IfOk result (λ g. g ≡ first_averages constants) }
    {
        let window = constants.window as usize;
        Ok(GlueAverages {
            constants,
            recent: HeapCircularBuffer::with_capacity(alloc, window)?,
            recent_sum: 0,
            total: 0,
            count: 0,
            restarts: 0,
        })
    }

    /// Takes the glue of the line of a cube's conflict in this mode, which has this number, counted
    /// from 1, where the search went back to level 0 for a restart or a round's end at another one
    /// last; whether it restarts. It takes constant time.
    pub fn take_glue(&mut self, glue: u32, mode: Mode, restarted: u32, conflicts: u32) -> bool
        requires glue { glue ≤ 2 ^ 27 }
        requires count { self.old.glues.count < 2 ^ 30 }
        ensures restarts { result ≡ restarts self.old.constants (mode_of mode) restarted conflicts
            (glues_after self.old.constants (mode_of mode) glue self.old.glues) }
        ensures glues { self.new ≡ with_next self.old (mode_of mode) glue }
    {
        if !mode.is_restarting() {
            return false;
        }
        self.add(glue);
        let restarts = self.constants.are_apart(restarted, conflicts) && self.are_greater();
        if restarts {
            self.restarts = self.restarts.saturating_add(1);
        }
        restarts
    }

    /// Takes a glue in restarting mode.
    fn add(&mut self, glue: u32)
        requires glue { glue ≤ 2 ^ 27 }
        requires count { self.old.glues.count < 2 ^ 30 }
        ensures { self.new ≡ record self.old { glues = with_glue self.old.constants glue self.old.glues } }
    {
        self.recent_sum = push(&mut self.recent, self.recent_sum, glue);
        self.total += u64::from(glue);
        self.count += 1;
    }

    /// Whether the recent glues, a window of them, are greater than all are.
    fn are_greater(&self) -> bool
        ensures { result ≡ are_greater self.now.constants self.now.glues }
    {
        let constants = self.constants;
        let is_full = self.recent.is_full();
        is_full && is_above(self.recent_sum, self.count, self.total, constants.above)
    }

    /// How often the search has restarted, in all cubes so far; the greatest number stays.
    pub fn restarts(&self) -> u64 {
        self.restarts
    }

    /// No glues, as another cube begins.
    pub fn begin_again(&mut self)
        ensures { self.new ≡ first_averages self.old.constants }
    {
        self.recent.clear();
        self.recent_sum = 0;
        self.total = 0;
        self.count = 0;
    }
}

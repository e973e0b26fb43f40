//! How much a search has done, and who is told of it while it goes on.

use std::alloc::AllocError;

/// How much a solver has done since it was opened, in all its cubes. Each number stays once it has
/// come to the greatest one.
#[derive(Clone, Copy, Debug, PartialEq, Eq)]
pub struct Counts {
    pub conflicts: u64,
    pub decisions: u64,
    /// Entries of the trail that propagation went over, decisions among them.
    pub propagations: u64,
    /// How often the focused search has restarted.
    pub restarts: u64,
    /// Clauses that were learnt.
    pub learnt: u64,
    /// Learnt clauses that were forgotten.
    pub forgotten: u64,
    /// Literals that minimisation took out of learnt clauses.
    pub minimised: u64,
    /// Lines for literals of level 0.
    pub units: u64,
    /// Rounds of the focused search that ended.
    pub rounds: u64,
    /// How often the focused search has changed its mode.
    pub switches: u64,
    /// Cubes that were looked at.
    pub looks: u64,
    /// Failed literals: decisions of looks whose propagation met a conflict.
    pub failed_literals: u64,
}

impl Counts {
    /// Nothing was done.
    pub fn none() -> Counts {
        Counts {
            conflicts: 0,
            decisions: 0,
            propagations: 0,
            restarts: 0,
            learnt: 0,
            forgotten: 0,
            minimised: 0,
            units: 0,
            rounds: 0,
            switches: 0,
            looks: 0,
            failed_literals: 0,
        }
    }

    /// What a kernel has done.
    pub(crate) fn of(kernel: kernel::Counts) -> Counts {
        Counts {
            conflicts: kernel.conflicts,
            decisions: kernel.decisions,
            propagations: kernel.propagations,
            learnt: kernel.learnt,
            forgotten: kernel.forgotten,
            ..Counts::none()
        }
    }

    /// What two solvers have done together.
    pub fn with(self, other: Counts) -> Counts {
        Counts {
            conflicts: self.conflicts.saturating_add(other.conflicts),
            decisions: self.decisions.saturating_add(other.decisions),
            propagations: self.propagations.saturating_add(other.propagations),
            restarts: self.restarts.saturating_add(other.restarts),
            learnt: self.learnt.saturating_add(other.learnt),
            forgotten: self.forgotten.saturating_add(other.forgotten),
            minimised: self.minimised.saturating_add(other.minimised),
            units: self.units.saturating_add(other.units),
            rounds: self.rounds.saturating_add(other.rounds),
            switches: self.switches.saturating_add(other.switches),
            looks: self.looks.saturating_add(other.looks),
            failed_literals: self.failed_literals.saturating_add(other.failed_literals),
        }
    }
}

/// Who is told what a solver has done: about each thousand conflicts or 100,000 entries of the
/// trail while it is in a cube, and at the cube's end. What the solver answers doesn't depend on
/// it, but a watcher may stop it.
pub trait Watcher {
    /// The solver has done so much since it was opened.
    fn counted(&self, counts: Counts);

    /// Whether the solver is to stop before it has an answer. It is asked before each cube, and
    /// each time that it was told what is done inside one.
    fn stops(&self) -> bool {
        false
    }
}

/// The watcher that does nothing.
#[derive(Clone, Copy)]
pub struct Unwatched;

impl Watcher for Unwatched {
    fn counted(&self, _counts: Counts) {}
}

/// So many conflicts pass before a watcher is told again,
const CONFLICTS: u64 = 1000;

/// or so many entries of the trail: a search of many variables may go for long without a conflict.
const ENTRIES: u64 = 100_000;

/// Tells a watcher what was done, where that is enough since the last time; what it was told then.
/// Where the watcher stops the search, that ends as if memory were refused: it has no outcome.
pub(crate) fn tell<W: Watcher>(
    watcher: &W,
    counts: Counts,
    told: Counts,
) -> Result<Counts, AllocError> {
    let conflicts = counts.conflicts.saturating_sub(told.conflicts);
    let entries = counts.propagations.saturating_sub(told.propagations);
    if conflicts < CONFLICTS && entries < ENTRIES {
        return Ok(told);
    }
    watcher.counted(counts);
    if watcher.stops() {
        return Err(AllocError);
    }
    Ok(counts)
}

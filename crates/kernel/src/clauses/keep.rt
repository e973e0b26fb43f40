//! Learnt clauses that are kept count among the first ones from then on.
ghost use Rattle.std.specs.Prelude.{◌≡◌, ◌<◌, ◌≤◌, OnOk, length};
ghost use Rattle.theory.specs.Trails as trails;
ghost use Rattle.kernel.specs.Visiting.{kept_of};
ghost use Rattle.kernel.specs.Attaching.{IsWatching};
ghost use Rattle.kernel.specs.Keeping.{NotesSingle, AreSinglesTo};

use crate::propagator::Propagator;
use crate::watches::watch::MOST_CLAUSES;
use std::alloc::AllocError;

impl Propagator {
    /// Notes the clause at a place, if it is of one literal.
    fn note_single(&self, index: usize, singles: &mut Vec<u32>) -> Result<(), AllocError>
        requires inside { index < length self.now.clauses.pairs }
        ensures noted { OnOk result (NotesSingle self.now.clauses.pairs index singles.old.items singles.new.items) }
    {
        if index >= MOST_CLAUSES {
            return Err(AllocError);
        }
        let watched = self.clauses.watched(index);
        if watched.first.same(&watched.second) {
            singles.push(index as u32)?;
        }
        Ok(())
    }

    /// Notes the clauses of one literal from `first` on behind those before it. It takes one step a
    /// clause.
    pub fn note_singles(&self, first: usize, singles: &mut Vec<u32>) -> Result<(), AllocError>
        requires first { first ≤ length self.now.clauses.pairs }
        ensures noted { OnOk result (AreSinglesTo self.now.clauses.pairs first (length self.now.clauses.pairs) singles.old.items singles.new.items) }
    {
        for index in first..self.clauses.len() {
            self.note_single(index, singles)?;
        }
        Ok(())
    }
}

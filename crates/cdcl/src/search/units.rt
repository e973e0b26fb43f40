//! The units of level 0 become lines of the focused search.
ghost use Rattle.std.specs.Prelude.{◌≡◌, ◌≤◌, true, OnOk, Some, is_some, slice_get, take};
ghost use Rattle.theory.specs.Trails as trails;
ghost use Rattle.theory.specs.Trails.{current_level};
ghost use Rattle.theory.specs.Units.{AreUnits};
ghost use Rattle.cdcl.specs.Focusing.{IsFocusing, HasUnits, IsSettled};
ghost use Rattle.cdcl.specs.Units.{CanSettle, LearnsUnit, SettlesEntry};

use crate::search::focused::FocusedSearch;
use crate::search::line_marks::Mark;
use std::alloc::AllocError;

impl FocusedSearch {
    /// Makes the literal of the entry at a place a line, by the hints that were taken up, and the
    /// line's clause the entry's reason.
    fn learn_unit(&mut self, place: usize) -> Result<(), AllocError>
        requires entry { CanSettle self.old.kernel place }
        requires reason { (e : trails.Entry) × (slice_get self.old.kernel.trail place ≡ Some e) × (is_some e.reason ≡ true) }
        ensures { OnOk result ((e : trails.Entry) → slice_get self.old.kernel.trail place ≡ Some e → LearnsUnit self.old place e self.new) }
    {
        let entry = self.kernel.trail()[place];
        self.lines.push_unit(entry.lit, &self.unit_hints.hints)?;
        self.kernel.learn_unit(place)?;
        self.marks.push(Mark::fresh(0))?;
        self.tally.add_unit();
        Ok(())
    }

    /// Makes the literal of the entry at a place a line, if its reason has other literals.
    fn settle_entry(&mut self, place: usize) -> Result<(), AllocError>
        requires { CanSettle self.old.kernel place }
        ensures { OnOk result ((e : trails.Entry) → slice_get self.old.kernel.trail place ≡ Some e → SettlesEntry self.old place e self.new) }
    {
        if self.unit_hints.take_up(&self.kernel, place)? {
            self.learn_unit(place)?;
        }
        Ok(())
    }

    /// Makes the units from a place on lines; those before it are lines.
    fn settle_from(&mut self, from: usize) -> Result<(), AllocError>
        requires focusing { IsFocusing self.old }
        requires level { current_level self.old.kernel.trail ≡ 0 }
        requires units { AreUnits self.old.kernel.clauses (take from self.old.kernel.trail) }
        ensures { OnOk result (IsSettled self.old self.new) }
    {
        for place in from..self.kernel.trail().len() {
            self.settle_entry(place)?;
        }
        let _trail = self.kernel.trail(); // it ensures what the proof needs of the kernel
        Ok(())
    }

    /// Behind propagation: at level 0 the units become lines, of which those before a place are so
    /// already.
    pub(crate) fn settle(&mut self, from: usize) -> Result<(), AllocError>
        requires focusing { IsFocusing self.old }
        requires before { current_level self.old.kernel.trail ≡ 0 → AreUnits self.old.kernel.clauses (take from self.old.kernel.trail) }
        requires above { 1 ≤ current_level self.old.kernel.trail → HasUnits self.old }
        ensures { OnOk result (IsSettled self.old self.new) }
    {
        if self.kernel.level() == 0 {
            self.settle_from(from)?;
        }
        Ok(())
    }
}

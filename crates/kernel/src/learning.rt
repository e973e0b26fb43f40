//! What a kernel learns, forgets, and keeps when it goes over to another cube.
ghost use Rattle.std.specs.Prelude.{◌≡◌, ◌+◌, ◌<◌, ◌≤◌, true, false, None, [], ◌∷◌, ◌++◌, length, All, IfOk, OnOk, OnErr, IsErr, is_some, Some, slice_get, slice_set, if◌then◌else◌};
ghost use Rattle.theory.specs.Truth.{IsOver};
ghost use Rattle.theory.specs.Trails.{literals, current_level};
ghost use Rattle.theory.specs.Propagation.{least_false};
ghost use Rattle.theory.specs.Forgetting.{is_reason, forget};
ghost use Rattle.theory.specs.Learnable.{IsLearnable};
ghost use Rattle.theory.specs.Trails as trails;

use crate::search_kernel::SearchKernel;
use cnf::Lit;
use std::alloc::AllocError;

impl SearchKernel {
    /// Puts a clause behind the others, and answers its number. Its variables are distinct and of
    /// the formula; one of its literals is free and the others are false, one of these at the
    /// current level unless that is 0. It fails where a request for memory is refused, and from
    /// then on; the clauses and the trail are then as they were.
    pub fn learn(&mut self, clause: &[Lit]) -> Result<u64, AllocError>
        requires { self.old.out_of_memory ≡ false → IsOver self.old.vars clause.now × IsLearnable self.old.trail clause.now }
        ensures ok { IfOk result (λ n. n ≡ length self.old.clauses + 1) }
        ensures learnt { OnOk result (self.new ≡ record self.old {
          clauses = self.old.clauses ++ clause.now ∷ [];
        }) }
        ensures refused { OnErr result (self.new ≡ record self.old { out_of_memory = true }) }
        ensures stays { self.old.out_of_memory ≡ true → IsErr result }
        ensures was { OnOk result (self.old.out_of_memory ≡ false) }
    {
        if self.out_of_memory {
            return Err(AllocError);
        }
        match self.propagator.attach_learnt(&self.trail, clause) {
            Ok(()) => {
                self.counts.add_learnt();
                Ok(self.propagator.clauses.len() as u64)
            }
            Err(error) => {
                self.out_of_memory = true;
                Err(error)
            }
        }
    }

    /// Puts the literal of the entry at a place, counted from 0, behind the clauses as one of its
    /// own, which becomes the entry's reason, and answers its number. The trail is at level 0, and
    /// the entry has a reason. Propagation may have come to rest or to a false clause: the new
    /// clause is true until `restart` cuts it off, so it changes neither. It takes one step. It
    /// fails where a request for memory is refused, and from then on; the clauses and the trail are
    /// then as they were.
    pub fn learn_unit(&mut self, place: usize) -> Result<u64, AllocError>
        requires level { self.old.out_of_memory ≡ false → current_level self.old.trail ≡ 0 }
        requires entry { self.old.out_of_memory ≡ false →
            (e : trails.Entry) × (slice_get self.old.trail place ≡ Some e) × (is_some e.reason ≡ true) }
        ensures ok { IfOk result (λ n. n ≡ length self.old.clauses + 1) }
        ensures learnt { OnOk result ((e : trails.Entry) → slice_get self.old.trail place ≡ Some e → self.new ≡ record self.old {
          clauses = self.old.clauses ++ (e.lit ∷ []) ∷ [];
          trail = slice_set self.old.trail place record e { reason = Some (length self.old.clauses + 1) };
        }) }
        ensures refused { OnErr result (self.new ≡ record self.old { out_of_memory = true }) }
        ensures stays { self.old.out_of_memory ≡ true → IsErr result }
        ensures was { OnOk result (self.old.out_of_memory ≡ false) }
    {
        if self.out_of_memory {
            return Err(AllocError);
        }
        let entry = self.trail.entries()[place];
        match self.propagator.attach_true(entry.lit) {
            Ok(()) => {
                let number = self.propagator.clauses.len() as u64;
                self.trail.set_reason(place, number);
                self.counts.add_learnt();
                Ok(number)
            }
            Err(error) => {
                self.out_of_memory = true;
                Err(error)
            }
        }
    }

    /// Counts as short of memory from here on: something that goes with the kernel was refused.
    pub(crate) fn give_up(&mut self)
        ensures { self.new ≡ record self.old { out_of_memory = true } }
    {
        self.out_of_memory = true;
    }

    /// Forgets learnt clauses, so that propagation goes by the others alone: each keeps its number
    /// and becomes `1 -1`, which is never unit and never false. Each number is that of a learnt
    /// clause and no reason on the trail, and no clause is false. It gives the memory of their
    /// literals back to the clauses that are learnt next. It takes time by the entries of all lists
    /// and by the literals of the learnt clauses, and memory of a byte for each of these while it
    /// goes on. It fails where a request for memory is refused, and from then on; the clauses and
    /// the trail are then as they were.
    pub fn forget(&mut self, numbers: &[u64]) -> Result<(), AllocError>
        requires learnt { self.old.out_of_memory ≡ false → All (λ n. (self.old.first < n) × (n ≤ length self.old.clauses)) numbers.now }
        requires no_reasons { self.old.out_of_memory ≡ false → All (λ n. is_reason self.old.trail n ≡ false) numbers.now }
        requires open { self.old.out_of_memory ≡ false → least_false (literals self.old.trail) self.old.clauses ≡ None }
        ensures forgotten { OnOk result (self.new ≡ record self.old { clauses = forget numbers.now 1 self.old.clauses }) }
        ensures refused { OnErr result (self.new ≡ record self.old { out_of_memory = true }) }
        ensures stays { self.old.out_of_memory ≡ true → IsErr result }
        ensures was { OnOk result (self.old.out_of_memory ≡ false) }
    {
        if self.out_of_memory {
            return Err(AllocError);
        }
        match self.propagator.forget(self.first, numbers) {
            Ok(()) => {
                self.counts.add_forgotten(numbers.len());
                Ok(())
            }
            Err(error) => {
                self.out_of_memory = true;
                Err(error)
            }
        }
    }

    /// Counts what was learnt so far among the clauses that `restart` keeps. It takes one step for
    /// each of them. It fails where a request for memory is refused, and from then on; the clauses
    /// and the trail are then as they were.
    pub fn keep_learnt(&mut self) -> Result<(), AllocError>
        ensures kept { OnOk result (self.new ≡ record self.old { first = length self.old.clauses }) }
        ensures refused { OnErr result (self.new ≡ record self.old { out_of_memory = true }) }
        ensures stays { self.old.out_of_memory ≡ true → IsErr result }
        ensures was { OnOk result (self.old.out_of_memory ≡ false) }
    {
        if self.out_of_memory {
            return Err(AllocError);
        }
        match self.propagator.note_singles(self.first, &mut self.singles) {
            Ok(()) => {
                self.first = self.propagator.clauses.len();
                Ok(())
            }
            Err(error) => {
                self.out_of_memory = true;
                Err(error)
            }
        }
    }
}

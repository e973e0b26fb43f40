//! The two ends of a deque: where its owner puts and takes cubes, and where a thief steals them.
ghost use Rattle.std.specs.Prelude.{◌≡◌, ◌+◌, ℕ, List, [], ◌∷◌, ◌++◌, IfOk, MatchOption, MatchResult};
ghost use Rattle.theory.specs.Ledger.{IsFit};
ghost use Rattle.pool.specs.DequeNotes.{owner_notes, thief_notes, merged, spent, IsHandEnd};
ghost use Rattle.pool.specs.Deque.{Whole, Emptied, EmptyThen, Fronts};
ghost use Rattle.pool.specs.Ends.{MatchTaken, with_root, with_put, with_got, with_left};

use crate::deque_rule::{
    Drains, Gets, Marks, Passes, Puts, Roots, RuledPass, RuledStealer, RuledWorker, Steals, Unmarks,
};
use crate::taken::Taken;
use crate::task::Task;
use crossbeam_deque::Steal;
use kernel::Cube;
use std::alloc::{AllocError, Global};
use std::marker::Model;

/// The owner's end of a deque.
#[derive(Drop)]
pub struct Owner {
    worker: RuledWorker,
}

impl Model for Owner {
    ghost use Rattle.std.specs.Prelude.{◌≡◌, true};
    ghost use Rattle.crossbeam_deque.specs.Handles.{worker_deque, worker_view, worker_flavor};
    ghost use Rattle.pool.specs.Ends.{DequeEnd};

    ghost Value = { DequeEnd };

    ghost view = { λ l. record { id = worker_deque l.worker; notes = worker_view l.worker } };

    ghost invariant = { λ l. (worker_flavor l.worker ≡ 0) × ((worker_view l.worker).is_owner ≡ true) };
}

/// The thief's end of a deque.
#[derive(Drop)]
pub struct Thief {
    stealer: RuledStealer,
    pass: RuledPass,
}

impl Model for Thief {
    ghost use Rattle.std.specs.Prelude.{◌≡◌, false};
    ghost use Rattle.crossbeam_deque.specs.Handles.{stealer_deque, stealer_flavor, view as pass_view, IsPassOf};
    ghost use Rattle.pool.specs.Ends.{DequeEnd};

    ghost Value = { DequeEnd };

    ghost view = { λ w. record { id = stealer_deque w.stealer; notes = pass_view w.pass } };

    ghost invariant = { λ w. IsPassOf (stealer_deque w.stealer) w.pass × (stealer_flavor w.stealer ≡ 0) };
}

impl Owner {
    /// An empty deque for cubes over this many variables.
    pub fn open(alloc: Global, vars: u32) -> Result<Owner, AllocError>
        ensures { IfOk result (λ l. l.notes ≡ owner_notes vars 0 []) }
    {
        let mut worker = RuledWorker::fifo_as(alloc, 32)?;
        let mark = Task {
            vars,
            cube: Cube::root(alloc),
        };
        let Ok(()) = worker.push_as::<Marks>(mark) else {
            return Err(AllocError);
        };
        let Some(_) = worker.pop_as::<Unmarks>() else {
            unreachable!()
        };
        Ok(Owner { worker })
    }

    /// A thief for the next hand.
    pub fn next(&mut self) -> Result<Thief, AllocError>
        requires { self.old.notes.left ≡ [] }
        ensures owner { IfOk result (λ w. self.new ≡ record self.old { notes = record self.old.notes { made = self.old.notes.made + 1 } }) }
        ensures thief { IfOk result (λ w. w ≡ record { id = self.old.id; notes = thief_notes self.old.notes.vars self.old.notes.made }) }
    {
        let stealer = self.worker.stealer()?;
        let pass = self.worker.another::<Passes>();
        Ok(Thief { stealer, pass })
    }

    /// A thief without notes, which never steals.
    pub fn guest(&self) -> Result<Thief, AllocError>
        ensures { IfOk result (λ w. w ≡ record { id = self.now.id; notes = spent }) }
    {
        let stealer = self.worker.stealer()?;
        let pass = stealer.pass();
        Ok(Thief { stealer, pass })
    }

    /// Takes in the notes of a thief.
    pub fn join(&mut self, thief: Thief)
        requires { thief.id ≡ self.old.id }
        ensures { self.new ≡ record self.old { notes = merged self.old.notes thief.notes } }
    {
        let Thief { stealer: _, pass } = thief;
        self.worker.absorb::<Passes>(pass);
    }

    /// Puts the root of all cubes, before any other.
    pub fn put_root(&mut self, vars: u32, cube: Cube) -> Result<(), Cube>
        requires vars { self.old.notes.vars ≡ vars }
        requires first { self.old.notes.put ≡ [] }
        requires fit { IsFit vars cube }
        ensures { MatchResult result (λ _. self.new ≡ with_root self.old cube) (λ x. (x ≡ cube) × (self.new ≡ self.old)) }
    {
        match self.worker.push_as::<Roots>(Task { vars, cube }) {
            Ok(()) => Ok(()),
            Err(Task { vars: _, cube }) => Err(cube),
        }
    }

    /// Puts a cube at the back. A refused one comes back.
    pub fn put(&mut self, vars: u32, cube: Cube) -> Result<(), Cube>
        requires vars { self.old.notes.vars ≡ vars }
        requires fit { IsFit vars cube }
        ensures { MatchResult result (λ _. self.new ≡ with_put self.old cube) (λ x. (x ≡ cube) × (self.new ≡ self.old)) }
    {
        match self.worker.push_as::<Puts>(Task { vars, cube }) {
            Ok(()) => Ok(()),
            Err(Task { vars: _, cube }) => Err(cube),
        }
    }

    /// The front.
    pub fn take(&mut self) -> Option<Cube>
        requires hand { IsHandEnd self.old.notes }
        requires before { self.old.notes.left ≡ [] }
        ensures { MatchOption result ((self.new ≡ self.old) × Emptied self.old.notes)
            (λ c. IsFit self.old.notes.vars c × Fronts self.old.notes (c ∷ []) × (self.new ≡ with_got self.old c)) }
    {
        let Task { vars: _, cube } = self.worker.pop_as::<Gets>()?;
        Some(cube)
    }

    /// The front, once all notes are here.
    pub fn drain(&mut self) -> Option<Cube>
        requires { Whole self.old.notes }
        ensures { MatchOption result ((self.new ≡ self.old) × Emptied self.old.notes)
            (λ c. IsFit self.old.notes.vars c × Fronts self.old.notes (c ∷ []) × (self.new ≡ with_left self.old c)) }
    {
        let Task { vars: _, cube } = self.worker.pop_as::<Drains>()?;
        Some(cube)
    }
}

impl Thief {
    /// The front.
    pub fn steal(&mut self) -> Taken
        requires hand { IsHandEnd self.old.notes }
        requires before { self.old.notes.left ≡ [] }
        ensures { MatchTaken result (λ c. IsFit self.old.notes.vars c × (self.new ≡ with_got self.old c))
            ((self.new ≡ self.old) × EmptyThen self.old.notes) (self.new ≡ self.old) }
    {
        match self.stealer.steal_as::<Steals>(&mut self.pass) {
            Steal::Success(Task { vars: _, cube }) => Taken::Got(cube),
            Steal::Empty => Taken::Empty,
            Steal::Retry => Taken::Again,
        }
    }
}

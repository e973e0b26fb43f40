//! The rule of a deque of cubes, and its moves.
use crate::task::{DequeNotes, Task};
use crossbeam_deque::protocol::{Join, Outcome, Protocol, Split};
use crossbeam_deque::{Pass, Stealer, Worker};
use std::alloc::Global;

/// The rule: the cubes that the hands got, in some order that keeps each hand's own, then those
/// that are left over, and then those that lie in the deque, are the cubes that were put into it;
/// and each one that lies in it is fit.
pub struct OnceEach;

impl Protocol<Task, DequeNotes> for OnceEach {
    ghost use Rattle.std.specs.Prelude.{[]};
    ghost use Rattle.pool.specs.DequeNotes.{owner_notes, spent};
    ghost use Rattle.pool.specs.Deque.{HoldsTasks};

    ghost holds = { HoldsTasks };

    ghost first = { owner_notes 0 0 [] };

    ghost guest = { spent };
}

/// The first push. It tells the rule how many variables there are.
pub struct Marks;

impl Outcome<Task, DequeNotes> for Marks {
    ghost use Rattle.std.specs.Prelude.{◌≡◌, List};
    ghost use Rattle.pool.specs.Deque.{Marked};

    ghost then = { Marked };
}

/// The pop of the first task, which leaves nothing but the number of variables.
pub struct Unmarks;

impl Outcome<Task, DequeNotes> for Unmarks {
    ghost use Rattle.std.specs.Prelude.{◌≡◌, []};
    ghost use Rattle.pool.specs.DequeNotes.{owner_notes};

    ghost then = { λ v xs w. w ≡ owner_notes v.vars 0 [] };

    ghost empty = { λ v. ⊥ };
}

/// A pass for one hand more, and the notes of a hand that is home.
pub struct Passes;

impl Split<DequeNotes> for Passes {
    ghost use Rattle.std.specs.Prelude.{◌+◌};
    ghost use Rattle.pool.specs.DequeNotes.{thief_notes};

    ghost left = { λ v. record v { made = v.made + 1 } };

    ghost right = { λ v. thief_notes v.vars v.made };
}

impl Join<DequeNotes> for Passes {
    ghost use Rattle.pool.specs.DequeNotes.{merged, spent};

    ghost both = { merged };

    ghost spent = { spent };
}

/// A push of the root.
pub struct Roots;

impl Outcome<Task, DequeNotes> for Roots {
    ghost use Rattle.std.specs.Prelude.{◌≡◌, ◌++◌};
    ghost use Rattle.pool.specs.Deque.{cubes};

    ghost then = { λ v xs w. w ≡ record v { roots = v.roots ++ cubes xs } };
}

/// A push by the owner.
pub struct Puts;

impl Outcome<Task, DequeNotes> for Puts {
    ghost use Rattle.std.specs.Prelude.{◌≡◌, ◌++◌};
    ghost use Rattle.pool.specs.Deque.{cubes};

    ghost then = { λ v xs w. w ≡ record v { put = v.put ++ cubes xs } };
}

/// A pop by the owner.
pub struct Gets;

impl Outcome<Task, DequeNotes> for Gets {
    ghost use Rattle.std.specs.Prelude.{◌≡◌};
    ghost use Rattle.pool.specs.Deque.{cubes, noted, AllFit, Emptied, Fronts};

    ghost then = { λ v xs w. (w ≡ noted v xs) × AllFit v.vars xs × Fronts v (cubes xs) };

    ghost empty = { Emptied };
}

/// A steal.
pub struct Steals;

impl Outcome<Task, DequeNotes> for Steals {
    ghost use Rattle.std.specs.Prelude.{◌≡◌};
    ghost use Rattle.pool.specs.Deque.{noted, AllFit, EmptyThen};

    ghost then = { λ v xs w. (w ≡ noted v xs) × AllFit v.vars xs };

    ghost empty = { EmptyThen };
}

/// A pop once all notes are the owner's.
pub struct Drains;

impl Outcome<Task, DequeNotes> for Drains {
    ghost use Rattle.std.specs.Prelude.{◌≡◌, ◌++◌};
    ghost use Rattle.pool.specs.Deque.{cubes, AllFit, Emptied, Fronts};

    ghost then = { λ v xs w. (w ≡ record v { left = v.left ++ cubes xs }) × AllFit v.vars xs × Fronts v (cubes xs) };

    ghost empty = { Emptied };
}

/// The end of a deque where its owner pushes and pops.
pub type RuledWorker = Worker<Task, Global, DequeNotes, OnceEach>;

/// The end of a deque where others steal.
pub type RuledStealer = Stealer<Task, Global, DequeNotes, OnceEach>;

/// The right of one hand to steal from a deque, with its notes.
pub type RuledPass = Pass<Task, DequeNotes>;

//! The rule of the three shared words, and the calls on them.
use atomic_table::{Join, Play, Seat, Split, Table, TableRule};
use std::alloc::Global;
use std::marker::Model;

/// What a seat at the words knows, for contracts alone: no value of it is made.
pub struct SeatNotes;

impl Model for SeatNotes {
    ghost use Rattle.pool.specs.SeatNotes.{SeatNotes, spent_notes};

    ghost Value = { SeatNotes };

    ghost view = { λ n. spent_notes };
}

/// The rule: all calls have an order that keeps each hand's own, replays, and ends with the words
/// as they are.
pub struct InOneOrder;

impl TableRule<(), SeatNotes, ()> for InOneOrder {
    ghost use Rattle.pool.specs.SeatNotes.{first_notes};
    ghost use Rattle.pool.specs.Words.{Ordered};

    ghost holds = { λ k s. Ordered s };

    ghost first = { λ k. first_notes 0 };
}

/// A seat for one hand more, and the notes of a hand that is home.
pub struct Seats;

impl Split<SeatNotes> for Seats {
    ghost use Rattle.std.specs.Prelude.{◌+◌};
    ghost use Rattle.pool.specs.SeatNotes.{hand_notes};

    ghost left = { λ v. record v { made = v.made + 1 } };

    ghost right = { λ v. hand_notes v.made };
}

impl Join<SeatNotes> for Seats {
    ghost use Rattle.pool.specs.SeatNotes.{spent_notes};
    ghost use Rattle.pool.specs.Words.{both_calls};

    ghost both = { both_calls };

    ghost spent = { spent_notes };
}

/// `fetch_min` of the least place.
pub struct Offers;

impl Play<(), SeatNotes> for Offers {
    ghost use Rattle.pool.specs.Words.{MakesCall};
    ghost use Rattle.theory.specs.Ledger.{offer};

    ghost then = { λ s m found n. MakesCall (offer s.first) m n };
}

/// A load of the least place.
pub struct Looks;

impl Play<(), SeatNotes> for Looks {
    ghost use Rattle.pool.specs.Words.{MakesCall, decode};
    ghost use Rattle.theory.specs.Ledger.{look};

    ghost then = { λ s m found n. MakesCall (look (decode found)) m n };
}

/// `fetch_add` of the number of cubes to be done.
pub struct Mores;

impl Play<(), SeatNotes> for Mores {
    ghost use Rattle.pool.specs.Words.{MakesCall};
    ghost use Rattle.theory.specs.Ledger.{more};

    ghost then = { λ s m found n. MakesCall more m n };
}

/// `fetch_sub` of it.
pub struct Lesses;

impl Play<(), SeatNotes> for Lesses {
    ghost use Rattle.pool.specs.Words.{MakesCall};
    ghost use Rattle.theory.specs.Ledger.{less};

    ghost then = { λ s m found n. MakesCall less m n };
}

/// A load of it.
pub struct Opens;

impl Play<(), SeatNotes> for Opens {
    ghost use Rattle.pool.specs.Words.{MakesCall};
    ghost use Rattle.theory.specs.Ledger.{still_open};

    ghost then = { λ s m found n. MakesCall (still_open found) m n };
}

/// `fetch_max` of the word that says whether a hand halted.
pub struct Halts;

impl Play<(), SeatNotes> for Halts {
    ghost use Rattle.pool.specs.Words.{MakesCall};
    ghost use Rattle.theory.specs.Ledger.{halt};

    ghost then = { λ s m found n. MakesCall halt m n };
}

/// A load of it.
pub struct SeesHalt;

impl Play<(), SeatNotes> for SeesHalt {
    ghost use Rattle.std.specs.Prelude.{◌==◌};
    ghost use Rattle.pool.specs.Words.{MakesCall};
    ghost use Rattle.theory.specs.Ledger.{halted};

    ghost then = { λ s m found n. MakesCall (halted (found == 1)) m n };
}

/// The load of the least place at the close. It notes with what the order of all calls ends, so
/// that the next load speaks of the same order.
pub struct Sealed;

impl Play<(), SeatNotes> for Sealed {
    ghost use Rattle.pool.specs.Words.{Seals};

    ghost then = { λ s m found n. Seals m found n };
}

/// The load of the number of cubes to be done at the close.
pub struct Rest;

impl Play<(), SeatNotes> for Rest {
    ghost use Rattle.pool.specs.Words.{ReadsUndone};

    ghost then = { λ s m found n. ReadsUndone m found n };
}

/// The words: the least place offered, all bits one where there is none; the number of cubes to be
/// done; 1 once a hand halted.
pub type Words = Table<(), SeatNotes, (), InOneOrder, Global>;

/// One hand's right to call, with its notes.
pub type RuledSeat = Seat<(), SeatNotes>;

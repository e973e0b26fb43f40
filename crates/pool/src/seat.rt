//! A seat at the three shared words.
ghost use Rattle.std.specs.Prelude.{◌≡◌, ◌+◌, ◌<◌, ◌^◌, ℕ, List, ◌∷◌, IfOk, true, false, None, All};
ghost use Rattle.theory.specs.Ledger.{offer, look, more, less, still_open, halt, halted};
ghost use Rattle.theory.specs.Order.{Words};
ghost use Rattle.pool.specs.SeatNotes.{first_notes, hand_notes};
ghost use Rattle.pool.specs.Words.{IsHandSeat, called, own_calls, both_calls, IsBoundBy, StaysHalted, AllHere, Closes};

use crate::refusal::PoolRefusal;
use crate::word_rule::{
    Halts, Lesses, Looks, Mores, Offers, Opens, Rest, RuledSeat, Sealed, Seats, SeesHalt, Words,
};
use std::alloc::{AllocError, Global};
use std::marker::Model;
use std::sync::Arc;

/// A seat at the words, which it shares with the others.
#[derive(Drop)]
pub struct WordSeat {
    table: Arc<Words, Global>,
    seat: RuledSeat,
}

impl Model for WordSeat {
    ghost use Rattle.std.specs.Prelude.{◌≡◌, []};
    ghost use Rattle.pool.specs.Words.{SeatView};

    ghost Value = { SeatView };

    ghost view = { λ b. record { table = b.seat.table_id; notes = b.seat.me.0 } };

    ghost invariant = { λ b. (b.seat.table_id ≡ b.table.value.shared.table_id) × (b.seat.table_id.words ≡ 3) × (b.seat.me.1 ≡ []) };
}

impl WordSeat {
    /// New words, and their first seat.
    pub fn open(alloc: Global) -> Result<WordSeat, PoolRefusal>
        ensures { IfOk result (λ b. b.notes ≡ first_notes 0) }
    {
        let Ok((table, seat)) = Words::of_words(alloc, &[u64::MAX, 1, 0], &()) else {
            return Err(PoolRefusal::NotOpened);
        };
        let table = Arc::new(alloc, table)?;
        Ok(WordSeat { table, seat })
    }

    /// A seat for the next hand.
    pub fn next(&mut self) -> Result<WordSeat, AllocError>
        requires first { self.old.notes.is_first ≡ true }
        requires before { self.old.notes.last ≡ None }
        ensures first { IfOk result (λ b. self.new ≡ record self.old { notes = record self.old.notes { made = self.old.notes.made + 1 } }) }
        ensures hand { IfOk result (λ b. b ≡ record { table = self.old.table; notes = hand_notes self.old.notes.made }) }
    {
        let table = Arc::try_clone(&self.table)?;
        let seat = self.table.shared.split_seat::<Seats>(&mut self.seat);
        Ok(WordSeat { table, seat })
    }

    /// Takes in the notes of a hand.
    pub fn join(&mut self, other: WordSeat)
        requires first { self.old.notes.is_first ≡ true }
        requires table { other.table ≡ self.old.table }
        ensures { self.new ≡ record self.old { notes = both_calls self.old.notes other.notes } }
    {
        let WordSeat { table: _, seat } = other;
        self.table.shared.join_seat::<Seats>(&mut self.seat, seat);
    }

    /// Lowers the least place to this one, if it is below it.
    pub fn offer(&mut self, place: u64)
        requires hand { IsHandSeat self.old.notes }
        requires small { place < 2 ^ 32 }
        ensures { self.new ≡ record self.old { notes = called self.old.notes (offer place) } }
    {
        self.table
            .shared
            .fetch_min::<Offers>(&mut self.seat, 0, place);
    }

    /// The least place.
    pub fn look(&mut self) -> Option<u64>
        requires hand { IsHandSeat self.old.notes }
        ensures noted { self.new ≡ record self.old { notes = called self.old.notes (look result) } }
        ensures bound { All (IsBoundBy result) (own_calls self.old.notes.calls) }
    {
        let found = self.table.shared.load::<Looks>(&mut self.seat, 0);
        if found == u64::MAX { None } else { Some(found) }
    }

    /// One cube more is to be done.
    pub fn more(&mut self)
        requires hand { IsHandSeat self.old.notes }
        ensures { self.new ≡ record self.old { notes = called self.old.notes more } }
    {
        self.table.shared.fetch_add::<Mores>(&mut self.seat, 1, 1);
    }

    /// One cube less is to be done.
    pub fn less(&mut self)
        requires hand { IsHandSeat self.old.notes }
        ensures { self.new ≡ record self.old { notes = called self.old.notes less } }
    {
        self.table.shared.fetch_sub::<Lesses>(&mut self.seat, 1, 1);
    }

    /// How many cubes are to be done.
    pub fn still_open(&mut self) -> u64
        requires hand { IsHandSeat self.old.notes }
        ensures { self.new ≡ record self.old { notes = called self.old.notes (still_open result) } }
    {
        self.table.shared.load::<Opens>(&mut self.seat, 1)
    }

    /// A hand halts.
    pub fn halt(&mut self)
        requires hand { IsHandSeat self.old.notes }
        ensures { self.new ≡ record self.old { notes = called self.old.notes halt } }
    {
        self.table.shared.fetch_max::<Halts>(&mut self.seat, 2, 1);
    }

    /// Whether a hand halted.
    pub fn halted(&mut self) -> bool
        requires hand { IsHandSeat self.old.notes }
        ensures noted { self.new ≡ record self.old { notes = called self.old.notes (halted result) } }
        ensures bound { All (StaysHalted result) (own_calls self.old.notes.calls) }
    {
        self.table.shared.load::<SeesHalt>(&mut self.seat, 2) == 1
    }

    /// The least place and the number of cubes not done, with which an order of all calls ends.
    pub fn ends(&mut self) -> (Option<u64>, u64)
        requires first { self.old.notes.is_first ≡ true }
        requires whole { AllHere self.old.notes }
        ensures { (t : Words) × (result.0 ≡ t.least) × (result.1 ≡ t.undone) × Closes self.old.notes.made self.old.notes.calls t }
    {
        let found = self.table.shared.load::<Sealed>(&mut self.seat, 0);
        let undone = self.table.shared.load::<Rest>(&mut self.seat, 1);
        let least = if found == u64::MAX { None } else { Some(found) };
        (least, undone)
    }
}

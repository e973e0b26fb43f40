//! How a pool is closed.
ghost use Rattle.std.specs.Prelude.{◌≡◌, ◌≤◌, ◌<◌, ◌++◌, length, vec_len, IfOk, Some, slice_get, ℕ, List};
ghost use Rattle.std.specs.Global.{Vec};
ghost use Rattle.pool.specs.DequeNotes.{Cube};
ghost use Rattle.pool.specs.Deque.{Whole, Emptied};
ghost use Rattle.pool.specs.SeatNotes.{first_notes};
ghost use Rattle.pool.specs.Ends.{DequeEnd};
ghost use Rattle.pool.specs.Hands.{HandView};
ghost use Rattle.pool.specs.Opening.{ids};
ghost use Rattle.pool.specs.Closing.{HasNumberFrom, AreAtNumbers, Merged, drained, AreNumbered, AreParts, calls_of, Gathered, Drained};

use crate::ends::{Owner, Thief};
use crate::hand::Hand;
use crate::seat::WordSeat;
use kernel::Cube;
use std::alloc::{AllocError, Global};

// where the hand of this number stands in the list
fn place_of(hands: &[Hand], number: usize) -> usize
    requires { HasNumberFrom hands.now 0 number }
    ensures { (h : HandView) × (slice_get hands.now result ≡ Some h) × (h.number ≡ number) }
{
    'places: for place in 0..hands.len() {
        if hands[place].number() == number {
            return place;
        }
    }
    unreachable!()
}

// the hands in the order of their numbers
pub(crate) fn by_number(alloc: Global, mut hands: Vec<Hand>) -> Result<Vec<Hand>, AllocError>
    requires { (number : ℕ) → number < length hands.items → HasNumberFrom hands.items 0 number }
    ensures hands { IfOk result (λ r. AreAtNumbers hands.items r.items) }
    ensures as_many { IfOk result (λ r. length r.items ≡ length hands.items) }
{
    let count = hands.len();
    let mut sorted = Vec::with_capacity(alloc, count)?;
    'sorted: for number in 0..count {
        let place = place_of(&hands, number);
        sorted.push(hands.remove(place))?;
    }
    Ok(sorted)
}

// Each deque takes in the notes of one hand.
fn merge(owners: &mut Vec<Owner>, mut thieves: Vec<Thief>)
    requires { ids thieves.items ≡ ids owners.old.items }
    ensures { Merged owners.old.items thieves.items owners.new.items }
{
    'merge: for d in 0..owners.len() {
        let thief = thieves.remove(0);
        owners[d].join(thief);
    }
}

// What is left in one deque, once all notes are here.
fn drain(owner: &mut Owner, left: &mut Vec<Cube>) -> Result<(), AllocError>
    requires { Whole owner.old.notes }
    ensures { IfOk result (λ _. (cs : List Cube) × (left.new.items ≡ left.old.items ++ cs) × Emptied (drained owner.old.notes cs)) }
{
    'drain: loop {
        left.reserve(1)?;
        match owner.drain() {
            Some(cube) => left.push_reserved(cube),
            None => break,
        }
    }
    Ok(())
}

// The parts of all hands, and their calls in one seat.
pub(crate) fn take_apart(
    alloc: Global,
    words: &mut WordSeat,
    mut hands: Vec<Hand>,
) -> Result<(Vec<Owner>, Vec<Vec<Thief>>), AllocError>
    requires seats { words.old.notes ≡ first_notes (vec_len hands) }
    requires hands { AreNumbered words.old.table hands.items }
    ensures parts { IfOk result (λ r. AreParts hands.items r.0.items r.1.items) }
    ensures seats { IfOk result (λ _. (words.new.table ≡ words.old.table) × (words.new.notes ≡ record words.old.notes { calls = calls_of hands.items })) }
{
    let mut owners = Vec::new(alloc);
    let mut rows = Vec::new(alloc);
    let count = hands.len();
    'take_apart: for _ in 0..count {
        let (owner, thieves, seat) = hands.remove(0).split();
        owners.push(owner)?;
        rows.push(thieves)?;
        words.join(seat);
    }
    Ok((owners, rows))
}

// Each deque takes in the notes of all hands.
pub(crate) fn gather(owners: &mut Vec<Owner>, mut rows: Vec<Vec<Thief>>)
    requires { (h : ℕ) (r : Vec DequeEnd) → slice_get rows.items h ≡ Some r → ids r.items ≡ ids owners.old.items }
    ensures { Gathered owners.old.items rows.items owners.new.items }
{
    let count = rows.len();
    'gather: for _ in 0..count {
        merge(owners, rows.remove(0));
    }
}

// What is left in all deques, once all notes are here.
pub(crate) fn drain_all(alloc: Global, mut owners: Vec<Owner>) -> Result<Vec<Cube>, AllocError>
    requires { (d : ℕ) (l : DequeEnd) → slice_get owners.items d ≡ Some l → Whole l.notes }
    ensures { IfOk result (λ r. Drained owners.items (vec_len owners) r.items) }
{
    let mut left = Vec::new(alloc);
    let count = owners.len();
    'drains: for _ in 0..count {
        let mut owner = owners.remove(0);
        drain(&mut owner, &mut left)?;
    }
    Ok(left)
}

//! How a pool is opened.
ghost use Rattle.std.specs.Prelude.{◌≡◌, ◌+◌, length, vec_len, IfOk};
ghost use Rattle.pool.specs.SeatNotes.{first_notes};
ghost use Rattle.pool.specs.Opening.{stage, notes_of_thief, ids, Staged, IsRow, AreRows, AreRootless};

use crate::ends::{Owner, Thief};
use crate::hand::Hand;
use crate::seat::WordSeat;
use std::alloc::{AllocError, Global};

// The thief of the hand h in the deque d. A hand's notes of its own deque stay with the owner, and
// at its place stands a thief that never steals.
fn thief(owner: &mut Owner, vars: u32, h: usize, d: usize) -> Result<Thief, AllocError>
    requires { owner.old.notes ≡ stage vars h d }
    ensures owner { IfOk result (λ _. owner.new ≡ record { id = owner.old.id; notes = stage vars (h + 1) d }) }
    ensures thief { IfOk result (λ w. w ≡ record { id = owner.old.id; notes = notes_of_thief vars h d }) }
{
    let thief = owner.next()?;
    if d == h {
        owner.join(thief);
        return owner.guest();
    }
    Ok(thief)
}

// The thieves of the hand h in all deques.
fn row(
    alloc: Global,
    owners: &mut Vec<Owner>,
    vars: u32,
    h: usize,
) -> Result<Vec<Thief>, AllocError>
    requires { Staged vars h owners.old.items }
    ensures owners { IfOk result (λ _. Staged vars (h + 1) owners.new.items × (ids owners.new.items ≡ ids owners.old.items)) }
    ensures thieves { IfOk result (λ r. IsRow vars h r.items × (ids r.items ≡ ids owners.old.items)) }
{
    let mut thieves = Vec::new(alloc);
    'row: for d in 0..owners.len() {
        let thief = thief(&mut owners[d], vars, h, d)?;
        thieves.push(thief)?;
    }
    Ok(thieves)
}

// As many deques as there are hands.
pub(crate) fn owners(alloc: Global, hands: usize, vars: u32) -> Result<Vec<Owner>, AllocError>
    ensures { IfOk result (λ r. Staged vars 0 r.items × (vec_len r ≡ hands)) }
{
    let mut owners = Vec::new(alloc);
    'owners: for _ in 0..hands {
        owners.push(Owner::open(alloc, vars)?)?;
    }
    Ok(owners)
}

// The thieves of all hands.
pub(crate) fn rows(
    alloc: Global,
    owners: &mut Vec<Owner>,
    vars: u32,
) -> Result<Vec<Vec<Thief>>, AllocError>
    requires { Staged vars 0 owners.old.items }
    ensures owners { IfOk result (λ _. Staged vars (length owners.old.items) owners.new.items × (ids owners.new.items ≡ ids owners.old.items)) }
    ensures rows { IfOk result (λ r. AreRows vars (ids owners.old.items) r.items × (vec_len r ≡ vec_len owners.old)) }
{
    let mut rows = Vec::new(alloc);
    'rows: for h in 0..owners.len() {
        let row = row(alloc, owners, vars, h)?;
        rows.push(row)?;
    }
    Ok(rows)
}

// The hands, each with its deque, its thieves and a seat.
pub(crate) fn hands(
    alloc: Global,
    words: &mut WordSeat,
    mut owners: Vec<Owner>,
    mut rows: Vec<Vec<Thief>>,
    vars: u32,
) -> Result<Vec<Hand>, AllocError>
    requires owners { Staged vars (length owners.items) owners.items }
    requires rows { AreRows vars (ids owners.items) rows.items × (vec_len rows ≡ vec_len owners) }
    requires seats { words.old.notes ≡ first_notes 0 }
    ensures hands { IfOk result (λ r. AreRootless (vec_len owners) vars (ids owners.items) words.old.table r.items × (vec_len r ≡ vec_len owners)) }
    ensures seats { IfOk result (λ _. words.new ≡ record { table = words.old.table; notes = first_notes (vec_len owners) }) }
{
    let mut hands = Vec::new(alloc);
    let count = owners.len();
    'hands: for h in 0..count {
        let owner = owners.remove(0);
        let thieves = rows.remove(0);
        let seat = words.next()?;
        hands.push(Hand::new(h, vars, owner, thieves, seat))?;
    }
    Ok(hands)
}

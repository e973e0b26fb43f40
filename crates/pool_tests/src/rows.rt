//! Calls of hands as rows, each with what it is to answer. Whatever a hand does, it stays the same
//! hand.
ghost use Rattle.pool.specs.Hands.{SameHand};

use crate::cubes::{cube_of, is_cube};
use pool::{Hand, Taken};
use std::alloc::{AllocError, Global};

/// A call, with the numbers of its cube, and what it is to answer.
#[derive(Clone, Copy)]
pub enum Call<'a> {
    Take(&'a [i32]),
    TakeNone,
    Put(&'a [i32]),
    Steal(usize, &'a [i32]),
    StealNone(usize),
    Offer(u64),
    Look(Option<u64>),
    More,
    Less,
    StillOpen(u64),
    Halt,
    Halted(bool),
}

fn takes(hand: &mut Hand, numbers: &[i32]) -> bool
    ensures { SameHand hand.old hand.new }
{
    match hand.take() {
        Some(cube) => is_cube(&cube, numbers),
        None => false,
    }
}

fn takes_none(hand: &mut Hand) -> bool
    ensures { SameHand hand.old hand.new }
{
    hand.take().is_none()
}

/// Puts a cube. Where memory is short, whether the same cube comes back.
fn puts(alloc: Global, hand: &mut Hand, numbers: &[i32]) -> Result<bool, AllocError>
    ensures { SameHand hand.old hand.new }
{
    let cube = cube_of(alloc, hand.vars(), numbers)?;
    match hand.put(cube) {
        Ok(()) => Ok(true),
        Err(cube) if is_cube(&cube, numbers) => Err(AllocError),
        Err(_) => Ok(false),
    }
}

/// Steals from another hand.
fn stolen(hand: &mut Hand, from: usize) -> Option<Taken>
    ensures { SameHand hand.old hand.new }
{
    if from == hand.number() || from >= hand.hands() {
        return None;
    }
    Some(hand.steal(from))
}

fn steals(hand: &mut Hand, from: usize, numbers: &[i32]) -> bool
    ensures { SameHand hand.old hand.new }
{
    match stolen(hand, from) {
        Some(Taken::Got(cube)) => is_cube(&cube, numbers),
        _ => false,
    }
}

fn steals_none(hand: &mut Hand, from: usize) -> bool
    ensures { SameHand hand.old hand.new }
{
    matches!(stolen(hand, from), Some(Taken::Empty))
}

fn offers(hand: &mut Hand, place: u64) -> bool
    ensures { SameHand hand.old hand.new }
{
    if place >= 4_294_967_296 {
        return false;
    }
    hand.offer(place);
    true
}

/// Makes a call on the words that all hands share.
fn says(hand: &mut Hand, call: Call) -> bool
    ensures { SameHand hand.old hand.new }
{
    match call {
        Call::Offer(place) => return offers(hand, place),
        Call::Look(wanted) => return hand.look() == wanted,
        Call::StillOpen(wanted) => return hand.still_open() == wanted,
        Call::Halted(wanted) => return hand.halted() == wanted,
        Call::More => hand.more(),
        Call::Less => hand.less(),
        Call::Halt => hand.halt(),
        _ => return false,
    }
    true
}

/// Makes a call, and says whether it answers as it is to.
fn answers(alloc: Global, hand: &mut Hand, call: Call) -> Result<bool, AllocError>
    ensures { SameHand hand.old hand.new }
{
    match call {
        Call::Take(numbers) => Ok(takes(hand, numbers)),
        Call::TakeNone => Ok(takes_none(hand)),
        Call::Put(numbers) => puts(alloc, hand, numbers),
        Call::Steal(from, numbers) => Ok(steals(hand, from, numbers)),
        Call::StealNone(from) => Ok(steals_none(hand, from)),
        _ => Ok(says(hand, call)),
    }
}

/// Whether the calls of one hand answer as they are to.
pub fn all_answer(alloc: Global, hand: &mut Hand, calls: &[Call]) -> Result<bool, AllocError>
    ensures { SameHand hand.old hand.new }
{
    'calls: for call in calls {
        if !answers(alloc, hand, *call)? {
            return Ok(false);
        }
    }
    Ok(true)
}

/// Whether the calls of two hands, each with its hand's number, answer as they are to, in this
/// order.
pub fn both_answer(
    alloc: Global,
    one: &mut Hand,
    two: &mut Hand,
    rows: &[(usize, Call)],
) -> Result<bool, AllocError>
    ensures one { SameHand one.old one.new }
    ensures two { SameHand two.old two.new }
{
    'rows: for row in rows {
        let is_wanted = if row.0 == 0 {
            answers(alloc, one, row.1)?
        } else {
            answers(alloc, two, row.1)?
        };
        if !is_wanted {
            return Ok(false);
        }
    }
    Ok(true)
}

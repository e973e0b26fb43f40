//! Each call once, and pools that are closed at once.
use crate::cubes::{cube_of, is_cube};
use crate::pairs::{close_one, close_two, open_one, open_two};
use crate::rows::{Call, all_answer, both_answer};
use pool::{Closing, PoolRefusal, open};
use std::alloc::Global;
use std::test::*;

/// Whether the calls of a pool's one hand answer as they are to, and the pool's closing.
fn one_closed(alloc: Global, root: &[i32], calls: &[Call]) -> Result<(bool, Closing), Fail> {
    let (pool, mut hand) = open_one(alloc, 3, cube_of(alloc, 3, root)?)?;
    let as_opened = (hand.number(), hand.hands(), hand.vars()) == (0, 1, 3);
    let as_wanted = all_answer(alloc, &mut hand, calls)?;
    Ok((as_opened && as_wanted, close_one(alloc, pool, hand)?))
}

/// Whether the calls of a pool's two hands answer as they are to, and the pool's closing.
fn two_closed(
    alloc: Global,
    vars: u32,
    root: &[i32],
    rows: &[(usize, Call)],
) -> Result<(bool, Closing), Fail> {
    let (pool, mut one, mut two) = open_two(alloc, vars, cube_of(alloc, vars, root)?)?;
    let as_opened = (one.number(), two.number()) == (0, 1);
    let as_wanted = both_answer(alloc, &mut one, &mut two, rows)?;
    Ok((as_opened && as_wanted, close_two(alloc, pool, one, two)?))
}

/// Whether these cubes are left, in this order.
fn leaves(closing: &Closing, cubes: &[&[i32]]) -> bool {
    if closing.left.len() != cubes.len() {
        return false;
    }
    for (cube, numbers) in closing.left.iter().zip(cubes) {
        if !is_cube(cube, numbers) {
            return false;
        }
    }
    true
}

static ONE_HAND: [Call; 3] = [Call::Take(&[]), Call::TakeNone, Call::Put(&[-1, 2])];

static LEFT_BY_ONE: [&[i32]; 1] = [&[-1, 2]];

/// Whether the calls of one hand answer and leave what they are to.
fn one_hand(alloc: Global) -> Result<bool, Fail> {
    let (is_right, closing) = one_closed(alloc, &[], &ONE_HAND)?;
    let is_left = leaves(&closing, &LEFT_BY_ONE);
    Ok(is_right && is_left && (closing.least, closing.undone) == (None, 1))
}

static WORDS: [(usize, Call); 15] = [
    (0, Call::Look(None)),
    (1, Call::Offer(4_294_967_295)),
    (0, Call::Look(Some(4_294_967_295))),
    (0, Call::Offer(0)),
    (1, Call::Offer(7)),
    (1, Call::Look(Some(0))),
    (1, Call::StillOpen(1)),
    (0, Call::More),
    (1, Call::StillOpen(2)),
    (1, Call::Less),
    (1, Call::Less),
    (0, Call::StillOpen(0)),
    (0, Call::Halted(false)),
    (1, Call::Halt),
    (0, Call::Halted(true)),
];

/// Whether words that two hands share are the same for both.
fn words(alloc: Global) -> Result<bool, Fail> {
    let (is_right, closing) = two_closed(alloc, 0, &[], &WORDS)?;
    Ok(is_right && (closing.left.len(), closing.least, closing.undone) == (1, Some(0), 0))
}

// with no other thread each steal from a deque that isn't empty succeeds
static STEALS: [(usize, Call); 6] = [
    (1, Call::Steal(0, &[1])),
    (1, Call::StealNone(0)),
    (1, Call::Put(&[1, -2])),
    (1, Call::Put(&[1, 2])),
    (0, Call::Put(&[-1])),
    (0, Call::Steal(1, &[1, -2])),
];

static LEFT_BY_STEALS: [&[i32]; 2] = [&[-1], &[1, 2]];

/// Whether two hands steal from one another, and leave the rest.
fn steals(alloc: Global) -> Result<bool, Fail> {
    let (is_right, closing) = two_closed(alloc, 2, &[1], &STEALS)?;
    Ok(is_right && leaves(&closing, &LEFT_BY_STEALS))
}

fn three_closed(alloc: Global) -> Result<Closing, Fail> {
    let (pool, hands) = open(alloc, 3, 5, cube_of(alloc, 5, &[])?)?;
    Ok(pool.close(hands)?)
}

static ROOT: [&[i32]; 1] = [&[]];

/// Whether three hands that are closed at once leave the root.
fn three_hands(alloc: Global) -> Result<bool, Fail> {
    let closing = three_closed(alloc)?;
    Ok(leaves(&closing, &ROOT) && closing.least.is_none() && closing.undone == 1)
}

#[test]
fn calls(rt: HostRuntime) -> Result<(), Fail> {
    assert!(rt; one_hand(rt.alloc())?, "one hand");
    assert!(rt; words(rt.alloc())?, "words");
    assert!(rt; steals(rt.alloc())?, "steals");
    assert!(rt; three_hands(rt.alloc())?, "three hands");
    assert!(rt; PoolRefusal::NoMemory.number() == 61);
    assert!(rt; PoolRefusal::NotOpened.number() == 62);
    Ok(())
}

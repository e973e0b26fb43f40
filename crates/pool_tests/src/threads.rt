//! Two hands, the second in a thread of its own.
ghost use Rattle.std.specs.Prelude.{◌≡◌, ◌≢◌, ◌<◌, IfOk};
ghost use Rattle.theory.specs.Ledger.{calling, less};
ghost use Rattle.pool.specs.Hands.{SameHand, adds};

use crate::cubes::{cube_of, is_cube};
use crate::diary::{LessOf, SameAs, Visit};
use crate::pairs::{close_two, open_two};
use crate::rows::{Call, all_answer, both_answer};
use pool::{Closing, Hand, Taken};
use std::alloc::{AllocError, Global};
use std::snapshot::Snapshot;
use std::sync::Wait;
use std::test::*;
use std::thread;
use std::thread::{PromisedHandle, Threads};

/// Steals until it has got a cube, or for so many turns.
fn steal_until(mut hand: Hand, from: usize, turns: u64) -> Visit
    requires other { from ≢ hand.number }
    requires hand { from < hand.hands }
    ensures { SameHand hand result.hand }
{
    let mut got = None;
    'turns: for _ in 0..turns {
        match hand.steal(from) {
            Taken::Got(cube) => {
                got = Some(cube);
                break;
            }
            Taken::Empty | Taken::Again => thread::yield_now(),
        }
    }
    Visit { hand, got }
}

/// Calls `less` once.
fn count_less(mut hand: Hand) -> Visit
    ensures { result.hand ≡ adds hand (calling less) }
{
    hand.less();
    Visit { hand, got: None }
}

fn thief(
    rt: &impl Threads,
    hand: Hand,
    turns: u64,
) -> Result<PromisedHandle<Visit, SameAs>, AllocError>
    requires other { hand.number ≡ 1 }
    requires hand { hand.hands ≡ 2 }
    ensures { IfOk result (λ h. h.promise.0.value ≡ hand) }
{
    let promise = SameAs(Snapshot::of(&hand));
    Ok(thread::spawn_with(rt, promise, move || steal_until(hand, 0, turns))?)
}

fn counter(rt: &impl Threads, hand: Hand) -> Result<PromisedHandle<Visit, LessOf>, AllocError>
    ensures { IfOk result (λ h. h.promise.0.value ≡ hand) }
{
    let promise = LessOf(Snapshot::of(&hand));
    Ok(thread::spawn_with(rt, promise, move || count_less(hand))?)
}

/// Offers the places that are lent, as far as they are places.
fn offer_all(mut hand: Hand, places: &[u64]) -> Visit
    ensures { SameHand hand result.hand }
{
    'places: for place in places {
        if *place < 4_294_967_296 {
            hand.offer(*place);
        }
    }
    Visit { hand, got: None }
}

/// Both hands offer the places that are lent, the second in a thread of a scope.
fn both_offer<R: Threads + Wait + Sync>(
    rt: &R,
    one: Hand,
    two: Hand,
    places: &[u64],
) -> Result<(Visit, Visit), AllocError>
    ensures { IfOk result (λ r. SameHand one r.0.hand × SameHand two r.1.hand) }
{
    thread::scope(
        thread::scope_env(),
        rt,
        |scope| -> Result<(Visit, Visit), AllocError>
            ensures { IfOk result (λ r. SameHand one r.0.hand × SameHand two r.1.hand) }
        {
            let promise = SameAs(Snapshot::of(&two));
            let child = scope.spawn_with(promise, move || offer_all(two, places))?;
            let first = offer_all(one, places);
            Ok((first, child.join(rt)))
        },
    )
}

static BEFORE: [Call; 3] = [Call::Take(&[]), Call::Put(&[-1]), Call::Put(&[1])];

static BEHIND: [(usize, Call); 6] = [
    (0, Call::Take(&[1])),
    (0, Call::TakeNone),
    (1, Call::TakeNone),
    (1, Call::Offer(5)),
    (0, Call::Offer(9)),
    (0, Call::Look(Some(5))),
];

/// Whether the other hand steals the cube of these numbers in a thread; and that hand again.
fn thief_back(rt: &impl Threads, two: Hand, numbers: &[i32]) -> Result<(Hand, bool), AllocError>
    requires other { two.number ≡ 1 }
    requires hand { two.hands ≡ 2 }
    ensures { IfOk result (λ r. SameHand two r.0) }
{
    let child = thief(rt, two, 1 << 24)?;
    let visit = child.join(rt);
    let Visit { hand, got } = visit;
    let is_wanted = got.is_some_and(|cube| is_cube(&cube, numbers));
    Ok((hand, is_wanted))
}

/// The first hand puts two cubes, and the second one steals the first of them; and whether all
/// calls answer as they are to.
fn theft(
    rt: &impl Threads,
    alloc: Global,
    one: &mut Hand,
    two: Hand,
) -> Result<(Hand, bool), AllocError>
    requires other { two.number ≡ 1 }
    requires hand { two.hands ≡ 2 }
    ensures one { SameHand one.old one.new }
    ensures two { IfOk result (λ r. SameHand two r.0) }
{
    let is_ready = all_answer(alloc, one, &BEFORE)?;
    let (mut two, is_first) = thief_back(rt, two, &[-1])?;
    let is_right = both_answer(alloc, one, &mut two, &BEHIND)?;
    Ok((two, is_ready && is_first && is_right))
}

/// Whether all calls around a theft answer as they are to, and how the pool is closed.
fn closed_after_theft(rt: &impl Threads, alloc: Global) -> Result<(bool, Closing), Fail> {
    let (pool, mut one, two) = open_two(alloc, 1, cube_of(alloc, 1, &[])?)?;
    let (two, is_as_wanted) = theft(rt, alloc, &mut one, two)?;
    Ok((is_as_wanted, close_two(alloc, pool, one, two)?))
}

/// Whether a cube is stolen, and none of the two is left.
fn is_stolen(rt: &impl Threads, alloc: Global) -> Result<bool, Fail> {
    let (is_as_wanted, closing) = closed_after_theft(rt, alloc)?;
    let closed = (closing.left.len(), closing.least, closing.undone);
    Ok(is_as_wanted && closed == (0, Some(5), 1))
}

/// The first hand counts twice up while the second one counts once down; and what each then says is
/// open.
fn both_count(
    rt: &impl Threads,
    one: &mut Hand,
    two: Hand,
) -> Result<(Hand, (u64, u64)), AllocError>
    ensures one { SameHand one.old one.new }
    ensures two { IfOk result (λ r. SameHand two r.0) }
{
    let child = counter(rt, two)?;
    one.more();
    one.more();
    let visit = child.join(rt);
    let Visit {
        hand: mut two,
        got: _,
    } = visit;
    let open = (one.still_open(), two.still_open());
    Ok((two, open))
}

/// What each of two hands says is open, and the pool at its closing.
fn counted(rt: &impl Threads, alloc: Global) -> Result<((u64, u64), u64), Fail> {
    let (pool, mut one, two) = open_two(alloc, 1, cube_of(alloc, 1, &[])?)?;
    let (two, open) = both_count(rt, &mut one, two)?;
    let closing = close_two(alloc, pool, one, two)?;
    Ok((open, closing.undone))
}

/// The closing of a pool whose two hands offered these places.
fn closed_after_offers<R: Threads + Wait + Sync>(
    rt: &R,
    alloc: Global,
    places: &[u64],
) -> Result<Closing, Fail> {
    let (pool, one, two) = open_two(alloc, 1, cube_of(alloc, 1, &[])?)?;
    let (first, second) = both_offer(rt, one, two, places)?;
    let Visit { hand: one, got: _ } = first;
    let Visit { hand: two, got: _ } = second;
    Ok(close_two(alloc, pool, one, two)?)
}

static PLACES: [u64; 4] = [9, 5, 4_294_967_296, 7];

/// Whether the least of the places that both hands offered is the one that is kept.
fn is_least_kept<R: Threads + Wait + Sync>(rt: &R, alloc: Global) -> Result<bool, Fail> {
    let closing = closed_after_offers(rt, alloc, &PLACES)?;
    Ok((closing.least, closing.left.len()) == (Some(5), 1))
}

#[test]
fn two_hands(rt: HostRuntime) -> Result<(), Fail> {
    assert!(rt; is_stolen(&rt, rt.alloc())?, "stolen");
    assert!(rt; counted(&rt, rt.alloc())? == ((2, 2), 2), "counted");
    assert!(rt; is_least_kept(&rt, rt.alloc())?, "offered");
    Ok(())
}

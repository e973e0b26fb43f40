//! Four hands, three of them in threads of their own, each with calls in random order. What they
//! bring home is what was put and counted.
ghost use Rattle.std.specs.Prelude.{◌≡◌, ◌≤◌, [], ◌∷◌, length, IfOk};
ghost use Rattle.theory.specs.Ledger.{IsFit};
ghost use Rattle.pool.specs.Hands.{SameHand};
ghost use Rattle.pool.specs.Pools.{AreNew, AreAllOf};

use crate::cubes::cube_of;
use crate::diary::{Diary, Home, SameAs};
use cnf::Lit;
use kernel::Cube;
use pool::{Closing, Hand, Pool, Taken, open};
use std::alloc::{AllocError, Global};
use std::snapshot::Snapshot;
use std::test::*;
use std::thread;
use std::thread::{PromisedHandle, Threads};
use test_samples::has_var;

// how many calls a hand makes
const TURNS: usize = 25_000;

/// The cube over 18 variables whose signs are the bits of a number.
fn cube_of_bits(alloc: Global, number: u32) -> Result<Cube, AllocError>
    ensures { IfOk result (λ q. IsFit 18 q) }
{
    let mut cube = Cube::root(alloc);
    'bits: for var in 1..19 {
        let lit = Lit::of(var, number >> (var - 1) & 1 == 1);
        if !has_var(cube.lits(), lit.var()) && cube.lits().len() < 32 {
            cube.push(lit)?;
        }
    }
    Ok(cube)
}

/// The number whose bits are the signs of a cube.
fn bits_of(cube: &Cube) -> u32 {
    let mut number = 0;
    for lit in cube.lits().iter().rev() {
        number = number << 1 | lit.positive() as u32;
    }
    number
}

/// Marsaglia's xorshift generator.
fn next_random(state: u64) -> u64 {
    let state = state ^ (state << 13);
    let state = state ^ (state >> 7);
    state ^ (state << 17)
}

fn put(alloc: Global, hand: &mut Hand, diary: &mut Diary)
    requires { hand.old.vars ≡ 18 }
    ensures { SameHand hand.old hand.new }
{
    let number = diary.last.wrapping_add(1);
    let Ok(cube) = cube_of_bits(alloc, number) else {
        return;
    };
    if hand.put(cube).is_ok() {
        diary.last = number;
        let _ = diary.put.push(number);
    }
}

fn take(hand: &mut Hand, diary: &mut Diary)
    ensures { SameHand hand.old hand.new }
{
    if let Some(cube) = hand.take() {
        let _ = diary.got.push(bits_of(&cube));
    }
}

fn steal(hand: &mut Hand, diary: &mut Diary, from: usize)
    ensures { SameHand hand.old hand.new }
{
    if from != hand.number() && from < hand.hands() {
        if let Taken::Got(cube) = hand.steal(from) {
            let _ = diary.got.push(bits_of(&cube));
        }
    }
}

fn count(hand: &mut Hand, diary: &mut Diary, random: u64)
    ensures { SameHand hand.old hand.new }
{
    if random % 3 == 0 {
        hand.more();
        diary.more = diary.more.wrapping_add(1);
    } else if random % 3 == 1 {
        hand.less();
        diary.less = diary.less.wrapping_add(1);
    } else {
        let place = random % 4_294_967_296;
        hand.offer(place);
        diary.least = Some(diary.least.unwrap_or(place).min(place));
    }
}

fn one_call(alloc: Global, hand: &mut Hand, diary: &mut Diary, random: u64)
    requires { hand.old.vars ≡ 18 }
    ensures { SameHand hand.old hand.new }
{
    match random % 8 {
        0 | 1 | 2 => put(alloc, hand, diary),
        3 | 4 => take(hand, diary),
        5 | 6 => steal(hand, diary, (random / 8 % 4) as usize),
        _ => count(hand, diary, random / 8),
    }
}

/// Calls in random order, as many as there are turns.
fn random_calls(alloc: Global, mut hand: Hand, mut diary: Diary) -> Home
    requires { hand.vars ≡ 18 }
    ensures { SameHand hand result.hand }
{
    let mut random = diary.last as u64 + 1;
    'turns: for _ in 0..TURNS {
        random = next_random(random);
        one_call(alloc, &mut hand, &mut diary, random);
    }
    Home { hand, diary }
}

/// A hand makes its calls in a thread of its own. It has this number.
fn start(
    rt: &impl Threads,
    alloc: Global,
    hand: Hand,
    number: u32,
) -> Result<PromisedHandle<Home, SameAs>, AllocError>
    requires { hand.vars ≡ 18 }
    ensures { IfOk result (λ h. h.promise.0.value ≡ hand) }
{
    let diary = Diary::new(alloc, number, TURNS)?;
    let promise = SameAs(Snapshot::of(&hand));
    Ok(thread::spawn_with(rt, promise, move || random_calls(alloc, hand, diary))?)
}

/// The last two of four hands make their calls at once, the first of them in a thread of its own.
fn last_two_at_once(
    rt: &impl Threads,
    alloc: Global,
    third: Hand,
    last: Hand,
) -> Result<(Home, Home), AllocError>
    requires { (third.vars ≡ 18) × (last.vars ≡ 18) }
    ensures { IfOk result (λ r. SameHand third r.0.hand × SameHand last r.1.hand) }
{
    let third = start(rt, alloc, third, 2)?;
    let last = random_calls(alloc, last, Diary::new(alloc, 3, TURNS)?);
    Ok((third.join(rt), last))
}

/// The last three of four hands make their calls at once, the first two of them in threads of their
/// own.
fn last_three_at_once(
    rt: &impl Threads,
    alloc: Global,
    second: Hand,
    third: Hand,
    last: Hand,
) -> Result<(Home, Home, Home), AllocError>
    requires { (second.vars ≡ 18) × (third.vars ≡ 18) × (last.vars ≡ 18) }
    ensures { IfOk result (λ r. SameHand second r.0.hand × SameHand third r.1.hand × SameHand last r.2.hand) }
{
    let second = start(rt, alloc, second, 1)?;
    let (third, last) = last_two_at_once(rt, alloc, third, last)?;
    Ok((second.join(rt), third, last))
}

/// Four hands make their calls at once, the first three in threads of their own.
fn at_once(
    rt: &impl Threads,
    alloc: Global,
    first: Hand,
    second: Hand,
    third: Hand,
    last: Hand,
) -> Result<(Home, Home, Home, Home), AllocError>
    requires { (first.vars ≡ 18) × (second.vars ≡ 18) × (third.vars ≡ 18) × (last.vars ≡ 18) }
    ensures { IfOk result (λ r. SameHand first r.0.hand × SameHand second r.1.hand × SameHand third r.2.hand × SameHand last r.3.hand) }
{
    let first = start(rt, alloc, first, 0)?;
    let (second, third, last) = last_three_at_once(rt, alloc, second, third, last)?;
    Ok((first.join(rt), second, third, last))
}

/// Hands that are back, and their diaries.
fn parted(
    alloc: Global,
    first: Home,
    second: Home,
    third: Home,
    last: Home,
) -> Result<(Vec<Hand>, Vec<Diary>), AllocError>
    ensures { IfOk result (λ r. r.0.items ≡ first.hand ∷ second.hand ∷ third.hand ∷ last.hand ∷ []) }
{
    let hands = vec![in alloc; first.hand, second.hand, third.hand, last.hand]?;
    let diaries = vec![in alloc; first.diary, second.diary, third.diary, last.diary]?;
    Ok((hands, diaries))
}

/// The four hands of a pool make their calls, and come home.
fn crowd(
    rt: &impl Threads,
    alloc: Global,
    pool: &Pool,
    mut hands: Vec<Hand>,
) -> Result<(Vec<Hand>, Vec<Diary>), AllocError>
    requires count { length hands.items ≡ 4 }
    requires hands { AreNew pool.now 18 hands.items }
    ensures { IfOk result (λ r. AreAllOf pool.now r.0.items) }
{
    let _ = pool;
    let last = hands.remove(3);
    let third = hands.remove(2);
    let second = hands.remove(1);
    let first = hands.remove(0);
    let (first, second, third, last) = at_once(rt, alloc, first, second, third, last)?;
    let (home, diaries) = parted(alloc, first, second, third, last)?;
    Ok((home, diaries))
}

/// Whether the cubes of each deque come in the order in which they were put, in one hand's list.
fn keeps_order(got: &[u32]) -> bool {
    (0..4u32).all(|hand| {
        let mut last = 0;
        got.iter()
            .filter(|number| **number >> 16 == hand)
            .all(|number| {
                let rises = *number > last || *number == 0;
                last = *number;
                rises
            })
    })
}

/// Whether the cubes got and left are the root, whose number is 0, and the cubes put, each once.
fn each_once(alloc: Global, diaries: &[Diary], closing: &Closing) -> Result<bool, AllocError> {
    let mut put = Vec::new(alloc);
    let mut got = Vec::new(alloc);
    put.push(0)?;
    for diary in diaries {
        put.extend_from_slice(&diary.put)?;
        got.extend_from_slice(&diary.got)?;
    }
    for cube in closing.left.iter() {
        got.push(bits_of(cube))?;
    }
    put.sort_unstable();
    got.sort_unstable();
    Ok(put.as_slice() == got.as_slice())
}

fn keep_order(diaries: &[Diary]) -> bool {
    for diary in diaries {
        if !keeps_order(&diary.got) {
            return false;
        }
    }
    true
}

/// What diaries say is undone, and the least place that they say was offered.
fn sums(diaries: &[Diary]) -> (u64, Option<u64>) {
    let mut undone: u64 = 1;
    let mut least = None;
    for diary in diaries {
        undone = undone.wrapping_add(diary.more).wrapping_sub(diary.less);
        if let Some(place) = diary.least {
            least = Some(least.unwrap_or(place).min(place));
        }
    }
    (undone, least)
}

fn crowd_closed(rt: &impl Threads, alloc: Global) -> Result<(Vec<Diary>, Closing), Fail> {
    let (pool, hands) = open(alloc, 4, 18, cube_of(alloc, 18, &[])?)?;
    let (hands, diaries) = crowd(rt, alloc, &pool, hands)?;
    let closing = pool.close(hands)?;
    Ok((diaries, closing))
}

#[test]
fn random_run(rt: HostRuntime) -> Result<(), Fail> {
    let (diaries, closing) = crowd_closed(&rt, rt.alloc())?;
    assert!(rt; each_once(rt.alloc(), &diaries, &closing)?);
    assert!(rt; keep_order(&diaries));
    assert!(rt; (closing.undone, closing.least) == sums(&diaries));
    Ok(())
}

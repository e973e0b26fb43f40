//! A pool of one hand, and of two: what tests need to know of them to close them again.
ghost use Rattle.std.specs.Prelude.{◌≡◌, IfOk};
ghost use Rattle.theory.specs.Ledger.{IsFit};
ghost use Rattle.pool_tests.specs.FewHands.{IsOnly, IsPair};

use kernel::Cube;
use pool::{Closing, Hand, Pool, PoolRefusal, open};
use std::alloc::{AllocError, Global};

pub fn open_one(alloc: Global, vars: u32, root: Cube) -> Result<(Pool, Hand), PoolRefusal>
    requires { IsFit vars root }
    ensures only { IfOk result (λ r. IsOnly r.0 r.1) }
    ensures vars { IfOk result (λ r. r.1.vars ≡ vars) }
{
    let (pool, mut hands) = open(alloc, 1, vars, root)?;
    let hand = hands.remove(0);
    Ok((pool, hand))
}

pub fn close_one(alloc: Global, pool: Pool, hand: Hand) -> Result<Closing, AllocError>
    requires { IsOnly pool hand }
{
    let mut hands = Vec::new(alloc);
    hands.push(hand)?;
    pool.close(hands)
}

pub fn open_two(alloc: Global, vars: u32, root: Cube) -> Result<(Pool, Hand, Hand), PoolRefusal>
    requires { IsFit vars root }
    ensures pair { IfOk result (λ r. IsPair r.0 r.1 r.2) }
    ensures vars { IfOk result (λ r. (r.1.vars ≡ vars) × (r.2.vars ≡ vars)) }
{
    let (pool, mut hands) = open(alloc, 2, vars, root)?;
    let two = hands.remove(1);
    let one = hands.remove(0);
    Ok((pool, one, two))
}

/// Closes a pool with its hands in the other order.
pub fn close_two(alloc: Global, pool: Pool, one: Hand, two: Hand) -> Result<Closing, AllocError>
    requires { IsPair pool one two }
{
    let mut hands = Vec::new(alloc);
    hands.push(two)?;
    hands.push(one)?;
    pool.close(hands)
}

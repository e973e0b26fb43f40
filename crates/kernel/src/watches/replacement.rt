//! Another literal for a clause to watch, in place of one that became false.
//!
//! A clause of many literals that become false one after the other would be gone through from its
//! front each time, and so take the square of its length. So a long clause is gone through from
//! where a literal was found last, and then from its front. Source: Gent, 'Optimal Implementation
//! of Watched Literals and More General Techniques' (JAIR 2013). On one clause of 262,143 literals
//! it is the difference between a second and a minute.
ghost use Rattle.std.specs.Prelude.{◌≡◌, ◌<◌, ◌≤◌, ◌⊎◌, true, false, IfSome, IfNone, length, take};
ghost use Rattle.theory.specs.Literals.{Literal, same, has, negated};
ghost use Rattle.theory.specs.Truth.{IsOver};
ghost use Rattle.theory.specs.Trails.{literals};
ghost use Rattle.kernel.specs.Visiting.{IsLast};
ghost use Rattle.kernel.specs.Seeing.{IsFirstOpen, IsFound};
ghost use Rattle.kernel.specs.TruthTables.{AreTruths};

use crate::watches::truths::Truths;
use cnf::Lit;
use std::alloc::{AllocError, Global};
use trail::Trail;

/// Of more literals than this behind the two that it watches a clause is long. Others are gone
/// through faster than a place of theirs is read.
const LONG: usize = 64;

/// By clause: the place of the literal that was found last, in a long one, counted behind the two
/// that it watches. It is a hint: any place serves.
#[derive(Drop)]
pub struct Starts {
    places: Vec<u32>,
}

impl Starts {
    /// The front of each of so many clauses. Clauses behind these, which are learnt, have no place
    /// of their own.
    pub fn with_room(alloc: Global, count: usize) -> Result<Starts, AllocError> {
        Ok(Starts {
            places: vec![in alloc; 0; count]?,
        })
    }

    /// The place to begin at in a clause of so many literals.
    fn of(&self, number: usize, count: usize) -> usize
        ensures { result ≤ count }
    {
        if number < self.places.len() {
            (self.places[number] as usize).min(count)
        } else {
            0
        }
    }

    /// Notes where a literal was found.
    fn put(&mut self, number: usize, place: usize) {
        if number < self.places.len() {
            self.places[number] = u32::try_from(place).unwrap_or(0);
        }
    }
}

/// The place of the first literal from a place on that isn't false. It asks nothing else of a
/// literal, since propagation passes most of them here. There is a literal at the place to begin at,
/// so the end is asked for behind each literal: LLVM then counts by one number, where for a range it
/// keeps a second one and an address. Pigeonholes take a fifteenth less time by it.
fn first_open(truths: Truths, clause: &[Lit], start: usize) -> Option<usize>
    requires table { AreTruths truths.trail.now truths.table.now }
    requires over { IsOver truths.trail.now.vars clause.now }
    requires start { start < length clause.now }
    ensures some { IfSome result (IsFirstOpen (literals truths.entry.trail.now.entries) clause.now start) }
    ensures none { IfNone result ((k : Literal) → IsLast (literals truths.entry.trail.now.entries) (take start clause.now) k → IsLast (literals truths.entry.trail.now.entries) clause.now k) }
{
    let mut place = start;
    'places: loop {
        if !truths.status(clause[place]).is_falsified() {
            return Some(place);
        }
        place += 1;
        if place == clause.len() {
            return None;
        }
    }
}

/// Whether a literal isn't false, and other than `except`.
fn is_replacement(trail: &Trail, lit: Lit, except: Lit) -> bool
    requires { lit.var ≤ trail.now.vars }
    ensures yes { result ≡ true → (same lit except ≡ false) × (has (literals trail.now.entries) (negated lit) ≡ false) }
    ensures no { result ≡ false → (same lit except ≡ true) ⊎ (has (literals trail.now.entries) (negated lit) ≡ true) }
{
    if trail.status(lit).is_falsified() {
        return false;
    }
    !lit.same(&except)
}

/// The place of the first literal from a place on that isn't false, other than `except`.
///
/// Most searches end without it, so it stays out of the loop over clauses; and it is cold, so that
/// those go on without a jump. Pigeonholes take a twentieth less time where this, the search of long
/// clauses and that for a false clause are.
#[cold]
#[inline(never)]
fn next_replacement(trail: &Trail, clause: &[Lit], except: Lit, start: usize) -> Option<usize>
    requires over { IsOver trail.now.vars clause.now }
    requires start { start ≤ length clause.now }
    requires before { IsLast (literals trail.now.entries) (take start clause.now) except }
    ensures some { IfSome result (λ place. (start ≤ place) × IsFound (literals trail.now.entries) clause.now except place) }
    ensures none { IfNone result (IsLast (literals trail.now.entries) clause.now except) }
{
    for place in start..clause.len() {
        if is_replacement(trail, clause[place], except) {
            return Some(place);
        }
    }
    None
}

/// The place of a literal that isn't false, other than `except`, looked for from a place on and
/// then from the front.
///
/// Within the loop over clauses it would take the registers that short ones need.
#[cold]
#[inline(never)]
fn replacement_from(trail: &Trail, clause: &[Lit], except: Lit, start: usize) -> Option<usize>
    requires over { IsOver trail.now.vars clause.now }
    requires start { start ≤ length clause.now }
    ensures some { IfSome result (IsFound (literals trail.now.entries) clause.now except) }
    ensures none { IfNone result (IsLast (literals trail.now.entries) clause.now except) }
{
    match next_replacement(trail, &clause[start..], except, 0) {
        Some(place) => Some(start + place),
        None => next_replacement(trail, &clause[..start], except, 0),
    }
}

/// `replacement` in a long clause, from where a literal was found last. It is to be inlined: were
/// it a call whose answer is handed on whole, LLVM would test those for short clauses twice too.
fn long_replacement(
    trail: &Trail,
    clause: &[Lit],
    except: Lit,
    starts: &mut Starts,
    number: usize,
) -> Option<usize>
    requires over { IsOver trail.now.vars clause.now }
    requires long { 2 ≤ length clause.now }
    requires front { IsLast (literals trail.now.entries) (take 2 clause.now) except }
    ensures some { IfSome result (λ place. (2 ≤ place) × IsFound (literals trail.now.entries) clause.now except place) }
    ensures none { IfNone result (IsLast (literals trail.now.entries) clause.now except) }
{
    let start = starts.of(number, clause.len() - 2);
    match replacement_from(trail, &clause[2..], except, start) {
        None => None,
        Some(place) => {
            starts.put(number, place);
            Some(place + 2)
        }
    }
}

/// The place of a literal that isn't false, other than `except`, behind the two front ones of the
/// clause of a number. A clause of the formula may have a literal more than once, so `except`
/// itself may stand there too. The answer is the place alone, which fits into registers, counted in
/// the whole clause, so that one address serves this search and what is done with the literal.
pub fn replacement(
    truths: Truths,
    clause: &[Lit],
    except: Lit,
    starts: &mut Starts,
    number: usize,
) -> Option<usize>
    requires table { AreTruths truths.trail.now truths.table.now }
    requires over { IsOver truths.trail.now.vars clause.now }
    requires long { 2 < length clause.now }
    requires front { IsLast (literals truths.trail.now.entries) (take 2 clause.now) except }
    ensures some { IfSome result (λ place. (2 ≤ place) × IsFound (literals truths.entry.trail.now.entries) clause.now except place) }
    ensures none { IfNone result (IsLast (literals truths.entry.trail.now.entries) clause.now except) }
{
    if clause.len() - 2 > LONG {
        return long_replacement(truths.trail, clause, except, starts, number);
    }
    match first_open(truths, clause, 2) {
        None => None,
        Some(place) => {
            if clause[place].same(&except) {
                next_replacement(truths.trail, clause, except, place)
            } else {
                Some(place)
            }
        }
    }
}

//! What is seen of a clause when one of its two front literals, which it watches, became false. A
//! visit reads where it ends, and its literals; one found changes places with the false one.
//! Source: Een and Sorensson, 'An Extensible SAT-solver' (SAT 2003).
ghost use Rattle.std.specs.Prelude.{◌≡◌, ◌+◌, ◌*◌, ◌^◌, ◌<◌, ◌≤◌, ◌⊎◌, length, slice_index_or};
ghost use Rattle.std.specs.List.Sorted.{IsPermutation};
ghost use Rattle.theory.specs.Trails.{literals};
ghost use Rattle.cnf.specs.Lits.{code};
ghost use Rattle.kernel.specs.Arranging.{front};
ghost use Rattle.kernel.specs.Seeing.{CanSee, IsSeen, other_front};
ghost use Rattle.kernel.specs.TruthTables.{AreTruths};

use crate::watches::replacement::{Starts, replacement};
use crate::watches::truths::Truths;
use crate::watches::watch::Watched;
use cnf::Lit;
use trail::Truth;

/// What is seen of a clause.
#[derive(Clone, Copy)]
pub enum WatchVisit {
    /// The other front literal, which is true.
    Satisfied(Lit),
    /// The two literals that stand in front now: the other one, and one that isn't false.
    Moved(Watched),
    /// The other front literal, which isn't true, and what is said of it. All others are false.
    Last(Lit, Truth),
}

/// The code of a literal.
fn code_of(lit: Lit) -> usize
    ensures code { result ≡ code lit }
    ensures var { (1 ≤ lit.var) × (lit.var < 2 ^ 31) }
{
    let _var = lit.var(); // it bounds the code
    lit.code()
}

/// The front literal beside `gone`, one of the two. Which one it is can't be foretold, so no branch
/// and no address depends on it: of the three codes it is the one that stands an odd number of
/// times. A search of parity chains takes a fiftieth less time by it than where the place of the
/// other literal was computed first.
fn beside(lits: &[Lit], gone: Lit) -> Lit
    requires long { 2 ≤ length lits.now }
    requires front { ((front lits.now).first ≡ gone) ⊎ ((front lits.now).second ≡ gone) }
    ensures { result ≡ other_front (front lits.now) gone }
{
    let code = code_of(lits[0]) ^ code_of(lits[1]) ^ code_of(gone);
    Lit::of((code / 2) as u32, code % 2 == 1)
}

/// Puts the literal at a place behind the two front ones in front, beside `other`. The front
/// literal `gone` takes its place. The answer is the two in front now.
fn bring(lits: &mut [Lit], gone: Lit, other: Lit, place: usize) -> Watched
    requires inside { (2 ≤ place) × (place < length lits.old) }
    requires front { ((front lits.old).first ≡ gone) ⊎ ((front lits.old).second ≡ gone) }
    requires other { other ≡ other_front (front lits.old) gone }
    ensures permutes { IsPermutation lits.old lits.new }
    ensures front { front lits.new ≡ result }
    ensures other { result.first ≡ other }
    ensures found { result.second ≡ slice_index_or lits.old place other }
{
    let found = lits[place];
    lits[0] = other;
    lits[1] = found;
    lits[place] = gone;
    Watched {
        first: other,
        second: found,
    }
}

/// Visits a clause of more than two literals, in which `gone`, one of the two front ones, became
/// false.
pub fn visit_literals(
    truths: Truths,
    lits: &mut [Lit],
    gone: Lit,
    starts: &mut Starts,
    number: usize,
) -> WatchVisit
    requires table { AreTruths truths.trail.now truths.table.now }
    requires long { 2 < length lits.old }
    requires sees { CanSee truths.trail.now.vars (literals truths.trail.now.entries) gone lits.old }
    ensures { IsSeen (literals truths.entry.trail.now.entries) gone lits.old lits.new result }
{
    let other = beside(lits, gone);
    let status = truths.status(other);
    if status.is_satisfied() {
        return WatchVisit::Satisfied(other);
    }
    match replacement(truths, lits, other, starts, number) {
        None => WatchVisit::Last(other, status),
        Some(place) => WatchVisit::Moved(bring(lits, gone, other, place)),
    }
}

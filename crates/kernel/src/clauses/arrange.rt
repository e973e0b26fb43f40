//! The literals of a clause that is to be watched, with the two that it watches in front.
ghost use Rattle.std.specs.Prelude.{◌≡◌, ◌<◌, ◌≤◌, true, drop, length, slice_index_or};
ghost use Rattle.std.specs.List.Sorted.{IsPermutation};
ghost use Rattle.theory.specs.Literals.{has};
ghost use Rattle.kernel.specs.Watching.{IsPair};
ghost use Rattle.kernel.specs.Arranging.{front};

use crate::watches::watch::Watched;
use cnf::Lit;

/// Where a literal stands from a place on.
fn find(lits: &[Lit], from: usize, lit: Lit) -> usize
    requires { has (drop from lits.now) lit ≡ true }
    ensures behind { from ≤ result }
    ensures within { result < length lits.now }
    ensures found { slice_index_or lits.now result lit ≡ lit }
{
    for place in from..lits.len() {
        if lits[place].same(&lit) {
            return place;
        }
    }
    unreachable!()
}

/// Puts two literals of a clause in front, or the only one.
pub fn lead(lits: &mut [Lit], watched: Watched)
    requires { IsPair lits.old watched }
    ensures permutes { IsPermutation lits.old lits.new }
    ensures front { front lits.new ≡ watched }
{
    let first = find(lits, 0, watched.first);
    lits.swap(0, first);
    if watched.first.same(&watched.second) {
        return;
    }
    let second = find(lits, 1, watched.second);
    lits.swap(1, second);
}

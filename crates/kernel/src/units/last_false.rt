//! Where the last false literal of a clause stands on the trail, and the literal that is left of a
//! unit clause.
ghost use Rattle.std.specs.Prelude.{◌≡◌, ◌≤◌, ◌∷◌, [], true, length};
ghost use Rattle.theory.specs.Literals.{Clause, has};
ghost use Rattle.theory.specs.Truth.{IsOver};
ghost use Rattle.theory.specs.Propagation.{last_false};
ghost use Rattle.theory.specs.Trails.{literals};
ghost use Rattle.kernel.specs.Watching.{WasUnit};
ghost use Rattle.kernel.specs.Placing.{IsLastOf};

use cnf::Lit;
use trail::Trail;

/// The place of a literal's entry if the literal is false, counted from 1, and else 0.
fn false_place(trail: &Trail, lit: Lit) -> usize
    requires { lit.var ≤ trail.now.vars }
    ensures { result ≡ last_false trail.now.entries (lit ∷ []) }
{
    let _count = trail.entries().len(); // it bounds the places
    if trail.truth(lit) == Some(false) {
        match trail.place(lit.var()) {
            None => 0,
            Some(place) => place + 1,
        }
    } else {
        0
    }
}

/// The place of a clause's last false literal on the trail, counted from 1, and 0 where none is
/// false.
pub fn last_place(trail: &Trail, clause: &[Lit]) -> usize
    requires { IsOver trail.now.vars clause.now }
    ensures { result ≡ last_false trail.now.entries clause.now }
{
    let mut last = 0;
    for lit in clause {
        let lit = *lit;
        last = last.max(false_place(trail, lit));
    }
    last
}

/// The literal of a clause that isn't false, where all others are; one of them where all are
/// false.
pub fn open_literal(trail: &Trail, clause: &[Lit]) -> Lit
    requires over { IsOver trail.now.vars clause.now }
    requires was_unit { WasUnit (literals trail.now.entries) clause.now }
    ensures { IsLastOf (literals trail.now.entries) clause.now result }
{
    for lit in clause {
        if !trail.status(*lit).is_falsified() {
            return *lit;
        }
    }
    clause[0]
}

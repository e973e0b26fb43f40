//! Which literals a clause watches, and the entries of the lists of those that watch a literal.
ghost use Rattle.std.specs.Prelude.{◌≡◌, ◌+◌, ◌*◌, ◌<◌, ◌^◌, true, false};
ghost use Rattle.theory.specs.Literals.{same};

use cnf::Lit;
use std::marker::Model;

/// The two watched literals of a clause. They are one only where the clause has no other literal;
/// those of an empty clause mean nothing.
#[derive(Clone, Copy)]
pub struct Watched {
    pub first: Lit,
    pub second: Lit,
}

/// An entry of a literal's list: a clause that watches it. Where the blocker, some other literal of
/// the clause, is true, the clause need not be looked at; most visits end there, without a look at
/// the clause's own memory. Of a clause of at most two literals the blocker is the literal that is
/// left, so it is never looked at. Source: blocking literals as in MiniSat 2.2, and special watches
/// of binary clauses as in CaDiCaL.
#[derive(Clone, Copy)]
pub struct Watch {
    /// The place of the clause.
    pub clause: u32,
    pub blocker: Lit,
    /// Whether the clause has at most two literals.
    pub is_short: bool,
}

/// So many clauses can be watched.
pub const MOST_CLAUSES: usize = 1 << 31;

/// An entry as the lists keep it, in 8 bytes: propagation goes through the lists more than through
/// all else, and in 12 bytes fewer of them stay in the caches.
#[derive(Clone, Copy)]
pub struct PackedWatch {
    // twice the place of the clause, and one more where it has at most two literals
    double: u32,
    blocker: Lit,
}

impl Model for PackedWatch {
    ghost use Rattle.std.specs.Prelude.{◌+◌, ◌*◌, ◌/◌, ◌%◌, nat_eq, cond};
    ghost use Rattle.kernel.specs.declared.watches.watch.Watch.{Watch};

    ghost Value = { Watch };

    ghost view = { λ a. record { clause = a.double / 2; blocker = a.blocker; is_short = nat_eq (a.double % 2) 1 } };

    ghost inverse = { λ w. record { double = 2 * w.clause + cond w.is_short 1 0; blocker = w.blocker } };
}

impl PackedWatch {
    /// An entry of a clause below the most of them.
    pub fn of(watch: Watch) -> PackedWatch
        requires { watch.clause < 2 ^ 31 }
        ensures { result ≡ watch }
    {
        let double = 2 * watch.clause;
        PackedWatch {
            double: if watch.is_short { double + 1 } else { double },
            blocker: watch.blocker,
        }
    }

    /// What it says.
    pub fn watch(&self) -> Watch
        ensures same { result ≡ self.now }
        ensures small { result.clause < 2 ^ 31 }
    {
        Watch {
            clause: self.double / 2,
            blocker: self.blocker,
            is_short: self.double % 2 == 1,
        }
    }

    /// Changes the blocker.
    pub fn put_blocker(&mut self, blocker: Lit)
        ensures { self.new ≡ record self.old { blocker = blocker } }
    {
        self.blocker = blocker;
    }
}

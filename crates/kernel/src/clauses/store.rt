//! Clauses, arranged for propagation: it changes the order of a clause's literals as it likes. What
//! the clauses were as given is what contracts speak of, and nothing else needs to know it: neither
//! propagation nor analysis asks for the order of a clause's literals. A copy as given took up to a
//! fifth of a run's memory, and a tenth of the time of large formulas.
ghost use Rattle.std.specs.Prelude.{◌≡◌, ◌+◌, ◌<◌, ◌≤◌, ◌⊎◌, [], ◌∷◌, ◌++◌, All, length, take, IfOk, OnOk, OnErr, slice_index_or, slice_set, ℕ, List, false, true};
ghost use Rattle.std.specs.List.Sorted.{IsPermutation};
ghost use Rattle.theory.specs.Literals.{Clause, has, negated};
ghost use Rattle.theory.specs.Forgetting.{forget};
ghost use Rattle.theory.specs.Truth.{IsOver};
ghost use Rattle.theory.specs.Trails.{literals};
ghost use Rattle.kernel.specs.declared.watches.watch.Watched.{Watched};
ghost use Rattle.kernel.specs.Watching.{At, IsPair};
ghost use Rattle.kernel.specs.Forgetting.{Tells, ArePairsLeft, names};
ghost use Rattle.kernel.specs.Arranging.{front};
ghost use Rattle.kernel.specs.Seeing.{IsWatchVisit};
ghost use Rattle.kernel.specs.TruthTables.{AreTruths};

use crate::clauses::clauses::Clauses;
use crate::clauses::given::Given;
use crate::clauses::named::Named;
use crate::watches::replacement::Starts;
use crate::watches::truths::Truths;
use crate::watches::watch::Watched;
use crate::watches::watch_visit::WatchVisit;
use cnf::{Formula, Lit};
use std::alloc::{AllocError, Global};
use std::marker::Model;

/// Clauses under two watched literals. They are named by their places, from 0 on.
pub struct Store {
    // the clauses as they were given, for contracts alone
    given: Given,
    // the same with their literals in another order: the two that are watched stand in front
    arranged: Clauses,
}

// written out, so that proofs of its owners stay short (docs/PROVING.md)
impl Drop for Store {
    fn drop(self) {
        let Store {
            given: _,
            arranged: _,
        } = self;
    }
}

impl Model for Store {
    ghost use Rattle.std.specs.Prelude.{map};
    ghost use Rattle.kernel.specs.Arranging.{Stored, AreArranged, front};

    ghost Value = { Stored };

    ghost view = { λ s. record { given = s.given; pairs = map front s.arranged } };

    ghost invariant = { λ s. AreArranged s.given s.arranged };
}

impl Store {
    /// No clauses, with room for those of a formula, and for a clause of each of these literals. It
    /// fails where a request for memory is refused.
    pub fn with_room(alloc: Global, formula: &Formula, units: &[Lit]) -> Result<Store, AllocError>
        ensures { IfOk result (λ s. (s.given ≡ []) × (s.pairs ≡ [])) }
    {
        let count = formula.clause_count() + units.len();
        let lits = formula.literal_count() + units.len();
        Ok(Store {
            given: Given::none(),
            arranged: Clauses::with_room(alloc, count, lits)?,
        })
    }

    /// How many clauses there are.
    pub fn len(&self) -> usize
        ensures given { result ≡ length self.now.given }
        ensures pairs { result ≡ length self.now.pairs }
    {
        self.arranged.len()
    }

    /// The literals of the clause at a place, those that are watched in front.
    pub fn arranged(&self, index: usize) -> &[Lit]
        requires { index < length self.now.given }
        ensures { IsPermutation (slice_index_or self.now.given index []) result.now }
    {
        self.arranged.get(index)
    }

    /// The two literals that the clause at a place watches.
    pub fn watched(&self, index: usize) -> Watched
        requires { index < length self.now.pairs }
        ensures { At self.now.pairs index result }
    {
        front_of(self.arranged.get(index))
    }

    /// Puts a clause at the end that watches two of its literals, or the only one. Where a request
    /// for memory is refused, nothing has changed.
    pub fn push(&mut self, clause: &[Lit], watched: Watched) -> Result<(), AllocError>
        requires { IsPair clause.now watched }
        ensures given { OnOk result (self.new.given ≡ self.old.given ++ clause.now ∷ []) }
        ensures pairs { OnOk result (self.new.pairs ≡ self.old.pairs ++ watched ∷ []) }
        ensures err { OnErr result (self.new ≡ self.old) }
    {
        self.arranged.push_led(clause, watched)?;
        self.given.push(clause);
        Ok(())
    }

    /// Puts an empty clause at the end. Where a request for memory is refused, nothing has changed.
    pub fn push_empty(&mut self) -> Result<(), AllocError>
        ensures given { OnOk result (self.new.given ≡ self.old.given ++ [] ∷ []) }
        ensures pairs { OnOk result (self.new.pairs ≡ self.old.pairs ++ front [] ∷ []) }
        ensures err { OnErr result (self.new ≡ self.old) }
    {
        self.arranged.push(&[])?;
        self.given.push(&[]);
        Ok(())
    }

    /// Cuts off the clauses from a place on. It takes no memory.
    pub fn truncate(&mut self, count: usize)
        requires { count ≤ length self.old.given }
        ensures given { self.new.given ≡ take count self.old.given }
        ensures pairs { self.new.pairs ≡ take count self.old.pairs }
    {
        self.given.truncate(count);
        self.arranged.truncate(count);
    }

    /// Puts `1 -1` in place of the clauses that are named, which are from `first` on; no clause
    /// from there on is empty. It takes no memory, and time by the literals of the clauses from
    /// `first` on.
    pub fn forget(&mut self, first: usize, named: &Named)
        requires within { first ≤ length self.old.given }
        requires learnt { (n : ℕ) → n < first → names named.now n ≡ false }
        requires told { (numbers : List ℕ) × Tells (names named.now) numbers }
        requires some { (n : ℕ) → first ≤ n → At self.old.given n [] → ⊥ }
        ensures given { (numbers : List ℕ) → Tells (names named.now) numbers → self.new.given ≡ forget numbers 1 self.old.given }
        ensures pairs { (numbers : List ℕ) → Tells (names named.now) numbers → ArePairsLeft numbers self.old.pairs self.new.pairs }
    {
        self.given.forget(named);
        self.arranged.forget(first, named);
    }

    /// Visits the clause at a place, of more than two literals, in which the watched literal
    /// `gone` became false.
    pub fn visit_clause(
        &mut self,
        truths: Truths,
        gone: Lit,
        index: usize,
        starts: &mut Starts,
    ) -> WatchVisit
        requires table { AreTruths truths.trail.now truths.table.now }
        requires within { index < length self.old.given }
        requires over { All (IsOver truths.trail.now.vars) self.old.given }
        requires long { (c : Clause) → At self.old.given index c → 2 < length c }
        requires gone { has (literals truths.trail.now.entries) (negated gone) ≡ true }
        requires watched { (w : Watched) → At self.old.pairs index w → (w.first ≡ gone) ⊎ (w.second ≡ gone) }
        ensures given { self.new.given ≡ self.old.given }
        ensures seen { (c : Clause) (w : Watched) → At self.old.given index c → At self.old.pairs index w
            → (u : Watched) × (self.new.pairs ≡ slice_set self.old.pairs index u) × IsWatchVisit (literals truths.entry.trail.now.entries) gone c w u result }
    {
        self.arranged.visit_clause(truths, gone, index, starts)
    }
}

/// The two literals in front of a clause.
fn front_of(lits: &[Lit]) -> Watched
    ensures { result ≡ front lits.now }
{
    match lits.len() {
        0 => Watched {
            first: Lit::of(1, true),
            second: Lit::of(1, true),
        },
        1 => Watched {
            first: lits[0],
            second: lits[0],
        },
        _ => Watched {
            first: lits[0],
            second: lits[1],
        },
    }
}

//! Learnt clauses are forgotten. Each keeps its number and becomes `1 -1`, which is never unit and
//! never false, so no list need have it.
ghost use Rattle.std.specs.Prelude.{◌≡◌, ◌<◌, ◌≤◌, [], None, All, OnOk, OnErr, length, map, take, slice_index_or, slice_set, ℕ, List, Option};
ghost use Rattle.theory.specs.Trails as trails;
ghost use Rattle.theory.specs.Propagation.{least_false};
ghost use Rattle.theory.specs.Forgetting.{forget};
ghost use Rattle.kernel.specs.Watching.{At};
ghost use Rattle.kernel.specs.Visiting.{kept_of};
ghost use Rattle.kernel.specs.Attaching.{IsWatching};
ghost use Rattle.kernel.specs.Forgetting.{entries_left, names};

use crate::clauses::named::Named;
use crate::propagator::Propagator;
use crate::watches::watch::PackedWatch;
use std::alloc::AllocError;

/// Takes the entries of clauses that are named out of a list; the answer is how many stay, in their
/// order.
pub(crate) fn keep_unnamed(list: &mut [PackedWatch], named: &Named) -> usize
    ensures within { result ≤ length list.new }
    ensures kept { take result list.new ≡ entries_left (names named.now) list.old }
{
    let mut end = 0;
    for place in 0..list.len() {
        let entry = list[place];
        if !named.has(entry.watch().clause as usize) {
            list[end] = entry;
            end += 1;
        }
    }
    end
}

impl Propagator {
    /// Takes the entries of clauses that are named out of a list.
    fn drop_entries(&mut self, at: usize, named: &Named)
        requires { at < length self.old.lists }
        ensures kept { (self.new.clauses.given ≡ self.old.clauses.given) × (self.new.clauses.pairs ≡ self.old.clauses.pairs) × (self.new.units ≡ self.old.units) × (self.new.conflict ≡ self.old.conflict) }
        ensures long { length self.new.lists ≡ length self.old.lists }
        ensures list { (kept_of self.new).lists ≡ slice_set (kept_of self.old).lists at (entries_left (names named.now) (slice_index_or (kept_of self.old).lists at [])) }
    {
        self.lists.drop_named(at, named);
    }

    /// Takes the entries of clauses that are named out of all lists.
    fn drop_all_entries(&mut self, named: &Named)
        ensures kept { (self.new.clauses.given ≡ self.old.clauses.given) × (self.new.clauses.pairs ≡ self.old.clauses.pairs) × (self.new.units ≡ self.old.units) × (self.new.conflict ≡ self.old.conflict) }
        ensures long { length self.new.lists ≡ length self.old.lists }
        ensures lists { (kept_of self.new).lists ≡ map (entries_left (names named.now)) (kept_of self.old).lists }
    {
        for at in 0..self.lists.len() {
            self.drop_entries(at, named);
        }
    }

    /// Forgets the clauses of these numbers, which were learnt: `first` clauses were there from the
    /// beginning, and none behind them is empty. No clause is false. It takes time by all entries
    /// of lists and by the learnt clauses' literals. Where a request for memory is refused, the
    /// clauses are as they were.
    pub fn forget(&mut self, first: usize, numbers: &[u64]) -> Result<(), AllocError>
        requires inside { first ≤ length self.old.clauses.given }
        requires learnt { All (λ n. (first < n) × (n ≤ length self.old.clauses.given)) numbers.now }
        requires some { (n : ℕ) → first ≤ n → At self.old.clauses.given n [] → ⊥ }
        ensures clauses { OnOk result (self.new.clauses.given ≡ forget numbers.now 1 self.old.clauses.given) }
        ensures watching { OnOk result ((V at floor : ℕ) (T : trails.Trail) (single : List ℕ) (empty : Option ℕ) → least_false (trails.literals T) self.old.clauses.given ≡ None
            → IsWatching V first self.old.clauses.given T at floor (kept_of self.old) single empty
            → IsWatching V first self.new.clauses.given T at floor (kept_of self.new) single empty) }
        ensures refused { OnErr result (self.new.clauses.given ≡ self.old.clauses.given) }
    {
        let alloc = self.lists.allocator();
        let named = Named::of(alloc, first, self.clauses.len(), numbers)?;
        self.clauses.forget(first, &named);
        self.drop_all_entries(&named);
        self.units.drop_named(&named);
        Ok(())
    }
}

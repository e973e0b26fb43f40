//! The learnt clauses of a cube are cut off again.
ghost use Rattle.std.specs.Prelude.{◌≡◌, ◌+◌, ◌<◌, ◌≤◌, ◌*◌, ◌∷◌, [], ◌++◌, All, IfOk, OnOk, OnErr, Some, None, length, map, take, drop, slice_index_or, slice_set, ℕ, List, ◌⊎◌};
ghost use Rattle.std.specs.List.{Contains};
ghost use Rattle.std.specs.List.Sorted.{IsPermutation};
ghost use Rattle.theory.specs.Truth.{IsOver};
ghost use Rattle.theory.specs.Trails as trails;
ghost use Rattle.theory.specs.Literals.{Clause};
ghost use Rattle.kernel.specs.declared.watches.watch.Watch.{Watch};
ghost use Rattle.kernel.specs.declared.watches.watch.Watched.{Watched};
ghost use Rattle.cnf.specs.Lits.{code};
ghost use Rattle.kernel.specs.Watching.{At};
ghost use Rattle.kernel.specs.Visiting.{kept_of};
ghost use Rattle.kernel.specs.Attaching.{IsWatching};
ghost use Rattle.kernel.specs.Cutting.{IsKeptBelow, AreKeptBelow, AreCodesOf};

use crate::propagator::Propagator;
use crate::watches::watch::PackedWatch;
use std::alloc::AllocError;

/// Takes the entries of clauses from `first` on out of a list; the answer is how many stay. Their
/// order isn't kept.
pub(crate) fn keep_below(list: &mut [PackedWatch], first: usize) -> usize
    ensures within { result ≤ length list.new }
    ensures kept { IsKeptBelow first list.old (take result list.new) }
{
    let mut end = list.len();
    let mut place = 0;
    while place < end {
        if (list[place].watch().clause as usize) < first {
            place += 1;
        } else {
            end -= 1;
            list[place] = list[end];
        }
    }
    end
}

impl Propagator {
    /// Where the lists stand that have entries of clauses from `first` on, by rising number; some
    /// stand here twice.
    fn lists_from(&self, first: usize) -> Result<Vec<usize>, AllocError>
        requires first { first ≤ length self.now.clauses.pairs }
        requires lists { (n : ℕ) (w : Watched) → first ≤ n → At self.now.clauses.pairs n w → (code w.first < length self.now.lists) × (code w.second < length self.now.lists) }
        ensures within { IfOk result (λ cs. All (λ n. n < length self.now.lists) cs.items) }
        ensures codes { IfOk result (λ cs. AreCodesOf first self.now.clauses.pairs cs.items) }
    {
        let alloc = self.lists.allocator();
        let mut codes = Vec::new(alloc);
        for index in first..self.clauses.len() {
            let watched = self.clauses.watched(index);
            codes.push(watched.first.code())?;
            codes.push(watched.second.code())?;
        }
        codes.sort_unstable();
        Ok(codes)
    }

    /// Takes the entries of clauses from `first` on out of a list.
    fn drop_list(&mut self, at: usize, first: usize)
        requires { at < length self.old.lists }
        ensures kept { (self.new.clauses.given ≡ self.old.clauses.given) × (self.new.clauses.pairs ≡ self.old.clauses.pairs) × (self.new.units ≡ self.old.units) × (self.new.conflict ≡ self.old.conflict) }
        ensures long { length self.new.lists ≡ length self.old.lists }
        ensures list { (ws : List Watch) × ((kept_of self.new).lists ≡ slice_set (kept_of self.old).lists at ws) × IsKeptBelow first (slice_index_or (kept_of self.old).lists at []) ws }
    {
        self.lists.drop_from(at, first);
    }

    /// Takes the entries of clauses from `first` on out of some lists. A list that is named twice
    /// in a row is gone through once.
    fn drop_from(&mut self, codes: &[usize], first: usize)
        requires { All (λ n. n < length self.old.lists) codes.now }
        ensures kept { (self.new.clauses.given ≡ self.old.clauses.given) × (self.new.clauses.pairs ≡ self.old.clauses.pairs) × (self.new.units ≡ self.old.units) × (self.new.conflict ≡ self.old.conflict) }
        ensures lists { AreKeptBelow first codes.now (kept_of self.old).lists (kept_of self.new).lists }
        ensures long { length self.new.lists ≡ length self.old.lists }
    {
        let mut last = None;
        for code in codes {
            let code = *code;
            if last != Some(code) {
                self.drop_list(code, first);
                last = Some(code);
            }
        }
    }

    /// Cuts the clauses from `first` on off, with their entries in the lists, and begins anew with
    /// those of one literal before it as units, and with the first empty one. It takes time by the
    /// clauses cut off, by the lists that they were in, and by those of one literal. Where a
    /// request for memory is refused, the clauses are as they were or cut.
    pub fn cut(
        &mut self,
        first: usize,
        singles: &[u32],
        empty: Option<u32>,
    ) -> Result<(), AllocError>
        requires inside { first ≤ length self.old.clauses.given }
        requires watching { (V : ℕ) × (T : trails.Trail) × (at : ℕ) × (floor : ℕ) × IsWatching V first self.old.clauses.given T at floor (kept_of self.old) singles.now empty }
        requires over { (V : ℕ) × All (IsOver V) self.old.clauses.given × (length self.old.lists ≡ 2 * V + 2) }
        ensures clauses { OnOk result (self.new.clauses.given ≡ take first self.old.clauses.given) }
        ensures watching { OnOk result ((V at floor : ℕ) (T : trails.Trail) → IsWatching V first self.old.clauses.given T at floor (kept_of self.old) singles.now empty
            → IsWatching V first self.new.clauses.given [] 0 0 (kept_of self.new) singles.now empty) }
        ensures refused { OnErr result ((self.new.clauses.given ≡ self.old.clauses.given) ⊎ (self.new.clauses.given ≡ take first self.old.clauses.given)) }
    {
        let codes = self.lists_from(first)?;
        self.drop_from(&codes, first);
        self.clauses.truncate(first);
        self.units.clear();
        self.conflict = empty;
        self.wait(singles)?;
        Ok(())
    }

    /// Notes clauses as units.
    fn wait(&mut self, clauses: &[u32]) -> Result<(), AllocError>
        requires { self.old.units ≡ [] }
        ensures units { OnOk result (IsPermutation clauses.now self.new.units) }
        ensures kept { (self.new.clauses.given ≡ self.old.clauses.given) × (self.new.clauses.pairs ≡ self.old.clauses.pairs) × (self.new.lists ≡ self.old.lists) × (self.new.conflict ≡ self.old.conflict) }
    {
        for clause in clauses {
            let number = *clause;
            self.units.push(number)?;
        }
        Ok(())
    }
}

//! The entries of a list that is gone through while its clauses are visited.
ghost use Rattle.std.specs.Prelude.{◌≡◌, ◌+◌, ◌<◌, ◌≤◌, length, slice_index_or, slice_set};
ghost use Rattle.kernel.specs.declared.watches.watch.Watch.{Watch};
ghost use Rattle.kernel.specs.Watching.{At};
ghost use Rattle.kernel.specs.EntryLists.{nth_list};
ghost use Rattle.cnf.specs.Lits.{code};

use crate::propagator::Propagator;
use crate::watches::entry_lists::OpenList;
use crate::watches::watch::PackedWatch;
use cnf::Lit;

impl Propagator {
    /// The list of a literal.
    pub fn open_list(&self, lit: Lit) -> OpenList
        requires { code lit < length self.now.lists }
        ensures at { result.at ≡ code lit }
        ensures from { result.from ≡ (nth_list self.now.lists (code lit)).from }
        ensures len { result.len ≡ (nth_list self.now.lists (code lit)).len }
        ensures within { result.len ≤ length (nth_list self.now.lists (code lit)).room }
    {
        self.lists.open(lit.code())
    }

    /// The entry at a place of a list.
    pub fn entry(&self, list: OpenList, place: usize) -> PackedWatch
        requires at { list.at < length self.now.lists }
        requires from { list.from ≡ (nth_list self.now.lists list.at).from }
        requires place { place < length (nth_list self.now.lists list.at).room }
        ensures { result ≡ slice_index_or (nth_list self.now.lists list.at).room place result }
    {
        self.lists.get(list, place)
    }

    /// Writes the entry at a place of a list.
    pub fn keep_entry(&mut self, list: OpenList, place: usize, entry: PackedWatch)
        requires at { list.at < length self.old.lists }
        requires from { list.from ≡ (nth_list self.old.lists list.at).from }
        requires place { place < length (nth_list self.old.lists list.at).room }
        ensures lists { self.new.lists ≡ slice_set self.old.lists list.at (record (nth_list self.old.lists list.at) { room = slice_set (nth_list self.old.lists list.at).room place entry }) }
        ensures kept { (self.new.clauses ≡ self.old.clauses) × (self.new.units ≡ self.old.units) × (self.new.conflict ≡ self.old.conflict) }
    {
        self.lists.set(list, place, entry);
    }

    /// Gives the entry at a place of a list another blocker.
    pub fn put_blocker(&mut self, list: OpenList, place: usize, blocker: Lit)
        requires at { list.at < length self.old.lists }
        requires from { list.from ≡ (nth_list self.old.lists list.at).from }
        requires place { place < length (nth_list self.old.lists list.at).room }
        ensures lists { (e : Watch) → At (nth_list self.old.lists list.at).room place e → self.new.lists ≡ slice_set self.old.lists list.at (record (nth_list self.old.lists list.at) { room = slice_set (nth_list self.old.lists list.at).room place (record e { blocker = blocker }) }) }
        ensures kept { (self.new.clauses ≡ self.old.clauses) × (self.new.units ≡ self.old.units) × (self.new.conflict ≡ self.old.conflict) }
    {
        self.lists.put_blocker(list, place, blocker);
    }

    /// Leaves a list its first entries alone.
    pub fn shorten(&mut self, list: OpenList, len: usize)
        requires at { list.at < length self.old.lists }
        requires len { len ≤ length (nth_list self.old.lists list.at).room }
        ensures lists { self.new.lists ≡ slice_set self.old.lists list.at (record (nth_list self.old.lists list.at) { len = len }) }
        ensures kept { (self.new.clauses ≡ self.old.clauses) × (self.new.units ≡ self.old.units) × (self.new.conflict ≡ self.old.conflict) }
    {
        self.lists.shorten(list.at, len);
    }
}

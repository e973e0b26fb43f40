//! Clauses under two watched literals, and the visits of those that watch a literal which became
//! false.
//!
//! A clause can become false or unit only when one of its two watched literals becomes false, so
//! only the clauses in that literal's list are visited: each finds another literal to watch, or is
//! satisfied, or is unit and waits in line, or is false. Going back to an earlier level changes
//! nothing here. Source: Moskewicz et al., 'Chaff' (DAC 2001).
ghost use Rattle.std.specs.Prelude.{◌^◌, ◌≡◌, ◌≢◌, ◌+◌, ◌<◌, ◌≤◌, ◌*◌, ◌∷◌, [], ◌++◌, All, IfOk, OnOk, IfSome, IfNone, Some, None, length, map, Bool, true, false, slice_set, slice_index_or, min, take, ℕ, List};
ghost use Rattle.std.specs.List.Sorted.{IsPermutation};
ghost use Rattle.theory.specs.Literals.{Literal, Clause, same, has, negated};
ghost use Rattle.theory.specs.Truth.{IsOver};
ghost use Rattle.theory.specs.Trails.{Entry, literals};
ghost use Rattle.trail.specs.TrailOver.{IsOrdered};
ghost use Rattle.trail.specs.Tables.{IsTruth, value_of};
ghost use Rattle.cnf.specs.Lits.{code};
ghost use Rattle.kernel.specs.Watching.{lesser, At, IsNext, IsServed, Tends, AllGood};
ghost use Rattle.kernel.specs.declared.order.Order.{Order};
ghost use Rattle.kernel.specs.Placing.{clauses_of, kept_with, HasPlace, PlacesOf, IsLastOf, AreInLine};
ghost use Rattle.kernel.specs.EntryLists.{nth_list};
ghost use Rattle.kernel.specs.Visiting.{WatchLists, kept_of, entries_at, CanVisit, IsVisit, IsLast, Replaces, tending, with_list, AreEntries};
ghost use Rattle.kernel.specs.TruthTables.{AreTruths};

use crate::clauses::store::Store;
use crate::order::Order;
use crate::units::last_false::last_place;
use crate::units::unit_queue::{UnitQueue, Waiting};
use crate::units::units::Units;
use crate::watches::entry_lists::{EntryLists, OpenList};
use crate::watches::replacement::Starts;
use crate::watches::truths::Truths;
use crate::watches::watch::{PackedWatch, Watch, Watched};
use crate::watches::watch_visit::WatchVisit;
use cnf::Lit;
use std::alloc::AllocError;
use trail::{Trail, Truth};

/// Clauses with their watches, and what was found of them. Clauses are named by their places, from
/// 0 on.
pub struct Propagator {
    pub clauses: Store,
    /// By literal: the clauses that watch it. They are made with the room that the formula's
    /// clauses take, so that opening never moves one.
    pub lists: EntryLists,
    /// The clauses that wait as units between two propagations; while one goes on they are in line.
    pub units: Units,
    /// The least clause that was found false.
    pub conflict: Option<u32>,
    /// Where long clauses are looked through from.
    pub starts: Starts,
    /// How many entries of lists were looked at; the greatest number stays.
    pub visits: u64,
}

// written out, so that proofs of its owners stay short (docs/PROVING.md)
impl Drop for Propagator {
    fn drop(self) {
        let Propagator {
            clauses: _,
            lists: _,
            units: _,
            conflict: _,
            starts: _,
            visits: _,
        } = self;
    }
}

/// A clause that is unit, and the literal that it is unit in.
#[derive(Clone, Copy)]
pub struct Unit {
    pub clause: u32,
    pub lit: Lit,
}

/// The place with which the clauses wait that the entry at a place makes units: 0 in the order of
/// numbers; else that of the last entry, behind which no literal is false, and none for an earlier
/// one.
fn found_at(order: Order, trail: &Trail, place: usize) -> Option<usize>
    requires inside { place < length trail.now.entries }
    ensures { (e : Entry) → e ≡ slice_index_or trail.now.entries place e → PlacesOf order trail.now.entries (negated e.lit) result }
{
    match order {
        Order::ByNumber => Some(0),
        Order::ByPlace => {
            let count = trail.entries().len();
            if place + 1 == count {
                Some(count)
            } else {
                None
            }
        }
    }
}

impl Propagator {
    /// Puts a unit clause in line with the place of its last false literal.
    // A call, since where one entry is served after the other, each clause comes with its place, and
    // `note` then needs no registers but those that it is given.
    #[cold]
    #[inline(never)]
    fn put_by_last(
        &self,
        trail: &Trail,
        clause: u32,
        lit: Lit,
        line: &mut UnitQueue,
    ) -> Result<(), AllocError>
        requires within { clause < length self.now.clauses.given }
        requires over { All (IsOver trail.now.vars) self.now.clauses.given }
        ensures put { OnOk result (IsPermutation (clause ∷ clauses_of line.old) (clauses_of line.new)) }
        ensures line { OnOk result ((o : Order) → ((c : Clause) → At self.now.clauses.given clause c → HasPlace o trail.now.entries c None × IsLastOf (literals trail.now.entries) c lit)
            → AreInLine o self.now.clauses.given trail.now.entries line.old → AreInLine o self.now.clauses.given trail.now.entries line.new) }
    {
        let place = last_place(trail, self.clauses.arranged(clause as usize));
        line.push(Waiting { place, clause, lit })
    }

    /// Notes a clause all of whose literals but one are false. Where that one has a value, the
    /// clause is false; else it waits as a unit, with the place that is given or else that of its
    /// last false literal. Once a clause is false none has to wait: what made them unit is taken
    /// back before the next propagation.
    // A call, since most visits end without it and their loop needs the registers.
    #[inline(never)]
    fn note(
        &mut self,
        trail: &Trail,
        clause: u32,
        lit: Lit,
        status: Truth,
        place: Option<usize>,
        line: &mut UnitQueue,
    ) -> Result<(), AllocError>
        requires within { clause < length self.old.clauses.given }
        requires over { All (IsOver trail.now.vars) self.old.clauses.given }
        ensures unit { OnOk result (value_of status ≡ None → self.old.conflict ≡ None → IsPermutation (clause ∷ clauses_of line.old) (clauses_of line.new) × (self.new.conflict ≡ self.old.conflict)) }
        ensures spared { OnOk result ((m : ℕ) → value_of status ≡ None → self.old.conflict ≡ Some m → (line.new ≡ line.old) × (self.new.conflict ≡ self.old.conflict)) }
        ensures clashes { OnOk result ((b : Bool) → value_of status ≡ Some b → (clauses_of line.new ≡ clauses_of line.old) × (self.new.conflict ≡ Some (lesser self.old.conflict clause))) }
        ensures line { OnOk result ((o : Order) → ((c : Clause) → At self.old.clauses.given clause c → HasPlace o trail.now.entries c place × IsLastOf (literals trail.now.entries) c lit)
            → AreInLine o self.old.clauses.given trail.now.entries line.old → AreInLine o self.old.clauses.given trail.now.entries line.new) }
        ensures kept { (self.new.clauses.given ≡ self.old.clauses.given) × (self.new.clauses.pairs ≡ self.old.clauses.pairs) × (self.new.lists ≡ self.old.lists) × (self.new.units ≡ self.old.units) }
    {
        match status {
            Truth::Unassigned => {
                if self.conflict.is_some() {
                    return Ok(());
                }
                match place {
                    Some(place) => line.push(Waiting { place, clause, lit }),
                    None => self.put_by_last(trail, clause, lit, line),
                }
            }
            _ => {
                self.conflict = Some(match self.conflict {
                    None => clause,
                    Some(least) => least.min(clause),
                });
                Ok(())
            }
        }
    }

    /// Whether a clause is the least false one or behind it.
    // Few visits come behind a false clause, so it is cold: LLVM then lays out the others without a
    // jump over it.
    #[cold]
    #[inline(never)]
    fn is_behind(&self, clause: u32) -> bool
        ensures yes { result ≡ true → (m : ℕ) × (self.now.conflict ≡ Some m) × (m ≤ clause) }
        ensures no { result ≡ false → (m : ℕ) → self.now.conflict ≡ Some m → clause < m }
    {
        match self.conflict {
            None => false,
            Some(least) => least <= clause,
        }
    }

    /// Visits the clause of an entry in the list of a literal that became false.
    fn visit_clause(
        &mut self,
        truths: Truths,
        gone: Lit,
        watch: Watch,
        place: Option<usize>,
        line: &mut UnitQueue,
    ) -> Result<Option<Lit>, AllocError>
        requires table { AreTruths truths.trail.now truths.table.now }
        requires small { watch.clause < 2 ^ 31 }
        requires long { watch.is_short ≡ false }
        requires visit { CanVisit self.old.clauses.given (literals truths.trail.now.entries) gone watch (kept_with self.old line.old) }
        requires over { All (IsOver truths.trail.now.vars) self.old.clauses.given }
        requires lists { length self.old.lists ≡ 2 * truths.trail.now.vars + 2 }
        ensures visit { IfOk result (λ r. IsVisit self.old.clauses.given (literals truths.entry.trail.now.entries) gone watch (kept_with self.old line.old) (kept_with self.new line.new) r) }
        ensures line { OnOk result ((o : Order) → PlacesOf o truths.entry.trail.now.entries gone place → AreInLine o self.old.clauses.given truths.entry.trail.now.entries line.old → AreInLine o self.old.clauses.given truths.entry.trail.now.entries line.new) }
        ensures list { nth_list self.new.lists (code gone) ≡ nth_list self.old.lists (code gone) }
        ensures kept { (self.new.clauses.given ≡ self.old.clauses.given) × (length self.new.lists ≡ length self.old.lists) × (self.new.units ≡ self.old.units) }
    {
        let clause = watch.clause;
        match self
            .clauses
            .visit_clause(truths, gone, clause as usize, &mut self.starts)
        {
            WatchVisit::Satisfied(other) => Ok(Some(other)),
            WatchVisit::Moved(watched) => {
                self.list(
                    watched.second,
                    Watch {
                        clause,
                        blocker: watched.first,
                        is_short: false,
                    },
                )?;
                Ok(None)
            }
            WatchVisit::Last(other, status) => {
                self.note(truths.trail, clause, other, status, place, line)?;
                Ok(Some(other))
            }
        }
    }

    /// Visits a clause in the list of a literal that became false, whose blocker isn't true but as
    /// `status` says. The answer is the entry's blocker from now on, or none where the entry leaves
    /// the list, since another literal is watched. Behind the least false clause nothing is looked
    /// for, since only an earlier one can be the answer, and the literal is taken back before the
    /// next propagation.
    fn visit(
        &mut self,
        truths: Truths,
        gone: Lit,
        watch: Watch,
        status: Truth,
        place: Option<usize>,
        line: &mut UnitQueue,
    ) -> Result<Option<Lit>, AllocError>
        requires table { AreTruths truths.trail.now truths.table.now }
        requires small { watch.clause < 2 ^ 31 }
        requires status { IsTruth (literals truths.trail.now.entries) watch.blocker (value_of status) × (value_of status ≢ Some true) }
        requires visit { CanVisit self.old.clauses.given (literals truths.trail.now.entries) gone watch (kept_with self.old line.old) }
        requires over { All (IsOver truths.trail.now.vars) self.old.clauses.given }
        requires lists { length self.old.lists ≡ 2 * truths.trail.now.vars + 2 }
        ensures visit { IfOk result (λ r. IsVisit self.old.clauses.given (literals truths.entry.trail.now.entries) gone watch (kept_with self.old line.old) (kept_with self.new line.new) r) }
        ensures line { OnOk result ((o : Order) → PlacesOf o truths.entry.trail.now.entries gone place → AreInLine o self.old.clauses.given truths.entry.trail.now.entries line.old → AreInLine o self.old.clauses.given truths.entry.trail.now.entries line.new) }
        ensures list { nth_list self.new.lists (code gone) ≡ nth_list self.old.lists (code gone) }
        ensures kept { (self.new.clauses.given ≡ self.old.clauses.given) × (length self.new.lists ≡ length self.old.lists) × (self.new.units ≡ self.old.units) }
    {
        if self.conflict.is_some() && self.is_behind(watch.clause) {
            return Ok(Some(watch.blocker));
        }
        if watch.is_short {
            self.note(
                truths.trail,
                watch.clause,
                watch.blocker,
                status,
                place,
                line,
            )?;
            return Ok(Some(watch.blocker));
        }
        self.visit_clause(truths, gone, watch, place, line)
    }

    /// Visits each clause that watches a literal which became false. Most visits end at a blocker
    /// that is true; they read the trail's table itself. The entries that stay move together in
    /// front, in their order, as in MiniSat, so the list is read from its front to its end. Where
    /// the last one took the place of each that leaves, the next visit had to wait for it: that was
    /// a tenth of the run on pigeonholes, and a twentieth on others. An entry is written before it is
    /// looked at, so nothing is left to do where its blocker is true, and one that stays gets its
    /// blocker alone: parity chains take a tenth less time by it. Clauses that are found unit wait in
    /// line, with the place that is given.
    fn visit_all(
        &mut self,
        trail: &Trail,
        gone: Lit,
        found: Option<usize>,
        line: &mut UnitQueue,
    ) -> Result<(), AllocError>
        requires ordered { IsOrdered trail.now.vars trail.now.entries }
        requires served { (floor : ℕ) × (n : ℕ) × IsNext trail.now.entries n gone × IsServed floor self.old.clauses.given trail.now.entries n (tending (kept_with self.old line.old)) }
        requires entries { AreEntries self.old.clauses.given (kept_of self.old) }
        requires over { All (IsOver trail.now.vars) self.old.clauses.given }
        requires lists { length self.old.lists ≡ 2 * trail.now.vars + 2 }
        ensures served { OnOk result ((floor n : ℕ) → IsNext trail.now.entries n gone → IsServed floor self.old.clauses.given trail.now.entries n (tending (kept_with self.old line.old))
            → Tends floor self.old.clauses.given trail.now.entries (tending (kept_with self.new line.new))
            × AllGood self.old.clauses.given (literals (take n trail.now.entries) ++ negated gone ∷ []) (literals trail.now.entries) (tending (kept_with self.new line.new))) }
        ensures line { OnOk result ((o : Order) → PlacesOf o trail.now.entries gone found → AreInLine o self.old.clauses.given trail.now.entries line.old → AreInLine o self.old.clauses.given trail.now.entries line.new) }
        ensures entries { OnOk result (AreEntries self.old.clauses.given (kept_of self.new)) }
        ensures kept { (self.new.clauses.given ≡ self.old.clauses.given) × (length self.new.lists ≡ length self.old.lists) × (self.new.units ≡ self.old.units) }
    {
        let table = trail.truths();
        let truths = Truths { trail, table };
        let list = self.open_list(gone);
        let mut kept = 0;
        for place in 0..list.len {
            let entry = self.entry(list, place);
            let watch = entry.watch();
            let status = truths.status(watch.blocker);
            self.keep_entry(list, kept, entry);
            if status.is_satisfied() {
                kept += 1;
            } else if let Some(blocker) = self.visit(truths, gone, watch, status, found, line)? {
                self.put_blocker(list, kept, blocker);
                kept += 1;
            }
        }
        self.shorten(list, kept);
        Ok(())
    }

    /// Visits the clauses that watch the negation of the literal of the trail's entry at a place.
    fn serve(
        &mut self,
        order: Order,
        trail: &Trail,
        place: usize,
        line: &mut UnitQueue,
    ) -> Result<(), AllocError>
        requires inside { place < length trail.now.entries }
        requires entries { AreEntries self.old.clauses.given (kept_of self.old) }
        requires over { All (IsOver trail.now.vars) self.old.clauses.given }
        requires lists { length self.old.lists ≡ 2 * trail.now.vars + 2 }
        requires served { (floor : ℕ) × IsServed floor self.old.clauses.given trail.now.entries place (tending (kept_with self.old line.old)) }
        ensures served { OnOk result ((floor : ℕ) → IsServed floor self.old.clauses.given trail.now.entries place (tending (kept_with self.old line.old))
            → IsServed floor self.old.clauses.given trail.now.entries (place + 1) (tending (kept_with self.new line.new))) }
        ensures line { OnOk result (AreInLine order self.old.clauses.given trail.now.entries line.old → AreInLine order self.old.clauses.given trail.now.entries line.new) }
        ensures entries { OnOk result (AreEntries self.old.clauses.given (kept_of self.new)) }
        ensures kept { (self.new.clauses.given ≡ self.old.clauses.given) × (length self.new.lists ≡ length self.old.lists) × (self.new.units ≡ self.old.units) }
    {
        let found = found_at(order, trail, place);
        let entry = trail.entries()[place];
        let gone = entry.lit.negated();
        let count = self.lists.count(gone.code());
        self.visits = self.visits.saturating_add(count as u64);
        self.visit_all(trail, gone, found, line)?;
        Ok(())
    }

    /// Serves the trail's entries from a place on.
    pub fn serve_from(
        &mut self,
        order: Order,
        trail: &Trail,
        from: usize,
        line: &mut UnitQueue,
    ) -> Result<(), AllocError>
        requires inside { from ≤ length trail.now.entries }
        requires entries { AreEntries self.old.clauses.given (kept_of self.old) }
        requires over { All (IsOver trail.now.vars) self.old.clauses.given }
        requires lists { length self.old.lists ≡ 2 * trail.now.vars + 2 }
        requires served { (floor : ℕ) × IsServed floor self.old.clauses.given trail.now.entries from (tending (kept_with self.old line.old)) }
        ensures served { OnOk result ((floor : ℕ) → IsServed floor self.old.clauses.given trail.now.entries from (tending (kept_with self.old line.old))
            → IsServed floor self.old.clauses.given trail.now.entries (length trail.now.entries) (tending (kept_with self.new line.new))) }
        ensures line { OnOk result (AreInLine order self.old.clauses.given trail.now.entries line.old → AreInLine order self.old.clauses.given trail.now.entries line.new) }
        ensures entries { OnOk result (AreEntries self.old.clauses.given (kept_of self.new)) }
        ensures kept { (self.new.clauses.given ≡ self.old.clauses.given) × (length self.new.lists ≡ length self.old.lists) × (self.new.units ≡ self.old.units) }
    {
        for place in from..trail.entries().len() {
            self.serve(order, trail, place, line)?;
        }
        Ok(())
    }

    /// Forgets what was found unit or false.
    pub fn clear_pending(&mut self)
        ensures cleared { (self.new.units ≡ []) × (self.new.conflict ≡ None) }
        ensures kept { (self.new.clauses.given ≡ self.old.clauses.given) × (self.new.clauses.pairs ≡ self.old.clauses.pairs) × (self.new.lists ≡ self.old.lists) }
    {
        self.units.clear();
        self.conflict = None;
    }
}

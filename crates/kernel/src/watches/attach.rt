//! Clauses that come to the end and are watched, and those that are cut off again.
ghost use Rattle.std.specs.Prelude.{◌≡◌, ◌≢◌, ◌+◌, ◌<◌, ◌≤◌, ◌*◌, ◌∷◌, [], ◌++◌, All, IfOk, OnOk, OnErr, IfSome, IfNone, IsSome, Some, None, length, map, Bool, true, false, nat_le, ℕ, ◌^◌, List, Option, sum_by};
ghost use Rattle.theory.specs.Literals.{Literal, same, has};
ghost use Rattle.theory.specs.Status.{unit_literal};
ghost use Rattle.theory.specs.Trails.{literals, current_level, level_of};
ghost use Rattle.theory.specs.Trails as trails;
ghost use Rattle.theory.specs.Truth.{IsOver};
ghost use Rattle.theory.specs.Reading.{large, max_clauses};
ghost use Rattle.theory.specs.Learnable.{IsLearnable};
ghost use Rattle.theory.specs.Pure.{unit_clauses};
ghost use Rattle.cnf.specs.Lits.{code};
ghost use Rattle.kernel.specs.Watching.{IsPair, lesser};
ghost use Rattle.kernel.specs.Visiting.{kept_of};
ghost use Rattle.kernel.specs.Attaching.{with_entry, attached, IsLater, IsWatching};
ghost use Rattle.kernel.specs.EntryLists.{nth_list};

use crate::clauses::store::Store;
use crate::propagator::Propagator;
use crate::units::units::Units;
use crate::watches::entry_lists::EntryLists;
use crate::watches::replacement::Starts;
use crate::watches::watch::{MOST_CLAUSES, PackedWatch, Watch, Watched};
use cnf::{Formula, Lit};
use std::alloc::{AllocError, Global};
use trail::Trail;

/// Two literals of a clause to be watched where no variable has a value: the first, and the first
/// other one if there is one.
pub fn first_two(clause: &[Lit]) -> Option<Watched>
    ensures none { IfNone result (clause.now ≡ []) }
    ensures pair { IfSome result (λ w. IsPair clause.now w) }
{
    if clause.is_empty() {
        return None;
    }
    let first = clause[0];
    for lit in clause {
        if !lit.same(&first) {
            return Some(Watched {
                first,
                second: *lit,
            });
        }
    }
    Some(Watched {
        first,
        second: first,
    })
}

/// The first literal without a value.
fn free_literal(trail: &Trail, clause: &[Lit]) -> Option<Lit>
    requires { IsOver trail.now.vars clause.now }
    ensures unit { (l : Literal) → unit_literal (literals trail.now.entries) clause.now ≡ Some l → result ≡ Some l }
    ensures member { IfSome result (λ l. has clause.now l ≡ true) }
{
    for lit in clause {
        if trail.truth(*lit).is_none() {
            return Some(*lit);
        }
    }
    None
}

/// Whether a literal other than `free` is to take the place of the latest one so far, which is
/// `free` before the first.
fn is_later(trail: &Trail, free: Lit, latest: Lit, lit: Lit) -> bool
    requires latest { latest.var ≤ trail.now.vars }
    requires lit { lit.var ≤ trail.now.vars }
    ensures { IsLater trail.now.entries free latest lit result }
{
    if lit.same(&free) {
        return false;
    }
    if latest.same(&free) {
        return true;
    }
    trail.level_of(latest) < trail.level_of(lit)
}

/// A literal other than `free` of the greatest level, or `free` itself where there is no other.
fn latest_literal(trail: &Trail, clause: &[Lit], free: Lit) -> Lit
    requires over { IsOver trail.now.vars clause.now }
    requires free { has clause.now free ≡ true }
    ensures pair { IsPair clause.now record { first = free; second = result } }
    ensures latest { (l : Literal) → has clause.now l ≡ true → same free l ≡ false → level_of trail.now.entries l ≤ level_of trail.now.entries result }
{
    let mut latest = free;
    for lit in clause {
        let lit = *lit;
        if is_later(trail, free, latest, lit) {
            latest = lit;
        }
    }
    latest
}

/// The literals of a learnt clause to be watched: the free one, and one that became false at the
/// greatest level. Going back frees the second no later than any other, so the clause is found each
/// time that it becomes unit or false.
pub fn learnt_watched(trail: &Trail, clause: &[Lit]) -> Option<Watched>
    requires { IsOver trail.now.vars clause.now }
    ensures pair { (l : Literal) → unit_literal (literals trail.now.entries) clause.now ≡ Some l → IfSome result (λ w. (w.first ≡ l) × IsPair clause.now w
        × ((k : Literal) → has clause.now k ≡ true → same l k ≡ false → level_of trail.now.entries k ≤ level_of trail.now.entries w.second)) }
    ensures some { (l : Literal) → unit_literal (literals trail.now.entries) clause.now ≡ Some l → IsSome result }
{
    let free = free_literal(trail, clause)?;
    Some(Watched {
        first: free,
        second: latest_literal(trail, clause, free),
    })
}

impl Propagator {
    /// Puts an entry into the list of a literal.
    #[inline]
    pub fn list(&mut self, lit: Lit, watch: Watch) -> Result<(), AllocError>
        requires lit { code lit < length self.old.lists }
        requires small { watch.clause < 2 ^ 31 }
        ensures lists { OnOk result ((kept_of self.new).lists ≡ with_entry (kept_of self.old).lists lit watch) }
        ensures kept { (self.new.clauses.given ≡ self.old.clauses.given) × (self.new.clauses.pairs ≡ self.old.clauses.pairs) × (self.new.units ≡ self.old.units) × (self.new.conflict ≡ self.old.conflict)
            × (length self.new.lists ≡ length self.old.lists) }
        ensures others { (n : ℕ) → n ≢ code lit → nth_list self.new.lists n ≡ nth_list self.old.lists n }
    {
        self.lists.push(lit.code(), PackedWatch::of(watch))?;
        Ok(())
    }

    /// Puts a clause at the end, in the lists of the literals that it is to watch. Where a request
    /// for memory is refused, the clauses are as they were. There is room for 2^31 clauses; one
    /// more counts as a request that is refused.
    pub fn attach(&mut self, clause: &[Lit], watched: Watched) -> Result<(), AllocError>
        requires first { code watched.first < length self.old.lists }
        requires second { code watched.second < length self.old.lists }
        requires pair { IsPair clause.now watched }
        ensures clauses { OnOk result (self.new.clauses.given ≡ self.old.clauses.given ++ clause.now ∷ []) }
        ensures pairs { OnOk result (self.new.clauses.pairs ≡ self.old.clauses.pairs ++ watched ∷ []) }
        ensures lists { OnOk result ((kept_of self.new).lists ≡ attached (kept_of self.old).lists watched (length self.old.clauses.given) (nat_le (length clause.now) 2)) }
        ensures small { OnOk result (length self.old.clauses.given < 2 ^ 32) }
        ensures kept { (self.new.units ≡ self.old.units) × (self.new.conflict ≡ self.old.conflict) × (length self.new.lists ≡ length self.old.lists) }
        ensures refused { OnErr result (self.new.clauses.given ≡ self.old.clauses.given) }
    {
        let number = self.clauses.len();
        if number >= MOST_CLAUSES {
            return Err(AllocError);
        }
        let is_short = clause.len() <= 2;
        self.list(
            watched.first,
            Watch {
                clause: number as u32,
                blocker: watched.second,
                is_short,
            },
        )?;
        if !watched.first.same(&watched.second) {
            self.list(
                watched.second,
                Watch {
                    clause: number as u32,
                    blocker: watched.first,
                    is_short,
                },
            )?;
        }
        self.clauses.push(clause, watched)
    }

    /// Puts an empty clause at the end. It is false from the beginning on, and watches nothing.
    fn attach_empty(&mut self) -> Result<(), AllocError>
        ensures clauses { OnOk result (self.new.clauses.given ≡ self.old.clauses.given ++ [] ∷ []) }
        ensures pairs { OnOk result ((w : Watched) × (self.new.clauses.pairs ≡ self.old.clauses.pairs ++ w ∷ [])) }
        ensures least { OnOk result (self.new.conflict ≡ Some (lesser self.old.conflict (length self.old.clauses.given))) }
        ensures kept { (self.new.units ≡ self.old.units) × (self.new.lists ≡ self.old.lists) }
    {
        let number = self.clauses.len();
        if number >= MOST_CLAUSES {
            return Err(AllocError);
        }
        self.clauses.push_empty()?;
        self.conflict = Some(match self.conflict {
            None => number as u32,
            Some(least) => least.min(number as u32),
        });
        Ok(())
    }

    /// Puts a clause of the formula at the end, before anything is decided: it is watched, and
    /// noted where it is empty or of one literal.
    fn attach_first(&mut self, clause: &[Lit], singles: &mut Vec<u32>) -> Result<(), AllocError>
        requires lists { (V : ℕ) × IsOver V clause.now × (length self.old.lists ≡ 2 * V + 2) }
        ensures clauses { OnOk result (self.new.clauses.given ≡ self.old.clauses.given ++ clause.now ∷ []) }
        ensures watching { OnOk result ((V : ℕ) → IsOver V clause.now → IsWatching V (length self.old.clauses.given) self.old.clauses.given [] 0 0 (kept_of self.old) singles.old.items self.old.conflict
            → IsWatching V (length self.new.clauses.given) self.new.clauses.given [] 0 0 (kept_of self.new) singles.new.items self.new.conflict) }
        ensures lists { length self.new.lists ≡ length self.old.lists }
    {
        match first_two(clause) {
            None => self.attach_empty()?,
            Some(watched) => {
                let number = self.clauses.len();
                self.attach(clause, watched)?;
                if watched.first.same(&watched.second) {
                    self.units.push(number as u32)?;
                    singles.push(number as u32)?;
                }
            }
        }
        Ok(())
    }

    /// Puts a learnt clause at the end: one of its literals is free, and the others are false. It
    /// waits as a unit from then on. Where a request for memory is refused, the clauses are as they
    /// were.
    pub fn attach_learnt(&mut self, trail: &Trail, clause: &[Lit]) -> Result<(), AllocError>
        requires over { IsOver trail.now.vars clause.now }
        requires learnable { IsLearnable trail.now.entries clause.now }
        requires lists { length self.old.lists ≡ 2 * trail.now.vars + 2 }
        ensures clauses { OnOk result (self.new.clauses.given ≡ self.old.clauses.given ++ clause.now ∷ []) }
        ensures watching { OnOk result ((first at floor : ℕ) (single : List ℕ) (empty : Option ℕ) → first ≤ length self.old.clauses.given
            → IsWatching trail.now.vars first self.old.clauses.given trail.now.entries at floor (kept_of self.old) single empty
            → IsWatching trail.now.vars first self.new.clauses.given trail.now.entries at floor (kept_of self.new) single empty) }
        ensures refused { OnErr result (self.new.clauses.given ≡ self.old.clauses.given) }
    {
        let _entries = trail.entries(); // it ensures what the proof needs of the trail
        let number = self.clauses.len();
        if number >= MOST_CLAUSES {
            return Err(AllocError);
        }
        match learnt_watched(trail, clause) {
            None => unreachable!(),
            Some(watched) => {
                self.units.push(number as u32)?;
                self.attach(clause, watched)?;
                Ok(())
            }
        }
    }

    /// Puts a clause of one literal at the end, which is true at level 0 and stays so until the
    /// clauses are cut: it waits nowhere, since it is never unit and never false. Where a request
    /// for memory is refused, the clauses are as they were.
    pub fn attach_true(&mut self, lit: Lit) -> Result<(), AllocError>
        requires { code lit < length self.old.lists }
        ensures clauses { OnOk result (self.new.clauses.given ≡ self.old.clauses.given ++ (lit ∷ []) ∷ []) }
        ensures watching { OnOk result ((V first at floor : ℕ) (T : trails.Trail) (single : List ℕ) (empty : Option ℕ) → first ≤ length self.old.clauses.given
            → current_level T ≡ 0 → has (literals T) lit ≡ true
            → IsWatching V first self.old.clauses.given T at floor (kept_of self.old) single empty
            → IsWatching V first self.new.clauses.given T at floor (kept_of self.new) single empty) }
        ensures refused { OnErr result (self.new.clauses.given ≡ self.old.clauses.given) }
    {
        self.attach(
            &[lit],
            Watched {
                first: lit,
                second: lit,
            },
        )?;
        Ok(())
    }

    /// Attaches the formula's clauses, before anything is decided, and notes those of one literal.
    pub fn attach_all(
        &mut self,
        formula: &Formula,
        singles: &mut Vec<u32>,
    ) -> Result<(), AllocError>
        requires over { length self.old.lists ≡ 2 * formula.now.vars + 2 }
        ensures clauses { OnOk result (self.new.clauses.given ≡ self.old.clauses.given ++ formula.now.clauses) }
        ensures watching { OnOk result (IsWatching formula.now.vars (length self.old.clauses.given) self.old.clauses.given [] 0 0 (kept_of self.old) singles.old.items self.old.conflict
            → IsWatching formula.now.vars (length self.new.clauses.given) self.new.clauses.given [] 0 0 (kept_of self.new) singles.new.items self.new.conflict) }
        ensures lists { length self.new.lists ≡ length self.old.lists }
    {
        for place in 0..formula.clause_count() {
            self.attach_first(formula.clause(place), singles)?;
        }
        Ok(())
    }

    /// Attaches a clause of each of these literals, before anything is decided, and notes them as
    /// those of one literal.
    pub fn attach_units(&mut self, units: &[Lit], singles: &mut Vec<u32>) -> Result<(), AllocError>
        requires over { (V : ℕ) × IsOver V units.now × (length self.old.lists ≡ 2 * V + 2) }
        ensures clauses { OnOk result (self.new.clauses.given ≡ self.old.clauses.given ++ unit_clauses units.now) }
        ensures watching { OnOk result ((V : ℕ) → IsOver V units.now → IsWatching V (length self.old.clauses.given) self.old.clauses.given [] 0 0 (kept_of self.old) singles.old.items self.old.conflict
            → IsWatching V (length self.new.clauses.given) self.new.clauses.given [] 0 0 (kept_of self.new) singles.new.items self.new.conflict) }
    {
        for lit in units {
            self.attach_first(&[*lit], singles)?;
        }
        Ok(())
    }
}

/// Counts an entry for the list of a literal.
fn count_entry(counts: &mut [u32], lit: Lit)
    ensures { length counts.new ≡ length counts.old }
{
    let at = lit.code();
    if at < counts.len() {
        counts[at] = counts[at].saturating_add(1);
    }
}

/// Counts an entry for the list of each of these literals.
fn count_entries(counts: &mut [u32], lits: &[Lit])
    ensures { length counts.new ≡ length counts.old }
{
    for lit in lits {
        count_entry(counts, *lit);
    }
}

/// Counts the entries of a formula's clauses. It answers how many clauses are of one literal.
fn count_clauses(counts: &mut [u32], formula: &Formula) -> usize
    ensures kept { length counts.new ≡ length counts.old }
    ensures few { result ≤ max_clauses large }
{
    let mut singles = 0;
    for place in 0..formula.clause_count() {
        if let Some(watched) = first_two(formula.clause(place)) {
            count_entry(counts, watched.first);
            if watched.first.same(&watched.second) {
                singles += 1;
            } else {
                count_entry(counts, watched.second);
            }
        }
    }
    singles
}

/// How much room clauses take among the watches.
#[derive(Drop)]
pub struct ListCapacities {
    /// By list: how many entries it has at most.
    pub entries: Vec<u32>,
    /// How many clauses are of one literal.
    pub singles: usize,
}

impl ListCapacities {
    /// The room of a formula's clauses, and of a clause of each of these literals, among so many
    /// lists.
    pub fn of(
        alloc: Global,
        lists: usize,
        formula: &Formula,
        units: &[Lit],
    ) -> Result<ListCapacities, AllocError>
        ensures { IfOk result (λ r. length r.entries.items ≡ lists) }
    {
        let mut entries = vec![in alloc; 0; lists]?;
        let singles = count_clauses(&mut entries, formula);
        count_entries(&mut entries, units);
        Ok(ListCapacities {
            entries,
            singles: singles + units.len(),
        })
    }
}

impl Propagator {
    /// No clauses, with the room of those of a formula and of a clause of each of these literals.
    /// The counts go.
    pub fn with_room(
        alloc: Global,
        room: ListCapacities,
        formula: &Formula,
        units: &[Lit],
    ) -> Result<Propagator, AllocError>
        ensures none { IfOk result (λ p. (p.clauses.given ≡ []) × (length p.lists ≡ length room.entries.items)) }
        ensures watching { IfOk result (λ p. (V : ℕ) → length room.entries.items ≡ 2 * V + 2 → IsWatching V 0 [] [] 0 0 (kept_of p) [] p.conflict) }
    {
        Ok(Propagator {
            clauses: Store::with_room(alloc, formula, units)?,
            lists: EntryLists::with_room(alloc, &room.entries)?,
            units: Units::with_room(alloc, room.singles)?,
            conflict: None,
            starts: Starts::with_room(alloc, formula.clause_count() + units.len())?,
            visits: 0,
        })
    }
}

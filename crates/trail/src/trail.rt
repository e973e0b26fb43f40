//! The trail, with tables by literal and by variable, so that each look-up is one step.
ghost use Rattle.std.specs.Prelude.{◌≡◌, ◌≢◌, ◌≤◌, ◌<◌, ◌^◌, ◌+◌, ◌*◌, ℕ, [], ◌∷◌, ◌++◌, true, false, length, take, IfOk, IfSome, IfNone, None, Some, slice_get, slice_set, slice_index, slice_index_or, if◌then◌else◌, ◌⊎◌, is_some};
ghost use Rattle.theory.specs.Literals.{Literal, IsVariable, has_var};
ghost use Rattle.theory.specs.Trails.{literals, current_level, entry_of, level_of, least_free, up_to};
ghost use Rattle.theory.specs.Trails as trails;
ghost use Rattle.trail.specs.TrailOver.{IsOrdered, IsRisingFrom};
ghost use Rattle.cnf.specs.Lits.{code};
ghost use Rattle.trail.specs.Tables.{IsTruth, value_in, value_of};
ghost use Rattle.trail.specs.declared.truth.Truth.TheVariants.{Unassigned};

use crate::entry::Entry;
use crate::truth::{Truth, put_truths, status_in};
use cnf::Lit;
use std::alloc::{AllocError, Global};
use std::marker::Model;

/// Entries of distinct variables, each one of 1 to `vars`, by rising level, with room for all of
/// them.
#[derive(Drop)]
pub struct Trail {
    vars: u32,
    entries: Vec<Entry>,
    // by literal, in order of their numbers: what the entries say of it. Propagation asks for
    // literals many times an entry, so one load and one comparison have to answer; a value by
    // variable, compared with the literal's sign, takes several times the instructions
    truths: Vec<Truth>,
    // by variable: how many entries there are up to its own, and 0 while it is free
    places: Vec<u32>,
    // the least free variable, or the number behind the last one
    next_free: u32,
}

impl Model for Trail {
    ghost use Rattle.std.specs.Prelude.{◌<◌, ◌≤◌, ◌^◌, vec_capacity};
    ghost use Rattle.trail.specs.TrailOver.{TrailOver, IsOrdered};
    ghost use Rattle.trail.specs.Tables.{AreTables, IsNextFree};

    ghost Value = { TrailOver };

    ghost view = { λ a. record { vars = a.vars; entries = a.entries.items } };

    ghost invariant = { λ a. IsOrdered a.vars a.entries.items × (a.vars ≤ vec_capacity a.entries)
        × (a.vars < 2 ^ 31) × AreTables a.vars a.entries.items a.truths.items a.places.items
        × IsNextFree a.vars a.entries.items a.next_free };
}

/// How many entries there are up to a level.
fn count_up_to(entries: &[Entry], level: u32) -> usize
    requires { IsRisingFrom 0 entries.now }
    ensures within { result ≤ length entries.now }
    ensures entries { take result entries.now ≡ up_to entries.now level }
{
    let mut count = entries.len();
    while count > 0 {
        let last = entries[count - 1];
        if last.level <= level {
            return count;
        }
        count -= 1;
    }
    0
}

/// Makes the variables of entries free in the tables. The answer is the least of them and of a
/// bound.
fn free_all(truths: &mut [Truth], places: &mut [u32], dropped: &[Entry], bound: u32) -> u32
    requires { (v : ℕ) → has_var (literals dropped.now) v ≡ true → (2 * v + 1 < length truths.old) × (v < length places.old) }
    ensures truths { (l : Literal) → slice_index_or truths.new (code l) Unassigned ≡
        (if has_var (literals dropped.now) l.var then Unassigned else slice_index_or truths.old (code l) Unassigned) }
    ensures places { (v : ℕ) → slice_index places.new v ≡
        (if has_var (literals dropped.now) v then 0 else slice_index places.old v) }
    ensures most { result ≤ bound }
    ensures least { (v : ℕ) → has_var (literals dropped.now) v ≡ true → result ≤ v }
    ensures there { (result ≡ bound) ⊎ (has_var (literals dropped.now) result ≡ true) }
{
    let free = Truth::Unassigned;
    let mut least = bound;
    for entry in dropped {
        let entry = *entry;
        let var = entry.lit.var();
        put_truths(truths, entry.lit, free, free);
        places[var as usize] = 0;
        least = least.min(var);
    }
    least
}

/// The first number, from one on, whose variable has no entry.
fn first_without_entry(places: &[u32], from: u32) -> u32
    requires within { from ≤ length places.now }
    requires small { length places.now < 2 ^ 32 }
    ensures low { from ≤ result }
    ensures high { result ≤ length places.now }
    ensures before { (v : ℕ) → from ≤ v → v < result → 1 ≤ slice_index places.now v }
    ensures found { slice_index places.now result ≡ 0 }
{
    let mut var = from;
    while (var as usize) < places.len() && places[var as usize] != 0 {
        var += 1;
    }
    var
}

/// The least free variable once one has an entry, where another one was the least until then. A
/// search by activity seldom takes the least, and asks for it never, so it is looked for only where
/// it is taken.
fn least_free_beside(places: &[u32], least: u32, taken: u32) -> u32
    requires within { least ≤ length places.now }
    requires small { length places.now < 2 ^ 32 }
    requires other { taken ≢ least → slice_index places.now least ≡ 0 }
    ensures low { least ≤ result }
    ensures high { result ≤ length places.now }
    ensures before { (v : ℕ) → least ≤ v → v < result → 1 ≤ slice_index places.now v }
    ensures found { slice_index places.now result ≡ 0 }
{
    if taken != least {
        return least;
    }
    first_without_entry(places, least)
}

impl Trail {
    /// No entries, and room for one of each variable.
    pub fn with_room(alloc: Global, vars: u32) -> Result<Trail, AllocError>
        requires { vars < 2 ^ 31 }
        ensures { IfOk result (λ t. t ≡ record { vars = vars; entries = [] }) }
    {
        let count = vars as usize;
        Ok(Trail {
            vars,
            entries: Vec::with_capacity(alloc, count)?,
            truths: vec![in alloc; Truth::Unassigned; 2 * count + 2]?,
            places: vec![in alloc; 0; count + 1]?,
            next_free: 1,
        })
    }

    /// The number of variables.
    pub fn vars(&self) -> u32
        ensures vars { result ≡ self.now.vars }
        ensures ordered { IsOrdered self.now.vars self.now.entries }
    {
        self.vars
    }

    /// The entries, in the order in which they came.
    pub fn entries(&self) -> &[Entry]
        ensures entries { result.now ≡ self.now.entries }
        ensures ordered { IsOrdered self.now.vars self.now.entries }
    {
        &self.entries
    }

    /// The level of the last entry, or 0.
    pub fn level(&self) -> u32
        ensures level { result ≡ current_level self.now.entries }
        ensures ordered { IsOrdered self.now.vars self.now.entries }
        ensures small { self.now.vars < 2 ^ 31 }
    {
        match self.entries.last() {
            Some(entry) => {
                let entry = *entry;
                entry.level
            }
            None => 0,
        }
    }

    /// The truth value of a variable, and none while it is free.
    pub fn value(&self, var: u32) -> Option<bool>
        requires { var ≤ self.now.vars }
        ensures value { result ≡ value_in self.now.entries var }
        ensures ordered { IsOrdered self.now.vars self.now.entries }
    {
        self.truths[2 * var as usize + 1].value()
    }

    /// Whether a literal is true, and none while its variable is free.
    pub fn truth(&self, lit: Lit) -> Option<bool>
        requires { lit.var ≤ self.now.vars }
        ensures truth { IsTruth (literals self.now.entries) lit result }
        ensures ordered { IsOrdered self.now.vars self.now.entries }
    {
        self.status(lit).value()
    }

    /// What is said of a literal. Propagation asks for it in place of the truth value: whether it
    /// is `Satisfied` is one comparison, and one branch that the processor can't foretell, where a
    /// truth value takes two.
    pub fn status(&self, lit: Lit) -> Truth
        requires { lit.var ≤ self.now.vars }
        ensures truth { IsTruth (literals self.now.entries) lit (value_of result) }
        ensures ordered { IsOrdered self.now.vars self.now.entries }
    {
        status_in(&self.truths, lit)
    }

    /// What is said of each literal, by its place among them. It is for `status_in`, where many are
    /// asked for and the trail stays: so the table isn't looked for again each time.
    pub fn truths(&self) -> &[Truth]
        ensures long { length result.now ≡ 2 * self.now.vars + 2 }
        ensures truth { (l : Literal) → l.var ≤ self.now.vars → IsTruth (literals self.now.entries) l (value_of (slice_index_or result.now (code l) Unassigned)) }
    {
        &self.truths
    }

    /// The level of a literal's variable, or 0 while it is free.
    pub fn level_of(&self, lit: Lit) -> u32
        requires { lit.var ≤ self.now.vars }
        ensures { result ≡ level_of self.now.entries lit }
    {
        match self.entry(lit.var()) {
            None => 0,
            Some(entry) => entry.level,
        }
    }

    /// The place of a variable's entry, counted from 0, and none while it is free.
    pub fn place(&self, var: u32) -> Option<usize>
        requires { var ≤ self.now.vars }
        ensures found { IfSome result (λ p. slice_get self.now.entries p ≡ entry_of self.now.entries var) }
        ensures inside { IfSome result (λ p. p < length self.now.entries) }
        ensures free { IfNone result (entry_of self.now.entries var ≡ None) }
    {
        let count = self.places[var as usize] as usize;
        if count == 0 { None } else { Some(count - 1) }
    }

    /// The entry of a variable, and none while it is free.
    pub fn entry(&self, var: u32) -> Option<Entry>
        requires { var ≤ self.now.vars }
        ensures { result ≡ entry_of self.now.entries var }
    {
        match self.place(var) {
            None => None,
            Some(place) => Some(self.entries[place]),
        }
    }

    /// The least variable without an entry.
    pub fn least_free(&self) -> Option<u32>
        ensures { result ≡ least_free self.now.vars self.now.entries }
    {
        if self.next_free <= self.vars {
            Some(self.next_free)
        } else {
            None
        }
    }

    /// Puts an entry at the end. It takes no memory, and time by the variables that the least free
    /// one moves on by.
    pub fn push(&mut self, entry: Entry)
        requires is_variable { IsVariable self.old.vars entry.lit.var }
        requires is_free { has_var (literals self.old.entries) entry.lit.var ≡ false }
        requires is_latest { current_level self.old.entries ≤ entry.level }
        ensures entries { self.new.entries ≡ self.old.entries ++ entry ∷ [] }
        ensures vars { self.new.vars ≡ self.old.vars }
    {
        self.entries.push_reserved(entry);
        let var = entry.lit.var();
        put_truths(
            &mut self.truths,
            entry.lit,
            Truth::Satisfied,
            Truth::Falsified,
        );
        self.places[var as usize] = self.entries.len() as u32;
        self.next_free = least_free_beside(&self.places, self.next_free, var);
    }

    /// Gives the entry at a place, counted from 0, another reason. It takes no memory, and one step.
    pub fn set_reason(&mut self, place: usize, reason: u64)
        requires { place < length self.old.entries }
        ensures entries { (e : trails.Entry) → slice_get self.old.entries place ≡ Some e
            → self.new.entries ≡ slice_set self.old.entries place record e { reason = Some reason } }
        ensures vars { self.new.vars ≡ self.old.vars }
    {
        self.entries[place].reason = Some(reason);
    }

    /// Takes the entries above a level off. It takes time by them.
    pub fn back_to(&mut self, level: u32)
        ensures entries { self.new.entries ≡ up_to self.old.entries level }
        ensures vars { self.new.vars ≡ self.old.vars }
    {
        let count = count_up_to(&self.entries, level);
        self.truncate(count);
    }

    /// Takes all entries off. It takes time by them.
    pub fn clear(&mut self)
        ensures entries { self.new.entries ≡ [] }
        ensures vars { self.new.vars ≡ self.old.vars }
    {
        self.truncate(0);
    }

    /// Takes the entries from a place on off.
    fn truncate(&mut self, count: usize)
        requires { count ≤ length self.old.entries }
        ensures entries { self.new.entries ≡ take count self.old.entries }
        ensures vars { self.new.vars ≡ self.old.vars }
    {
        let dropped = &self.entries[count..];
        self.next_free = free_all(&mut self.truths, &mut self.places, dropped, self.next_free);
        self.entries.truncate(count);
    }
}

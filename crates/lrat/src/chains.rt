//! Chains of places, one for each code, in one list of entries: each entry has a place, and a link
//! to the next entry of its chain, which came before it. A link is 0 at a chain's end, and else one
//! above an entry's index.
//!
//! A place is put to a chain by one push and one write, and a chain without places takes no more
//! than its head: these are the chains of a textbook's hash table. Vectors for each code took an
//! allocation each, and rows in one array, filled by counts, twice the time.
ghost use Rattle.std.specs.Prelude.{◌≡◌, ◌≢◌, ◌<◌, ◌≤◌, ◌-◌, ℕ, true, Some, IfOk, OnOk, slice_get, slice_set, vec_len};
ghost use Rattle.lrat.specs.Chained.{entry_at, IsOn, IsIn, AreChains, IsThereAt, LeadsThere, KeepsThere};
ghost use Rattle.lrat.specs.Slots.{Slot};

use crate::clauses::Clauses;
use std::alloc::{AllocError, Global};

/// A place, and the link to the next entry of its chain.
#[derive(Clone, Copy)]
struct Entry {
    place: u32,
    next: u32,
}

/// A number as it stands in an entry: a greater one is refused like memory.
fn small(number: usize) -> Result<u32, AllocError>
    ensures { IfOk result (λ n. n ≡ number) }
{
    if number > u32::MAX as usize {
        return Err(AllocError);
    }
    Ok(number as u32)
}

/// The links to the newest entries, by codes, and all entries.
#[derive(Drop)]
pub(crate) struct Chains {
    heads: Vec<u32>,
    entries: Vec<Entry>,
}

impl Chains {
    /// There are no chains.
    pub(crate) fn new(alloc: Global) -> Chains
        ensures { AreChains result }
    {
        Chains {
            heads: Vec::new(alloc),
            entries: Vec::new(alloc),
        }
    }

    /// Makes a chain for each code below a count, and room for so many entries, where the chains
    /// aren't there.
    pub(crate) fn make_room(&mut self, count: usize, entries: usize) -> Result<(), AllocError>
        requires { AreChains self.old }
        ensures room { OnOk result (count ≤ vec_len self.new.heads) }
        ensures chains { AreChains self.new }
        ensures keeps { (n i : ℕ) → IsIn self.old n i → IsIn self.new n i }
    {
        if self.heads.len() < count {
            self.heads.resize(count, 0)?;
            self.entries
                .reserve(entries.saturating_sub(self.entries.len()))?;
        }
        Ok(())
    }

    /// Puts a place to a chain. It takes one push and one write.
    pub(crate) fn put(&mut self, code: usize, place: usize) -> Result<(), AllocError>
        requires chains { AreChains self.old }
        requires code { code < vec_len self.old.heads }
        ensures entered { OnOk result (IsIn self.new code place) }
        ensures chains { AreChains self.new }
        ensures keeps { (n i : ℕ) → IsIn self.old n i → IsIn self.new n i }
        ensures len { vec_len self.new.heads ≡ vec_len self.old.heads }
    {
        let place = small(place)?;
        let link = small(self.entries.len() + 1)?;
        let next = self.heads[code];
        self.entries.push(Entry { place, next })?;
        self.heads[code] = link;
        Ok(())
    }

    /// The link to a chain's first entry.
    pub(crate) fn head(&self, code: usize) -> u32
        requires { AreChains self.now }
        ensures within { result ≤ vec_len self.now.entries }
        ensures first { (i : ℕ) → IsIn self.now code i → IsOn self.now.entries.items result i }
    {
        if code < self.heads.len() {
            self.heads[code]
        } else {
            0
        }
    }

    /// The place that a link leads to, and the link to the next one.
    pub(crate) fn entry(&self, link: u32) -> (usize, u32)
        requires chains { AreChains self.now }
        requires some { 0 < link }
        requires within { link ≤ vec_len self.now.entries }
        ensures place { result.0 ≡ (entry_at self.now.entries.items (link - 1)).place }
        ensures down { result.1 < link }
        ensures next { (i : ℕ) → IsOn self.now.entries.items link i → result.0 ≢ i → IsOn self.now.entries.items result.1 i }
    {
        let entry = self.entries[link as usize - 1];
        (entry.place as usize, entry.next)
    }

    /// The link to the first place from a link on whose clause is there.
    fn first_there(&self, from: u32, clauses: &Clauses) -> u32
        requires chains { AreChains self.now }
        requires within { from ≤ vec_len self.now.entries }
        ensures down { result ≤ from }
        ensures there { LeadsThere clauses.now.slots self.now.entries.items result }
        ensures keeps { (i : ℕ) (s : Slot) → slice_get clauses.now.slots i ≡ Some s → s.is_there ≡ true →
            IsOn self.now.entries.items from i → IsOn self.now.entries.items result i }
    {
        let mut link = from;
        while link > 0 {
            let (place, next) = self.entry(link);
            if clauses.is_there(place) {
                return link;
            }
            link = next;
        }
        link
    }

    /// Takes the places behind an entry, up to the first whose clause is there, out of its chain.
    /// Answers the link to that one.
    fn shorten(&mut self, index: usize, clauses: &Clauses) -> u32
        requires chains { AreChains self.old }
        requires within { index < vec_len self.old.entries }
        ensures down { result ≤ index }
        ensures chains { AreChains self.new }
        ensures heads { self.new.heads.items ≡ self.old.heads.items }
        ensures set { self.new.entries.items
            ≡ slice_set self.old.entries.items index (record { place = (entry_at self.old.entries.items index).place; next = result }) }
        ensures there { LeadsThere clauses.now.slots self.old.entries.items result }
        ensures len { vec_len self.new.entries ≡ vec_len self.old.entries }
        ensures keeps { KeepsThere clauses.now.slots self.old self.new }
    {
        let entry = self.entries[index];
        let next = self.first_there(entry.next, clauses);
        self.entries[index] = Entry {
            place: entry.place,
            next,
        };
        next
    }

    /// Takes the places of clauses that aren't there any more out of a chain. It takes one walk
    /// along the chain.
    pub(crate) fn sweep(&mut self, code: usize, clauses: &Clauses)
        requires chains { AreChains self.old }
        ensures chains { AreChains self.new }
        ensures swept { (i : ℕ) → IsIn self.new code i → IsThereAt clauses.now.slots i }
        ensures keeps { KeepsThere clauses.now.slots self.old self.new }
    {
        if code >= self.heads.len() {
            return;
        }
        let mut link = self.first_there(self.heads[code], clauses);
        self.heads[code] = link;
        while link > 0 {
            link = self.shorten(link as usize - 1, clauses);
        }
    }
}

//! The lists of the clauses that watch a literal, all in one list of entries.
//!
//! Each list has a room there, and where it is full it moves to a larger one behind all others. So
//! a list is found by 8 bytes, and lists of two or three entries lie side by side. As vectors of
//! their own they took 24 bytes and 32 more for the least of them. On a formula of 90,000 such
//! lists these stayed in no cache near the processor, and waiting for them was a fifth of the run.
ghost use Rattle.std.specs.Prelude.{◌≡◌, ◌≢◌, ◌+◌, ◌<◌, ◌≤◌, ◌^◌, ◌∷◌, [], ◌++◌, IfOk, OnOk, OnErr, All, map, length, take, drop, slice_set, slice_index_or, ℕ, List};
ghost use Rattle.kernel.specs.declared.watches.watch.Watch.{Watch};
ghost use Rattle.kernel.specs.Watching.{At};
ghost use Rattle.kernel.specs.EntryLists.{AreApart, entries_of, nth_list};
ghost use Rattle.kernel.specs.Cutting.{IsKeptBelow};
ghost use Rattle.kernel.specs.Forgetting.{names, entries_left};

use crate::clauses::forget::keep_unnamed;
use crate::clauses::named::Named;
use crate::room::and_a_quarter;
use crate::watches::cut::keep_below;
use crate::watches::watch::{PackedWatch, Watch};
use cnf::Lit;
use std::alloc::{AllocError, Global};
use std::marker::Model;

/// Where a list begins among the entries, and how many it has.
#[derive(Clone, Copy)]
pub struct Head {
    pub from: u32,
    pub len: u32,
}

/// A list that is gone through: its place among the lists, where it begins, and how many entries it
/// had at first.
#[derive(Clone, Copy)]
pub struct OpenList {
    pub at: usize,
    pub from: usize,
    pub len: usize,
}

/// Lists of entries, by the code of the literal that their clauses watch.
#[derive(Drop)]
pub struct EntryLists {
    // all rooms; what stands in a room behind its list, and between rooms, means nothing
    entries: Vec<PackedWatch>,
    heads: Vec<Head>,
    // by list: how many entries its room takes. They are asked for only where a list grows, so they
    // stand beside the heads and not in them
    rooms: Vec<u32>,
}

impl Model for EntryLists {
    ghost use Rattle.std.specs.Prelude.{List, length, ◌<◌, ◌^◌};
    ghost use Rattle.kernel.specs.EntryLists.{EntryList, AreApart, in_rooms};

    ghost Value = { List EntryList };

    ghost view = { λ a. in_rooms a.entries.items a.heads.items a.rooms.items };

    ghost invariant = { λ a. AreApart a.heads.items a.rooms.items (length a.entries.items) × (length a.entries.items < 2 ^ 32) };
}

/// All rooms together have fewer places than this, so that four bytes name each.
const MOST_PLACES: usize = 1 << 32;

/// What stands where no entry does.
fn no_entry() -> PackedWatch {
    PackedWatch::of(Watch {
        clause: 0,
        blocker: Lit::of(1, true),
        is_short: false,
    })
}

/// The heads of lists without entries, each with room for so many, and where the last room ends.
fn empty_heads(alloc: Global, rooms: &[u32]) -> Result<(Vec<Head>, u32), AllocError>
    ensures apart { IfOk result (λ r. AreApart r.0.items rooms.now r.1) }
    ensures empty { IfOk result (λ r. All (λ h. h.len ≡ 0) r.0.items) }
{
    let mut heads = Vec::with_capacity(alloc, rooms.len())?;
    let mut end: u32 = 0;
    for place in 0..rooms.len() {
        heads.push(Head { from: end, len: 0 })?;
        match end.checked_add(rooms[place]) {
            None => return Err(AllocError),
            Some(next) => end = next,
        }
    }
    Ok((heads, end))
}

/// Puts a copy of so many entries from a place on behind all.
fn copy_behind(entries: &mut Vec<PackedWatch>, from: usize, count: usize) -> Result<(), AllocError>
    requires { from + count ≤ length entries.old.items }
    ensures ok { OnOk result (entries.new.items ≡ entries.old.items ++ take count (drop from entries.old.items)) }
    ensures behind { (ys : List Watch) × (entries.new.items ≡ entries.old.items ++ ys) × (length ys ≤ count) }
{
    for place in 0..count {
        let entry = entries[from + place];
        entries.push(entry)?;
    }
    Ok(())
}

impl EntryLists {
    /// Lists without entries, each with room for so many. It fails where a request for memory is
    /// refused. All rooms together have fewer than 2^32 places; more count as such a request.
    pub fn with_room(alloc: Global, rooms: &[u32]) -> Result<EntryLists, AllocError>
        ensures long { IfOk result (λ ls. length ls ≡ length rooms.now) }
        ensures empty { IfOk result (λ ls. All (λ l. entries_of l ≡ []) ls) }
    {
        let (heads, end) = empty_heads(alloc, rooms)?;
        let mut own = Vec::with_capacity(alloc, rooms.len())?;
        own.extend_from_slice(rooms)?;
        let places = end as usize;
        let mut entries = Vec::with_capacity(alloc, and_a_quarter(places))?;
        entries.resize(places, no_entry())?;
        Ok(EntryLists {
            entries,
            heads,
            rooms: own,
        })
    }

    /// How many lists there are.
    pub fn len(&self) -> usize
        ensures { result ≡ length self.now }
    {
        self.heads.len()
    }

    /// What the lists' memory comes from.
    pub fn allocator(&self) -> Global {
        *self.heads.allocator()
    }

    /// How many entries a list has.
    pub fn count(&self, at: usize) -> usize
        requires { at < length self.now }
        ensures { result ≡ (nth_list self.now at).len }
    {
        self.heads[at].len as usize
    }

    /// A list that is to be gone through.
    pub fn open(&self, at: usize) -> OpenList
        requires { at < length self.now }
        ensures list { (result.at ≡ at) × (result.from ≡ (nth_list self.now at).from) × (result.len ≡ (nth_list self.now at).len) }
        ensures within { result.len ≤ length (nth_list self.now at).room }
    {
        let head = self.heads[at];
        OpenList {
            at,
            from: head.from as usize,
            len: head.len as usize,
        }
    }

    /// The entry at a place of a list's room.
    pub fn get(&self, list: OpenList, place: usize) -> PackedWatch
        requires at { list.at < length self.now }
        requires from { list.from ≡ (nth_list self.now list.at).from }
        requires place { place < length (nth_list self.now list.at).room }
        ensures { result ≡ slice_index_or (nth_list self.now list.at).room place result }
    {
        self.entries[list.from + place]
    }

    /// Writes the entry at a place of a list's room.
    pub fn set(&mut self, list: OpenList, place: usize, entry: PackedWatch)
        requires at { list.at < length self.old }
        requires from { list.from ≡ (nth_list self.old list.at).from }
        requires place { place < length (nth_list self.old list.at).room }
        ensures { self.new ≡ slice_set self.old list.at (record (nth_list self.old list.at) { room = slice_set (nth_list self.old list.at).room place entry }) }
    {
        self.entries[list.from + place] = entry;
    }

    /// Gives the entry at a place of a list's room another blocker.
    pub fn put_blocker(&mut self, list: OpenList, place: usize, blocker: Lit)
        requires at { list.at < length self.old }
        requires from { list.from ≡ (nth_list self.old list.at).from }
        requires place { place < length (nth_list self.old list.at).room }
        ensures { (e : Watch) → At (nth_list self.old list.at).room place e → self.new ≡ slice_set self.old list.at (record (nth_list self.old list.at) { room = slice_set (nth_list self.old list.at).room place (record e { blocker = blocker }) }) }
    {
        let entry = &mut self.entries[list.from + place];
        entry.put_blocker(blocker);
    }

    /// Leaves a list its first entries alone.
    pub fn shorten(&mut self, at: usize, len: usize)
        requires at { at < length self.old }
        requires len { len ≤ length (nth_list self.old at).room }
        ensures { self.new ≡ slice_set self.old at (record (nth_list self.old at) { len = len }) }
    {
        let head = &mut self.heads[at];
        head.len = len as u32;
    }

    /// Puts an entry at the end of a list. It fails where a request for memory is refused.
    pub fn push(&mut self, at: usize, entry: PackedWatch) -> Result<(), AllocError>
        requires { at < length self.old }
        ensures entries { OnOk result (map entries_of self.new ≡ slice_set (map entries_of self.old) at (slice_index_or (map entries_of self.old) at [] ++ entry ∷ [])) }
        ensures others { (n : ℕ) → n ≢ at → nth_list self.new n ≡ nth_list self.old n }
        ensures long { length self.new ≡ length self.old }
    {
        if self.heads[at].len < self.rooms[at] {
            self.put_behind(at, entry);
            return Ok(());
        }
        self.grow(at)?;
        self.put_behind(at, entry);
        Ok(())
    }

    /// Puts an entry behind those of a list that has room for it.
    fn put_behind(&mut self, at: usize, entry: PackedWatch)
        requires at { at < length self.old }
        requires room { (nth_list self.old at).len < length (nth_list self.old at).room }
        ensures { self.new ≡ slice_set self.old at record { from = (nth_list self.old at).from; len = (nth_list self.old at).len + 1; room = slice_set (nth_list self.old at).room (nth_list self.old at).len entry } }
    {
        let head = &mut self.heads[at];
        let place = head.from + head.len;
        head.len += 1;
        self.entries[place as usize] = entry;
    }

    /// Moves a list that fills its room to one of twice the size, of four entries at least, behind
    /// all others. Where a request for memory is refused, it stays.
    // A call, since most lists have room and those who put entries into them need the registers.
    #[cold]
    #[inline(never)]
    fn grow(&mut self, at: usize) -> Result<(), AllocError>
        requires { at < length self.old }
        ensures ok { OnOk result ((from : ℕ) × (ys : List Watch) × (self.new ≡ slice_set self.old at record { from = from; len = (nth_list self.old at).len; room = entries_of (nth_list self.old at) ++ ys }) × (0 < length ys) × ((nth_list self.old at).len ≤ length ys) × (length ys ≤ (nth_list self.old at).len + 4)) }
        ensures err { OnErr result (self.new ≡ self.old) }
    {
        let head = self.heads[at];
        let from = self.entries.len();
        let room = 2 * (head.len as usize).max(2);
        if from + room >= MOST_PLACES {
            return Err(AllocError);
        }
        copy_behind(&mut self.entries, head.from as usize, head.len as usize)?;
        self.entries.resize(from + room, no_entry())?;
        self.heads[at] = Head {
            from: from as u32,
            len: head.len,
        };
        self.rooms[at] = room as u32;
        Ok(())
    }

    /// Takes the entries of clauses from `first` on out of a list.
    pub fn drop_from(&mut self, at: usize, first: usize)
        requires { at < length self.old }
        ensures list { (ws : List Watch) × (map entries_of self.new ≡ slice_set (map entries_of self.old) at ws) × IsKeptBelow first (slice_index_or (map entries_of self.old) at []) ws }
        ensures long { length self.new ≡ length self.old }
    {
        let head = self.heads[at];
        let from = head.from as usize;
        let to = from + head.len as usize;
        let len = keep_below(&mut self.entries[from..to], first);
        self.heads[at] = Head {
            from: head.from,
            len: len as u32,
        };
    }

    /// Takes the entries of clauses that are named out of a list.
    pub fn drop_named(&mut self, at: usize, named: &Named)
        requires { at < length self.old }
        ensures list { map entries_of self.new ≡ slice_set (map entries_of self.old) at (entries_left (names named.now) (slice_index_or (map entries_of self.old) at [])) }
        ensures long { length self.new ≡ length self.old }
    {
        let head = self.heads[at];
        let from = head.from as usize;
        let to = from + head.len as usize;
        let len = keep_unnamed(&mut self.entries[from..to], named);
        self.heads[at] = Head {
            from: head.from,
            len: len as u32,
        };
    }
}

//! The clauses that are there, by their numbers: their literals lie one behind the other in one
//! list.
ghost use Rattle.std.specs.Prelude.{◌≡◌, ◌≢◌, ℕ, ◌+◌, ◌<◌, ◌≤◌, true, false, None, Some, is_some, [], ◌∷◌, ◌++◌, length, IfOk, IfSome, OnOk, OnErr, MatchOption, slice_get};
ghost use Rattle.std.specs.Option.{option_map};
ghost use Rattle.theory.specs.Truth.{IsOver};
ghost use Rattle.theory.specs.Checking.{clause_of, numbered_from, without_number};
ghost use Rattle.lrat.specs.Occurrences.{StayThere};
ghost use Rattle.lrat.specs.Slots as slots;
ghost use Rattle.lrat.specs.Slots.{there};
ghost use Rattle.lrat.specs.Flat.{slots_in, packed, AreWithin, AreEmptied, AreInOrder, AreUpTo};
ghost use Rattle.lrat.specs.declared.clauses.Head as declared;

use cnf::{Formula, Lit};
use std::alloc::{AllocError, Global};
use std::marker::Model;

/// A clause's number, where its literals stand, and whether it is there.
#[derive(Clone, Copy)]
pub(crate) struct Head {
    id: u64,
    start: usize,
    end: usize,
    is_there: bool,
}

/// The place that the clause with a number has, if no number between it and the last clause's was
/// left out.
fn place_from_last(heads: &[Head], id: u64) -> Option<usize>
    ensures { IfSome result (λ p. p < length heads.now) }
{
    let last = heads.len().checked_sub(1)?;
    let behind = heads[last].id.checked_sub(id)?;
    last.checked_sub(behind as usize)
}

/// The place of the clause with a number, there or not: directly where no number was left out
/// before it or behind it, else by halving. Most hints of a proof that deletes what is done with
/// are to clauses that were added last, or to the formula's.
fn place_of(heads: &[Head], first: usize, id: u64) -> Option<usize>
    requires { AreInOrder first heads.now }
    ensures { MatchOption result
        ((i : ℕ) (h : declared.Head) → slice_get heads.now i ≡ Some h → h.id ≢ id)
        (λ i. (h : declared.Head) × (slice_get heads.now i ≡ Some h) × (h.id ≡ id)) }
{
    let number = id as usize;
    if number == 0 {
        return None;
    }
    if number <= first {
        return Some(first - number);
    }
    if number <= heads.len() && heads[number - 1].id == id {
        return Some(number - 1);
    }
    if let Some(place) = place_from_last(heads, id) {
        if heads[place].id == id {
            return Some(place);
        }
    }
    let mut low = first;
    let mut high = heads.len();
    while low < high {
        let middle = low + (high - low) / 2;
        let found = heads[middle].id;
        if found == id {
            return Some(middle);
        }
        if found < id {
            low = middle + 1;
        } else {
            high = middle;
        }
    }
    None
}

/// Puts a clause behind the others.
fn append(
    heads: &mut Vec<Head>,
    lits: &mut Vec<Lit>,
    id: u64,
    is_there: bool,
    clause: &[Lit],
) -> Result<(), AllocError>
    requires { AreWithin lits.old.items heads.old.items }
    ensures ok { OnOk result (slots_in lits.new.items heads.new.items
        ≡ slots_in lits.old.items heads.old.items ++ (record { id = id; is_there = is_there; clause = clause.now }) ∷ []) }
    ensures err { OnErr result ((heads.new.items ≡ heads.old.items) × (slots_in lits.new.items heads.new.items ≡ slots_in lits.old.items heads.old.items)) }
    ensures within { AreWithin lits.new.items heads.new.items }
    ensures last { OnOk result ((h : declared.Head) × (h.id ≡ id) × (heads.new.items ≡ heads.old.items ++ h ∷ [])) }
{
    let start = lits.len();
    lits.extend_from_slice(clause)?;
    let end = lits.len();
    heads.push(Head {
        id,
        start,
        end,
        is_there,
    })?;
    Ok(())
}

/// The clauses that are there, with what is there of the formula's, in lists of their own. It takes
/// memory by the literals of these.
fn pack(
    alloc: Global,
    heads: &[Head],
    lits: &[Lit],
    first: usize,
) -> Result<(Vec<Head>, Vec<Lit>), AllocError>
    requires { AreWithin lits.now heads.now }
    ensures within { IfOk result (λ r. AreWithin r.1.items r.0.items) }
    ensures slots { IfOk result (λ r. slots_in r.1.items r.0.items ≡ packed first (slots_in lits.now heads.now)) }
{
    let mut packed_heads = Vec::new(alloc);
    let mut packed_lits = Vec::new(alloc);
    for place in 0..heads.len() {
        let head = heads[place];
        if head.is_there {
            let clause = &lits[head.start..head.end];
            append(&mut packed_heads, &mut packed_lits, head.id, true, clause)?;
        } else if place < first {
            append(&mut packed_heads, &mut packed_lits, head.id, false, &[])?;
        }
    }
    Ok((packed_heads, packed_lits))
}

/// Clauses over the variables 1 to `vars`, each with a number of its own: a formula's, and then
/// those that were added.
#[derive(Drop)]
pub(crate) struct Clauses {
    vars: u32,
    // so many clauses come first, by falling numbers
    first: usize,
    heads: Vec<Head>,
    lits: Vec<Lit>,
    // how many clauses were taken away since the last packing, with their literals
    dead: usize,
}

impl Model for Clauses {
    ghost use Rattle.lrat.specs.Slots.{Store};
    ghost use Rattle.lrat.specs.Flat.{slots_in, AreFlat};

    ghost Value = { Store };

    ghost view = { λ a. record { vars = a.vars; slots = slots_in a.lits.items a.heads.items } };

    ghost invariant = { λ a. AreFlat a.vars a.first a.lits.items a.heads.items };
}

impl Clauses {
    /// A formula's clauses, by the numbers from 1 on. It takes one walk over them.
    pub(crate) fn new(alloc: Global, formula: &Formula) -> Result<Clauses, AllocError>
        ensures there { IfOk result (λ a. there a ≡ numbered_from 1 formula.now.clauses) }
        ensures up_to { IfOk result (λ a. AreUpTo (length formula.now.clauses) a.slots) }
        ensures vars { IfOk result (λ a. a.vars ≡ formula.now.vars) }
    {
        let first = formula.clause_count();
        let mut heads = Vec::with_capacity(alloc, first)?;
        let mut lits = Vec::with_capacity(alloc, formula.literal_count())?;
        for done in 0..first {
            let place = first - 1 - done;
            let clause = formula.clause(place);
            append(&mut heads, &mut lits, place as u64 + 1, true, clause)?;
        }
        Ok(Clauses {
            vars: formula.vars(),
            first,
            heads,
            lits,
            dead: 0,
        })
    }

    /// The number of slots.
    pub(crate) fn len(&self) -> usize
        ensures { result ≡ length self.now.slots }
    {
        self.heads.len()
    }

    /// How many literals are held, those of clauses that were taken away included.
    pub(crate) fn literal_count(&self) -> usize {
        self.lits.len()
    }

    /// The number of variables.
    pub(crate) fn vars(&self) -> u32
        ensures { result ≡ self.now.vars }
    {
        self.vars
    }

    /// The same clauses over more variables.
    pub(crate) fn widen(&mut self, vars: u32)
        requires { self.old.vars ≤ vars }
        ensures { self.new ≡ record { vars = vars; slots = self.old.slots } }
    {
        self.vars = vars;
    }

    /// The number and the literals of the clause in the slot at a place, if it is there.
    pub(crate) fn at(&self, place: usize) -> Option<(u64, &[Lit])>
        requires { place < length self.now.slots }
        ensures over { MatchOption result (Unit {0}) (λ e. IsOver self.now.vars e.1.now) }
        ensures slot { (s : slots.Slot) → slice_get self.now.slots place ≡ Some s →
            MatchOption result (s.is_there ≡ false) (λ e. (s.is_there ≡ true) × (s.id ≡ e.0) × (s.clause ≡ e.1.now)) }
    {
        let head = self.heads[place];
        if head.is_there {
            Some((head.id, &self.lits[head.start..head.end]))
        } else {
            None
        }
    }

    /// The literals of the clause with a number, if it is there.
    pub(crate) fn get(&self, id: u64) -> Option<&[Lit]>
        ensures clause { option_map (λ c. c.now) result ≡ clause_of (there self.now) id }
        ensures over { MatchOption result (Unit {0}) (λ c. IsOver self.now.vars c.now) }
    {
        match place_of(&self.heads, self.first, id) {
            Some(place) => {
                let head = self.heads[place];
                if head.is_there {
                    Some(&self.lits[head.start..head.end])
                } else {
                    None
                }
            }
            None => None,
        }
    }

    /// Puts a clause whose number is above all others.
    pub(crate) fn push(&mut self, id: u64, clause: &[Lit]) -> Result<(), AllocError>
        requires positive { 0 < id }
        requires above { (i : ℕ) (s : slots.Slot) → slice_get self.old.slots i ≡ Some s → s.id < id }
        requires over { IsOver self.old.vars clause.now }
        ensures ok { OnOk result (there self.new ≡ (id, clause.now) ∷ there self.old) }
        ensures stay { OnOk result (StayThere self.old.slots self.new.slots) }
        ensures vars { self.new.vars ≡ self.old.vars }
        ensures up_to { OnOk result (AreUpTo id self.new.slots) }
        ensures err { OnErr result (self.new ≡ self.old) }
    {
        append(&mut self.heads, &mut self.lits, id, true, clause)
    }

    /// Takes the clause with a number away, if it is there.
    pub(crate) fn remove(&mut self, id: u64) -> bool
        ensures found { result ≡ is_some (clause_of (there self.old) id) }
        ensures removed { result ≡ true → there self.new ≡ without_number (there self.old) id }
        ensures stay { StayThere self.old.slots self.new.slots }
        ensures up_to { (n : ℕ) → AreUpTo n self.old.slots → AreUpTo n self.new.slots }
        ensures vars { self.new.vars ≡ self.old.vars }
    {
        match place_of(&self.heads, self.first, id) {
            Some(place) => {
                let head = self.heads[place];
                if !head.is_there {
                    return false;
                }
                self.heads[place] = Head {
                    id: head.id,
                    start: head.start,
                    end: head.end,
                    is_there: false,
                };
                self.dead = self
                    .dead
                    .saturating_add(head.end - head.start)
                    .saturating_add(1);
                true
            }
            None => false,
        }
    }

    /// Whether it is time to pack: more than half of what is held is of clauses that were taken
    /// away, and more than `cost`.
    pub(crate) fn is_sparse(&self, cost: usize) -> bool {
        self.dead > self.lits.len() / 2 + self.heads.len() / 2 && self.dead > cost
    }

    /// Gives the memory of clauses that were taken away free. Places change.
    pub(crate) fn pack(&mut self, alloc: Global) -> Result<(), AllocError>
        ensures same { there self.new ≡ there self.old }
        ensures emptied { OnOk result (AreEmptied self.new.slots) }
        ensures up_to { (n : ℕ) → AreUpTo n self.old.slots → AreUpTo n self.new.slots }
        ensures vars { self.new.vars ≡ self.old.vars }
        ensures err { OnErr result (self.new ≡ self.old) }
    {
        let (heads, lits) = pack(alloc, &self.heads, &self.lits, self.first)?;
        self.heads = heads;
        self.lits = lits;
        self.dead = 0;
        Ok(())
    }

    /// Whether the clause in the slot at a place is there.
    pub(crate) fn is_there(&self, place: usize) -> bool
        ensures { (s : slots.Slot) → slice_get self.now.slots place ≡ Some s → result ≡ s.is_there }
    {
        if place < self.heads.len() {
            let head = self.heads[place];
            head.is_there
        } else {
            false
        }
    }
}

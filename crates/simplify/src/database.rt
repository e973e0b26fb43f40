//! The clauses of a simplification, and which of them hold each literal.
ghost use Rattle.std.specs.Prelude.{◌≡◌, ◌≤◌, ◌<◌, ◌-◌, ◌+◌, ◌*◌, ◌∷◌, ◌++◌, [], ℕ, false, map, length, Some, None, is_some, slice_set, IfOk, OnOk, OnErr};
ghost use Rattle.theory.specs.Literals.{Clause, IsVariable};
ghost use Rattle.theory.specs.Truth.{IsOver};
ghost use Rattle.theory.specs.Reading.{large, max_vars};
ghost use Rattle.simplify.specs.Entries.{entry_of, entry_at, IsSet, IsThere, AreSets, holding, weight_in, has_unit_in, has_empty_in};

use crate::counting::{Counts, occurrences};
use crate::literal_set::put_set;
use crate::number_list::{NumberList, list};
use cnf::{Formula, Lit};
use std::alloc::{AllocError, Global};
use std::marker::Model;

/// Clauses by their numbers, from 1 on. A clause is a set: its literals stand by rising variable,
/// each once. Where a clause is gone, its number is given to no other.
pub(crate) struct Database {
    // the clauses, those that are gone too
    sets: Formula,
    // whether each is there
    there: Vec<bool>,
    // by a literal's code the numbers of the clauses that hold it, and some of clauses that are gone
    lists: Vec<NumberList>,
    // of the clauses there
    counts: Counts,
}

// written out, so that proofs of its owners stay short (docs/PROVING.md)
impl Drop for Database {
    fn drop(self) {
        let Database {
            sets: _,
            there: _,
            lists: _,
            counts: _,
        } = self;
    }
}

impl Model for Database {
    ghost use Rattle.simplify.specs.Entries.{Clauses};
    ghost use Rattle.simplify.specs.Tables.{entries_of, AreTables};

    ghost Value = { Clauses };

    ghost view = { λ d. record { vars = d.sets.vars; entries = entries_of d.there.items d.sets.clauses } };

    ghost invariant = { λ d. AreTables d.sets d.there.items d.lists.items d.counts };
}

/// Puts a clause that isn't there yet behind the others. Where memory is refused, nothing has changed.
fn put_absent(sets: &mut Formula, there: &mut Vec<bool>, clause: &[Lit]) -> Result<(), AllocError>
    requires { IsOver sets.old.vars clause.now }
    ensures sets { OnOk result (sets.new ≡ record sets.old { clauses = sets.old.clauses ++ clause.now ∷ [] }) }
    ensures there { OnOk result (there.new.items ≡ there.old.items ++ false ∷ []) }
    ensures same_sets { OnErr result (sets.new ≡ sets.old) }
    ensures same_there { OnErr result (there.new.items ≡ there.old.items) }
{
    there.reserve(1)?;
    sets.push(clause)?;
    there.push_reserved(false);
    Ok(())
}

/// Empty lists with room for as many numbers as are counted.
fn lists_with_room(alloc: Global, counts: &[u32]) -> Result<Vec<NumberList>, AllocError>
    ensures { IfOk result (λ lists. lists.items ≡ map (λ n. []) counts.now) }
{
    let mut lists = Vec::with_capacity(alloc, counts.len())?;
    for room in counts {
        lists.push(NumberList::with_room(alloc, *room)?)?;
    }
    Ok(lists)
}

impl Database {
    /// Those of a formula, without the clauses that have both signs of a variable.
    pub(crate) fn open(alloc: Global, formula: &Formula) -> Result<Database, AllocError>
        ensures { IfOk result (λ d. d ≡ record { vars = formula.now.vars; entries = map entry_of formula.now.clauses }) }
    {
        let mut database = Database::without_clauses(alloc, formula)?;
        let mut set = Vec::new(alloc);
        for place in 0..formula.clause_count() {
            database.put(&mut set, formula.clause(place))?;
        }
        Ok(database)
    }

    /// None yet, with room for those of a formula.
    fn without_clauses(alloc: Global, formula: &Formula) -> Result<Database, AllocError>
        ensures { IfOk result (λ d. d ≡ record { vars = formula.now.vars; entries = [] }) }
    {
        let vars = formula.vars();
        let occurrences = occurrences(alloc, formula)?;
        let lists = lists_with_room(alloc, &occurrences)?;
        let there = Vec::with_capacity(alloc, formula.clause_count())?;
        let counts = Counts::new(alloc, vars)?;
        Ok(Database {
            sets: Formula::without_clauses(alloc, vars),
            there,
            lists,
            counts,
        })
    }

    /// Puts a clause of the formula behind the others, as its set; where it has both signs of a
    /// variable, its number is that of a clause that is gone.
    fn put(&mut self, set: &mut Vec<Lit>, clause: &[Lit]) -> Result<(), AllocError>
        requires { IsOver self.old.vars clause.now }
        ensures { OnOk result (self.new ≡ record self.old { entries = self.old.entries ++ entry_of clause.now ∷ [] }) }
    {
        if put_set(set, clause)? {
            self.push(set)?;
        } else {
            self.push_gone()?;
        }
        Ok(())
    }

    /// The greatest variable.
    pub(crate) fn vars(&self) -> u32
        ensures vars { result ≡ self.now.vars }
        ensures few { result ≤ max_vars large }
        ensures sets { AreSets self.now.vars self.now.entries }
    {
        let _there = &self.there; // its invariant is asked for
        self.sets.vars()
    }

    /// The last number that was given.
    pub(crate) fn last(&self) -> u32
        ensures last { result ≡ length self.now.entries }
        ensures few { length self.now.entries < 4294967296 }
    {
        self.sets.clause_count() as u32
    }

    /// Whether the clause of a number is there.
    pub(crate) fn is_there(&self, number: u32) -> bool
        requires { (1 ≤ number) × (number ≤ length self.now.entries) }
        ensures { result ≡ is_some (entry_at self.now.entries number) }
    {
        self.there[number as usize - 1]
    }

    /// The literals of the clause of a number.
    pub(crate) fn clause(&self, number: u32) -> &[Lit]
        requires { IsThere self.now.entries number }
        ensures clause { entry_at self.now.entries number ≡ Some result.now }
        ensures set { IsSet self.now.vars result.now }
    {
        let _there = &self.there; // its invariant is asked for
        self.sets.clause(number as usize - 1)
    }

    /// How many pairs of clauses a variable has, or 0 where it has a unit clause.
    pub(crate) fn weight(&self, variable: u32) -> u64
        requires { IsVariable self.now.vars variable }
        ensures { result ≡ weight_in self.now.entries variable }
    {
        let _few = self.vars(); // each variable has literals
        if self.has_unit(variable) {
            return 0;
        }
        let positive = u64::from(self.count(Lit::of(variable, true)));
        let negative = u64::from(self.count(Lit::of(variable, false)));
        positive * negative
    }

    /// Whether some clause has a literal of a variable alone.
    pub(crate) fn has_unit(&self, variable: u32) -> bool
        requires { IsVariable self.now.vars variable }
        ensures { result ≡ has_unit_in variable self.now.entries }
    {
        self.counts.units(variable) > 0
    }

    /// Whether some clause is empty.
    pub(crate) fn has_empty(&self) -> bool
        ensures { result ≡ has_empty_in self.now.entries }
    {
        self.counts.empty() > 0
    }

    /// How many clauses hold a literal.
    pub(crate) fn count(&self, lit: Lit) -> u32
        requires { IsVariable self.now.vars lit.var }
        ensures { result ≡ length (holding lit self.now.entries) }
    {
        self.counts.holders(lit)
    }

    /// Writes the numbers of the clauses that hold a literal, rising.
    pub(crate) fn holders(&mut self, lit: Lit, out: &mut Vec<u32>) -> Result<(), AllocError>
        requires { IsVariable self.old.vars lit.var }
        ensures same { self.new ≡ self.old }
        ensures holders { OnOk result (out.new.items ≡ holding lit self.old.entries) }
    {
        out.clear();
        let list = &mut self.lists[lit.code()];
        list.keep_live(&self.there);
        out.extend_from_slice(list.numbers())?;
        Ok(())
    }

    /// Puts a number behind the others that is of no clause any more.
    fn push_gone(&mut self) -> Result<(), AllocError>
        ensures { OnOk result (self.new ≡ record self.old { entries = self.old.entries ++ None ∷ [] }) }
    {
        put_absent(&mut self.sets, &mut self.there, &[])?;
        Ok(())
    }

    /// Puts a clause behind the others. After an error it is unknown which clauses there are.
    pub(crate) fn push(&mut self, clause: &[Lit]) -> Result<(), AllocError>
        requires { IsSet self.old.vars clause.now }
        ensures { OnOk result (self.new ≡ record self.old { entries = self.old.entries ++ Some clause.now ∷ [] }) }
    {
        put_absent(&mut self.sets, &mut self.there, clause)?;
        let number = self.sets.clause_count() as u32;
        list(&mut self.lists, clause, number)?;
        self.there[number as usize - 1] = true;
        self.counts.enter(clause);
        Ok(())
    }

    /// Lets go of the clause of a number.
    pub(crate) fn remove(&mut self, number: u32)
        requires { IsThere self.old.entries number }
        ensures { self.new ≡ record self.old { entries = slice_set self.old.entries (number - 1) None } }
    {
        let place = number as usize - 1;
        self.counts.leave(self.sets.clause(place));
        self.there[place] = false;
    }
}

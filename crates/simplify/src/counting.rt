//! How many clauses hold each literal, are a unit clause of each variable, or are empty.
ghost use Rattle.std.specs.Prelude.{◌≡◌, ◌+◌, ◌*◌, ◌-◌, ◌<◌, ◌≤◌, ◌^◌, ℕ, All, length, slice_index, IfOk, replicate};
ghost use Rattle.cnf.specs.Lits.{code};
ghost use Rattle.theory.specs.Learning.{IsRising};
ghost use Rattle.theory.specs.Reading.{large, max_vars};
ghost use Rattle.simplify.specs.Tables.{times, IsOneMore, IsCounted, HasRoom, none_counted};

use cnf::{Formula, Lit};
use std::alloc::{AllocError, Global};
use std::marker::Model;

/// How many clauses there are of each kind, each clause a set.
#[derive(Drop)]
pub(crate) struct Counts {
    // by a literal's code, those that hold it
    literals: Vec<u32>,
    // by variable, those that hold a literal of it and no other
    units: Vec<u32>,
    // those without literals
    empty: u32,
}

impl Model for Counts {
    ghost use Rattle.simplify.specs.Tables.{Counted};

    ghost Value = { Counted };

    ghost view = { λ a. record { literals = a.literals.items; units = a.units.items; empty = a.empty } };
}

/// Counts the literals of a clause that may have each often.
fn add_occurrences(counts: &mut [u32], clause: &[Lit])
    requires { All (λ l. code l < length counts.old) clause.now }
    ensures { length counts.new ≡ length counts.old }
{
    for lit in clause {
        let code = lit.code();
        counts[code] = counts[code].saturating_add(1);
    }
}

/// How often each literal stands in a formula, by its code, or the greatest number where that is more.
pub(crate) fn occurrences(alloc: Global, formula: &Formula) -> Result<Vec<u32>, AllocError>
    ensures { IfOk result (λ counts. length counts.items ≡ 2 * formula.now.vars + 2) }
{
    let mut counts = vec![in alloc; 0u32; 2 * formula.vars() as usize + 2]?;
    for place in 0..formula.clause_count() {
        add_occurrences(&mut counts, formula.clause(place));
    }
    Ok(counts)
}

/// Counts the literals of a clause.
fn count(counts: &mut [u32], clause: &[Lit])
    requires by_code { All (λ l. code l < length counts.old) clause.now }
    requires few { (j : ℕ) → slice_index counts.old j + times j clause.now < 2 ^ 32 }
    ensures long { length counts.new ≡ length counts.old }
    ensures counts { (j : ℕ) → slice_index counts.new j ≡ slice_index counts.old j + times j clause.now }
{
    for lit in clause {
        counts[lit.code()] += 1;
    }
}

/// Counts the literals of a clause no more.
fn uncount(counts: &mut [u32], clause: &[Lit])
    requires by_code { All (λ l. code l < length counts.old) clause.now }
    requires counted { (j : ℕ) → times j clause.now ≤ slice_index counts.old j }
    ensures long { length counts.new ≡ length counts.old }
    ensures counts { (j : ℕ) → slice_index counts.new j + times j clause.now ≡ slice_index counts.old j }
{
    for lit in clause {
        counts[lit.code()] -= 1;
    }
}

impl Counts {
    /// Nothing yet of so many variables.
    pub(crate) fn new(alloc: Global, vars: u32) -> Result<Counts, AllocError>
        requires { vars ≤ max_vars large }
        ensures { IfOk result (λ c. c ≡ none_counted vars) }
    {
        let literals = vec![in alloc; 0u32; 2 * vars as usize + 2]?;
        let units = vec![in alloc; 0u32; vars as usize + 1]?;
        Ok(Counts {
            literals,
            units,
            empty: 0,
        })
    }

    /// How many clauses hold a literal.
    pub(crate) fn holders(&self, lit: Lit) -> u32
        requires { code lit < length self.now.literals }
        ensures { result ≡ slice_index self.now.literals (code lit) }
    {
        self.literals[lit.code()]
    }

    /// How many unit clauses of a variable there are.
    pub(crate) fn units(&self, variable: u32) -> u32
        requires { variable < length self.now.units }
        ensures { result ≡ slice_index self.now.units variable }
    {
        self.units[variable as usize]
    }

    /// How many clauses have no literal.
    pub(crate) fn empty(&self) -> u32
        ensures { result ≡ self.now.empty }
    {
        self.empty
    }

    /// Counts a clause.
    pub(crate) fn enter(&mut self, clause: &[Lit])
        requires rising { IsRising clause.now }
        requires by_code { All (λ l. code l < length self.old.literals) clause.now }
        requires by_variable { All (λ l. l.var < length self.old.units) clause.now }
        requires room { HasRoom self.old }
        ensures { IsOneMore self.old clause.now self.new }
    {
        count(&mut self.literals, clause);
        if clause.is_empty() {
            self.empty += 1;
        } else if clause.len() == 1 {
            self.units[clause[0].var() as usize] += 1;
        }
    }

    /// Counts a clause no more.
    pub(crate) fn leave(&mut self, clause: &[Lit])
        requires rising { IsRising clause.now }
        requires by_code { All (λ l. code l < length self.old.literals) clause.now }
        requires by_variable { All (λ l. l.var < length self.old.units) clause.now }
        requires counted { IsCounted self.old clause.now }
        ensures { IsOneMore self.new clause.now self.old }
    {
        uncount(&mut self.literals, clause);
        if clause.is_empty() {
            self.empty -= 1;
        } else if clause.len() == 1 {
            self.units[clause[0].var() as usize] -= 1;
        }
    }
}

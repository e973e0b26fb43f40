//! The clauses that hold a variable, and which of them are resolved.
ghost use Rattle.std.specs.Prelude.{◌≡◌, ◌≤◌, ◌<◌, ◌∷◌, [], ℕ, List, length, All, slice_index, IfSome, IsNone, IfOk, OnOk};
ghost use Rattle.theory.specs.Literals.{IsVariable, positive, negative};
ghost use Rattle.simplify.specs.Entries.{IsSet, holding, units_in, weight_in};
ghost use Rattle.theory.specs.Learning.{Line};
ghost use Rattle.simplify.specs.Resolving.{literals_of_pairs};
ghost use Rattle.simplify.specs.Tried.{left_in, right_in, lines_in};

use crate::database::Database;
use crate::resolvents::Resolvents;
use cnf::Lit;
use std::alloc::{AllocError, Global};

/// The numbers of the clauses that hold a variable and of those that hold its negation, each rising.
#[derive(Drop)]
pub(crate) struct Sides {
    pub(crate) positive: Vec<u32>,
    pub(crate) negative: Vec<u32>,
}

/// Where in a list the first unit clause stands.
fn unit_place(database: &Database, lit: Lit, numbers: &[u32]) -> Option<usize>
    requires { numbers.now ≡ holding lit database.now.entries }
    ensures some { IfSome result (λ i. (i < length numbers.now)
        × ((rest : List ℕ) × (units_in lit database.now.entries ≡ slice_index numbers.now i ∷ rest))) }
    ensures none { IsNone result → units_in lit database.now.entries ≡ [] }
{
    for place in 0..numbers.len() {
        if database.clause(numbers[place]).len() == 1 {
            return Some(place);
        }
    }
    None
}

/// The number at a place alone, or all where none is given.
fn one_or_all<'a>(numbers: &'a [u32], place: Option<usize>) -> &'a [u32]
    requires { IfSome place (λ i. i < length numbers.now) }
    ensures one { IfSome place (λ i. result.now ≡ slice_index numbers.now i ∷ []) }
    ensures all { IsNone place → result.now ≡ numbers.now }
{
    match place {
        Some(place) => &numbers[place..place + 1],
        None => numbers,
    }
}

impl Sides {
    /// None yet. It takes no memory.
    pub(crate) fn new(alloc: Global) -> Sides {
        Sides {
            positive: Vec::new(alloc),
            negative: Vec::new(alloc),
        }
    }

    /// Finds those of a variable.
    pub(crate) fn find(&mut self, database: &mut Database, variable: u32) -> Result<(), AllocError>
        requires { IsVariable database.old.vars variable }
        ensures same { database.new ≡ database.old }
        ensures positive { OnOk result (self.new.positive.items ≡ holding (positive variable) database.old.entries) }
        ensures negative { OnOk result (self.new.negative.items ≡ holding (negative variable) database.old.entries) }
    {
        let _vars = database.vars(); // it ensures that variables are small
        database.holders(Lit::of(variable, true), &mut self.positive)?;
        database.holders(Lit::of(variable, false), &mut self.negative)
    }

    /// The clauses with the variable that are resolved: the first unit clause, or all.
    fn left(&self, database: &Database, variable: u32) -> &[u32]
        requires variable { IsVariable database.now.vars variable }
        requires positive { self.now.positive.items ≡ holding (positive variable) database.now.entries }
        ensures { result.now ≡ left_in variable database.now.entries }
    {
        let _vars = database.vars(); // it ensures that variables are small
        let unit = unit_place(database, Lit::of(variable, true), &self.positive);
        one_or_all(&self.positive, unit)
    }

    /// Those with its negation: the first unit clause, where the variable has none, or all.
    fn right(&self, database: &Database, variable: u32) -> &[u32]
        requires variable { IsVariable database.now.vars variable }
        requires positive { self.now.positive.items ≡ holding (positive variable) database.now.entries }
        requires negative { self.now.negative.items ≡ holding (negative variable) database.now.entries }
        ensures { result.now ≡ right_in variable database.now.entries }
    {
        let _vars = database.vars(); // it ensures that variables are small
        if unit_place(database, Lit::of(variable, true), &self.positive).is_some() {
            return &self.negative;
        }
        let unit = unit_place(database, Lit::of(variable, false), &self.negative);
        one_or_all(&self.negative, unit)
    }

    /// Resolves the pairs of clauses: all with all, or all with the first unit clause, where there is
    /// one. It returns how many literals these pairs have, and takes time by them.
    pub(crate) fn resolve(
        &self,
        database: &Database,
        variable: u32,
        resolvents: &mut Resolvents,
    ) -> Result<u64, AllocError>
        requires variable { IsVariable database.now.vars variable }
        requires light { weight_in database.now.entries variable ≤ 100 }
        requires positive { self.now.positive.items ≡ holding (positive variable) database.now.entries }
        requires negative { self.now.negative.items ≡ holding (negative variable) database.now.entries }
        ensures work { IfOk result (λ w. w ≡ literals_of_pairs database.now.entries (left_in variable database.now.entries) (right_in variable database.now.entries)) }
        ensures small { IfOk result (λ w. w ≤ 4611686018427387904) }
        ensures lines { OnOk result (resolvents.new ≡ lines_in variable database.now.entries) }
        ensures sets { OnOk result (All (λ (l : Line). IsSet database.now.vars l.clause) resolvents.new) }
    {
        let _last = database.last(); // it ensures that there are few clauses
        let left = self.left(database, variable);
        let right = self.right(database, variable);
        resolvents.make(database, variable, left, right)
    }
}

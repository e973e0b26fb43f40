//! Room for what a try finds, kept from try to try.
ghost use Rattle.std.specs.Prelude.{◌≡◌, ◌≤◌, ◌++◌, All, IfOk, OnOk};
ghost use Rattle.theory.specs.Literals.{IsVariable, positive};
ghost use Rattle.simplify.specs.Entries.{holding, weight_in};
ghost use Rattle.simplify.specs.Resolving.{literals_of_pairs};
ghost use Rattle.simplify.specs.Tried.{left_in, right_in, lines_in, is_worth_in, gone_in, vars_of, entries_without, line_of_gone};
ghost use Rattle.simplify.specs.Found.{IsFound, IsListed};

use crate::database::Database;
use crate::elimination::{add_resolvents, drop_clauses};
use crate::resolvents::Resolvents;
use crate::sides::Sides;
use crate::touched::list_variables;
use crate::two_lists::merge;
use lines::Row;
use std::alloc::{AllocError, Global};

/// A variable is eliminated if no resolvent has more literals.
const MOST_LITERALS: usize = 20;

/// The clauses of a variable, their resolvents, and what goes with the variable.
#[derive(Drop)]
pub(crate) struct Room {
    sides: Sides,
    resolvents: Resolvents,
    // the clauses that go with the variable
    gone: Vec<u64>,
    // their variables, one as often as it stands there
    touched: Vec<u32>,
}

impl Room {
    /// No room yet. It takes no memory.
    pub(crate) fn new(alloc: Global) -> Room {
        Room {
            sides: Sides::new(alloc),
            resolvents: Resolvents::new(alloc),
            gone: Vec::new(alloc),
            touched: Vec::new(alloc),
        }
    }

    /// Finds the clauses of a variable, and resolves them. It returns how many literals their pairs
    /// have.
    pub(crate) fn find(&mut self, database: &mut Database, variable: u32) -> Result<u64, AllocError>
        requires variable { IsVariable database.old.vars variable }
        requires light { weight_in database.old.entries variable ≤ 100 }
        ensures same { OnOk result (database.new ≡ database.old) }
        ensures work { IfOk result (λ w. w ≡ literals_of_pairs database.old.entries (left_in variable database.old.entries) (right_in variable database.old.entries)) }
        ensures small { IfOk result (λ w. w ≤ 4611686018427387904) }
        ensures found { OnOk result (IsFound database.old.vars variable database.old.entries self.new) }
    {
        self.sides.find(database, variable)?;
        self.sides.resolve(database, variable, &mut self.resolvents)
    }

    /// Whether the variable is eliminated: it has a unit clause, or no more resolvents than clauses,
    /// and no long ones.
    pub(crate) fn is_worth(&self, database: &Database, variable: u32) -> bool
        requires variable { IsVariable database.now.vars variable }
        requires found { IsFound database.now.vars variable database.now.entries self.now }
        ensures { result ≡ is_worth_in variable database.now.entries }
    {
        let most = self.sides.positive.len() as u64 + self.sides.negative.len() as u64;
        database.has_unit(variable) || self.resolvents.are_few(most, MOST_LITERALS)
    }

    /// Lists the clauses that go with the variable, and the variables that these have.
    pub(crate) fn list_gone(&mut self, database: &Database, variable: u32) -> Result<(), AllocError>
        requires variable { IsVariable database.now.vars variable }
        requires found { IsFound database.now.vars variable database.now.entries self.old }
        ensures found { OnOk result (IsFound database.now.vars variable database.now.entries self.new) }
        ensures listed { OnOk result (IsListed variable database.now.entries self.new) }
    {
        let _vars = database.vars(); // it ensures that no clause has a variable in both signs
        merge(&mut self.gone, &self.sides.positive, &self.sides.negative)?;
        list_variables(&mut self.touched, database, &self.gone)
    }

    /// Puts the resolvents in the place of the clauses that go, and writes that.
    pub(crate) fn replace(
        &self,
        database: &mut Database,
        lines: &mut Row,
        variable: u32,
    ) -> Result<(), AllocError>
        requires found { IsFound database.old.vars variable database.old.entries self.now }
        requires listed { IsListed variable database.old.entries self.now }
        ensures vars { OnOk result (database.new.vars ≡ database.old.vars) }
        ensures entries { OnOk result (database.new.entries ≡ entries_without variable database.old.entries) }
        ensures lines { OnOk result (lines.new ≡ lines.old ++ lines_in variable database.old.entries ++ line_of_gone (gone_in variable database.old.entries)) }
    {
        add_resolvents(&self.resolvents, database, lines)?;
        drop_clauses(&self.gone, database, lines)
    }

    /// The numbers of the clauses that hold the variable.
    pub(crate) fn with_variable(&self) -> &[u32]
        ensures { result.now ≡ self.now.sides.positive.items }
    {
        &self.sides.positive
    }

    /// The variables of the clauses that go with it.
    pub(crate) fn touched(&self) -> &[u32]
        ensures { result.now ≡ self.now.touched.items }
    {
        &self.touched
    }
}

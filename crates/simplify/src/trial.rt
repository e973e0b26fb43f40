//! A simplification under way.
ghost use Rattle.std.specs.Prelude.{◌≡◌, ◌≤◌, ◌+◌, ◌-◌, false, length, slice_set, All, OnOk};
ghost use Rattle.theory.specs.Literals.{IsVariable};
ghost use Rattle.simplify.specs.Entries.{weight_in};
ghost use Rattle.simplify.specs.Resolving.{literals_of_pairs};
ghost use Rattle.simplify.specs.Tried.{left_in, right_in, IsReady, IsRenewed, IsEliminated, tried_in};
ghost use Rattle.simplify.specs.Found.{IsFound, IsListed};

use crate::candidates::Candidates;
use crate::database::Database;
use crate::eliminated::EliminatedVars;
use crate::room::Room;
use lines::Row;
use std::alloc::AllocError;
use std::marker::Model;

/// The clauses that are left, the variables that wait to be tried, and what was written and
/// eliminated so far.
#[derive(Drop)]
pub(crate) struct Trial {
    pub(crate) database: Database,
    pub(crate) candidates: Candidates,
    pub(crate) lines: Row,
    pub(crate) eliminated: EliminatedVars,
    pub(crate) work: u64,
}

impl Model for Trial {
    ghost use Rattle.simplify.specs.Tried.{State};

    ghost Value = { State };

    ghost view = { λ a. record {
      vars = a.database.vars;
      entries = a.database.entries;
      waiting = a.candidates;
      lines = a.lines;
      eliminated = a.eliminated;
      work = a.work;
    } };
}

/// Gives variables their weights anew, and lets them wait.
fn renew(candidates: &mut Candidates, database: &Database, variables: &[u32])
    requires long { (length candidates.old.waits ≡ database.now.vars) × (length candidates.old.weights ≡ database.now.vars) }
    requires within { All (IsVariable database.now.vars) variables.now }
    ensures { IsRenewed database.now.vars database.now.entries variables.now candidates.old candidates.new }
{
    for variable in variables {
        candidates.wait(*variable);
        candidates.set_weight(*variable, database.weight(*variable));
    }
}

impl Trial {
    /// Finds the clauses of a variable, and resolves them.
    fn find(&mut self, room: &mut Room, variable: u32) -> Result<(), AllocError>
        requires variable { IsVariable self.old.vars variable }
        requires light { weight_in self.old.entries variable ≤ 100 }
        requires small { self.old.work ≤ 4611686018427387904 }
        ensures found { OnOk result (IsFound self.old.vars variable self.old.entries room.new) }
        ensures work { OnOk result (self.new ≡ record self.old {
          work = self.old.work + literals_of_pairs self.old.entries (left_in variable self.old.entries) (right_in variable self.old.entries);
        }) }
    {
        self.work += room.find(&mut self.database, variable)?;
        Ok(())
    }

    /// Eliminates a variable by what was found.
    fn eliminate(&mut self, room: &Room, variable: u32) -> Result<(), AllocError>
        requires variable { IsVariable self.old.vars variable }
        requires long { (length self.old.waiting.waits ≡ self.old.vars) × (length self.old.waiting.weights ≡ self.old.vars) }
        requires found { IsFound self.old.vars variable self.old.entries room.now }
        requires listed { IsListed variable self.old.entries room.now }
        ensures { OnOk result (IsEliminated variable self.old self.new) }
    {
        let _vars = self.database.vars(); // it ensures that variables are small, and clauses are sets
        self.eliminated
            .push(&self.database, variable, room.with_variable())?;
        room.replace(&mut self.database, &mut self.lines, variable)?;
        renew(&mut self.candidates, &self.database, room.touched());
        Ok(())
    }

    /// Lets a variable wait no more.
    fn leave(&mut self, variable: u32)
        requires { IsVariable (length self.old.waiting.waits) variable }
        ensures { self.new ≡ record self.old { waiting = record self.old.waiting { waits = slice_set self.old.waiting.waits (variable - 1) false } } }
    {
        self.candidates.leave(variable);
    }

    /// Tries a variable. It takes time by the literals of its pairs of clauses. After an error it
    /// is of no use any more.
    pub(crate) fn try_variable(&mut self, room: &mut Room, variable: u32) -> Result<(), AllocError>
        requires variable { IsVariable self.old.vars variable }
        requires ready { IsReady self.old }
        requires light { weight_in self.old.entries variable ≤ 100 }
        requires small { self.old.work ≤ 4611686018427387904 }
        ensures { OnOk result (self.new ≡ tried_in variable self.old) }
    {
        self.find(room, variable)?;
        if room.is_worth(&self.database, variable) {
            room.list_gone(&self.database, variable)?;
            self.eliminate(room, variable)?;
        }
        self.leave(variable);
        Ok(())
    }
}

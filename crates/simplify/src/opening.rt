//! Where a simplification begins.
ghost use Rattle.std.specs.Prelude.{◌≡◌, IfOk};
ghost use Rattle.simplify.specs.Opening.{absent_in, first_state};

use crate::candidates::Candidates;
use crate::database::Database;
use crate::eliminated::EliminatedVars;
use crate::elimination::write_gone;
use crate::trial::Trial;
use cnf::Formula;
use lines::Row;
use std::alloc::{AllocError, Global};

/// The numbers of the clauses that aren't there.
fn absent_numbers(alloc: Global, database: &Database) -> Result<Vec<u64>, AllocError>
    ensures { IfOk result (λ v. v.items ≡ absent_in 1 database.now.entries) }
{
    let mut numbers = Vec::new(alloc);
    for before in 0..database.last() {
        let number = before + 1;
        if !database.is_there(number) {
            numbers.push(u64::from(number))?;
        }
    }
    Ok(numbers)
}

impl Trial {
    /// The clauses of a formula, without those that have both signs of a variable; all variables
    /// wait. It takes time and memory by the formula.
    pub(crate) fn open(alloc: Global, formula: &Formula) -> Result<Trial, AllocError>
        ensures { IfOk result (λ t. t ≡ first_state formula.now) }
    {
        let database = Database::open(alloc, formula)?;
        let mut lines = Row::new(alloc);
        write_gone(&mut lines, &absent_numbers(alloc, &database)?)?;
        let candidates = Candidates::open(alloc, &database)?;
        Ok(Trial {
            database,
            candidates,
            lines,
            eliminated: EliminatedVars::new(alloc),
            work: 0,
        })
    }
}

//! The variables whose clauses change.
ghost use Rattle.std.specs.Prelude.{◌≡◌, ◌++◌, map, All, OnOk};
ghost use Rattle.theory.specs.Literals.{Literal};
ghost use Rattle.simplify.specs.Entries.{IsThere};
ghost use Rattle.simplify.specs.Tried.{vars_of};

use crate::database::Database;
use cnf::{Lit, put_last};
use std::alloc::AllocError;

/// Puts a clause's variables behind the others.
fn put_variables(out: &mut Vec<u32>, clause: &[Lit]) -> Result<(), AllocError>
    ensures { OnOk result (out.new.items ≡ out.old.items ++ map (λ (l : Literal). l.var) clause.now) }
{
    for lit in clause {
        put_last(out, lit.var())?;
    }
    Ok(())
}

/// Lists the variables of clauses, one as often as it stands there.
pub(crate) fn list_variables(
    out: &mut Vec<u32>,
    database: &Database,
    numbers: &[u64],
) -> Result<(), AllocError>
    requires { All (IsThere database.now.entries) numbers.now }
    ensures { OnOk result (out.new.items ≡ vars_of database.now.entries numbers.now) }
{
    out.clear();
    let _last = database.last(); // it ensures that numbers are small
    for number in numbers {
        put_variables(out, database.clause(*number as u32))?;
    }
    Ok(())
}

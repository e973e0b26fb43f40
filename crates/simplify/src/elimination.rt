//! What is written and dropped where a variable is eliminated.
ghost use Rattle.std.specs.Prelude.{◌≡◌, ◌≤◌, ◌++◌, All, length, OnOk};
ghost use Rattle.theory.specs.Learning.{Line};
ghost use Rattle.simplify.specs.Entries.{IsSet};
ghost use Rattle.simplify.specs.Stored.{with_clauses, without_entries, AreRemovable};
ghost use Rattle.simplify.specs.Tried.{line_of_gone};

use crate::database::Database;
use crate::resolvents::Resolvents;
use lines::Row;
use std::alloc::AllocError;

/// Adds the resolvents to the clauses, and their lines to the lines. After an error it is unknown
/// which of them came.
pub(crate) fn add_resolvents(
    resolvents: &Resolvents,
    database: &mut Database,
    lines: &mut Row,
) -> Result<(), AllocError>
    requires { All (λ (l : Line). IsSet database.old.vars l.clause) resolvents.now }
    ensures vars { OnOk result (database.new.vars ≡ database.old.vars) }
    ensures entries { OnOk result (database.new.entries ≡ with_clauses database.old.entries resolvents.now) }
    ensures lines { OnOk result (lines.new ≡ lines.old ++ resolvents.now) }
{
    for place in 0..resolvents.len() {
        let clause = resolvents.clause(place);
        let pair = resolvents.pair(place);
        let hints = [u64::from(pair.positive), u64::from(pair.negative)];
        lines.push(clause, &hints, &[])?;
        database.push(clause)?;
    }
    Ok(())
}

/// Drops clauses of distinct numbers.
fn remove_all(database: &mut Database, numbers: &[u64])
    requires { AreRemovable database.old.entries numbers.now }
    ensures vars { database.new.vars ≡ database.old.vars }
    ensures entries { database.new.entries ≡ without_entries database.old.entries numbers.now }
{
    let _last = database.last(); // it ensures that numbers are small
    for number in numbers {
        database.remove(*number as u32);
    }
}

/// Writes the line that says which clauses are dropped, where there are any.
pub(crate) fn write_gone(lines: &mut Row, numbers: &[u64]) -> Result<(), AllocError>
    ensures { OnOk result (lines.new ≡ lines.old ++ line_of_gone numbers.now) }
{
    if numbers.is_empty() {
        return Ok(());
    }
    lines.push(&[], &[], numbers)
}

/// Drops clauses of distinct numbers, and writes that.
pub(crate) fn drop_clauses(
    numbers: &[u64],
    database: &mut Database,
    lines: &mut Row,
) -> Result<(), AllocError>
    requires { AreRemovable database.old.entries numbers.now }
    ensures vars { database.new.vars ≡ database.old.vars }
    ensures entries { OnOk result (database.new.entries ≡ without_entries database.old.entries numbers.now) }
    ensures lines { OnOk result (lines.new ≡ lines.old ++ line_of_gone numbers.now) }
{
    write_gone(lines, numbers)?;
    remove_all(database, numbers);
    Ok(())
}

//! A formula from its DIMACS text.
ghost use Rattle.std.specs.Prelude.{◌≡◌};
ghost use Rattle.theory.specs.Reading.{standard};
ghost use Rattle.cnf.specs.Faults.{IsReadAs};
ghost use Rattle.cnf.specs.Limits.{limits_of};

use crate::clauses::read_clauses;
use crate::fault::{Place, ReadFault};
use crate::formula::Formula;
use crate::header::read_header;
use crate::limits::Limits;
use std::alloc::Global;

/// The formula of a DIMACS text, in one pass over it. The first token that no formula's text has
/// there is refused, or the end. `NoMemory` comes where a growth was refused. `ReadFailed` doesn't
/// come. The standard limits hold.
pub fn read_formula(alloc: Global, bytes: &[u8]) -> Result<Formula, ReadFault>
    ensures { IsReadAs standard bytes.now result }
{
    read_formula_within(alloc, bytes, Limits::Standard)
}

/// The same within these limits.
pub fn read_formula_within(
    alloc: Global,
    bytes: &[u8],
    limits: Limits,
) -> Result<Formula, ReadFault>
    ensures { IsReadAs (limits_of limits) bytes.now result }
{
    if bytes.len() > limits.bytes() {
        return Err(ReadFault::OverLimit(Place { line: 1, column: 1 }));
    }
    let header = read_header(bytes, limits)?;
    read_clauses(alloc, bytes, &header, limits)
}

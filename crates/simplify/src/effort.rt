//! How many literals a formula has.
ghost use Rattle.std.specs.Prelude.{◌≡◌, ◌≤◌, IfOk};
ghost use Rattle.std.specs.List.{sum_by};
ghost use Rattle.theory.specs.Reading.{large, max_literals};
ghost use Rattle.theory.specs.Trying.{size};

use crate::literal_set::distinct_count;
use cnf::Formula;
use std::alloc::{AllocError, Global};

/// How many literals the clauses of a formula have, each counted once in a clause. It takes memory for
/// the longest clause, and fails only where that is refused.
pub(crate) fn literal_count(alloc: Global, formula: &Formula) -> Result<u64, AllocError>
    ensures count { IfOk result (λ w. w ≡ sum_by size formula.now.clauses) }
    ensures few { IfOk result (λ w. w ≤ max_literals large) }
{
    let _most = formula.literal_count(); // that it is small is asked for
    let mut list = Vec::new(alloc);
    let mut count = 0;
    for place in 0..formula.clause_count() {
        count += distinct_count(&mut list, formula.clause(place))?;
    }
    Ok(count)
}

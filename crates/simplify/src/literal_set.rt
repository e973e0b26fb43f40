//! A clause's literals by rising variable, each once.
ghost use Rattle.std.specs.Prelude.{◌≡◌, ◌↔◌, IsTrue, not, length, IfOk, OnOk};
ghost use Rattle.theory.specs.Literals.{has_both_signs};
ghost use Rattle.theory.specs.Learning.{IsRising};
ghost use Rattle.theory.specs.Trying.{size};
ghost use Rattle.simplify.specs.Entries.{set};

use cnf::{Lit, put_literals};
use std::alloc::AllocError;

/// Whether each literal is of a lesser variable than those behind it.
fn is_rising(lits: &[Lit]) -> bool
    ensures { IsTrue result ↔ IsRising lits.now }
{
    let mut least = 0;
    for lit in lits {
        let var = lit.var();
        if var < least {
            return false;
        }
        least = var + 1;
    }
    true
}

/// Makes a clause the set of its literals.
// A stable sort, so that the literals of one variable stand as they stood: that is the set also where
// a variable is in both signs.
fn sort(lits: &mut Vec<Lit>) -> Result<(), AllocError>
    ensures { OnOk result (lits.new.items ≡ set lits.old.items) }
{
    lits.sort_by_key(|lit| lit.var())?;
    lits.dedup();
    Ok(())
}

/// Puts the set of a clause's literals into a list, in place of what it has. It answers whether the
/// clause has no variable in both signs, and fails where a request for memory is refused.
// Most clauses rise as they stand, and are only copied.
pub(crate) fn put_set(out: &mut Vec<Lit>, clause: &[Lit]) -> Result<bool, AllocError>
    ensures one_sign { IfOk result (λ b. b ≡ not (has_both_signs clause.now)) }
    ensures set { OnOk result (out.new.items ≡ set clause.now) }
{
    out.clear();
    put_literals(out, clause)?;
    if is_rising(out) {
        return Ok(true);
    }
    sort(out)?;
    Ok(is_rising(out))
}

/// Sorts literals by their codes, and leaves out what repeats.
fn sort_by_code(lits: &mut Vec<Lit>) -> Result<(), AllocError>
    ensures { OnOk result (length lits.new.items ≡ size lits.old.items) }
{
    lits.sort_by_key(|lit| lit.code())?;
    lits.dedup();
    Ok(())
}

/// How many literals a clause has, each counted once. The list is what it works in. It fails where a
/// request for memory is refused.
// The set has as many, but where a variable is in both signs: there x, -x and x once more stand apart.
pub(crate) fn distinct_count(list: &mut Vec<Lit>, clause: &[Lit]) -> Result<u64, AllocError>
    ensures { IfOk result (λ n. n ≡ size clause.now) }
{
    if put_set(list, clause)? {
        return Ok(list.len() as u64);
    }
    sort_by_code(list)?;
    Ok(list.len() as u64)
}

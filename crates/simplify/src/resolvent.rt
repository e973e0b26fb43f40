//! The resolvent of two clauses.
ghost use Rattle.std.specs.Prelude.{◌≡◌, ◌≤◌, ◌+◌, ◌++◌, true, false, not, length, IfOk, OnErr};
ghost use Rattle.std.specs.Vec.{vec_len, vec_capacity};
ghost use Rattle.theory.specs.Literals.{positive, negative, has, has_both_signs};
ghost use Rattle.theory.specs.Learning.{IsRising};
ghost use Rattle.theory.specs.Simplifying.{resolvent};
ghost use Rattle.simplify.specs.Entries.{set};

use cnf::Lit;
use std::alloc::AllocError;

/// Puts literals behind the others: there is room for them.
fn push_rest(out: &mut Vec<Lit>, rest: &[Lit])
    requires { vec_len out.old + length rest.now ≤ vec_capacity out.old }
    ensures items { out.new.items ≡ out.old.items ++ rest.now }
    ensures len { vec_len out.new ≡ vec_len out.old + length rest.now }
    ensures capacity { vec_capacity out.new ≡ vec_capacity out.old }
{
    for lit in rest {
        out.push_reserved(*lit);
    }
}

/// Puts the resolvent on a variable of two clauses behind the literals of a list: the left clause has
/// the variable, the right one its negation, and the literals of each rise. It answers whether the
/// resolvent has no variable in both signs: else the list stays as it was. It takes time by the
/// literals, and fails where a request for memory is refused; the list then stays as it was too.
// Both clauses rise, so they are merged. For room is asked once, and not for each literal.
pub(crate) fn resolve(
    out: &mut Vec<Lit>,
    left: &[Lit],
    right: &[Lit],
    variable: u32,
) -> Result<bool, AllocError>
    requires left { IsRising left.now }
    requires right { IsRising right.now }
    requires variable { has left.now (positive variable) ≡ true }
    requires negation { has right.now (negative variable) ≡ true }
    ensures one_sign { IfOk result (λ b. b ≡ not (has_both_signs (set (resolvent (positive variable) left.now right.now)))) }
    ensures set { IfOk result (λ b. b ≡ true → out.new.items ≡ out.old.items ++ set (resolvent (positive variable) left.now right.now)) }
    ensures kept { IfOk result (λ b. b ≡ false → out.new.items ≡ out.old.items) }
    ensures err { OnErr result (out.new.items ≡ out.old.items) }
{
    let start = out.len();
    out.reserve(left.len() + right.len())?;
    let mut i = 0;
    let mut j = 0;
    while i < left.len() && j < right.len() {
        let first = left[i];
        let second = right[j];
        if first.var() < second.var() {
            out.push_reserved(first);
            i += 1;
        } else if second.var() < first.var() {
            out.push_reserved(second);
            j += 1;
        } else {
            if first.same(&second) {
                out.push_reserved(first);
            } else if first.var() != variable {
                out.truncate(start);
                return Ok(false);
            }
            i += 1;
            j += 1;
        }
    }
    push_rest(out, &left[i..]);
    push_rest(out, &right[j..]);
    Ok(true)
}

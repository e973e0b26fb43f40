//! The variables of the reasons behind a learnt clause.
ghost use Rattle.std.specs.Prelude.{◌≡◌, ◌<◌, ◌&&◌, ◌||◌, ◌∷◌, [], ℕ, true, All, OnOk, nat_lt};
ghost use Rattle.theory.specs.Literals.{has, has_var, negated};
ghost use Rattle.theory.specs.Status.{is_false};
ghost use Rattle.theory.specs.Trails.{entry_of, level_at, literals};
ghost use Rattle.theory.specs.Scores.{is_seen};
ghost use Rattle.theory.specs.Units.{reasons_against};
ghost use Rattle.cdcl.specs.Numbers.{is_one_of};

use crate::analysis::numbers::Numbers;
use crate::analysis::seen::see;
use cnf::Lit;
use kernel::SearchKernel;
use std::alloc::AllocError;

/// Sees the variables above level 0 of a clause.
fn see_clause(kernel: &SearchKernel, seen: &mut Numbers, clause: &[Lit]) -> Result<(), AllocError>
    requires { All (λ l. l.var < seen.old.bound) clause.now }
    ensures bound { seen.new.bound ≡ seen.old.bound }
    ensures seen { OnOk result ((v : ℕ) → is_one_of seen.new.numbers v
        ≡ (is_one_of seen.old.numbers v || (nat_lt 0 (level_at (entry_of kernel.now.trail v)) && has_var clause.now v))) }
{
    for lit in clause {
        see(kernel, seen, lit.var())?;
    }
    Ok(())
}

/// Sees the variables above level 0 of the reason that makes a literal false, where it has one.
fn see_reason(kernel: &SearchKernel, seen: &mut Numbers, lit: Lit) -> Result<(), AllocError>
    requires bound { kernel.now.vars < seen.old.bound }
    requires false_literal { has (literals kernel.now.trail) (negated lit) ≡ true }
    ensures bound { seen.new.bound ≡ seen.old.bound }
    ensures seen { OnOk result ((v : ℕ) → is_one_of seen.new.numbers v
        ≡ (is_one_of seen.old.numbers v || is_seen kernel.now.clauses kernel.now.trail (reasons_against kernel.now.trail (lit ∷ [])) v)) }
{
    let _trail = kernel.trail(); // it ensures what the proof needs of the trail
    if let Some(entry) = kernel.entry(lit.var()) {
        if let Some(number) = entry.reason {
            see_clause(kernel, seen, kernel.arranged(number))?;
        }
    }
    Ok(())
}

/// Sees the variables above level 0 of the reasons that make the literals of a clause false.
pub(crate) fn see_reasons(
    kernel: &SearchKernel,
    seen: &mut Numbers,
    clause: &[Lit],
) -> Result<(), AllocError>
    requires bound { kernel.now.vars < seen.old.bound }
    requires false_clause { is_false (literals kernel.now.trail) clause.now ≡ true }
    ensures bound { seen.new.bound ≡ seen.old.bound }
    ensures seen { OnOk result ((v : ℕ) → is_one_of seen.new.numbers v
        ≡ (is_one_of seen.old.numbers v || is_seen kernel.now.clauses kernel.now.trail (reasons_against kernel.now.trail clause.now) v)) }
{
    for lit in clause {
        see_reason(kernel, seen, *lit)?;
    }
    Ok(())
}

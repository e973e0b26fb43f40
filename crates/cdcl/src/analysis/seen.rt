//! The variables that a conflict has seen.
ghost use Rattle.std.specs.Prelude.{◌≡◌, ◌<◌, ◌&&◌, ◌||◌, ℕ, All, OnOk, nat_eq, nat_lt};
ghost use Rattle.theory.specs.Trails.{entry_of, level_at};
ghost use Rattle.cdcl.specs.Numbers.{is_one_of};

use crate::analysis::level::level_at;
use crate::analysis::numbers::Numbers;
use kernel::SearchKernel;
use std::alloc::AllocError;

/// Puts a variable in, if it is above level 0.
pub(crate) fn see(kernel: &SearchKernel, seen: &mut Numbers, var: u32) -> Result<(), AllocError>
    requires { var < seen.old.bound }
    ensures bound { seen.new.bound ≡ seen.old.bound }
    ensures seen { OnOk result ((v : ℕ) → is_one_of seen.new.numbers v
        ≡ (is_one_of seen.old.numbers v || (nat_lt 0 (level_at (entry_of kernel.now.trail v)) && nat_eq v var))) }
{
    if level_at(kernel, var) > 0 {
        seen.insert(var)?;
    }
    Ok(())
}

/// Those of the variables that stand above level 0. Resolution has met each of them, so that no
/// clause has to be gone through a second time.
pub(crate) fn see_all(
    kernel: &SearchKernel,
    seen: &mut Numbers,
    vars: &[u32],
) -> Result<(), AllocError>
    requires { All (λ v. v < seen.old.bound) vars.now }
    ensures bound { seen.new.bound ≡ seen.old.bound }
    ensures seen { OnOk result ((v : ℕ) → is_one_of seen.new.numbers v
        ≡ (nat_lt 0 (level_at (entry_of kernel.now.trail v)) && is_one_of vars.now v)) }
{
    seen.clear();
    for var in vars {
        see(kernel, seen, *var)?;
    }
    Ok(())
}

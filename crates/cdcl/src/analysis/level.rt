//! The levels of literals on the trail.
ghost use Rattle.std.specs.Prelude.{◌≡◌};
ghost use Rattle.theory.specs.Trails.{entry_of, level_at, level_of};
ghost use Rattle.theory.specs.Learning.{back_level};

use cnf::Lit;
use kernel::SearchKernel;

/// The level of a variable, 0 if it is free.
pub(crate) fn level_at(kernel: &SearchKernel, var: u32) -> u32
    ensures { result ≡ level_at (entry_of kernel.now.trail var) }
{
    match kernel.entry(var) {
        Some(entry) => entry.level,
        None => 0,
    }
}

/// The level of the literal's variable, 0 if it is free.
pub(crate) fn level_of(kernel: &SearchKernel, lit: Lit) -> u32
    ensures { result ≡ level_of kernel.now.trail lit }
{
    level_at(kernel, lit.var())
}

/// The greatest level of the literals that aren't of the current level, or 0.
pub(crate) fn back_level(kernel: &SearchKernel, clause: &[Lit]) -> u32
    ensures { result ≡ back_level kernel.now.trail clause.now }
{
    let current = kernel.level();
    let mut greatest = 0;
    for lit in clause {
        let level = level_of(kernel, *lit);
        if level != current {
            greatest = greatest.max(level);
        }
    }
    greatest
}

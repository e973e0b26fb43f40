//! Kernels that show their clauses as they were given, whatever order propagation has them in.
ghost use Rattle.std.specs.Prelude.{◌≡◌, true, false, IfSome, Some};
ghost use Rattle.theory.specs.Literals.{IsVariable, has_var, negated, same};
ghost use Rattle.theory.specs.Trails.{literals, entry_of};

use crate::acts;
use crate::acts::is_entry;
use cnf::{Lit, read_formula};
use kernel::{Closed, Cube, Entry, Kernel};
use std::alloc::{AllocError, Global};
use std::test::Fail;
use test_samples::{cube_of, reads};

/// A kernel at the root, with these units behind the clauses.
fn opened(alloc: Global, text: &[u8], units: &[i32]) -> Result<Kernel, Fail> {
    let formula = read_formula(alloc, text)?;
    let units = cube_of(alloc, formula.vars(), units)?;
    let kernel = Kernel::open_with(alloc, &formula, units.lits(), &Cube::root(alloc))?;
    Ok(kernel)
}

/// Whether the kernel has these clauses and no other.
fn shows(kernel: &Kernel, wanted: &[&[i32]]) -> bool {
    let count = kernel.as_search().count();
    for place in 0..wanted.len() {
        let number = place as u64 + 1;
        if number > count || !reads(kernel.clause(number), wanted[place]) {
            return false;
        }
    }
    count == wanted.len() as u64
}

/// Whether the trail has these entries: number, reason or 0, level.
fn stands(kernel: &Kernel, wanted: &[(i32, u64, u32)]) -> bool {
    let mut place = 0;
    for entry in kernel.trail() {
        if place >= wanted.len() || !is_entry(*entry, wanted[place]) {
            return false;
        }
        place += 1;
    }
    place == wanted.len()
}

/// The literal that makes the least free variable false.
fn next_literal(kernel: &Kernel) -> Option<Lit>
    ensures { IfSome result (λ l. IsVariable kernel.now.vars l.var × (has_var (literals kernel.now.trail) l.var ≡ false)) }
{
    match kernel.least_free() {
        Some(var) if var < 65536 => Some(Lit::of(var, false)),
        _ => None,
    }
}

/// Decides the least free variable, false, after propagation. Whether that could be done.
fn decide(kernel: &mut Kernel) -> Result<bool, AllocError> {
    match kernel.close()? {
        Closed::Conflict(_) => Ok(false),
        Closed::Quiet => {
            let Some(lit) = next_literal(kernel) else {
                return Ok(false);
            };
            kernel.decide(lit);
            Ok(true)
        }
    }
}

/// The entry that makes a literal false, if one does.
fn falsifier(kernel: &Kernel, lit: Lit) -> Option<Entry>
    ensures { IfSome result (λ e. IsVariable kernel.now.vars lit.var × (entry_of kernel.now.trail lit.var ≡ Some e) × (same e.lit (negated lit) ≡ true)) }
{
    acts::falsifier(kernel.as_search(), lit)
}

/// Whether the literal is of a free variable.
fn is_free(kernel: &Kernel, lit: Lit) -> bool
    ensures { result ≡ true → IsVariable kernel.now.vars lit.var × (has_var (literals kernel.now.trail) lit.var ≡ false) }
{
    acts::is_free(kernel.as_search(), lit)
}

/// Learns a clause of a free literal and one that is false at the current level, and gives its
/// number. None where they aren't such literals.
fn learn_pair(kernel: &mut Kernel, free: i32, number: i32) -> Result<Option<u64>, AllocError> {
    let (Some(free), Some(lit)) = (Lit::new(free), Lit::new(number)) else {
        return Ok(None);
    };
    let Some(entry) = falsifier(kernel, lit) else {
        return Ok(None);
    };
    if entry.level != kernel.level() || !is_free(kernel, free) {
        return Ok(None);
    }
    let learnt = kernel.learn(&[free, lit])?;
    Ok(Some(learnt))
}

/// Goes back to a level below the current one. Whether it is below.
fn back_to(kernel: &mut Kernel, level: u32) -> bool {
    let lower = level < kernel.level();
    if lower {
        kernel.back_to(level);
    }
    lower
}

const TEXT: &[u8] = b"p cnf 4 3\n4 -3 2 1 0\n-1 3 -2 4 0\n1 -4 2 0\n";

/// Whether two decisions come to what they are to come to, and leave the clauses as given.
fn goes_down(kernel: &mut Kernel) -> Result<bool, AllocError> {
    let is_decided = decide(kernel)? && decide(kernel)? && kernel.close()? == Closed::Quiet;
    let is_there = stands(kernel, &[(-1, 0, 1), (-2, 0, 2), (-4, 3, 2), (-3, 1, 2)]);
    let is_looked_up = kernel.value(4) == Some(false)
        && kernel.value(5).is_none()
        && kernel.least_free().is_none()
        && kernel.level() == 2;
    let is_shown = shows(kernel, &[&[4, -3, 2, 1], &[-1, 3, -2, 4], &[1, -4, 2]]);
    Ok(is_decided && is_there && is_looked_up && is_shown && kernel.visits() > 0)
}

/// Whether a clause that is learnt one level up is the fourth, and makes its literal true.
fn learns(kernel: &mut Kernel) -> Result<bool, AllocError> {
    let is_back = back_to(kernel, 1) && stands(kernel, &[(-1, 0, 1)]);
    let is_learnt = learn_pair(kernel, 2, 1)? == Some(4) && kernel.close()? == Closed::Quiet;
    let is_shown = shows(
        kernel,
        &[&[4, -3, 2, 1], &[-1, 3, -2, 4], &[1, -4, 2], &[2, 1]],
    );
    Ok(is_back && is_learnt && is_shown && stands(kernel, &[(-1, 0, 1), (2, 4, 1)]))
}

#[test]
fn clauses_stay_as_given(rt: HostRuntime) -> Result<(), Fail> {
    let mut kernel = opened(rt.alloc(), TEXT, &[])?;
    assert!(rt; kernel.visits() == 0);
    assert!(rt; goes_down(&mut kernel)?);
    assert!(rt; learns(&mut kernel)?);
    Ok(())
}

#[test]
fn units_stand_behind_the_clauses(rt: HostRuntime) -> Result<(), Fail> {
    let mut kernel = opened(rt.alloc(), b"p cnf 2 1\n2 1 0\n", &[-1])?;
    assert!(rt; kernel.close()? == Closed::Quiet);
    assert!(rt; stands(&kernel, &[(-1, 2, 0), (2, 1, 0)]));
    assert!(rt; shows(&kernel, &[&[2, 1], &[-1]]));
    Ok(())
}

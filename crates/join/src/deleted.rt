//! Which of a leaf's lines are deleted.
ghost use Rattle.std.specs.Prelude.{◌≡◌, ◌≤◌, ◌<◌, ◌+◌, ◌-◌, ◌++◌, ◌||◌, not, ℕ, All, filter, length, OnOk};
ghost use Rattle.theory.specs.Deletions.{is_among};
ghost use Rattle.theory.specs.Proofs.{numbers_from};
ghost use Rattle.join.specs.Deleted.{is_marked};

use std::alloc::AllocError;

/// Marks the lines of these numbers, where the leaf's first one has the number `first`.
pub(crate) fn mark(numbers: &[u64], first: u64, marks: &mut [bool])
    requires { All (λ k. (first ≤ k) × (k < first + length marks.old)) numbers.now }
    ensures marked { (k : ℕ) → is_marked first marks.new k ≡ is_marked first marks.old k || is_among k numbers.now }
    ensures many { length marks.new ≡ length marks.old }
{
    for number in numbers {
        marks[(*number - first) as usize] = true;
    }
}

/// Puts the numbers of the lines before `end` that aren't marked behind others.
pub(crate) fn put_unmarked(
    first: u64,
    end: u64,
    marks: &[bool],
    out: &mut Vec<u64>,
) -> Result<(), AllocError>
    requires { end ≤ first + length marks.now }
    ensures { OnOk result (out.new.items ≡ out.old.items ++ filter (λ k. not (is_marked first marks.now k)) (numbers_from first (end - first))) }
{
    for number in first..end {
        if !marks[(number - first) as usize] {
            out.push(number)?;
        }
    }
    Ok(())
}

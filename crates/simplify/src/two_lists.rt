//! Two rising lists of numbers as one.
ghost use Rattle.std.specs.Prelude.{◌≡◌, ◌<◌, ◌≤◌, ◌+◌, ◌∷◌, ◌++◌, true, false, length, drop, slice_index, IfOk, OnOk};
ghost use Rattle.simplify.specs.MergedLists.{merged};

use std::alloc::AllocError;

/// Whether the next number of the left list comes before that of the right one.
fn is_left_next(left: &[u32], right: &[u32], i: usize, j: usize) -> bool
    requires { (i < length left.now) × (j ≤ length right.now) }
    ensures yes { result ≡ true → merged (drop i left.now) (drop j right.now) ≡ slice_index left.now i ∷ merged (drop (i + 1) left.now) (drop j right.now) }
    ensures no { result ≡ false → (j < length right.now)
        × (merged (drop i left.now) (drop j right.now) ≡ slice_index right.now j ∷ merged (drop i left.now) (drop (j + 1) right.now)) }
{
    if j == right.len() {
        return true;
    }
    left[i] < right[j]
}

/// Merges rising lists up to the end of the first one, and returns where the second one goes on.
fn merge_first(out: &mut Vec<u64>, left: &[u32], right: &[u32]) -> Result<usize, AllocError>
    ensures within { IfOk result (λ j. j ≤ length right.now) }
    ensures merged { IfOk result (λ j. out.new.items ++ drop j right.now ≡ out.old.items ++ merged left.now right.now) }
{
    let mut i = 0;
    let mut j = 0;
    while i < left.len() {
        if is_left_next(left, right, i, j) {
            out.push(u64::from(left[i]))?;
            i += 1;
        } else {
            out.push(u64::from(right[j]))?;
            j += 1;
        }
    }
    Ok(j)
}

/// Merges two rising lists that have no number in common.
pub(crate) fn merge(out: &mut Vec<u64>, left: &[u32], right: &[u32]) -> Result<(), AllocError>
    ensures { OnOk result (out.new.items ≡ merged left.now right.now) }
{
    out.clear();
    let rest = merge_first(out, left, right)?;
    for number in &right[rest..] {
        out.push(u64::from(*number))?;
    }
    Ok(())
}

//! Which learnt clauses some numbers name.
ghost use Rattle.std.specs.Prelude.{◌≡◌, ◌+◌, ◌<◌, ◌≤◌, ◌||◌, false, All, IfOk, length, ℕ};
ghost use Rattle.kernel.specs.Forgetting.{is_flagged, is_numbered, Tells, names};

use std::alloc::{AllocError, Global};

/// The learnt clauses that some numbers name: whether it is one of these is asked of each entry of
/// a list.
#[derive(Drop)]
pub struct Named {
    // how many clauses there were from the beginning
    first: usize,
    // by learnt clause: whether it is named
    flags: Vec<bool>,
}

/// Sets the flags of the clauses of some numbers, the first of which is `first + 1`.
fn flag(flags: &mut [bool], first: usize, numbers: &[u64])
    requires { All (λ n. (first < n) × (n ≤ first + length flags.old)) numbers.now }
    ensures flagged { (n : ℕ) → is_flagged first flags.new n ≡ is_flagged first flags.old n || is_numbered numbers.now n }
{
    for number in numbers {
        let place = *number as usize - first - 1;
        flags[place] = true;
    }
}

impl Named {
    /// Those of these numbers, among `count` clauses of which the first ones aren't learnt. It
    /// fails where a request for memory is refused.
    pub fn of(
        alloc: Global,
        first: usize,
        count: usize,
        numbers: &[u64],
    ) -> Result<Named, AllocError>
        requires within { first ≤ count }
        requires learnt { All (λ n. (first < n) × (n ≤ count)) numbers.now }
        ensures { IfOk result (λ g. Tells (names g) numbers.now) }
    {
        let mut flags = vec![in alloc; false; count - first]?;
        flag(&mut flags, first, numbers);
        Ok(Named { first, flags })
    }

    /// Whether the clause at a place is named.
    pub fn has(&self, clause: usize) -> bool
        ensures { result ≡ names self.now clause }
    {
        if clause < self.first {
            return false;
        }
        let place = clause - self.first;
        place < self.flags.len() && self.flags[place]
    }
}

//! Numbers below a bound, kept as flags, of which the greatest is taken out first.
ghost use Rattle.std.specs.Prelude.{◌≡◌, ◌<◌, ◌≤◌, ◌-◌, ℕ, true, false, [], ◌∷◌, All, IfOk, IfSome, IfNone, length, slice_index_or};
ghost use Rattle.std.specs.List.{Contains};
ghost use Rattle.std.specs.List.Sorted.{IsPermutation};

use std::alloc::{AllocError, Global};
use std::marker::Model;

/// Numbers, each once. To find the greatest passes over those that aren't in, from the greatest
/// before, a byte each, down to the least since none was in: it is quick where the numbers lie near
/// one another.
#[derive(Drop)]
pub(crate) struct Flags {
    // by number: whether it is in
    flags: Vec<bool>,
    // all that are in lie from `low` on and before `top`
    low: usize,
    top: usize,
}

impl Model for Flags {
    ghost use Rattle.std.specs.Prelude.{List, ℕ};
    ghost use Rattle.cdcl.specs.Flags.{flagged, AreWithin};

    ghost Value = { List ℕ };

    ghost view = { λ f. flagged 0 f.flags.items };

    ghost invariant = { λ f. AreWithin f.low f.top f.flags.items };
}

/// The place behind the last flag that is set, among those from `low` on and before `top`.
fn behind_last(flags: &[bool], low: usize, top: usize) -> usize
    requires { top ≤ length flags.now }
    ensures most { result ≤ top }
    ensures none_behind { (i : ℕ) → result ≤ i → i < top → slice_index_or flags.now i false ≡ false }
    ensures last { low < result → slice_index_or flags.now (result - 1) false ≡ true }
{
    let mut top = top;
    while low < top && !flags[top - 1] {
        top -= 1;
    }
    top
}

impl Flags {
    /// No numbers, and room for those below a bound.
    pub(crate) fn with_room(alloc: Global, bound: usize) -> Result<Flags, AllocError>
        ensures { IfOk result (λ f. f ≡ []) }
    {
        Ok(Flags {
            flags: vec![in alloc; false; bound]?,
            low: bound,
            top: 0,
        })
    }

    /// Puts a number in, unless it is in or isn't below the bound; whether it was put in.
    pub(crate) fn put(&mut self, number: usize) -> bool
        ensures put { result ≡ true → IsPermutation (number ∷ self.old) self.new }
        ensures kept { result ≡ false → self.new ≡ self.old }
    {
        if number >= self.flags.len() || self.flags[number] {
            return false;
        }
        self.flags[number] = true;
        self.low = self.low.min(number);
        self.top = self.top.max(number + 1);
        true
    }

    /// The greatest number.
    pub(crate) fn greatest(&mut self) -> Option<usize>
        ensures kept { self.new ≡ self.old }
        ensures none { IfNone result (self.old ≡ []) }
        ensures there { IfSome result (λ n. Contains self.old n) }
        ensures greatest { IfSome result (λ n. All (λ m. m ≤ n) self.old) }
    {
        self.top = behind_last(&self.flags, self.low, self.top);
        if self.low < self.top {
            return Some(self.top - 1);
        }
        self.low = self.flags.len();
        self.top = 0;
        None
    }

    /// Takes the greatest number out.
    pub(crate) fn take(&mut self, greatest: usize)
        requires there { Contains self.old greatest }
        requires greatest { All (λ m. m ≤ greatest) self.old }
        ensures { IsPermutation self.old (greatest ∷ self.new) }
    {
        self.flags[greatest] = false;
        self.top = greatest;
    }
}

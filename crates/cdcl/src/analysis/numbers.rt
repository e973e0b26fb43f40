//! Sets of numbers below a bound.
ghost use Rattle.std.specs.Prelude.{◌≡◌, ◌<◌, ◌≤◌, ◌++◌, ◌∷◌, ℕ, false, [], All, IfOk, OnOk, OnErr, length, slice_index_or};
ghost use Rattle.cdcl.specs.Numbers.{AreWith, AreAmong, StandOnce, is_one_of};

use cnf::put_last;
use std::alloc::{AllocError, Global};
use std::marker::Model;

/// Numbers below a bound, each once, in the order in which they were put in. To clear it takes time
/// by how many they are.
#[derive(Drop)]
pub(crate) struct Numbers {
    // by number: whether it is in
    flags: Vec<bool>,
    list: Vec<u32>,
}

impl Model for Numbers {
    ghost use Rattle.std.specs.Prelude.{length};
    ghost use Rattle.cdcl.specs.Numbers.{NumberSet, AreFlagged};

    ghost Value = { NumberSet };

    ghost view = { λ a. record { bound = length a.flags.items; numbers = a.list.items } };

    ghost invariant = { λ a. AreFlagged a.flags.items a.list.items };
}

/// Makes the flags of these numbers false.
pub(crate) fn unset(flags: &mut [bool], numbers: &[u32])
    requires inside { All (λ n. n < length flags.old) numbers.now }
    ensures long { length flags.new ≡ length flags.old }
    ensures unset { AreAmong numbers.now flags.old → (n : ℕ) → slice_index_or flags.new n false ≡ false }
{
    for number in numbers {
        flags[*number as usize] = false;
    }
}

impl Numbers {
    /// No numbers, and room for those below a bound.
    pub(crate) fn with_room(alloc: Global, bound: usize) -> Result<Numbers, AllocError>
        ensures { IfOk result (λ a. a ≡ record { bound = bound; numbers = [] }) }
    {
        Ok(Numbers {
            flags: vec![in alloc; false; bound]?,
            list: Vec::new(alloc),
        })
    }

    /// Puts a number in, unless it is in.
    pub(crate) fn insert(&mut self, number: u32) -> Result<(), AllocError>
        requires { number < self.old.bound }
        ensures bound { self.new.bound ≡ self.old.bound }
        ensures inserted { OnOk result (AreWith number self.old.numbers self.new.numbers) }
        ensures last { OnOk result (is_one_of self.old.numbers number ≡ false → self.new.numbers ≡ self.old.numbers ++ number ∷ []) }
        ensures refused { OnErr result (self.new ≡ self.old) }
    {
        if !self.flags[number as usize] {
            put_last(&mut self.list, number)?;
            self.flags[number as usize] = true;
        }
        Ok(())
    }

    /// Whether a number is in.
    pub(crate) fn contains(&self, number: u32) -> bool
        requires { number < self.now.bound }
        ensures { result ≡ is_one_of self.now.numbers number }
    {
        self.flags[number as usize]
    }

    /// Takes all numbers out.
    pub(crate) fn clear(&mut self)
        ensures { self.new ≡ record self.old { numbers = [] } }
    {
        unset(&mut self.flags, &self.list);
        self.list.clear();
    }

    /// The numbers.
    pub(crate) fn list(&self) -> &[u32]
        ensures numbers { result.now ≡ self.now.numbers }
        ensures once { StandOnce result.now }
        ensures inside { All (λ n. n < self.now.bound) result.now }
        ensures few { length result.now ≤ self.now.bound }
    {
        &self.list
    }
}

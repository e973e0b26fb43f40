//! The value that each variable had last (phase saving; MiniSat's `polarity`).
ghost use Rattle.std.specs.Prelude.{◌≡◌, ◌<◌, ◌≤◌, ◌-◌, ℕ, true, false, not, map, length, slice_set, slice_index_or, All, OnOk, IfOk};
ghost use Rattle.theory.specs.Literals.{IsVariable};
ghost use Rattle.theory.specs.Truth.{value};
ghost use Rattle.heuristics.specs.Changes.{changed};
ghost use Rattle.cdcl.specs.Numbers.{AreSetBut};

use crate::analysis::numbers::Numbers;
use heuristics::Change;
use std::alloc::{AllocError, Global};
use std::marker::Model;

/// A value of each variable, at first true.
#[derive(Drop)]
pub(crate) struct Saved {
    // of the variables 1, 2 and so on
    values: Vec<bool>,
    // the places of those that are false, and maybe of others; but any may be false once all have
    // changed
    changed: Numbers,
    have_all_changed: bool,
}

impl Model for Saved {
    ghost use Rattle.std.specs.Prelude.{◌≡◌, false, length};
    ghost use Rattle.theory.specs.Truth.{Assignment};
    ghost use Rattle.cdcl.specs.Numbers.{AreSetBut};

    ghost Value = { Assignment };

    ghost view = { λ a. a.values.items };

    ghost invariant = { λ a. (a.changed.bound ≡ length a.values.items) × (a.have_all_changed ≡ false → AreSetBut a.changed.numbers a.values.items) };
}

/// Makes all values this one.
fn fill(values: &mut [bool], value: bool)
    ensures { values.new ≡ map (λ v. value) values.old }
{
    for at in 0..values.len() {
        values[at] = value;
    }
}

/// Makes each value the other one.
fn flip(values: &mut [bool])
    ensures { values.new ≡ map not values.old }
{
    for at in 0..values.len() {
        values[at] = !values[at];
    }
}

/// Makes the values at these places true.
fn set(values: &mut [bool], places: &[u32])
    requires inside { All (λ n. n < length values.old) places.now }
    ensures long { length values.new ≡ length values.old }
    ensures set { AreSetBut places.now values.old → (n : ℕ) → n < length values.old → slice_index_or values.new n false ≡ true }
{
    for place in places {
        values[*place as usize] = true;
    }
}

/// Makes all values true, of which only those at these places may be false, unless all have changed.
fn set_all(values: &mut [bool], places: &[u32], have_all_changed: bool)
    requires inside { All (λ n. n < length values.old) places.now }
    requires places { have_all_changed ≡ false → AreSetBut places.now values.old }
    ensures long { length values.new ≡ length values.old }
    ensures set { (n : ℕ) → n < length values.old → slice_index_or values.new n false ≡ true }
{
    if have_all_changed {
        fill(values, true);
    } else {
        set(values, places);
    }
}

impl Saved {
    /// The values of the variables 1 to `vars`, all true.
    pub(crate) fn with_room(alloc: Global, vars: u32) -> Result<Saved, AllocError>
        ensures long { IfOk result (λ s. length s ≡ vars) }
        ensures all { IfOk result (λ s. (v : ℕ) → IsVariable vars v → value s v ≡ true) }
    {
        Ok(Saved {
            values: vec![in alloc; true; vars as usize]?,
            changed: Numbers::with_room(alloc, vars as usize)?,
            have_all_changed: false,
        })
    }

    /// The value of a variable.
    pub(crate) fn of(&self, var: u32) -> bool
        requires { IsVariable (length self.now) var }
        ensures { result ≡ value self.now var }
    {
        self.values[var as usize - 1]
    }

    /// Saves the value of a variable.
    pub(crate) fn save(&mut self, var: u32, value: bool) -> Result<(), AllocError>
        requires { IsVariable (length self.old) var }
        ensures { OnOk result (self.new ≡ slice_set self.old (var - 1) value) }
    {
        if !value && !self.have_all_changed {
            self.changed.insert(var - 1)?;
        }
        self.values[var as usize - 1] = value;
        Ok(())
    }

    /// Changes all of them. It takes time by how many they are.
    pub(crate) fn change(&mut self, change: Change)
        ensures { self.new ≡ changed change self.old }
    {
        match change {
            Change::AllTrue => fill(&mut self.values, true),
            Change::AllOther => flip(&mut self.values),
            Change::AllFalse => fill(&mut self.values, false),
        }
        self.have_all_changed = true;
    }

    /// Makes all of them true. It takes time by how many became false, or by all where all have
    /// changed.
    pub(crate) fn clear(&mut self)
        ensures long { length self.new ≡ length self.old }
        ensures all { (v : ℕ) → IsVariable (length self.old) v → value self.new v ≡ true }
    {
        set_all(&mut self.values, self.changed.list(), self.have_all_changed);
        self.changed.clear();
        self.have_all_changed = false;
    }
}

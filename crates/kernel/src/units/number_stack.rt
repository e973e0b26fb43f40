//! A few unit clauses that wait where clauses go by number, in the order of their numbers.
ghost use Rattle.std.specs.Prelude.{◌≡◌, ◌<◌, true, false, List, [], ◌∷◌, ◌++◌, All, IfOk, IfSome, IfNone};
ghost use Rattle.std.specs.List.{Contains};
ghost use Rattle.std.specs.List.Sorted.{IsPermutation};
ghost use Rattle.kernel.specs.declared.units.unit_queue.Waiting.{Waiting};
ghost use Rattle.kernel.specs.declared.units.numbered.Numbered.{Numbered};
ghost use Rattle.kernel.specs.Placing.{GoesFirst, AreFalling};

use crate::units::numbered::Numbered;
use crate::units::unit_queue::Waiting;
use crate::units::waiting_queue::goes_first;
use cnf::Lit;
use std::alloc::{AllocError, Global};
use std::marker::Model;

/// One more clause is put in front of fewer than this.
const FEW: usize = 16;

/// Unit clauses of place 0, the least number at the end.
#[derive(Drop)]
pub struct NumberStack {
    items: Vec<Numbered>,
}

impl Model for NumberStack {
    ghost use Rattle.std.specs.Prelude.{List, map};
    ghost use Rattle.kernel.specs.declared.units.unit_queue.Waiting.{Waiting};
    ghost use Rattle.kernel.specs.Placing.{AreFalling, at_start};

    ghost Value = { List Waiting };

    ghost view = { λ s. map at_start s.items.items };

    ghost invariant = { λ s. AreFalling s.items.items };
}

/// Moves the last clause in front of those of lesser numbers.
fn settle(items: &mut [Numbered])
    requires { (before : List Numbered) × (last : Numbered) × (items.old ≡ before ++ last ∷ []) × AreFalling before }
    ensures permutes { IsPermutation items.old items.new }
    ensures falling { AreFalling items.new }
{
    let mut at = items.len() - 1;
    let last = items[at];
    while at > 0 && items[at - 1].clause < last.clause {
        items[at] = items[at - 1];
        at -= 1;
    }
    items[at] = last;
}

impl NumberStack {
    /// Nothing waits. It takes no memory.
    pub fn new(alloc: Global) -> NumberStack
        ensures { result ≡ [] }
    {
        NumberStack {
            items: Vec::new(alloc),
        }
    }

    /// Puts a clause in if it goes among the last ones; whether it does. It fails where a request
    /// for memory is refused.
    pub fn put(&mut self, clause: u32, lit: Lit) -> Result<bool, AllocError>
        ensures put { IfOk result (λ b. b ≡ true → IsPermutation (record { place = 0; clause = clause; lit = lit } ∷ self.old) self.new) }
        ensures left { IfOk result (λ b. b ≡ false → self.new ≡ self.old) }
    {
        let count = self.items.len();
        if count >= FEW && self.items[count - FEW].clause < clause {
            return Ok(false);
        }
        self.items.push(Numbered { clause, lit })?;
        settle(&mut self.items);
        Ok(true)
    }

    /// The clause that goes first.
    pub fn first(&self) -> Option<Waiting>
        ensures none { IfNone result (self.now ≡ []) }
        ensures there { IfSome result (λ w. Contains self.now w) }
        ensures first { IfSome result (λ w. All (λ v. GoesFirst w v) self.now) }
    {
        let count = self.items.len();
        if count == 0 {
            return None;
        }
        let least = self.items[count - 1];
        Some(least.waiting())
    }

    /// Whether one of these goes before a clause.
    pub fn has_before(&self, waiting: &Waiting) -> bool
        ensures before { result ≡ true → (w : Waiting) × Contains self.now w × GoesFirst w waiting.now }
        ensures none { result ≡ false → All (λ w. GoesFirst waiting.now w) self.now }
    {
        match self.first() {
            None => false,
            Some(first) => !goes_first(*waiting, first),
        }
    }

    /// Takes the clause out that goes first.
    pub fn pop(&mut self) -> Option<Waiting>
        ensures none { IfNone result ((self.old ≡ []) × (self.new ≡ [])) }
        ensures taken { IfSome result (λ w. IsPermutation self.old (w ∷ self.new)) }
        ensures first { IfSome result (λ w. All (λ v. GoesFirst w v) self.old) }
    {
        match self.items.pop() {
            None => None,
            Some(least) => Some(least.waiting()),
        }
    }

    /// Takes all clauses out.
    pub fn clear(&mut self)
        ensures { self.new ≡ [] }
    {
        self.items.clear();
    }
}

//! Unit clauses that wait and come in any order, of which the one that goes first is taken out.
ghost use Rattle.std.specs.Prelude.{◌≡◌, true, false, [], ◌∷◌, ◌++◌, All, OnOk, IfSome, IfNone};
ghost use Rattle.std.specs.List.{Contains};
ghost use Rattle.std.specs.List.Sorted.{IsPermutation};
ghost use Rattle.kernel.specs.declared.units.unit_queue.Waiting.{Waiting};
ghost use Rattle.kernel.specs.Placing.{GoesFirst};

use crate::units::number_stack::NumberStack;
use crate::units::unit_queue::Waiting;
use crate::units::waiting_heap::WaitingHeap;
use cnf::Lit;
use std::alloc::{AllocError, Global};
use std::marker::Model;

/// Clauses that wait. Where they go by number it is mostly a dozen, and one more goes in front of a
/// few: to move these takes half of the steps in which a heap takes it in and gives it out again, a
/// fifteenth of all steps of a search of random formulas. What goes in front of more goes into a
/// heap, since propagation in a large formula makes thousands wait.
#[derive(Drop)]
pub struct UnitOverflow {
    stack: NumberStack,
    heap: WaitingHeap,
}

impl Model for UnitOverflow {
    ghost use Rattle.std.specs.Prelude.{List, ◌++◌};
    ghost use Rattle.kernel.specs.declared.units.unit_queue.Waiting.{Waiting};

    ghost Value = { List Waiting };

    ghost view = { λ p. p.stack ++ p.heap };
}

impl UnitOverflow {
    /// Nothing waits. It takes no memory.
    pub fn new(alloc: Global) -> UnitOverflow
        ensures { result ≡ [] }
    {
        UnitOverflow {
            stack: NumberStack::new(alloc),
            heap: WaitingHeap::new(alloc),
        }
    }

    /// Puts a clause in that goes by number. It fails where a request for memory is refused.
    pub fn push_numbered(&mut self, clause: u32, lit: Lit) -> Result<(), AllocError>
        ensures { OnOk result (IsPermutation (record { place = 0; clause = clause; lit = lit } ∷ self.old) self.new) }
    {
        if !self.stack.put(clause, lit)? {
            self.heap.push(Waiting {
                place: 0,
                clause,
                lit,
            })?;
        }
        Ok(())
    }

    /// Puts a clause with a place in. It fails where a request for memory is refused.
    pub fn push_placed(&mut self, waiting: Waiting) -> Result<(), AllocError>
        ensures { OnOk result (IsPermutation (waiting ∷ self.old) self.new) }
    {
        self.heap.push(waiting)?;
        Ok(())
    }

    /// Whether one of these goes before a clause.
    pub fn has_before(&self, waiting: &Waiting) -> bool
        ensures before { result ≡ true → (w : Waiting) × Contains self.now w × GoesFirst w waiting.now }
        ensures none { result ≡ false → All (λ w. GoesFirst waiting.now w) self.now }
    {
        if self.stack.has_before(waiting) {
            return true;
        }
        self.heap.has_before(waiting)
    }

    /// Takes the clause out that goes first.
    // The parts one by one, so that whoever takes them holds them in registers: read from memory as
    // they were written they cost a search by place a twentieth.
    #[inline]
    pub fn pop(&mut self) -> Option<Waiting>
        ensures none { IfNone result ((self.old ≡ []) × (self.new ≡ [])) }
        ensures taken { IfSome result (λ w. IsPermutation self.old (w ∷ self.new)) }
        ensures first { IfSome result (λ w. All (λ v. GoesFirst w v) self.old) }
    {
        let first = self.take_first()?;
        Some(Waiting {
            place: first.place,
            clause: first.clause,
            lit: first.lit,
        })
    }

    /// Takes the clause out that goes first.
    #[inline(never)]
    fn take_first(&mut self) -> Option<Waiting>
        ensures none { IfNone result ((self.old ≡ []) × (self.new ≡ [])) }
        ensures taken { IfSome result (λ w. IsPermutation self.old (w ∷ self.new)) }
        ensures first { IfSome result (λ w. All (λ v. GoesFirst w v) self.old) }
    {
        let Some(first) = self.stack.first() else {
            return self.heap.pop();
        };
        if self.heap.has_before(&first) {
            self.heap.pop()
        } else {
            self.stack.pop()
        }
    }

    /// Takes all clauses out.
    pub fn clear(&mut self)
        ensures { self.new ≡ [] }
    {
        self.stack.clear();
        self.heap.clear();
    }
}

//! Numbers that come by rising size and are taken out in that order.
ghost use Rattle.std.specs.Prelude.{◌≡◌, ◌≤◌, true, [], ◌∷◌, ◌++◌, All, OnOk, IfOk, IfSome, IfNone};
ghost use Rattle.std.specs.List.{Contains};
ghost use Rattle.kernel.specs.Forgetting.{places_left, names};

use crate::clauses::named::Named;
use std::alloc::{AllocError, Global};
use std::marker::Model;

/// Numbers by rising size. It begins anew at the front of its memory each time that it becomes
/// empty: `head` is inside, or 0. So it keeps no number that was taken out behind the last one.
#[derive(Drop)]
pub struct Queue {
    items: Vec<u32>,
    // how many were taken out
    head: usize,
}

impl Model for Queue {
    ghost use Rattle.std.specs.Prelude.{List, ℕ, ◌≤◌, ◌-◌, length, drop};
    ghost use Rattle.kernel.specs.Waiting.{NeverFallsFrom};

    ghost Value = { List ℕ };

    ghost view = { λ q. drop q.head q.items.items };

    ghost invariant = { λ q. (q.head ≤ length q.items.items - 1) × NeverFallsFrom q.head q.items.items };
}

impl Queue {
    /// No numbers, with room for so many. It fails where a request for memory is refused.
    pub fn with_room(alloc: Global, count: usize) -> Result<Queue, AllocError>
        ensures { IfOk result (λ q. q ≡ []) }
    {
        Ok(Queue {
            items: Vec::with_capacity(alloc, count)?,
            head: 0,
        })
    }

    /// Whether each number is at most this one.
    pub fn takes(&self, number: u32) -> bool
        ensures { result ≡ true → All (λ m. m ≤ number) self.now }
    {
        let count = self.items.len();
        count == self.head || self.items[count - 1] <= number
    }

    /// Puts a number at the end that is no less than the others.
    pub fn push(&mut self, number: u32) -> Result<(), AllocError>
        requires { All (λ m. m ≤ number) self.old }
        ensures { OnOk result (self.new ≡ self.old ++ number ∷ []) }
    {
        self.items.push(number)?;
        Ok(())
    }

    /// The least number.
    pub fn first(&self) -> Option<u32>
        ensures none { IfNone result (self.now ≡ []) }
        ensures there { IfSome result (λ n. Contains self.now n) }
        ensures least { IfSome result (λ n. All (λ m. n ≤ m) self.now) }
    {
        if self.head < self.items.len() {
            Some(self.items[self.head])
        } else {
            None
        }
    }

    /// Takes the least number out.
    pub fn pop(&mut self) -> Option<u32>
        ensures none { IfNone result ((self.old ≡ []) × (self.new ≡ [])) }
        ensures taken { IfSome result (λ n. self.old ≡ n ∷ self.new) }
        ensures least { IfSome result (λ n. All (λ m. n ≤ m) self.old) }
    {
        if self.head == self.items.len() {
            return None;
        }
        let least = self.items[self.head];
        if self.head + 1 == self.items.len() {
            self.clear();
        } else {
            self.head += 1;
        }
        Some(least)
    }

    /// Takes those out that are named.
    pub fn drop_named(&mut self, named: &Named)
        ensures { self.new ≡ places_left (names named.now) self.old }
    {
        self.items.rotate_left(self.head);
        let count = self.items.len() - self.head;
        self.items.truncate(count);
        self.head = 0;
        self.items.retain(|number| !named.has(*number as usize));
    }

    /// Takes all numbers out.
    pub fn clear(&mut self)
        ensures { self.new ≡ [] }
    {
        self.items.clear();
        self.head = 0;
    }
}

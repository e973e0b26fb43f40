//! The clauses of lines that were replayed.
ghost use Rattle.std.specs.Prelude.{◌≡◌, ◌<◌, [], ◌∷◌, ◌++◌, length, slice_get, Some, OnOk, OnErr};

use cnf::{Lit, literals_at};
use std::alloc::{AllocError, Global};
use std::marker::Model;

/// Clauses, in the order of their lines: the literals of one lie behind those of the one before.
#[derive(Drop)]
pub(crate) struct LineClauses {
    literals: Vec<Lit>,
    // where the literals of each clause end
    ends: Vec<usize>,
}

impl Model for LineClauses {
    ghost use Rattle.std.specs.Prelude.{List, length};
    ghost use Rattle.theory.specs.Literals.{Clause};
    ghost use Rattle.cnf.specs.Pieces.{pieces, AreEnds};

    ghost Value = { List Clause };

    ghost view = { λ a. pieces 0 a.literals.items a.ends.items };

    ghost invariant = { λ a. AreEnds 0 a.ends.items (length a.literals.items) };
}

impl LineClauses {
    /// No clauses. It takes no memory.
    pub(crate) fn new(alloc: Global) -> LineClauses
        ensures { result ≡ [] }
    {
        LineClauses {
            literals: Vec::new(alloc),
            ends: Vec::new(alloc),
        }
    }

    /// How many clauses there are.
    pub(crate) fn len(&self) -> usize
        ensures { result ≡ length self.now }
    {
        self.ends.len()
    }

    /// The literals of the clause at a place, from 0 on.
    pub(crate) fn get(&self, place: usize) -> &[Lit]
        requires { place < length self.now }
        ensures { slice_get self.now place ≡ Some result.now }
    {
        literals_at(&self.literals, &self.ends, place)
    }

    /// Puts a clause at the end. Where a request for memory is refused, nothing has changed.
    pub(crate) fn push(&mut self, clause: &[Lit]) -> Result<(), AllocError>
        ensures ok { OnOk result (self.new ≡ self.old ++ clause.now ∷ []) }
        ensures err { OnErr result (self.new ≡ self.old) }
    {
        let count = self.literals.len();
        self.literals.extend_from_slice(clause)?;
        let end = self.literals.len();
        match self.ends.push(end) {
            Ok(()) => Ok(()),
            Err(_) => {
                self.literals.truncate(count);
                Err(AllocError)
            }
        }
    }

    /// Takes all clauses away, and keeps the memory for others.
    pub(crate) fn clear(&mut self)
        ensures { self.new ≡ [] }
    {
        self.literals.clear();
        self.ends.clear();
    }
}

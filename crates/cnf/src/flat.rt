//! Clauses whose literals lie in one list, one clause behind the other: ten million clauses take a
//! few requests for memory, and looking at one after the other goes through memory from front to
//! back.
ghost use Rattle.std.specs.Prelude.{◌≡◌, ◌≤◌, ◌<◌, [], ◌∷◌, ◌++◌, length, sum_by, slice_get, Some, OnOk, OnErr};
ghost use Rattle.cnf.specs.Pieces.{pieces, AreEnds, start_at};

use crate::lit::Lit;
use std::alloc::{AllocError, Global};
use std::marker::Model;

/// Where the literals of the clause at a place begin, or would begin at the place behind the last.
/// `ends` has where those of each clause end.
pub fn start_of(ends: &[usize], index: usize) -> usize
    requires { index ≤ length ends.now }
    ensures { result ≡ start_at 0 ends.now index }
{
    if index == 0 { 0 } else { ends[index - 1] }
}

/// The literals of the clause at a place.
pub fn literals_at<'a>(literals: &'a [Lit], ends: &[usize], index: usize) -> &'a [Lit]
    requires within { index < length ends.now }
    requires ends { AreEnds 0 ends.now (length literals.now) }
    ensures { slice_get (pieces 0 literals.now ends.now) index ≡ Some result.now }
{
    let start = start_of(ends, index);
    let end = ends[index];
    &literals[start..end]
}

/// Clauses, in an order.
pub(crate) struct FlatClauses {
    // the literals of the first clause, then those of the second and so on
    literals: Vec<Lit>,
    // where the literals of each clause end
    ends: Vec<usize>,
}

// written out, so that proofs of its owners stay short (docs/PROVING.md)
impl Drop for FlatClauses {
    fn drop(self) {
        let FlatClauses {
            literals: _,
            ends: _,
        } = self;
    }
}

impl Model for FlatClauses {
    ghost use Rattle.std.specs.Prelude.{List, length};
    ghost use Rattle.theory.specs.Literals.{Clause};
    ghost use Rattle.cnf.specs.Pieces.{pieces, AreEnds};

    ghost Value = { List Clause };

    ghost view = { λ a. pieces 0 a.literals.items a.ends.items };

    ghost invariant = { λ a. AreEnds 0 a.ends.items (length a.literals.items) };
}

impl FlatClauses {
    /// No clauses. It takes no memory.
    pub(crate) fn new(alloc: Global) -> FlatClauses
        ensures { result ≡ [] }
    {
        FlatClauses {
            literals: Vec::new(alloc),
            ends: Vec::new(alloc),
        }
    }

    /// How many clauses there are.
    pub(crate) fn len(&self) -> usize
        ensures { result ≡ length self.now }
    {
        self.ends.len()
    }

    /// How many literals all of them have.
    pub(crate) fn literal_count(&self) -> usize
        ensures { result ≡ sum_by length self.now }
    {
        let _ends = &self.ends; // its invariant is asked for
        self.literals.len()
    }

    /// The literals of the clause at a place, from 0 on.
    pub(crate) fn get(&self, place: usize) -> &[Lit]
        requires { place < length self.now }
        ensures { slice_get self.now place ≡ Some result.now }
    {
        literals_at(&self.literals, &self.ends, place)
    }

    /// Puts a clause at the end. Where a request for memory is refused, nothing has changed.
    pub(crate) fn push(&mut self, clause: &[Lit]) -> Result<(), AllocError>
        ensures ok { OnOk result (self.new ≡ self.old ++ clause.now ∷ []) }
        ensures err { OnErr result (self.new ≡ self.old) }
    {
        let count = self.literals.len();
        self.literals.extend_from_slice(clause)?;
        let end = self.literals.len();
        match self.ends.push(end) {
            Ok(()) => Ok(()),
            Err(_) => {
                self.literals.truncate(count);
                Err(AllocError)
            }
        }
    }
}

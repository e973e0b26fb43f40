//! The numbers of the clauses that hold a literal.
ghost use Rattle.std.specs.Prelude.{◌≡◌, ◌-◌, ◌<◌, ℕ, [], ◌∷◌, ◌++◌, All, filter, length, take, IfOk, OnOk, OnErr};
ghost use Rattle.cnf.specs.Lits.{code};
ghost use Rattle.simplify.specs.Tables.{is_live, AreListed};

use cnf::Lit;
use std::alloc::{AllocError, Global};
use std::marker::Model;

/// Rising numbers of clauses.
#[derive(Drop)]
pub(crate) struct NumberList {
    numbers: Vec<u32>,
}

impl Model for NumberList {
    ghost use Rattle.std.specs.Prelude.{List, ℕ};

    ghost Value = { List ℕ };

    ghost view = { λ a. a.numbers.items };
}

/// Whether the clause of a number is there.
fn is_live(there: &[bool], number: u32) -> bool
    ensures { result ≡ is_live there.now number }
{
    let place = (number as usize).saturating_sub(1);
    place < there.len() && there[place]
}

/// Lets go of the numbers of clauses that aren't there.
fn keep_live(there: &[bool], numbers: &mut Vec<u32>)
    ensures { numbers.new.items ≡ filter (is_live there.now) numbers.old.items }
{
    numbers.retain(|number| is_live(there, *number));
}

impl NumberList {
    /// An empty list with room for so many numbers.
    pub(crate) fn with_room(alloc: Global, room: u32) -> Result<NumberList, AllocError>
        ensures { IfOk result (λ l. l ≡ []) }
    {
        let numbers = Vec::with_capacity(alloc, room as usize)?;
        Ok(NumberList { numbers })
    }

    /// The numbers.
    pub(crate) fn numbers(&self) -> &[u32]
        ensures { result.now ≡ self.now }
    {
        &self.numbers
    }

    /// Puts a number at the end. Where memory is refused, nothing has changed.
    pub(crate) fn push(&mut self, number: u32) -> Result<(), AllocError>
        ensures ok { OnOk result (self.new ≡ self.old ++ number ∷ []) }
        ensures err { OnErr result (self.new ≡ self.old) }
    {
        self.numbers.push(number)?;
        Ok(())
    }

    /// Lets go of the numbers of clauses that aren't there.
    pub(crate) fn keep_live(&mut self, there: &[bool])
        ensures { self.new ≡ filter (is_live there.now) self.old }
    {
        keep_live(there, &mut self.numbers);
    }
}

/// Puts a clause's number into the lists of its literals. Where memory is refused, it may be in those
/// of the first ones.
pub(crate) fn list(lists: &mut [NumberList], clause: &[Lit], number: u32) -> Result<(), AllocError>
    requires { All (λ l. code l < length lists.old) clause.now }
    ensures ok { OnOk result (AreListed lists.old clause.now number lists.new) }
    ensures some { (i : ℕ) × AreListed lists.old (take i clause.now) number lists.new }
{
    for lit in clause {
        let list = &mut lists[lit.code()];
        list.push(number)?;
    }
    Ok(())
}

//! The variables that were eliminated, and what gives them their values.
ghost use Rattle.std.specs.Prelude.{◌≡◌, ◌≤◌, ◌<◌, ◌-◌, ◌∷◌, ◌++◌, [], true, not, map, length, All, Some, slice_get, OnOk};
ghost use Rattle.std.specs.List.{list_any, slice_range};
ghost use Rattle.theory.specs.Literals.{positive, without, IsVariable};
ghost use Rattle.theory.specs.Truth.{value, is_true, is_true_clause, IsOver};
ghost use Rattle.theory.specs.Simplifying.{Eliminated, is_needed, extended_model};
ghost use Rattle.cnf.specs.Pieces.{pieces, AreEnds};
ghost use Rattle.simplify.specs.Entries.{IsThere, there};
ghost use Rattle.simplify.specs.Extending.{AreOver};

use crate::database::Database;
use cnf::{Lit, literals_at, start_of};
use std::alloc::{AllocError, Global};
use std::marker::Model;

/// The eliminated variables, the first one first, each with the clauses that had it without a
/// negation.
pub(crate) struct EliminatedVars {
    // the literals of the first clause of the first variable, then those of its second and so on
    literals: Vec<Lit>,
    // where the literals of each clause end
    ends: Vec<usize>,
    // where the clauses of each variable end
    clause_ends: Vec<usize>,
    vars: Vec<u32>,
}

// written out, so that proofs of its owners stay short (docs/PROVING.md)
impl Drop for EliminatedVars {
    fn drop(self) {
        let EliminatedVars {
            literals: _,
            ends: _,
            clause_ends: _,
            vars: _,
        } = self;
    }
}

impl Model for EliminatedVars {
    ghost use Rattle.std.specs.Prelude.{◌≡◌, List, length};
    ghost use Rattle.theory.specs.Simplifying.{Eliminated};
    ghost use Rattle.cnf.specs.Pieces.{pieces, AreEnds};
    ghost use Rattle.simplify.specs.Extending.{eliminated_of};

    ghost Value = { List Eliminated };

    ghost view = { λ a. eliminated_of a.vars.items (pieces 0 (pieces 0 a.literals.items a.ends.items) a.clause_ends.items) };

    ghost invariant = { λ a. AreEnds 0 a.ends.items (length a.literals.items) × AreEnds 0 a.clause_ends.items (length a.ends.items) × (length a.vars.items ≡ length a.clause_ends.items) };
}

/// Puts the clauses of these numbers behind the others.
fn put_clauses(
    literals: &mut Vec<Lit>,
    ends: &mut Vec<usize>,
    database: &Database,
    numbers: &[u32],
) -> Result<(), AllocError>
    requires ends { AreEnds 0 ends.old.items (length literals.old.items) }
    requires there { All (IsThere database.now.entries) numbers.now }
    ensures ends { OnOk result (AreEnds 0 ends.new.items (length literals.new.items)) }
    ensures clauses { OnOk result (pieces 0 literals.new.items ends.new.items ≡ pieces 0 literals.old.items ends.old.items ++ map (there database.now.entries) numbers.now) }
{
    for number in numbers {
        literals.extend_from_slice(database.clause(*number))?;
        ends.push(literals.len())?;
    }
    Ok(())
}

/// Whether a literal is true.
fn is_true(values: &[bool], lit: Lit) -> bool
    requires { IsVariable (length values.now) lit.var }
    ensures { result ≡ is_true (value values.now) lit }
{
    values[lit.var() as usize - 1] == lit.positive()
}

/// Whether a clause has a true literal that isn't the variable itself.
fn is_true_without(values: &[bool], clause: &[Lit], variable: u32) -> bool
    requires { IsOver (length values.now) clause.now }
    ensures { result ≡ is_true_clause (value values.now) (without clause.now (positive variable)) }
{
    for lit in clause {
        let own = lit.positive() && lit.var() == variable;
        if !own && is_true(values, *lit) {
            return true;
        }
    }
    false
}

/// Whether one of the clauses from a place to another has no true literal but perhaps the variable.
fn needs(
    values: &[bool],
    literals: &[Lit],
    ends: &[usize],
    from: usize,
    to: usize,
    variable: u32,
) -> bool
    requires ends { AreEnds 0 ends.now (length literals.now) }
    requires within { (from ≤ to) × (to ≤ length ends.now) }
    requires over { All (IsOver (length values.now)) (slice_range (pieces 0 literals.now ends.now) from to) }
    ensures { result ≡ list_any (λ c. not (is_true_clause (value values.now) (without c (positive variable)))) (slice_range (pieces 0 literals.now ends.now) from to) }
{
    for place in from..to {
        if !is_true_without(values, literals_at(literals, ends, place), variable) {
            return true;
        }
    }
    false
}

impl EliminatedVars {
    /// None. It takes no memory.
    pub(crate) fn new(alloc: Global) -> EliminatedVars
        ensures { result ≡ [] }
    {
        EliminatedVars {
            literals: Vec::new(alloc),
            ends: Vec::new(alloc),
            clause_ends: Vec::new(alloc),
            vars: Vec::new(alloc),
        }
    }

    /// How many there are.
    pub(crate) fn len(&self) -> usize
        ensures { result ≡ length self.now }
    {
        self.vars.len()
    }

    /// Puts a variable with the clauses of these numbers behind the others. It fails where a request
    /// for memory is refused; then all are let go.
    pub(crate) fn push(
        &mut self,
        database: &Database,
        variable: u32,
        numbers: &[u32],
    ) -> Result<(), AllocError>
        requires var { (1 ≤ variable) × (variable < 2147483648) }
        requires there { All (IsThere database.now.entries) numbers.now }
        ensures { OnOk result (self.new ≡ self.old ++ record { var = variable; clauses = map (there database.now.entries) numbers.now } ∷ []) }
    {
        self.vars.reserve(1)?;
        self.clause_ends.reserve(1)?;
        match put_clauses(&mut self.literals, &mut self.ends, database, numbers) {
            Ok(()) => {
                self.clause_ends.push_reserved(self.ends.len());
                self.vars.push_reserved(variable);
                Ok(())
            }
            Err(error) => {
                self.literals.clear();
                self.ends.clear();
                self.clause_ends.clear();
                self.vars.clear();
                Err(error)
            }
        }
    }

    /// Whether the variable at a place has to be true where the others have these values.
    fn is_needed(&self, place: usize, values: &[bool]) -> bool
        requires within { place < length self.now }
        requires over { AreOver (length values.now) self.now }
        ensures { (e : Eliminated) → slice_get self.now place ≡ Some e → result ≡ is_needed (value values.now) e }
    {
        let from = start_of(&self.clause_ends, place);
        let to = self.clause_ends[place];
        needs(
            values,
            &self.literals,
            &self.ends,
            from,
            to,
            self.vars[place],
        )
    }

    /// Gives the eliminated variables their values, from the last to the first, where the others
    /// have these.
    pub(crate) fn extend(&self, values: &mut [bool])
        requires { AreOver (length values.old) self.now }
        ensures { values.new ≡ extended_model (length values.old) self.now values.old }
    {
        let mut place = self.len();
        while place > 0 {
            place -= 1;
            let needed = self.is_needed(place, values);
            values[self.vars[place] as usize - 1] = needed;
        }
    }
}

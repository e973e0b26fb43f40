//! The variables that clauses and assumptions name, and their numbers.
ghost use Rattle.std.specs.Prelude.{◌≡◌, ◌≤◌, ◌<◌, ◌^◌, [], length, IfOk, OnOk};
ghost use Rattle.theory.specs.Literals.{IsVariable};
ghost use Rattle.theory.specs.Truth.{IsOver};
ghost use Rattle.theory.specs.Reading.{large, max_vars};
ghost use Rattle.session.specs.Naming.{IsNaming, IsMore, variable_of, outward, all_outward, value_outward, values_outward};
ghost use Rattle.session.specs.Outward.{IsOverIfCore, IsOutward};

use crate::answer::Answer;
use cnf::{Limits, Lit};
use std::alloc::{AllocError, Global};
use std::marker::Model;

/// The variables that were named so far. Each has a number, 1, 2 and so on in the order in which they
/// came, and the search has these numbers for variables: so what it keeps of variables, and each pass
/// over it, goes by how many were named, however great the greatest one is.
pub(crate) struct Names {
    // of the variables 1, 2 and so on; 0 of one that wasn't named
    numbers: Vec<u32>,
    // of the numbers 1, 2 and so on
    variables: Vec<u32>,
}

// written out, so that proofs of its owners stay short (docs/PROVING.md)
impl Drop for Names {
    fn drop(self) {
        let Names {
            numbers: _,
            variables: _,
        } = self;
    }
}

impl Model for Names {
    ghost use Rattle.session.specs.Naming.{Naming, IsNaming};

    ghost Value = { Naming };

    ghost view = { λ a. record { numbers = a.numbers.items; variables = a.variables.items } };

    ghost invariant = { λ a. IsNaming (record { numbers = a.numbers.items; variables = a.variables.items }) };
}

/// The value of the variable of a number, and false where there is none.
fn value_of(values: &[bool], number: u32) -> bool
    ensures { result ≡ value_outward values.now number }
{
    if number == 0 {
        return false;
    }
    values.get(number as usize - 1).copied().unwrap_or(false)
}

impl Names {
    /// No variable was named. It takes no memory.
    pub(crate) fn new(alloc: Global) -> Names
        ensures { result ≡ record { numbers = []; variables = [] } }
    {
        Names {
            numbers: Vec::new(alloc),
            variables: Vec::new(alloc),
        }
    }

    /// The greatest variable that was named.
    pub(crate) fn vars(&self) -> u32
        ensures { result ≡ length self.now.numbers }
    {
        self.numbers.len() as u32
    }

    /// How many variables were named: their numbers are 1 up to it.
    pub(crate) fn count(&self) -> u32
        ensures count { result ≡ length self.now.variables }
        ensures few { result ≤ max_vars large }
        ensures naming { IsNaming self.now }
    {
        self.variables.len() as u32
    }

    /// Makes room for the number of a variable. It fails where the variable is above 100,000,000, or
    /// memory is refused.
    fn reach(&mut self, var: u32) -> Result<(), AllocError>
        ensures reached { OnOk result (var ≤ length self.new.numbers) }
        ensures more { IsMore self.old self.new }
    {
        if var as usize > self.numbers.len() {
            if var > Limits::Large.vars() {
                return Err(AllocError);
            }
            self.numbers.resize(var as usize, 0)?;
        }
        Ok(())
    }

    /// The number of a variable, which it gets now if it has none. It takes constant time, and time by
    /// the variables up to it that are above each one so far.
    fn number_of(&mut self, var: u32) -> Result<u32, AllocError>
        requires { 1 ≤ var }
        ensures number { IfOk result (λ n. IsVariable (length self.new.variables) n × (variable_of self.new n ≡ var)) }
        ensures few { IfOk result (λ n. n < 2 ^ 31) }
        ensures named { OnOk result (var ≤ length self.new.numbers) }
        ensures more { IsMore self.old self.new }
    {
        self.reach(var)?;
        let place = var as usize - 1;
        let known = self.numbers[place];
        if known > 0 {
            return Ok(known);
        }
        self.variables.push(var)?;
        let number = self.variables.len() as u32;
        self.numbers[place] = number;
        Ok(number)
    }

    /// Puts the literals of the variables' numbers behind others. It fails where a variable is above
    /// 100,000,000, or memory is refused; variables may have been named then.
    pub(crate) fn put_numbers(
        &mut self,
        lits: &[Lit],
        numbered: &mut Vec<Lit>,
    ) -> Result<(), AllocError>
        requires { numbered.old.items ≡ [] }
        ensures outward { OnOk result (all_outward self.new numbered.new.items ≡ lits.now) }
        ensures over { OnOk result (IsOver (length self.new.variables) numbered.new.items) }
        ensures named { OnOk result (IsOver (length self.new.numbers) lits.now) }
        ensures more { IsMore self.old self.new }
    {
        for lit in lits {
            let lit = *lit;
            let number = self.number_of(lit.var())?;
            numbered.push(Lit::of(number, lit.positive()))?;
        }
        Ok(())
    }

    /// The literal of the variable of a number.
    fn outward(&self, lit: Lit) -> Lit
        requires { IsVariable (length self.now.variables) lit.var }
        ensures { result ≡ outward self.now lit }
    {
        Lit::of(self.variables[lit.var() as usize - 1], lit.positive())
    }

    /// The literals of the variables of their numbers.
    fn all_outward(&self, lits: &[Lit]) -> Result<Vec<Lit>, AllocError>
        requires { IsOver (length self.now.variables) lits.now }
        ensures { IfOk result (λ r. r.items ≡ all_outward self.now lits.now) }
    {
        let mut named = Vec::with_capacity(*self.variables.allocator(), lits.len())?;
        for lit in lits {
            named.push(self.outward(*lit))?;
        }
        Ok(named)
    }

    /// The values of the variables 1, 2 and so on, by those of the numbers 1, 2 and so on.
    fn values_outward(&self, values: &[bool]) -> Result<Vec<bool>, AllocError>
        ensures { IfOk result (λ r. r.items ≡ values_outward self.now values.now) }
    {
        let mut named = Vec::with_capacity(*self.numbers.allocator(), self.numbers.len())?;
        for number in &self.numbers {
            named.push(value_of(values, *number))?;
        }
        Ok(named)
    }

    /// The values of the numbers 0, which none has, 1, 2 and so on, by those of the variables. A
    /// variable without one is false.
    pub(crate) fn by_number(&self, values: &[bool]) -> Result<Vec<bool>, AllocError> {
        let mut by_number = Vec::new(*self.variables.allocator());
        by_number.push(false)?;
        for variable in &self.variables {
            let place = (*variable as usize).saturating_sub(1);
            by_number.push(values.get(place).copied().unwrap_or(false))?;
        }
        Ok(by_number)
    }

    /// What an answer in numbers says of the variables. A variable that wasn't named is false.
    pub(crate) fn answer(&self, answer: Answer) -> Result<Answer, AllocError>
        requires { IsOverIfCore (length self.now.variables) answer }
        ensures { IfOk result (IsOutward self.now answer) }
    {
        match answer {
            Answer::Model(values) => Ok(Answer::Model(self.values_outward(&values)?)),
            Answer::Unsatisfiable(core) => Ok(Answer::Unsatisfiable(self.all_outward(&core)?)),
            Answer::Unknown => Ok(Answer::Unknown),
        }
    }
}

//! What a search begins with, beside what it adds to that itself.
ghost use Rattle.std.specs.Prelude.{◌≡◌, length};
ghost use Rattle.theory.specs.Truth.{Formula};
ghost use Rattle.simplify.specs.Made.{steps_from};
ghost use Rattle.strategies.specs.Begun.{formula_in, lines_in, model_in, HasVariables};

use cnf::Formula;
use lines::Row;
use simplify::Simplification;
use std::alloc::Global;

/// What a search begins with.
#[derive(Drop)]
pub enum Begun {
    /// With the formula that was given.
    Given,
    /// With what a simplification has left of it.
    Simplified(Simplification),
}

impl Begun {
    /// The formula that is searched, where this one was given.
    pub fn formula<'a>(&'a self, given: &'a Formula) -> &'a Formula
        ensures { result.now ≡ formula_in self.now given.now }
    {
        match self {
            Begun::Given => given,
            Begun::Simplified(simplification) => simplification.formula(),
        }
    }

    /// Makes a model of that formula one of the formula that was given: `values` has the truth
    /// values of the variables 1, 2 and so on. It takes no memory.
    pub fn extend(&self, values: &mut [bool])
        requires { HasVariables self.now (length values.old) }
        ensures { values.new ≡ model_in self.now values.old }
    {
        match self {
            Begun::Given => {}
            Begun::Simplified(simplification) => simplification.extend(values),
        }
    }

    /// Takes out the lines that stand before those of the search: where one has no hints, it says
    /// what is deleted.
    pub fn take_lines(&mut self, alloc: Global) -> Row
        ensures lines { (F : Formula) → steps_from (length F.clauses) result ≡ lines_in self.old F }
        ensures formula { (F : Formula) → formula_in self.new F ≡ formula_in self.old F }
    {
        match self {
            Begun::Given => Row::new(alloc),
            Begun::Simplified(simplification) => simplification.take_lines(),
        }
    }
}

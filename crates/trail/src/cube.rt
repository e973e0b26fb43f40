//! Cubes: the parts into which a search is split.
ghost use Rattle.std.specs.Prelude.{◌≡◌, [], ◌∷◌, ◌++◌, false, IfOk, OnOk, OnErr, MatchOption};
ghost use Rattle.theory.specs.Literals.{IsCube, has_var};
ghost use Rattle.trail.specs.Cubes.{AreOfVariables};

use cnf::Lit;
use std::alloc::{AllocError, Global};
use std::marker::Model;

/// Literals with distinct variables, in the order in which they were chosen.
#[derive(Drop)]
pub struct Cube {
    lits: Vec<Lit>,
}

impl Model for Cube {
    ghost use Rattle.std.specs.Prelude.{List};
    ghost use Rattle.theory.specs.Literals.{Literal, IsCube};
    ghost use Rattle.trail.specs.Cubes.{AreOfVariables};

    ghost Value = { List Literal };

    ghost view = { λ a. a.lits.items };

    ghost invariant = { λ a. IsCube a.lits.items × AreOfVariables a.lits.items };
}

impl Cube {
    /// The cube without literals. It takes no memory.
    pub fn root(alloc: Global) -> Cube
        ensures { result ≡ [] }
    {
        Cube {
            lits: Vec::new(alloc),
        }
    }

    /// The literals, in their order.
    pub fn lits(&self) -> &[Lit]
        ensures lits { result.now ≡ self.now }
        ensures cube { IsCube self.now }
        ensures variables { AreOfVariables self.now }
    {
        &self.lits
    }

    /// The cube with one literal more at its end, whose variable isn't in it yet. It takes time by
    /// the literals. It fails where a request for memory is refused.
    pub fn with(&self, lit: Lit) -> Result<Cube, AllocError>
        requires { has_var self.now lit.var ≡ false }
        ensures { IfOk result (λ q. q ≡ self.now ++ lit ∷ []) }
    {
        let alloc = *self.lits.allocator();
        let mut lits = Vec::with_capacity(alloc, self.lits.len() + 1)?;
        lits.extend_from_slice(&self.lits)?;
        let _var = lit.var(); // it ensures that it is a variable
        lits.push(lit)?;
        Ok(Cube { lits })
    }

    /// A copy. It fails where a request for memory is refused.
    pub fn copied(&self) -> Result<Cube, AllocError>
        ensures { IfOk result (λ q. q ≡ self.now) }
    {
        Ok(Cube {
            lits: Vec::from_slice(*self.lits.allocator(), &self.lits)?,
        })
    }

    /// Puts a literal at the end, whose variable isn't in the cube yet. It fails where a request
    /// for memory is refused, and leaves the cube as it was then.
    pub fn push(&mut self, lit: Lit) -> Result<(), AllocError>
        requires { has_var self.old lit.var ≡ false }
        ensures ok { OnOk result (self.new ≡ self.old ++ lit ∷ []) }
        ensures err { OnErr result (self.new ≡ self.old) }
    {
        let _var = lit.var(); // it ensures that it is a variable
        self.lits.push(lit)?;
        Ok(())
    }

    /// Takes the last literal off, if there is one.
    pub fn pop(&mut self) -> Option<Lit>
        ensures { MatchOption result ((self.old ≡ []) × (self.new ≡ []))
            (λ l. (self.old ≡ self.new ++ l ∷ []) × (has_var self.new l.var ≡ false)) }
    {
        self.lits.pop()
    }
}

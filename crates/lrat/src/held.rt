//! Literals that are held true, with a table by variable, so that each look-up is one step, and a
//! list of them by which the latest are taken back.
ghost use Rattle.std.specs.Prelude.{◌≡◌, List, ◌≤◌, ◌<◌, ◌^◌, [], ◌∷◌, true, false, length, IfOk, OnOk, OnErr, MatchOption};
ghost use Rattle.theory.specs.Literals.{Literal, IsVariable, has_var, are_distinct};
ghost use Rattle.lrat.specs.Held.{value_in, Extends};

use cnf::Lit;
use std::alloc::{AllocError, Global};
use std::marker::Model;

/// Literals of distinct variables, each one of 1 to `vars`, the latest first. It takes two bytes a
/// variable, and 4 a literal.
#[derive(Drop)]
pub struct Held {
    vars: u32,
    // in the order in which they came
    trail: Vec<Lit>,
    // by variable: its truth value, and none while it is free
    values: Vec<Option<bool>>,
}

impl Model for Held {
    ghost use Rattle.std.specs.Prelude.{reverse};
    ghost use Rattle.lrat.specs.Held as held;
    ghost use Rattle.lrat.specs.Held.{IsTable};

    ghost Value = { held.Held };

    ghost view = { λ a. record { vars = a.vars; literals = reverse a.trail.items } };

    ghost invariant = { λ a. IsTable a.vars (reverse a.trail.items) a.values.items };
}

impl Held {
    /// No literals, over so many variables. It fails where a request for memory is refused.
    pub fn new(alloc: Global, vars: u32) -> Result<Held, AllocError>
        ensures { IfOk result (λ h. h ≡ record { vars = vars; literals = [] }) }
    {
        Ok(Held {
            vars,
            trail: Vec::new(alloc),
            values: vec![in alloc; None; vars as usize + 1]?,
        })
    }

    /// The number of variables.
    pub fn vars(&self) -> u32
        ensures { result ≡ self.now.vars }
    {
        self.vars
    }

    /// Puts more variables behind the others, which are free. Where memory is refused, nothing has
    /// changed.
    pub(crate) fn widen(&mut self, vars: u32) -> Result<(), AllocError>
        requires { self.old.vars ≤ vars }
        ensures ok { OnOk result (self.new ≡ record { vars = vars; literals = self.old.literals }) }
        ensures err { OnErr result (self.new ≡ self.old) }
    {
        self.values.resize(vars as usize + 1, None)?;
        self.vars = vars;
        Ok(())
    }

    /// How many literals there are.
    pub fn len(&self) -> usize
        ensures { result ≡ length self.now.literals }
    {
        self.trail.len()
    }

    /// The truth value of a variable, and none while it is free. It is one look-up.
    pub fn value(&self, var: u32) -> Option<bool>
        requires { var ≤ self.now.vars }
        ensures value { result ≡ value_in self.now.literals var }
        ensures distinct { are_distinct self.now.literals ≡ true }
    {
        self.values[var as usize]
    }

    /// Puts a literal of a free variable before the others. It fails where a request for memory is
    /// refused: nothing has changed then.
    pub fn push(&mut self, lit: Lit) -> Result<(), AllocError>
        requires is_variable { IsVariable self.old.vars lit.var }
        requires is_free { has_var self.old.literals lit.var ≡ false }
        ensures ok { OnOk result (self.new.literals ≡ lit ∷ self.old.literals) }
        ensures err { OnErr result (self.new.literals ≡ self.old.literals) }
        ensures vars { self.new.vars ≡ self.old.vars }
    {
        self.trail.push(lit)?;
        self.values[lit.var() as usize] = Some(lit.positive());
        Ok(())
    }

    /// Takes the latest literal away.
    fn pop(&mut self) -> Option<Lit>
        ensures popped { MatchOption result ((self.old.literals ≡ []) × (self.new.literals ≡ [])) (λ l. self.old.literals ≡ l ∷ self.new.literals) }
        ensures vars { self.new.vars ≡ self.old.vars }
    {
        let lit = self.trail.pop()?;
        self.values[lit.var() as usize] = None;
        Some(lit)
    }

    /// Takes the latest literals away, until `count` are left; where there are no more, none. It
    /// takes time by those taken away, and no memory.
    pub fn go_back(&mut self, count: usize)
        ensures left { (P : List Literal) → length P ≡ count → Extends P self.old.literals → self.new.literals ≡ P }
        ensures few { length self.old.literals ≤ count → self.new.literals ≡ self.old.literals }
        ensures vars { self.new.vars ≡ self.old.vars }
    {
        while self.len() > count {
            let _ = self.pop();
        }
    }
}

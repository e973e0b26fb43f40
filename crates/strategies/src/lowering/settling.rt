//! The first model of a formula, from any of its models.
ghost use Rattle.std.specs.Prelude.{◌≡◌, ◌+◌, true, length, IfOk, IfSome};
ghost use Rattle.theory.specs.Literals.{IsVariable};
ghost use Rattle.theory.specs.Truth.{IsOver, Satisfies, is_true, value};
ghost use Rattle.strategies.specs.Lowering.{IsFalsified, IsLiteralOf, IsLowering, IsLoweringAfter, IsLowered};

use crate::lowering::prefix::Prefix;
use crate::lowering::question::{Questions, Reply};
use crate::observer::Observer;
use cnf::{Formula, Lit};
use cubes::Gate;
use std::alloc::{AllocError, Global};

/// A lowering under way.
pub(crate) struct Lowering {
    pub(crate) prefix: Prefix,
    /// The model at hand.
    pub(crate) model: Vec<bool>,
    pub(crate) questions: Questions,
}

// written out, so that proofs of its owners stay short (docs/PROVING.md)
impl Drop for Lowering {
    fn drop(self) {
        let Lowering {
            prefix: _,
            model: _,
            questions: _,
        } = self;
    }
}

/// Makes the variables false whose negations are among these literals.
fn make_false(model: &mut [bool], units: &[Lit])
    requires { IsOver (length model.old) units.now }
    ensures { IsFalsified units.now model.old model.new }
{
    for unit in units {
        if !unit.positive() {
            model[unit.var() as usize - 1] = false;
        }
    }
}

impl Lowering {
    /// Nothing is settled.
    fn begin(alloc: Global, formula: &Formula, mut model: Vec<bool>) -> Result<Lowering, AllocError>
        requires { Satisfies formula.now model.items }
        ensures { IfOk result (IsLowering formula.now 1) }
    {
        let _vars = formula.vars(); // it ensures what the proof needs of the formula
        let units = formula.pure(alloc)?;
        make_false(&mut model, &units);
        let prefix = Prefix::open(alloc, formula, &units, &model)?;
        let questions = Questions::none(units);
        Ok(Lowering {
            prefix,
            model,
            questions,
        })
    }

    /// The literal of a variable that doesn't follow from those before it. Where the model at hand
    /// has it true, a model in which it is false is looked for, which becomes the one at hand. There
    /// is none where the gate stops that.
    fn literal_of<G: Gate, O: Observer>(
        &mut self,
        formula: &Formula,
        var: u32,
        gate: &G,
        observer: &O,
    ) -> Result<Option<Lit>, AllocError>
        requires lowering { IsLowering formula.now var self.old }
        requires variable { IsVariable formula.now.vars var }
        ensures { IfOk result (λ found. IsLiteralOf formula.now var self.old found self.new) }
    {
        let _vars = formula.vars(); // it ensures that there are fewer than 2^31
        let negative = Lit::of(var, false);
        let is_true = self.model[var as usize - 1];
        if !is_true {
            return Ok(Some(negative));
        }
        let settled = self.prefix.cube.lits();
        let questions = &mut self.questions;
        match questions.ask(formula, settled, &self.model, negative, gate, observer)? {
            Reply::Model(values) => {
                self.model = values;
                Ok(Some(negative))
            }
            Reply::NoModel => Ok(Some(Lit::of(var, true))),
            Reply::Stopped => Ok(None),
        }
    }

    /// Settles a variable, once all below it are; it answers whether that is done, or the gate has
    /// stopped it.
    fn settle<G: Gate, O: Observer>(
        &mut self,
        formula: &Formula,
        var: u32,
        gate: &G,
        observer: &O,
    ) -> Result<bool, AllocError>
        requires lowering { IsLowering formula.now var self.old }
        requires variable { IsVariable formula.now.vars var }
        ensures { IfOk result (λ settled. IsLoweringAfter formula.now var settled self.new) }
    {
        if self.prefix.settles(var) {
            return Ok(true);
        }
        self.questions.counts.variable = var;
        let Some(lit) = self.literal_of(formula, var, gate, observer)? else {
            return Ok(false);
        };
        self.questions
            .settle(formula, self.prefix.cube.lits(), lit)?;
        self.prefix.join(formula, &self.model, lit)?;
        Ok(true)
    }

    /// The model at hand.
    fn into_model(self) -> Vec<bool>
        ensures { result ≡ self.model }
    {
        let Lowering {
            prefix: _,
            model,
            questions: _,
        } = self;
        model
    }
}

/// What a lowering comes to.
#[derive(Drop)]
pub enum Lowered {
    /// The first model.
    First(Vec<bool>),
    /// The gate has stopped it: the model at hand, and how many variables, from the first on, have
    /// the first model's values in it.
    Stopped(Vec<bool>, u32),
}

/// The formula's first model, from any model, in which the pure variables are made false at once.
/// Least variable first, one that the model at hand has true, and that doesn't follow by propagation
/// from what is settled before it, is a question of one session: whether it may be false. What a
/// question has taught stays for the next ones. It takes the time of its questions and that of one
/// propagation, and memory by the formula. Where the gate stops it, the model at hand is the
/// answer. It fails only where a request for memory is refused.
pub fn lower<G: Gate, O: Observer>(
    alloc: Global,
    formula: &Formula,
    model: Vec<bool>,
    gate: &G,
    observer: &O,
) -> Result<Lowered, AllocError>
    requires { Satisfies formula.now model.items }
    ensures { IfOk result (IsLowered formula.now) }
{
    let mut lowering = Lowering::begin(alloc, formula, model)?;
    observer.lowering(lowering.questions.counts);
    let behind = formula.vars() + 1;
    for var in 1..behind {
        if !lowering.settle(formula, var, gate, observer)? {
            return Ok(Lowered::Stopped(lowering.into_model(), var - 1));
        }
    }
    lowering.questions.counts.variable = behind;
    observer.lowering(lowering.questions.counts);
    Ok(Lowered::First(lowering.into_model()))
}

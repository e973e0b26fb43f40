//! The questions of a lowering: one session is asked all of them, so that what one has taught is there
//! for the next.
ghost use Rattle.std.specs.Prelude.{◌≡◌, ◌++◌, ◌∷◌, ℕ, [], None, length, IfOk, IfSome, OnOk};
ghost use Rattle.theory.specs.Literals.{IsVariable};
ghost use Rattle.theory.specs.Truth.{IsOver, value};
ghost use Rattle.theory.specs.Pure.{pure_literals, unit_clauses};
ghost use Rattle.strategies.specs.Lowering.{IsAsked, IsReply};

use crate::lowering::counts::{LoweringCounts, Stopper};
use crate::observer::Observer;
use cnf::{Formula, Lit};
use cubes::Gate;
use session::{Answer, Session};
use std::alloc::{AllocError, Global};

/// What a question comes to.
#[derive(Drop)]
pub(crate) enum Reply {
    /// There is such a model.
    Model(Vec<bool>),
    /// There is none.
    NoModel,
    /// The gate has stopped it.
    Stopped,
}

/// Who answers questions: a session, once one was asked; and how far the lowering is.
pub(crate) struct Questions {
    /// The pure literals.
    pub(crate) units: Vec<Lit>,
    /// It has the first clauses, and behind them the literals that are settled.
    pub(crate) session: Option<Session>,
    pub(crate) counts: LoweringCounts,
}

// written out, so that proofs of its owners stay short (docs/PROVING.md)
impl Drop for Questions {
    fn drop(self) {
        let Questions {
            units: _,
            session: _,
            counts: _,
        } = self;
    }
}

/// Adds the clauses of a formula to a session that has none.
fn add_clauses(session: &mut Session, formula: &Formula) -> Result<(), AllocError>
    requires { session.old.formula.clauses ≡ [] }
    ensures { OnOk result (session.new.formula.clauses ≡ formula.now.clauses) }
{
    let _vars = formula.vars(); // it ensures what the proof needs of the formula
    for place in 0..formula.clause_count() {
        session.add_clause(formula.clause(place))?;
    }
    Ok(())
}

/// Adds a clause of one literal for each of these.
fn add_units(session: &mut Session, lits: &[Lit]) -> Result<(), AllocError>
    ensures { OnOk result (session.new.formula.clauses ≡ session.old.formula.clauses ++ unit_clauses lits.now) }
{
    for lit in lits {
        session.add_clause(&[*lit])?;
    }
    Ok(())
}

/// A session of the formula's first clauses and of these literals, each a clause, whose first search
/// begins with the values of this model: so it stays near one, and the questions take less time.
fn open_session(
    alloc: Global,
    formula: &Formula,
    units: &[Lit],
    settled: &[Lit],
    model: &[bool],
) -> Result<Session, AllocError>
    requires { units.now ≡ pure_literals formula.now }
    ensures { IfOk result (IsAsked formula.now settled.now) }
{
    let mut session = Session::open(alloc)?;
    add_clauses(&mut session, formula)?;
    add_units(&mut session, units)?;
    add_units(&mut session, settled)?;
    session.prefer(model)?;
    Ok(session)
}

/// The values of the variables 1 to `vars`, where one without a value is false.
fn values_up_to(alloc: Global, values: &[bool], vars: u32) -> Result<Vec<bool>, AllocError>
    ensures { IfOk result (λ r. (length r.items ≡ vars) × ((v : ℕ) → IsVariable vars v → value r.items v ≡ value values.now v)) }
{
    let mut up_to = Vec::with_capacity(alloc, vars as usize)?;
    for index in 0..vars {
        up_to.push(values.get(index as usize).copied().unwrap_or(false))?;
    }
    Ok(up_to)
}

impl Questions {
    /// None was asked. These are the pure literals.
    pub(crate) fn none(units: Vec<Lit>) -> Questions
        ensures units { result.units ≡ units }
        ensures session { result.session ≡ None }
    {
        Questions {
            units,
            session: None,
            counts: LoweringCounts::none(),
        }
    }

    /// Whether what satisfies the first clauses and makes the settled literals true may make this
    /// one true: a model that does, or none. The first question opens the session, by the model at
    /// hand. It fails only where a request for memory is
    /// refused.
    pub(crate) fn ask<G: Gate, O: Observer>(
        &mut self,
        formula: &Formula,
        settled: &[Lit],
        model: &[bool],
        lit: Lit,
        gate: &G,
        observer: &O,
    ) -> Result<Reply, AllocError>
        requires units { self.old.units.items ≡ pure_literals formula.now }
        requires over { IsOver formula.now.vars settled.now }
        requires variable { IsVariable formula.now.vars lit.var }
        requires session { IfSome self.old.session (IsAsked formula.now settled.now) }
        ensures reply { IfOk result (IsReply formula.now (settled.now ++ lit ∷ [])) }
        ensures session { OnOk result (IfSome self.new.session (IsAsked formula.now settled.now)) }
        ensures units { self.new.units ≡ self.old.units }
    {
        let alloc = *self.units.allocator();
        let mut session = match self.session.take() {
            Some(session) => session,
            None => open_session(alloc, formula, &self.units, settled, model)?,
        };
        observer.lowering(self.counts);
        if gate.stops() {
            return Ok(Reply::Stopped);
        }
        let answer = session.solve(&[lit], &Stopper { gate })?;
        let reply = match answer {
            Answer::Model(values) => Reply::Model(values_up_to(alloc, &values, formula.vars())?),
            Answer::Unsatisfiable(_) => Reply::NoModel,
            Answer::Unknown => Reply::Stopped,
        };
        self.counts = self.counts.after(&reply, session.counts());
        observer.lowering(self.counts);
        self.session = Some(session);
        Ok(reply)
    }

    /// A literal more is settled.
    pub(crate) fn settle(
        &mut self,
        formula: &Formula,
        settled: &[Lit],
        lit: Lit,
    ) -> Result<(), AllocError>
        requires { IfSome self.old.session (IsAsked formula.now settled.now) }
        ensures session { OnOk result (IfSome self.new.session (IsAsked formula.now (settled.now ++ lit ∷ []))) }
        ensures units { self.new.units ≡ self.old.units }
    {
        let (_formula, _settled) = (formula, settled); // they are there for the contract alone
        if let Some(session) = &mut self.session {
            session.add_clause(&[lit])?;
        }
        Ok(())
    }
}

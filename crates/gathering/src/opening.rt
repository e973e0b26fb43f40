//! Opening the outcomes of cubes over a store of facts, by one hand or by several.
ghost use Rattle.std.specs.Prelude.{⊤, IfOk};
ghost use Rattle.std.specs.Thread.{IsSync};
ghost use Rattle.gathering.specs.Stored.{AreTrueFacts};

use crate::ahead::AheadOutcomes;
use crate::outcomes::StoredOutcomes;
use crate::store::KeepsFacts;
use cdcl::Plan;
use cnf::Formula;
use cubes::GivesOutcomes;
use std::alloc::{AllocError, Global};
use std::thread::Threads;

/// Counts which outcomes it gave. Each number stops at the greatest one.
pub trait CountsOutcomes {
    /// So many facts were taken.
    fn taken(&self) -> u64;

    /// So many cubes were solved on the spot.
    fn solved(&self) -> u64;
}

impl<S: KeepsFacts> CountsOutcomes for StoredOutcomes<S> {
    fn taken(&self) -> u64 {
        self.taken
    }

    fn solved(&self) -> u64 {
        self.solved
    }
}

impl<R, S: KeepsFacts> CountsOutcomes for AheadOutcomes<'_, R, S> {
    fn taken(&self) -> u64 {
        self.taken.saturating_add(self.stored.taken)
    }

    fn solved(&self) -> u64 {
        self.stored.solved
    }
}

/// Opens the outcomes of a formula's cubes over a store of facts.
pub trait OpensOutcomes<S: KeepsFacts> {
    type Outcomes: GivesOutcomes + CountsOutcomes + Drop;

    // it can be asked to open them
    ghost opens: { Self → Type 0 };

    /// Opened for a formula and the search of a plan. It fails where a request for memory is
    /// refused.
    fn open(
        &self,
        alloc: Global,
        formula: &Formula,
        plan: Plan,
        store: S,
    ) -> Result<Self::Outcomes, AllocError>
        requires { opens self.now }
        ensures gives { IfOk result (λ o. Self.Outcomes.gives o formula.now plan) }
        ensures own { AreTrueFacts S.facts formula.now plan store → IfOk result (λ o. Self.Outcomes.gives_own o formula.now plan) };
}

/// One hand, which checks the facts of a cube when it is asked for.
#[derive(Clone, Copy)]
pub struct OneHand;

impl<S: KeepsFacts> OpensOutcomes<S> for OneHand {
    type Outcomes = StoredOutcomes<S>;

    ghost opens = { λ _. ⊤ };

    fn open(
        &self,
        alloc: Global,
        formula: &Formula,
        plan: Plan,
        store: S,
    ) -> Result<StoredOutcomes<S>, AllocError> {
        let outcomes = StoredOutcomes::open(alloc, formula, plan, store)?;
        Ok(outcomes)
    }
}

/// Several hands, which check facts before their cubes are asked for, each in a thread of its own
/// where one can be started.
#[derive(Clone, Copy)]
pub struct ManyHands<'a, R> {
    pub rt: &'a R,
    pub count: usize,
}

impl<'a, R: Threads + Sync, S: KeepsFacts> OpensOutcomes<S> for ManyHands<'a, R> {
    type Outcomes = AheadOutcomes<'a, R, S>;

    // that threads may share R is said here, since a trait's method isn't told of it
    ghost opens = { λ _. IsSync R.row };

    fn open(
        &self,
        alloc: Global,
        formula: &Formula,
        plan: Plan,
        store: S,
    ) -> Result<AheadOutcomes<'a, R, S>, AllocError> {
        let outcomes = AheadOutcomes::open(self.rt, alloc, formula, plan, store, self.count)?;
        Ok(outcomes)
    }
}

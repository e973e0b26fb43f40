//! Who is told how far a run is.

use crate::lowering::counts::LoweringCounts;
use crate::simplification::SimplifiedCounts;
use cdcl::Counts;
use cnf::Formula;
use cubes::Tree;
use lines::Row;

/// Told how far a strategy is, and of each stage of a run as it ends. What is answered and written
/// doesn't depend on it.
pub trait Observer {
    /// The formula is read.
    fn read(&self, _formula: &Formula) {}

    /// The search that is made first has done so much. It is told as a gate is.
    fn searched_first(&self, _counts: Counts) {}

    /// That search has ended, and decided the formula or not.
    fn ended_first(&self, _is_decided: bool) {}

    /// The search that says whether the formula is simplified has done so much.
    fn tried(&self, _counts: Counts) {}

    /// That search has ended, and decided the formula or not.
    fn ended_try(&self, _is_decided: bool) {}

    /// The simplification has looked at so many literals.
    fn simplifying(&self, _literals: u64) {}

    /// The formula is simplified.
    fn simplified(&self, _counts: SimplifiedCounts) {}

    /// A model is known, and is to be lowered: the status line is about to be written.
    fn has_model(&self) {}

    /// The lowering is so far.
    fn lowering(&self, _counts: LoweringCounts) {}

    /// The formula is refuted by this tree, of which a proof is to be made.
    fn solved(&self, _tree: &Tree<Row>) {}

    /// It is decided, and no proof is made of a tree; a model is the answer's.
    fn decided(&self) {}

    /// The answer is made, and all that the proof's lines are made of as they are written.
    fn joined(&self) {}

    /// The proof is written.
    fn written(&self) {}

    /// The answer is about to be written.
    fn answers(&self) {}
}

/// Nobody is told.
#[derive(Clone, Copy)]
pub struct Unobserved;

impl Observer for Unobserved {}

//! Proofs in DRAT, which has neither numbers nor hints, read as the text of a proof in LRAT: each
//! step's hints are found by propagation, and whoever reads the text checks them.
#![tactic(auto)]

mod assignment;
mod binary;
mod cells;
mod clauses;
mod distinct;
mod fault;
mod finder;
mod input;
mod lines;
mod marks;
mod occurrences;
mod passed;
mod propagation;
mod reader;
mod step;
mod table;
mod text;
mod units;
mod watches;

pub use fault::{DratFault, FaultPlace, Wrong};
pub use passed::Passed;
pub use reader::{DratForm, HintedProof};

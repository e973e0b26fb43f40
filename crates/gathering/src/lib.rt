//! Outcomes of a formula's cubes from facts that nobody vouches for: each is checked, and what is
//! missing or isn't so is solved again.
#![tactic(auto)]

mod ahead;
mod checked;
mod cube_table;
mod facts;
mod loads;
mod opening;
mod outcomes;
mod store;
mod tree_order;

pub use ahead::AheadOutcomes;
pub use cube_table::CubeTable;
pub use facts::fact_of;
pub use opening::{CountsOutcomes, ManyHands, OneHand, OpensOutcomes};
pub use outcomes::StoredOutcomes;
pub use store::KeepsFacts;

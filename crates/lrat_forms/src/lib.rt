//! The forms in which proofs come, read as the text of LRAT.
#![tactic(auto)]

mod binary;
mod comments;
mod drat;
mod first;
mod form;
mod number;
mod reader;
mod translation;

pub use comments::Uncommented;
pub use drat::is_drat;
pub use form::{Broken, BrokenBy, Form};
pub use reader::ProofText;

//! All models of a formula, or those that differ in some of its variables, one after the other.
#![tactic(auto)]

mod end;
mod fault;
mod models;
mod opening;
mod output;

pub use fault::ModelsFault;
pub use models::{Models, NextModel};
pub use opening::open_models;
pub use output::{Listing, ModelCount, write_models};

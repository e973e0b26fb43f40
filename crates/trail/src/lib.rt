//! Cubes, and the trail of the search in one: what is assigned, at which level, and by which
//! clause.
#![tactic(auto)]

mod cube;
mod entry;
mod trail;
mod truth;

pub use cube::Cube;
pub use entry::Entry;
pub use trail::Trail;
pub use truth::{Truth, status_in};

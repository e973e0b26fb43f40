//! Lookahead: on which variable a cube is split before anything is searched.
#![tactic(auto)]

mod choosing;
mod holding;
mod occurrences;
mod ranking;

pub use choosing::choose;
pub use holding::held;
pub use ranking::Ranking;

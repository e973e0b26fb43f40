//! Conflict-driven clause learning inside one cube: analysis of a conflict, the search of a cube up
//! to a budget of conflicts, and the two halves of a cube. Read `search` first, then `analysis`.
#![tactic(auto)]

mod analysis;
mod api;
mod search;

pub use analysis::first_uip::Learnt;
pub use api::budget::budget_of;
pub use api::compatible::{Line, Refutation, analyze, solve_cube};
pub use api::counts::{Counts, Unwatched, Watcher};
pub use api::halves::split;
pub use api::keeping::KeepsLines;
pub use api::lessons::Lessons;
pub use api::outcome::Outcome;
pub use api::plan::{Plan, Search};
pub use api::solver::Solver;
pub use api::unkept::Unkept;
pub use search::focused::{FocusedSearch, Stop};
pub use search::line_log::LineLog;

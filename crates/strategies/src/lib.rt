//! How a formula is decided: `phases` names all that is done, in order. Each phase has a file or a
//! folder of its own: the ordered search, the short focused one, simplification, and lowering, which
//! makes the first model of any; cubes and hands are the crate `cubes`.
#![tactic(auto)]

mod beginning;
mod begun_formula;
mod context;
mod first_model;
mod laws;
mod lowering;
mod observer;
mod ordered_search;
mod phases;
mod short_search;
mod simplification;
mod strategy;

pub use beginning::begun;
pub use begun_formula::Begun;
pub use context::Context;
pub use first_model::{answered, is_lowered};
pub use laws::{answers_are_the_first, chosen_plans_write_the_same, strategies_write_the_same};
pub use lowering::counts::LoweringCounts;
pub use lowering::settling::{Lowered, lower};
pub use observer::{Observer, Unobserved};
pub use ordered_search::chosen;
pub use phases::{Decided, decide, solve_one};
pub use simplification::SimplifiedCounts;
pub use strategy::Strategy;

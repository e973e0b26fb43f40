//! The program's command line: what its words ask for.
#![tactic(auto)]

mod arguments;
mod commands;
mod effort;
mod options;
mod refusals;
mod request;
mod row;
mod spread_arguments;

pub use arguments::{MAX_DIVIDE, request_of};
pub use commands::is_command;
pub use effort::{Asked, Choice, Effort, SPREAD_BUDGET, greatest_budget, strategy_of};
pub use options::STANDARD_INPUT;
pub use request::{DratFile, FormulaFile, ModelsAsked, Request, Shown};
pub use spread_arguments::{Part, Spread};

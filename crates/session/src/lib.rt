//! Many questions of one growing formula: clauses are added, and it is asked under assumptions
//! whether they have a model. What a question has taught stays for the next ones.
#![tactic(auto)]

mod answer;
mod choice;
mod core_walk;
mod growing;
mod interrupt;
mod learning;
mod loading;
mod names;
mod question;
mod renewing;
mod restarts;
mod search;
mod session;
mod values;

pub use answer::Answer;
pub use interrupt::{Interrupt, Never};
pub use session::Session;

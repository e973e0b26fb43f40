//! The commands that decide a formula, check a proof, tidy a formula, answer questions and list
//! models: their files, statuses, words and figures.
#![tactic(auto)]

mod all_models;
mod anew;
mod checking;
mod drat_checking;
mod drat_words;
mod explanations;
mod fault_lines;
mod formula_text;
mod input;
mod notes;
mod placed_proof;
mod projection;
mod questions;
mod same_file;
mod solving;
mod tidied;
mod watched;
mod worded;

pub use all_models::list_models;
pub use checking::{CheckEnd, check};
pub use drat_checking::check_drat_file;
pub use explanations::explanation;
pub use fault_lines::{
    FAILED, Screen, print_fault, print_fault_of, print_no_memory, print_not_opened,
};
pub use files::{Locks, NoLocks, SystemLocks};
pub use input::{Input, open_input};
pub use placed_proof::{NotBegun, PlacedProof, begin_proof};
pub use questions::asking::session;
pub use runs::CheckRules;
pub use solving::{SATISFIABLE, UNSATISFIABLE, print_not_begun, solve};
pub use tidied::tidy;
pub use worded::Known;

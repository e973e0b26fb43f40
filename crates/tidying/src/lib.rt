//! Formulas without repeated literals and without clauses that are always true, and their text.
#![tactic(auto)]

mod clause_text;
mod laws;
mod literals;
mod text;

pub use laws::tidied_has_the_same_models;
pub use literals::has_repeats;
pub use text::{TidyText, tidy_text};

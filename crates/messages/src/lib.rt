//! What is said of a fault in words: lines that begin with `c`, from values alone.
#![tactic(auto)]

mod cause;
mod command;
mod excerpt;
mod files;
mod format;
mod formula;
mod header;
mod line_counts;
mod name;
mod passed;
mod picture;
mod proof;
mod refused;
mod shell;

pub use command::Command;
pub use excerpt::Excerpt;
pub use files::{
    say_answer_not_written, say_no_memory, say_not_created, say_not_printed, say_not_read,
    say_part_in_use, say_part_not_created, say_proof_not_written, say_same_file, say_unproved,
};
pub use formula::{FormulaSource, say_formula_refused, say_repeats};
pub use header::header_in;
pub use line_counts::line_feeds;
pub use passed::say_passed_over;
pub use proof::{ProofSource, say_proof_refused};
pub use refused::Refused;

//! The one proof that a refuted tree gives, and the texts of proofs and answers.
#![tactic(auto)]

mod answer;
mod before;
mod deleted;
mod joiner;
mod line;
mod proof_lines;
mod proof_text;
mod room;
mod steps;

pub use answer::{answer_bytes, bytes_at_limit, value_bytes, value_lines};
pub use before::LinesBefore;
pub use joiner::Joiner;
pub use line::{Kind, ProofLine};
pub use proof_lines::Lines;
pub use proof_text::proof_bytes;
pub use steps::join;

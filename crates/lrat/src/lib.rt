//! The checker of proofs in LRAT, of a list of steps and of a text in pieces; the steps and their
//! text come from `lrat_text`. What it is made of serves other checks by hints too: literals that
//! are held true, and what a clause is under them.
#![tactic(auto)]

mod assume;
mod chains;
mod check_fault;
mod checker;
mod clauses;
mod counts;
mod groups;
mod held;
mod hints;
mod laws;
mod occurrences;
mod refusal;
mod stream;
mod variables;

pub use check_fault::CheckFault;
pub use checker::check;
pub use held::Held;
pub use hints::{Hint, status_of};
pub use laws::{deletion_is_accepted, stream_is_whole};
pub use lrat_text::{
    Addition, Deletion, Group, MAX_BYTES, MAX_NUMBER, Step, TextFault, line_size, one_reading,
    read_proof, write_clause, write_deletion, write_step, written_is_read,
};
pub use refusal::Refusal;
pub use stream::ProofStream;
pub use variables::Variables;

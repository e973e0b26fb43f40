//! The steps of proofs in LRAT, and the text of these, both ways: whole, and in pieces.
#![tactic(auto)]

mod begun;
mod fault;
mod laws;
mod line;
mod placed;
mod read;
mod run;
mod size;
mod step;
mod text;
mod word;
mod write;

pub use fault::TextFault;
pub use laws::{one_reading, written_is_read};
pub use read::{MAX_BYTES, read_proof};
pub use size::line_size;
pub use step::{Addition, Deletion, Group, Step};
pub use text::Text;
pub use word::MAX_NUMBER;
pub use write::{append_literals, write_clause, write_deletion, write_step};

//! Facts of cubes as bytes, and back from bytes that nobody vouches for; and whether they are so.
#![tactic(auto)]

mod bodies;
mod checker;
mod fact;
mod pack;
mod reader;
mod replay;
mod writing;

pub use bodies::Bodies;
pub use checker::FactChecker;
pub use fact::{Claim, Fact};
pub use pack::{Pack, read_pack};
pub use reader::FactReader;
pub use replay::holding::is_over;
pub use replay::replayer::Replayer;
pub use replay::splits::{LeastSplits, is_fit_split};
pub use writing::write_fact;

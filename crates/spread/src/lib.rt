//! Runs that are spread over machines: the folder of a run, and the cubes that are solved there.
#![tactic(auto)]

mod begun;
mod bound;
mod breadth;
mod conquering;
mod dividing;
mod folder;
mod found;
mod hands;
mod heartbeat;
mod left_open;
mod notes;
mod open_count;
mod open_cubes;
mod pack_file;
mod pack_store;
mod parts;
mod round_file;
mod run_file;
mod said;
mod slice;
mod solving;
mod standing;
mod unproved;
mod way;

pub use conquering::Ended;
pub use dividing::{Progress, divide, divide_again};
pub use folder::Folder;
pub use notes::PartNote;
pub use open_count::OpenCount;
pub use pack_store::{PackStore, StoreCounts, store_in};
pub use parts::conquer;
pub use run_file::{RunFile, formula_bytes_in, run_in};
pub use said::Said;
pub use slice::Slice;
pub use standing::{Standing, progress_in, standing_in};
pub use unproved::{unproved_in, withhold_splits};

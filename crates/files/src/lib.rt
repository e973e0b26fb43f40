//! The program's files: one that takes its place once it is whole; and readers and writers that pass
//! all on, and keep the little of it that words about a fault need.
#![tactic(auto)]

mod destination;
mod first_bytes;
mod locks;
mod not_made;
mod noticed_reader;
mod noticed_writer;
mod part;
mod writing;

pub use destination::Destination;
pub use first_bytes::{FirstBytes, KEPT};
pub use locks::{Lock, Locks, NoLocks, SystemLocks};
pub use not_made::NotMade;
pub use noticed_reader::NoticedReader;
pub use noticed_writer::NoticedWriter;
pub use writing::WholeFile;

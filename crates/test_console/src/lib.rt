//! What tests run command lines in: their files, clocks that they set, and the system by such a
//! clock; and what is printed, beside what is to be printed.
#![tactic(auto)]

pub mod clocks;
pub mod fake;
mod paths;
mod printed;

pub use paths::{Parts, Paths, path_of, put_texts};
pub use printed::{Known, Printed, Wanted, is_filled, is_printed};

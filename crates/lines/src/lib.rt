//! The lines of a refuted cube, as one row of bytes.
#![tactic(auto)]

mod coding;
mod cursor;
mod line;
mod number;
mod placed;
mod reader;
mod row;
mod scan;
mod section;

pub use cursor::Cursor;
pub use reader::Reader;
pub use row::Row;

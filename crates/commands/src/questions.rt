//! `session`: questions of a growing formula, as a text in iCNF, each answered before the next one
//! is read. `text` takes the text byte by byte (its words: `word`), and says which `item` ended.
//! `asking` has the session do what an item asks for, and prints the answer, or a `fault`.

pub(crate) mod asking;
pub(crate) mod fault;
pub(crate) mod item;
pub(crate) mod text;
pub(crate) mod word;

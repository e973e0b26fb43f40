//! Worked lines as bytes, lines that are replayed, splits, and packs: what is written of facts, what
//! any bytes are read as, and which facts are checked.
#![tactic(auto)]

#[cfg(test)]
mod checked;
#[cfg(test)]
mod hostile;
#[cfg(test)]
mod line_bytes;
#[cfg(test)]
mod line_rows;
#[cfg(test)]
mod replayed;
#[cfg(test)]
mod splits;
#[cfg(test)]
mod written;

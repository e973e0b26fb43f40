//! Worked rows of the checker, of steps and of the text of proofs, and the checker beside a plain
//! one.
#![tactic(auto)]

#[cfg(test)]
mod checker;
#[cfg(test)]
mod plain;
#[cfg(test)]
mod texts;

//! The words of faults, byte for byte, and the text that proofs are read as.
#![tactic(auto)]

#[cfg(test)]
mod comments;
#[cfg(test)]
mod files;
#[cfg(test)]
mod forms;
#[cfg(test)]
mod formulas;
#[cfg(test)]
mod proofs;

//! Worked sequences of questions, and random ones beside a truth table.
#![tactic(auto)]

#[cfg(test)]
mod asked;
#[cfg(test)]
mod interrupted;
#[cfg(test)]
mod preferred;
#[cfg(test)]
mod random;
#[cfg(test)]
mod sequences;
#[cfg(test)]
mod truth_table;

//! Worked rows of simplifications, and those of random formulas beside a truth table.
#![tactic(auto)]

#[cfg(test)]
mod built;
#[cfg(test)]
mod models;
#[cfg(test)]
mod random;
#[cfg(test)]
mod shown;
#[cfg(test)]
mod stopped;
#[cfg(test)]
mod truth_table;
#[cfg(test)]
mod worked;

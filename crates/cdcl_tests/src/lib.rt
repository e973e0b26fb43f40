//! Worked rows of analysis, of searches of cubes, and of their halves.
#![tactic(auto)]

#[cfg(test)]
mod budgets;
#[cfg(test)]
mod compatible;
#[cfg(test)]
mod conflicts;
#[cfg(test)]
mod focused;
#[cfg(test)]
mod kernels;
#[cfg(test)]
mod outcomes;
#[cfg(test)]
mod parts;
#[cfg(test)]
mod pure;
#[cfg(test)]
mod searches;
#[cfg(test)]
mod units;
#[cfg(test)]
mod unkept;

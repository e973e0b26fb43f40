//! Runs that are spread over machines, where a clock jumps, a call of the system is refused, or a pack
//! changes while it is read.
#![tactic(auto)]

#[cfg(test)]
mod changed;
#[cfg(test)]
mod hands;
#[cfg(test)]
mod rows;
#[cfg(test)]
mod times;
#[cfg(test)]
mod unwritten;

//! Worked rows of formulas and their reader, and fake readers.
#![tactic(auto)]

#[cfg(test)]
mod building;
#[cfg(test)]
mod growing;
#[cfg(test)]
mod inputs;
#[cfg(test)]
mod literals;
#[cfg(test)]
mod pure;
#[cfg(test)]
mod texts;

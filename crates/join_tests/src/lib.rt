//! Worked rows: the bytes of the one proof that a refuted tree gives, and those of answers.
#![tactic(auto)]

#[cfg(test)]
mod answers;
#[cfg(test)]
mod fed;
#[cfg(test)]
mod joined;

//! Worked rows of scores, restarts, rounds and forgetting.
#![tactic(auto)]

#[cfg(test)]
mod forgetting;
#[cfg(test)]
mod numbers;
#[cfg(test)]
mod restarts;
#[cfg(test)]
mod rounds;
#[cfg(test)]
mod scores;

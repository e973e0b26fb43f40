//! What is counted of runs, and its lines: those of `--progress` and of `--stats` for known figures,
//! how long passes between two of them, that none comes when a run has ended, what is closed of a
//! tree, and what a gate tells of two hands.
#![tactic(auto)]

#[cfg(test)]
mod endings;
#[cfg(test)]
mod figures;
#[cfg(test)]
mod known_runs;
#[cfg(test)]
mod pauses;
#[cfg(test)]
mod printed_lines;
#[cfg(test)]
mod trees;
#[cfg(test)]
mod watch;

//! Command lines that no shell gives, or whose system, standard input, answer or faults are the test's
//! own. All others are cases of `tests/cases`.
#![tactic(auto)]

#[cfg(test)]
mod calls;
#[cfg(test)]
mod command_lines;
#[cfg(test)]
mod kept_proof;
#[cfg(test)]
mod same_file;
#[cfg(test)]
mod shown;
#[cfg(test)]
mod standard_input;
#[cfg(test)]
mod two_runs;
#[cfg(test)]
mod unwritten;

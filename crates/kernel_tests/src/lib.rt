//! Worked rows of the kernel, and runs of it beside a scan of all clauses.
#![tactic(auto)]

#[cfg(test)]
mod acts;
#[cfg(test)]
mod all_runs;
#[cfg(test)]
mod as_given;
#[cfg(test)]
mod dice;
#[cfg(test)]
mod entry_units;
#[cfg(test)]
mod forgetting;
#[cfg(test)]
mod look_ups;
#[cfg(test)]
mod restarts;
#[cfg(test)]
mod rows;
#[cfg(test)]
mod runs;
#[cfg(test)]
mod scan;
#[cfg(test)]
mod units;
#[cfg(test)]
mod visits;

//! Command lines by clocks that a test sets: what is shown and counted of runs and of checks, how
//! many hands are at work, and limits of time.
#![tactic(auto)]

#[cfg(test)]
mod checks;
#[cfg(test)]
mod divided;
#[cfg(test)]
mod hands;
#[cfg(test)]
mod lowered;
#[cfg(test)]
mod progress;
#[cfg(test)]
mod seconds;
#[cfg(test)]
mod slow_runs;
#[cfg(test)]
mod timed;
#[cfg(test)]
mod unshown;

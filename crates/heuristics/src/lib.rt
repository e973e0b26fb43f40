//! What the focused search chooses by: its modes and rounds, the scores of variables, restarts, and
//! which learnt clauses are forgotten.
#![tactic(auto)]

mod candidate;
mod constants;
mod forgetting;
mod laws;
mod mode;
mod mode_schedule;
mod restarts;
mod round;
mod scores;
mod tournament;

pub use candidate::Candidate;
pub use constants::Constants;
pub use forgetting::late_ones;
pub use laws::{best_waiting_is_best, candidates_are_distinct};
pub use mode::Mode;
pub use mode_schedule::ModeSchedule;
pub use restarts::GlueAverages;
pub use round::{Change, Round};
pub use scores::Scores;

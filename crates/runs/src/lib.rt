//! Runs of the solver and of the checker: from the bytes of a formula to the bytes of its proof and
//! answer, and from those of a formula and a proof to the line on it.
#![tactic(auto)]

mod alone;
mod at_once;
mod by_hands;
mod check;
mod checked_line;
mod compatible;
mod drat_check;
mod drat_line;
mod fault;
mod kept_text;
mod laws;
mod limit;
mod limited;
mod model_answer;
mod options;
mod output;
mod proof_input;
mod proof_output;
mod proof_stream;
mod stored;
mod tidy;
mod verdict;

pub use alone::run_one;
pub use at_once::gather_at_once;
pub use check::{CheckRules, Told, check_with};
pub use checked_line::Checked;
pub use compatible::{check_run, run};
pub use cubes::{Limit, TimeLimit};
pub use drat_check::{DratProof, DratTold, check_drat};
pub use fault::RunFault;
pub use laws::runs_write_the_same;
pub use limited::{answer_with, run_with};
pub use options::Options;
pub use stored::{GatheredFrom, Gathering, gather_stored};
pub use tidy::tidy_within;
pub use verdict::{RunEnd, Verdict};

//! The program as a function: its command line, files, words and figures. The calls of `runs` that
//! are for other programs are passed on.
#![tactic(auto)]

mod gathered;
mod gathered_store;
mod implied;
mod open_lines;
mod other_options;
mod program;
mod spreading;
mod standing_lines;
mod wrapped;

pub use cdcl::Plan;
pub use cnf::Limits;
pub use commands::{Locks, NoLocks, Screen, SystemLocks, explanation};
pub use cubes::{Gate, HandCount, OpenGate};
pub use program::{Console, command, command_in_folders, command_on, command_with_input};
pub use runs::{
    CheckRules, Checked, Limit, Options, RunEnd, RunFault, TimeLimit, Told, Verdict, answer_with,
    check_run, check_with, run, run_one, run_with, runs_write_the_same,
};
pub use statistics::{
    Board, CubeCounts, Figures, Manner, Stage, TextSize, print_line, show_progress,
};
pub use strategies::{Observer, Strategy, Unobserved};

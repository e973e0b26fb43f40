//! What is counted in a run, and how it is shown: the figures of `--stats` and `--progress`.
#![tactic(auto)]

mod beginning_counts;
mod board;
mod counted;
mod cube_counts;
mod division;
mod division_lines;
mod figures;
mod first_counts;
mod hand_times;
mod noted_limit;
mod peak;
mod progress;
mod search_counts;
mod search_line;
mod statistics;
mod watch;

pub use beginning_counts::{BeginningCounts, Simplified};
pub use board::Board;
pub use counted::{CountedReader, CountedWriter, Counter};
pub use cube_counts::CubeCounts;
pub use division::DivisionCounts;
pub use figures::{Figures, FormulaSize, Stage, StageEnd, TextSize, TreeSize};
pub use first_counts::FirstCounts;
pub use hand_times::HandTimes;
pub use noted_limit::NotedLimit;
pub use progress::{Manner, print_line, show_progress};
pub use search_counts::SearchCounts;
pub use statistics::{print_check_statistics, print_statistics};
pub use watch::{TextWatch, Watch};

//! The two searches of a cube. Read `ordered` first, textbook CDCL with a fixed order of decisions;
//! then `focused`, the loop of the whole search, and `learning`, what it does at a conflict:
//! analysis, scores, restarts, going back, forgetting, rephasing. `searcher` is the one of a plan.

pub(crate) mod beginning;
pub(crate) mod decisions;
pub(crate) mod focused;
pub(crate) mod forgetting;
pub(crate) mod learning;
pub(crate) mod line_log;
pub(crate) mod line_marks;
pub(crate) mod opening;
pub(crate) mod ordered;
pub(crate) mod past_lines;
pub(crate) mod saved;
pub(crate) mod searcher;
pub(crate) mod standing;
pub(crate) mod tally;
pub(crate) mod units;
pub(crate) mod values;

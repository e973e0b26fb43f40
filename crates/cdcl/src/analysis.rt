//! Conflict analysis (MiniSat's `analyze`). Read `analyze` first: it has the order of the steps.
//! `first_uip` and `current_level` resolve back to the first unique implication point, `minimize`
//! finds the literals that follow from the others, `below` resolves on these, and `reasons`, `seen`
//! and `glue` give what the search chooses by. The rest are the sets that these work on.

pub(crate) mod analyze;
pub(crate) mod below;
pub(crate) mod current_level;
pub(crate) mod first_uip;
pub(crate) mod flags;
pub(crate) mod glue;
pub(crate) mod level;
pub(crate) mod marks;
pub(crate) mod minimize;
pub(crate) mod numbers;
pub(crate) mod places;
pub(crate) mod reasons;
pub(crate) mod seen;
pub(crate) mod unit_hints;

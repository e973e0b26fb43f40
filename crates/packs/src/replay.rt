//! What is said of cubes, where nobody vouches for it: whether lines replay as a refutation, each by
//! its hints, over the clauses that a search of the formula begins with; and whether a split is one
//! that a search may make.

pub(crate) mod forgotten;
pub(crate) mod holding;
pub(crate) mod known;
pub(crate) mod line_clauses;
pub(crate) mod passing;
pub(crate) mod replayer;
pub(crate) mod splits;
pub(crate) mod taking;

//! What other crates call: `plan` says how a formula is searched, `solver` searches its cubes one
//! after the other, and `outcome` is what a cube comes to.

pub(crate) mod budget;
pub(crate) mod compatible;
pub(crate) mod counts;
pub(crate) mod halves;
pub(crate) mod keeping;
pub(crate) mod lessons;
pub(crate) mod outcome;
pub(crate) mod plan;
pub(crate) mod solver;
pub(crate) mod unkept;

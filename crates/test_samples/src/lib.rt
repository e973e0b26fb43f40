//! What tests of several crates begin with: texts of formulas and proofs, cubes of numbers, numbers of
//! the focused search, and readers and writers that fail.
#![tactic(auto)]

mod constants;
mod cubes;
pub mod faulty;
mod texts;

pub use constants::soon_stable;
pub use cubes::{cube_of, has_var, reads};
pub use texts::{
    EIGHT, FIVE, FOUR, FOUR_PROOF, FOUR_PURE, FOUR_UNUSED, HARD_EIGHT, HARD_FOUR, SIXTEEN,
    TWO_MODELS, WIDE, WIDE_PROOF,
};

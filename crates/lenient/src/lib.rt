//! Texts of formulas that aren't strict, as solvers read them that pass over more: the strict text is
//! made of them.
#![tactic(auto)]

mod number;
mod passed;
mod scan;
mod text;

pub use passed::{Counts, PassedHeader, PassedOver};
pub use text::{LenientText, lenient_text};

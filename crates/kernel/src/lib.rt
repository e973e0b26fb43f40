//! The kernel of the search in one cube: its clauses, its trail, and propagation over them.
#![tactic(auto)]

mod clauses;
mod closed;
mod closing;
mod counts;
mod kernel;
mod learning;
mod order;
mod propagator;
mod room;
mod search_kernel;
mod units;
mod watches;

pub use closed::Closed;
pub use counts::Counts;
pub use kernel::Kernel;
pub use order::Order;
pub use search_kernel::SearchKernel;
pub use trail::{Cube, Entry};

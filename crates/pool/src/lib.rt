//! The pool: work-stealing deques of cubes, one to each hand, and three words that all hands share.
//! A hand goes into a thread and comes back with its ledger, what it put, got and called; the pool
//! is closed once all are home. No call waits.
#![tactic(auto)]

mod closing;
mod deque_rule;
mod ends;
mod hand;
mod opening;
mod pool;
mod refusal;
mod seat;
mod taken;
mod task;
mod word_rule;

pub use hand::Hand;
pub use pool::{Closing, Pool, open};
pub use refusal::PoolRefusal;
pub use taken::Taken;

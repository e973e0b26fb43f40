//! Simplification of a formula before a search: variables are eliminated by resolution where that
//! takes no more clauses.
#![tactic(auto)]

mod candidates;
mod counting;
mod database;
mod effort;
mod eliminated;
mod elimination;
mod least_keys;
mod left;
mod literal_set;
mod number_list;
mod opening;
mod resolvent;
mod resolvents;
mod room;
mod sides;
mod simplification;
mod touched;
mod trial;
mod tries;
mod two_lists;
mod watcher;
mod whole;

pub use simplification::Simplification;
pub use watcher::Watcher;
pub use whole::simplify;

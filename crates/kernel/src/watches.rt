//! Which clauses a literal that becomes false can make unit or false: those that watch it. Each one
//! watches two of its literals. `entry_lists` has the lists by literal, of entries as in `watch`;
//! `watch_visit` and `replacement` visit a clause, `attach` and `cut` put one in and take one out.

pub(crate) mod attach;
pub(crate) mod cut;
pub(crate) mod entries;
pub(crate) mod entry_lists;
pub(crate) mod replacement;
pub(crate) mod truths;
pub(crate) mod watch;
pub(crate) mod watch_visit;

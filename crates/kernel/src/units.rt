//! Unit clauses that wait until propagation takes them: in this run of it (`unit_queue`), or until
//! the next (`units`). The trail is the same on each machine only if units go in a fixed order, so
//! each of these gives out the one that goes first, and each is fast where units come in order.

pub(crate) mod last_false;
pub(crate) mod number_stack;
pub(crate) mod numbered;
pub(crate) mod queue;
pub(crate) mod unit_overflow;
pub(crate) mod unit_queue;
pub(crate) mod units;
pub(crate) mod waiting_heap;
pub(crate) mod waiting_queue;

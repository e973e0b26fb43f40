//! The clauses of a kernel by number. `store` has them twice: as they were given, which only
//! contracts read (`given`), and as they are kept (`clauses`), where a clause's literals change
//! places, so that those it watches stand in front. `forget` and `keep` are for learnt clauses.

pub(crate) mod arrange;
pub(crate) mod changed;
pub(crate) mod clauses;
pub(crate) mod ends;
pub(crate) mod forget;
pub(crate) mod given;
pub(crate) mod keep;
pub(crate) mod named;
pub(crate) mod spelled;
pub(crate) mod store;

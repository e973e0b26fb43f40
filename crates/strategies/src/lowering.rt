//! The first model of a formula, from any of its models: variable by variable it is asked whether a
//! model may have it false that agrees with what is settled before.

pub(crate) mod counts;
mod prefix;
mod question;
pub(crate) mod settling;

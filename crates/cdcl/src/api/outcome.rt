//! The outcomes of cubes.
use crate::api::compatible::Refutation;

/// What the search in a cube comes to. A search keeps the lines of a refuted cube as a `Row`; a
/// `Refutation` has each of them in memory of its own.
#[derive(Drop)]
pub enum Outcome<L = Refutation> {
    /// The truth values of the variables 1, 2 and so on: an assignment that satisfies the clauses
    /// that the search begins with and the cube, by the ordered search the first such one.
    Model(Vec<bool>),
    /// No assignment satisfies the clauses that the search begins with and the cube.
    Refuted(L),
    /// The budget of conflicts is used up, or the cube was looked at; the variable, on which the
    /// cube is to be split, is the first one that was decided by the ordered search, by the focused
    /// search the held one of greatest score among those that don't stand at level 0, and by a look
    /// the one of which both decisions bring most.
    Exhausted(u32),
}

//! Answers to questions.

use cnf::Lit;

/// What a question has come to.
#[derive(Drop)]
pub enum Answer {
    /// A model: the values of the variables 1, 2 and so on.
    Model(Vec<bool>),
    /// Nothing that satisfies the clauses makes all of these true: a core, some of the assumptions.
    /// Without one the clauses have no model.
    Unsatisfiable(Vec<Lit>),
    /// The question was interrupted.
    Unknown,
}

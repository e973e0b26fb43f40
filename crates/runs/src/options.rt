//! How a run goes.

use cnf::Limits;
use cubes::HandCount;
use strategies::Strategy;

/// How a run decides its formula, when it is to end, and who is told how far it is.
#[derive(Drop)]
pub struct Options<'a, G, L, O> {
    /// How large the formula may be.
    pub limits: Limits,
    pub strategy: Strategy,
    /// How many hands solve it, each in a thread of its own where one can be started.
    pub hands: HandCount,
    /// What the hands pass before and after each cube.
    pub gate: &'a G,
    /// Where it is reached, the run ends without a verdict.
    pub limit: &'a L,
    /// Told of each stage as it ends, and before the answer is written.
    pub observer: &'a O,
}

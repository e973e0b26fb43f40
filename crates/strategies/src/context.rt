//! What a formula is decided with.

use cubes::HandCount;
use std::alloc::Global;

/// What a formula is decided with, whatever the formula and the strategy.
#[derive(Drop)]
pub struct Context<'a, R, G, O> {
    pub rt: &'a R,
    pub alloc: Global,
    /// How many hands solve it, each in a thread of its own where one can be started.
    pub hands: HandCount,
    /// What the hands pass before and after each cube, and who may stop them.
    pub gate: &'a G,
    /// Told how far the phases are.
    pub observer: &'a O,
}

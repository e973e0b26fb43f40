//! The tree of splits over one cube's search: which cubes are solved, and the result that they give
//! together.
#![tactic(auto)]

mod closing;
mod compatible;
mod cube_walk;
mod division;
mod gate;
mod gathering;
mod hand_count;
mod hands;
mod known;
mod limit;
mod pause;
mod place;
mod results;
mod size;
mod solved;
mod streaming;
mod threads;
mod traversal;
mod tree;
mod tries;

pub use compatible::{assemble, gather, harvest, solve_one, solve_with, work};
pub use division::cube_solver::CubeSolver;
pub use division::first_search::{DivisionWatcher, FirstAnswer, FirstSearch};
pub use division::root::Root;
pub use gate::{Gate, OpenGate, Watched};
pub use hand_count::HandCount;
pub use hands::Worked;
pub use limit::{Limit, TimeLimit};
pub use place::place_of;
pub use results::{LazySolver, gather_by_plan, solve_one_by_plan};
pub use size::TreeSize;
pub use solved::{Solved, What};
pub use streaming::{GivesOutcomes, TakesNodes, Untaken, go_through};
pub use threads::solve_by_plan;
pub use traversal::{Split, Turn, Walk};
pub use tree::{Node, Tree};

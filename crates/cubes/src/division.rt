//! Whether a formula is divided into cubes before these are searched, and how its cubes are solved
//! then. A plan says how many cubes are wanted; a first search says whether that gains; where it does,
//! cubes of few literals are looked at and not searched, as all solvers of the formula do alike.

pub(crate) mod cube_solver;
pub(crate) mod dividing;
pub(crate) mod first_search;
pub(crate) mod looking;
pub(crate) mod preparing;
pub(crate) mod root;

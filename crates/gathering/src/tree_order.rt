//! The order of cubes in a tree, from left to right.

use kernel::Cube;
use std::cmp::Ordering;

/// How a cube stands to another one where a tree that has both is gone through from left to right,
/// each cube before those below it. Of a split the negative half is the left one, so it is by their
/// literals: at the first place where they differ, the negative one comes first. Cubes of different
/// trees are in an order too. It takes time by the shorter one.
pub(crate) fn tree_order(one: &Cube, other: &Cube) -> Ordering {
    let (ones, others) = (one.lits(), other.lits());
    for place in 0..ones.len().min(others.len()) {
        let order = ones[place].code().cmp(&others[place].code());
        if order != Ordering::Equal {
            return order;
        }
    }
    ones.len().cmp(&others.len())
}

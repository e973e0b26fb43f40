//! The result of a formula.

use cdcl::Refutation;

/// A node of a tree of splits without a satisfied leaf.
#[derive(Drop)]
pub enum Node<L = Refutation> {
    /// The cube was exhausted and is split on the variable.
    Split(u32),
    /// The cube was refuted.
    Leaf(L),
}

/// What the tree of splits comes to.
#[derive(Drop)]
pub enum Tree<L = Refutation> {
    /// The truth values of the variables 1, 2 and so on: the first assignment that satisfies the
    /// formula.
    Model(Vec<bool>),
    /// No assignment satisfies the formula. The nodes stand in the order node, left subtree, right
    /// subtree.
    Refuted(Vec<Node<L>>),
}

//! How large a tree is.
ghost use Rattle.std.specs.Prelude.{◌≡◌, ◌+◌, ◌<◌, ◌^◌};
ghost use Rattle.cubes.specs.Sizes.{FitsLeaf, HasSize, IsNoSmaller, IsSizeOf};

use crate::tree::{Node, Tree};
use lines::Row;

/// The size of a tree of splits without a model. A number that can't grow stays as it is.
#[derive(Clone, Copy)]
pub struct TreeSize {
    pub splits: u64,
    pub leaves: u64,
    /// The lines that were learnt in the refuted cubes.
    pub learnt: usize,
    /// The bytes that these lines take.
    pub bytes: usize,
    /// No refuted cube has more lines.
    pub most_lines: usize,
    /// No line has more literals.
    pub most_literals: usize,
    /// No line has more hints, and none forgets more lines.
    pub most_numbers: usize,
}

impl TreeSize {
    /// Takes a refuted cube's lines in.
    fn add_leaf(&mut self, row: &Row)
        requires { self.old.leaves + 1 < 2 ^ 64 }
        ensures leaves { self.new.leaves ≡ self.old.leaves + 1 }
        ensures splits { self.new.splits ≡ self.old.splits }
        ensures fits { FitsLeaf self.new row.now }
        ensures kept { IsNoSmaller self.old self.new }
    {
        self.leaves = self.leaves.saturating_add(1);
        self.learnt = self.learnt.saturating_add(row.len());
        self.bytes = self.bytes.saturating_add(row.size());
        self.most_lines = self.most_lines.max(row.len());
        self.most_literals = self.most_literals.max(row.most_literals());
        self.most_numbers = self.most_numbers.max(row.most_numbers());
    }

    fn of_nodes(nodes: &[Node<Row>]) -> TreeSize
        ensures { IsSizeOf nodes.now result }
    {
        let _count = nodes.len(); // it bounds how many splits and leaves there are
        let mut size = TreeSize {
            splits: 0,
            leaves: 0,
            learnt: 0,
            bytes: 0,
            most_lines: 0,
            most_literals: 0,
            most_numbers: 0,
        };
        for node in nodes {
            match node {
                Node::Split(_) => size.splits = size.splits.saturating_add(1),
                Node::Leaf(row) => size.add_leaf(row),
            }
        }
        size
    }

    /// The size of the tree; of one with a model only the model is known. It takes time by the
    /// nodes, and none by their lines.
    pub fn of(tree: &Tree<Row>) -> Option<TreeSize>
        ensures { HasSize tree.now result }
    {
        match tree {
            Tree::Model(_) => None,
            Tree::Refuted(nodes) => Some(TreeSize::of_nodes(nodes)),
        }
    }
}

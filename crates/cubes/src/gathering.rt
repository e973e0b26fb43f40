//! Gathering the tree of a formula, from left to right, wherever the outcomes of its cubes come
//! from.
ghost use Rattle.std.specs.Prelude.{◌≡◌, [], IfOk};
ghost use Rattle.cubes.specs.Gathering.{CanSplit, GoesOnWith, nodes_of};

use crate::cube_walk::CubeWalk;
use crate::tree::{Node, Tree};
use cdcl::{KeepsLines, Outcome};
use kernel::Cube;
use std::alloc::{AllocError, Global};
use std::mem;

/// A cube of the tree, and the nodes before it.
pub(crate) struct Gathering<L> {
    pub(crate) at: CubeWalk,
    pub(crate) nodes: Vec<Node<L>>,
}

// written out, so that proofs of its owners stay short (docs/PROVING.md)
impl<L: Drop> Drop for Gathering<L> {
    fn drop(self) {
        let Gathering { at: _, nodes: _ } = self;
    }
}

impl<L: KeepsLines> Gathering<L> {
    /// At the root. It takes no memory.
    pub(crate) fn start(alloc: Global) -> Gathering<L>
        ensures cube { result.at.cube ≡ [] }
        ensures walk { result.at.walk ≡ [] }
        ensures nodes { nodes_of L.lines result ≡ [] }
    {
        Gathering {
            at: CubeWalk::from(alloc, Cube::root(alloc)),
            nodes: Vec::new(alloc),
        }
    }

    /// Goes on from the cube, whose outcome this is, to the next one that is needed; or gives the
    /// result, where none is.
    pub(crate) fn go_on(&mut self, outcome: Outcome<L>) -> Result<Option<Tree<L>>, AllocError>
        requires { CanSplit self.old outcome }
        ensures { IfOk result (λ found. GoesOnWith L.lines self.old outcome found self.new) }
    {
        match outcome {
            Outcome::Model(values) => Ok(Some(Tree::Model(values))),
            Outcome::Exhausted(var) => {
                self.nodes.push(Node::Split(var))?;
                self.at.enter(var)?;
                Ok(None)
            }
            Outcome::Refuted(kept) => {
                self.nodes.push(Node::Leaf(kept))?;
                if self.at.go_on()? {
                    return Ok(None);
                }
                let alloc = *self.nodes.allocator();
                let nodes = mem::replace(&mut self.nodes, Vec::new(alloc));
                Ok(Some(Tree::Refuted(nodes)))
            }
        }
    }
}

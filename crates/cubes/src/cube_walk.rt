//! The traversal of a tree of cubes: a cube, and the splits on the way to it.
ghost use Rattle.std.specs.Prelude.{◌≡◌, ◌≤◌, ◌<◌, ◌^◌, [], ◌∷◌, false, IfOk, OnOk};
ghost use Rattle.theory.specs.Literals.{has_var};
ghost use Rattle.cubes.specs.CubeWalks.{Enters, GoesOn};

use crate::traversal::{Turn, Walk};
use cnf::Lit;
use kernel::Cube;
use std::alloc::{AllocError, Global};

/// A cube of a tree, and the splits on the way to it from the tree's first cube.
pub(crate) struct CubeWalk {
    pub(crate) cube: Cube,
    pub(crate) walk: Walk<()>,
}

// written out, so that proofs of its owners stay short (docs/PROVING.md)
impl Drop for CubeWalk {
    fn drop(self) {
        let CubeWalk { cube: _, walk: _ } = self;
    }
}

impl CubeWalk {
    /// At the first cube of its tree. It takes no memory.
    pub(crate) fn from(alloc: Global, cube: Cube) -> CubeWalk
        ensures cube { result.cube ≡ cube }
        ensures walk { result.walk ≡ [] }
    {
        let walk = Walk::start(alloc);
        CubeWalk { cube, walk }
    }

    /// Enters the cube's left half: the cube is split on this variable.
    pub(crate) fn enter(&mut self, var: u32) -> Result<(), AllocError>
        requires variable { (1 ≤ var) × (var < 2 ^ 31) }
        requires free { has_var self.old.cube var ≡ false }
        ensures { OnOk result (Enters var self.old self.new) }
    {
        self.walk.enter(var)?;
        self.cube.push(Lit::of(var, false))?;
        Ok(())
    }

    /// Goes from a cube whose subtree is done to the next one to its right: the half beside the
    /// last cube that is a false half. The answer is `false` where there is none.
    pub(crate) fn go_on(&mut self) -> Result<bool, AllocError>
        ensures { IfOk result (λ found. GoesOn self.old found self.new) }
    {
        'above: loop {
            match self.walk.leave(())? {
                Turn::Both { .. } => {
                    self.cube.pop();
                }
                Turn::Right(_) => {
                    if let Some(lit) = self.cube.pop() {
                        self.cube.push(lit.negated())?;
                    }
                    return Ok(true);
                }
                Turn::End(()) => return Ok(false),
            }
        }
    }
}

//! Facts that are kept elsewhere, as in files.
ghost use Rattle.std.specs.Prelude.{◌≡◌, List, Option, None, Contains, IfOk, IfSome};
ghost use Rattle.packs.specs.declared.fact.Fact as made;

use kernel::Cube;
use packs::Fact;
use std::alloc::AllocError;

/// Keeps facts of cubes somewhere, as in files. Nobody vouches for them, nor that the same fact is
/// given again when it is asked for twice.
pub trait KeepsFacts: Drop {
    // the facts that it may give, where they are known
    ghost facts: { Self → Option (List made.Fact) } = { λ _. None };

    /// How many facts it has of a cube.
    fn count(&self, cube: &Cube) -> usize;

    /// The fact of a cube with this number, which is below their count, from 0 on; none where it
    /// can't be read any more. It may be any fact, also one of another cube.
    fn fact(&mut self, cube: &Cube, number: usize) -> Result<Option<Fact>, AllocError>
        ensures given { IfOk result (λ o. IfSome o (λ f. IfSome (facts self.old) (λ fs. Contains fs f))) }
        ensures kept { facts self.new ≡ facts self.old };

    /// How many numbers its facts have in the order of a tree that is gone through from left to
    /// right; none where it doesn't know the order.
    fn ordered(&self) -> usize {
        0
    }

    /// The fact with this number in that order, which is below their count, from 0 on; none where it
    /// can't be read any more, or isn't the last fact of its cube. It may be any fact.
    fn in_order(&mut self, _number: usize) -> Result<Option<Fact>, AllocError>
        ensures given { IfOk result (λ o. IfSome o (λ f. IfSome (facts self.old) (λ fs. Contains fs f))) }
        ensures kept { facts self.new ≡ facts self.old }
    {
        Ok(None)
    }
}

/// A store that is lent, and is there afterwards.
impl<S: KeepsFacts> KeepsFacts for &mut S {
    ghost facts = { λ s. S.facts s.now };

    fn count(&self, cube: &Cube) -> usize {
        (**self).count(cube)
    }

    fn fact(&mut self, cube: &Cube, number: usize) -> Result<Option<Fact>, AllocError> {
        (**self).fact(cube, number)
    }

    fn ordered(&self) -> usize {
        (**self).ordered()
    }

    fn in_order(&mut self, number: usize) -> Result<Option<Fact>, AllocError> {
        (**self).in_order(number)
    }
}

//! What is known of a formula by its cube without literals.
ghost use Rattle.std.specs.Prelude.{IfSome};
ghost use Rattle.theory.specs.Truth.{Formula};
ghost use Rattle.theory.specs.Plans.{Plan};
ghost use Rattle.theory.specs.Search.{exhausted};
ghost use Rattle.theory.specs.Runs.{Runs};
ghost use Rattle.cubes.specs.Division.{IsRootOf};

use kernel::Cube;

/// What a formula's cube without literals came to, so that each of several solvers needn't find it
/// out again.
#[derive(Clone, Copy, Debug, PartialEq, Eq)]
pub enum Root {
    /// It isn't known.
    Unknown,
    /// It was searched, and is split on this variable; the formula isn't divided.
    Searched(u32),
    /// It was looked at, and is split on this variable; the formula is divided.
    LookedAt(u32),
}

impl Root {
    /// The variable that the cube is split on, if it is the one without literals.
    pub(crate) fn split_of(self, cube: &Cube) -> Option<u32>
        ensures { IfSome result (λ x. (F : Formula) (plan : Plan) → IsRootOf F plan self → Runs F plan cube.now (exhausted x)) }
    {
        if !cube.lits().is_empty() {
            return None;
        }
        match self {
            Root::Unknown => None,
            Root::Searched(var) => Some(var),
            Root::LookedAt(var) => Some(var),
        }
    }
}

//! Where a cube lies in the tree of splits.
ghost use Rattle.std.specs.Prelude.{◌≡◌, ◌<◌, ◌^◌};
ghost use Rattle.theory.specs.Places.{place_of};

use kernel::Cube;

/// The place of a cube, below 2^32: the signs of its first 32 literals as bits from bit 31 down, 1
/// for a positive one; missing ones are 0. It takes no memory.
pub fn place_of(cube: &Cube) -> u64
    ensures place { result ≡ place_of cube.now }
    ensures below { result < 2 ^ 32 }
{
    let mut place = 0u64;
    let mut left = 32u32;
    for lit in cube.lits() {
        if left == 0 {
            return place;
        }
        left -= 1;
        if lit.positive() {
            place += 1 << left;
        }
    }
    place
}

//! Where the literals of each clause end, in a list of all.
ghost use Rattle.std.specs.Prelude.{◌≡◌, ◌<◌, ◌≤◌, length, slice_get, Some};
ghost use Rattle.cnf.specs.Pieces.{pieces, AreEnds, start_at};

use cnf::Lit;

/// Where the literals of the clause at a place begin, or would begin at the place behind the last.
pub fn start_of(ends: &[u32], index: usize) -> usize
    requires { index ≤ length ends.now }
    ensures { result ≡ start_at 0 ends.now index }
{
    if index == 0 {
        0
    } else {
        ends[index - 1] as usize
    }
}

/// The literals of the clause at a place.
pub fn literals_at<'a>(literals: &'a [Lit], ends: &[u32], index: usize) -> &'a [Lit]
    requires within { index < length ends.now }
    requires ends { AreEnds 0 ends.now (length literals.now) }
    ensures { slice_get (pieces 0 literals.now ends.now) index ≡ Some result.now }
{
    let start = start_of(ends, index);
    let end = ends[index] as usize;
    &literals[start..end]
}

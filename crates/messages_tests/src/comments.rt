//! Comments in proofs, read in pieces of all lengths.

use crate::forms::{Pieces, text_of};
use lrat_forms::Uncommented;
use std::alloc::Global;
use std::io;
use std::test::Fail;

/// A text, and what it is read as.
static ROWS: [(&[u8], &[u8]); 8] = [
    (b"", b""),
    (b"5 1 0 1 2 0\n6 0 5 3 4 0\n", b"5 1 0 1 2 0\n6 0 5 3 4 0\n"),
    (
        b"c made by hand\n5 1 0 1 2 0\nc\n6 0 5 3 4 0\n",
        b"1 d 0\n5 1 0 1 2 0\n1 d 0\n6 0 5 3 4 0\n",
    ),
    // one behind the other, and one whose line isn't ended
    (
        b"c 5 1 0\ncc c\nc d\n5 0 0\nc end",
        b"1 d 0\n1 d 0\n1 d 0\n5 0 0\n1 d 0\n",
    ),
    (b"c", b"1 d 0\n"),
    // only at a line's first byte
    (b" c no\n5 c 0\n\r\nc\r\n", b" c no\n5 c 0\n\r\n1 d 0\n"),
    (b"5 1 0\n\n\nc\n\n", b"5 1 0\n\n\n1 d 0\n\n"),
    (b"5 1 c\xff", b"5 1 c\xff"),
];

/// Whether a text is read so from pieces of this size, into this room, with a read that fails where
/// so many bytes are left.
fn holds(
    alloc: Global,
    (bytes, wanted): (&[u8], &[u8]),
    (size, room): (usize, usize),
    fails_at: Option<usize>,
) -> io::Result<bool> {
    let pieces = Pieces {
        bytes,
        size,
        fails_at,
    };
    let mut proof = Uncommented::of(alloc, pieces)?;
    let text = text_of(alloc, &mut proof, room)?;
    Ok(text.as_slice() == wanted)
}

#[test]
fn comments_are_steps_that_do_nothing(rt: HostRuntime) -> Result<(), Fail> {
    for row in &ROWS {
        for sizes in [(100, 100), (1, 100), (100, 1), (3, 7)] {
            for fails_at in [None, Some(row.0.len()), Some(1)] {
                let is_so = holds(rt.alloc(), *row, sizes, fails_at)?;
                assert!(rt; is_so, "{:?} {sizes:?}", row.0);
            }
        }
    }
    Ok(())
}

//! Worked candidates: which of them are forgotten.
ghost use Rattle.std.specs.Prelude.{◌≤◌, ◌+◌, length, IfOk};
ghost use Rattle.heuristics_tests.specs.Numbered.{AreNumberedBelow};

use heuristics::{Candidate, late_ones};
use std::alloc::{AllocError, Global};
use std::test::Fail;

/// The glues and sizes of candidates, which are numbered from 11 on.
type Shapes = &'static [(u32, u32)];

/// Candidates, and the numbers of those that are forgotten.
static ROWS: [(Shapes, &[u64]); 7] = [
    (&[], &[]),
    // of fewer than four all
    (&[(7, 7)], &[11]),
    // of the same glue and size the latest one is kept
    (&[(3, 4), (3, 4), (3, 4), (3, 4)], &[11, 12, 13]),
    (&[(3, 5), (3, 4), (3, 9), (3, 4)], &[11, 12, 13]),
    // a size tells less than a glue
    (&[(3, 9), (4, 1), (9, 1), (3, 2)], &[11, 12, 13]),
    // of five one is kept, of eight two
    (&[(4, 1), (4, 1), (4, 1), (3, 9), (5, 2)], &[11, 12, 13, 15]),
    (
        &[
            (3, 4),
            (5, 2),
            (3, 4),
            (3, 9),
            (4, 1),
            (3, 4),
            (4, 1),
            (3, 3),
        ],
        &[11, 12, 13, 14, 15, 17],
    ),
];

/// Candidates of these glues and sizes.
fn numbered(alloc: Global, shapes: &[(u32, u32)]) -> Result<Vec<Candidate>, AllocError>
    requires { length shapes.now ≤ 100 }
    ensures { IfOk result (λ candidates. AreNumberedBelow (11 + length shapes.now) candidates.items) }
{
    let mut candidates = Vec::new(alloc);
    for place in 0..shapes.len() {
        let (glue, size) = shapes[place];
        let number = 11 + place as u64;
        candidates.push(Candidate { number, glue, size })?;
    }
    Ok(candidates)
}

/// The numbers that are forgotten, in order.
fn forgotten(alloc: Global, shapes: &[(u32, u32)]) -> Result<Vec<u64>, AllocError> {
    if shapes.len() > 100 {
        return Ok(Vec::new(alloc));
    }
    let candidates = numbered(alloc, shapes)?;
    late_ones(alloc, &candidates)
}

/// The first row of which others are forgotten.
fn first_failed(alloc: Global, rows: &[(Shapes, &[u64])]) -> Result<Option<usize>, AllocError> {
    for place in 0..rows.len() {
        let (shapes, wanted) = rows[place];
        if forgotten(alloc, shapes)?.as_slice() != wanted {
            return Ok(Some(place));
        }
    }
    Ok(None)
}

#[test]
fn the_first_quarter_is_kept(rt: HostRuntime) -> Result<(), Fail> {
    assert_eq!(rt; first_failed(rt.alloc(), &ROWS)?, None);
    Ok(())
}

//! Bytes that are taken for a row, and lines that are read where they lie.

use cnf::Lit;
use lines::{Cursor, Row};
use std::alloc::{AllocError, Global};
use std::test::Fail;

/// Bytes, and how many lines they are, if they are whole lines.
static BYTES: [(&[u8], Option<usize>); 13] = [
    (&[], Some(0)),
    (&[0], None),
    (&[0, 0], None),
    (&[0, 0, 0], Some(1)),
    (&[0, 0, 0, 0], None),
    (&[0, 0, 0, 0, 0, 0], Some(2)),
    (&[128], None),
    (&[128, 0, 0, 0], Some(1)),
    (&[128, 0, 0, 128], None),
    (&[3, 0, 2, 0, 2, 0], Some(1)),
    (&[3, 0, 2, 0, 2], None),
    (
        &[
            255, 255, 255, 255, 255, 255, 255, 255, 255, 255, 127, 0, 0, 0,
        ],
        Some(1),
    ),
    (
        &[129, 128, 128, 128, 128, 128, 128, 128, 128, 128, 0, 0, 0],
        Some(1),
    ),
];

/// A row of bytes, and how many lines it has.
fn lines_of(alloc: Global, bytes: &[u8]) -> Result<Option<usize>, AllocError> {
    match Row::from_bytes(Vec::from_slice(alloc, bytes)?) {
        Some(row) => Ok(Some(row.len())),
        None => Ok(None),
    }
}

#[test]
fn any_bytes_are_a_row_or_none(rt: HostRuntime) -> Result<(), Fail> {
    for (bytes, wanted) in &BYTES {
        assert_eq!(rt; (bytes, lines_of(rt.alloc(), bytes)?), (bytes, *wanted));
        assert!(rt; Cursor::over(bytes).is_some() == wanted.is_some());
    }
    Ok(())
}

/// Two lines: `1 -3` by the clauses 1, 3 and 2, behind which four are forgotten, and the empty one
/// by clause 200.
fn two_lines(alloc: Global) -> Result<Row, AllocError> {
    let mut row = Row::new(alloc);
    row.push(
        &[Lit::of(1, true), Lit::of(3, false)],
        &[1, 3, 2],
        &[4, 5, 6, 7],
    )?;
    row.push(&[], &[200], &[])?;
    Ok(row)
}

#[test]
fn a_row_of_bytes_has_its_counts(rt: HostRuntime) -> Result<(), Fail> {
    let row = two_lines(rt.alloc())?;
    let again = Row::from_bytes(Vec::from_slice(rt.alloc(), row.bytes())?);
    let found = match again {
        Some(row) => (row.len(), row.most_literals(), row.most_numbers()),
        None => (0, 0, 0),
    };
    assert_eq!(rt; found, (2, 2, 4));
    Ok(())
}

#[test]
fn lines_are_read_where_they_lie(rt: HostRuntime) -> Result<(), Fail> {
    let row = two_lines(rt.alloc())?;
    let mut clause = Vec::new(rt.alloc());
    let mut hints = Vec::new(rt.alloc());
    let mut forgets = Vec::new(rt.alloc());
    let mut left = row.lines();
    assert!(rt; left.next(&mut clause, &mut hints, &mut forgets)?);
    assert_eq!(rt; (left.len(), hints.as_slice()), (1, [1, 3, 2].as_slice()));
    assert_eq!(rt; forgets.as_slice(), [4, 5, 6, 7].as_slice());
    let rest = left.rest(rt.alloc())?;
    assert_eq!(rt; rest.bytes(), [0, 131, 16, 0, 0].as_slice());
    assert!(rt; left.next(&mut clause, &mut hints, &mut forgets)?);
    assert_eq!(rt; (clause.len(), hints.as_slice()), (0, [200].as_slice()));
    assert!(rt; forgets.is_empty());
    assert!(rt; !left.next(&mut clause, &mut hints, &mut forgets)?);
    Ok(())
}

#[test]
fn the_first_line_is_taken_out(rt: HostRuntime) -> Result<(), Fail> {
    let mut row = two_lines(rt.alloc())?;
    let mut clause = Vec::new(rt.alloc());
    let mut hints = Vec::new(rt.alloc());
    let mut forgets = Vec::new(rt.alloc());
    assert!(rt; row.take_first(&mut clause, &mut hints, &mut forgets)?);
    assert_eq!(rt; (clause.len(), hints.as_slice()), (2, [1, 3, 2].as_slice()));
    assert_eq!(rt; forgets.as_slice(), [4, 5, 6, 7].as_slice());
    assert_eq!(rt; row.bytes(), [0, 131, 16, 0, 0].as_slice());
    assert!(rt; row.take_first(&mut clause, &mut hints, &mut forgets)?);
    assert!(rt; !row.take_first(&mut clause, &mut hints, &mut forgets)?);
    Ok(())
}

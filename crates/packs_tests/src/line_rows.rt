//! Lines that are pushed and read back, and how many bytes they take together.

use cnf::Lit;
use lines::{Reader, Row};
use std::alloc::{AllocError, Global};
use std::test::Fail;

/// A line: its clause, its hints, and what it forgets; and the bytes of the row behind it.
type Line<'a> = (&'a [i32], &'a [u64], &'a [u64], usize);

static ROWS: [Line; 6] = [
    (&[1, -3], &[1, 3, 2], &[], 8),
    (&[], &[], &[], 11),
    (&[-2], &[200], &[7, 5], 19),
    (&[5, 2], &[7, 7], &[], 30),
    (&[], &[], &[100, 200, 300], 39),
    (
        &[2_147_483_647],
        &[9_223_372_036_854_775_807],
        &[9_223_372_036_854_775_807],
        67,
    ),
];

/// The literals of these numbers.
fn clause_of(alloc: Global, numbers: &[i32]) -> Result<Vec<Lit>, AllocError> {
    let mut clause = Vec::new(alloc);
    for number in numbers {
        if let Some(lit) = Lit::new(*number) {
            clause.push(lit)?;
        }
    }
    Ok(clause)
}

/// Pushes the lines; the first one behind which the row has another size.
fn push_all(alloc: Global, row: &mut Row) -> Result<Option<usize>, AllocError> {
    for at in 0..ROWS.len() {
        let (numbers, hints, forgets, size) = ROWS[at];
        row.push(&clause_of(alloc, numbers)?, hints, forgets)?;
        if row.size() != size || row.len() != at + 1 {
            return Ok(Some(at));
        }
    }
    Ok(None)
}

/// Reads the lines; the first one that is another.
fn first_other(alloc: Global, reader: &mut Reader) -> Result<Option<usize>, AllocError> {
    let mut clause = Vec::new(alloc);
    let mut hints = Vec::new(alloc);
    let mut forgets = Vec::new(alloc);
    for at in 0..ROWS.len() {
        let (numbers, wanted, gone, _) = ROWS[at];
        let more = reader.next(&mut clause, &mut hints, &mut forgets)?;
        if !more
            || clause != clause_of(alloc, numbers)?
            || hints.as_slice() != wanted
            || forgets.as_slice() != gone
        {
            return Ok(Some(at));
        }
    }
    let more = reader.next(&mut clause, &mut hints, &mut forgets)?;
    Ok(if more { Some(ROWS.len()) } else { None })
}

#[test]
fn lines_are_read_as_pushed(rt: HostRuntime) -> Result<(), Fail> {
    let mut row = Row::new(rt.alloc());
    assert!(rt; row.is_empty());
    assert_eq!(rt; push_all(rt.alloc(), &mut row)?, None);
    let refused = row.push(&[], &[9_223_372_036_854_775_808], &[]);
    assert!(rt; refused.is_err());
    assert_eq!(rt; row.size(), 67);
    let mut reader = Reader::of(row);
    assert_eq!(rt; first_other(rt.alloc(), &mut reader)?, None);
    Ok(())
}

/// Pushes so many lines without a literal and a number, of which each takes three bytes.
fn push_empty(row: &mut Row, count: usize) -> Result<(), AllocError> {
    for _ in 0..count {
        row.push(&[], &[], &[])?;
    }
    Ok(())
}

#[test]
fn lines_are_the_same_bytes_in_memory_that_is_there(rt: HostRuntime) -> Result<(), Fail> {
    let mut row = Row::new(rt.alloc());
    push_empty(&mut row, 1_000)?;
    row.clear();
    assert_eq!(rt; push_all(rt.alloc(), &mut row)?, None);
    let mut grown = Row::new(rt.alloc());
    assert_eq!(rt; push_all(rt.alloc(), &mut grown)?, None);
    assert_eq!(rt; row.bytes(), grown.bytes());
    let refused = row.push(&[], &[9_223_372_036_854_775_808], &[]);
    assert!(rt; refused.is_err());
    assert_eq!(rt; row.size(), 67);
    let mut reader = Reader::of(row);
    assert_eq!(rt; first_other(rt.alloc(), &mut reader)?, None);
    Ok(())
}

#[test]
fn a_few_lines_are_copied_out(rt: HostRuntime) -> Result<(), Fail> {
    let mut row = Row::new(rt.alloc());
    assert_eq!(rt; push_all(rt.alloc(), &mut row)?, None);
    let mut reader = Reader::of(row.hand_out()?);
    assert_eq!(rt; first_other(rt.alloc(), &mut reader)?, None);
    assert_eq!(rt; row.len(), 6);
    row.clear();
    assert_eq!(rt; row.size(), 0);
    Ok(())
}

#[test]
fn many_lines_are_handed_out_as_they_lie(rt: HostRuntime) -> Result<(), Fail> {
    let mut row = Row::new(rt.alloc());
    push_empty(&mut row, 21_846)?;
    assert_eq!(rt; row.size(), 65_538);
    let lines = row.hand_out()?;
    assert_eq!(rt; lines.len(), 21_846);
    assert!(rt; row.is_empty());
    Ok(())
}

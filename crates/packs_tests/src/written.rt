//! The bytes of facts, and the facts that are read from them.

use cnf::Lit;
use lines::Row;
use packs::{Claim, Fact, Pack, read_pack, write_fact};
use std::alloc::{AllocError, Global};
use std::test::Fail;
use test_samples::{cube_of, reads};

/// A split on 2, a refutation by two lines, and a model.
static BYTES: [u8; 51] = [
    7, 0, 0, 0, 0, 0, 0, 0, 3, 3, 0, 2, 2, 0, 0, //
    16, 0, 0, 0, 0, 0, 0, 0, 4, 0, 4, 0, 0, 3, 0, 2, 2, 0, 0, 0, 6, 0, 10, 0, //
    4, 0, 0, 0, 0, 0, 0, 0, 0, 6, 0, 0,
];

/// The line `1` by the clauses 1 and 2, and the empty one by 3, which forgets clause 5.
fn row(alloc: Global) -> Result<Row, AllocError> {
    let mut row = Row::new(alloc);
    row.push(&[Lit::of(1, true)], &[1, 2], &[])?;
    row.push(&[], &[3], &[5])?;
    Ok(row)
}

/// A fact of the cube of these numbers.
fn fact(alloc: Global, numbers: &[i32], claim: Claim) -> Result<Fact, AllocError> {
    Ok(Fact {
        cube: cube_of(alloc, 3, numbers)?,
        claim,
    })
}

/// The bytes of the three facts.
fn written(alloc: Global) -> Result<Vec<u8>, AllocError> {
    let mut bytes = Vec::new(alloc);
    write_fact(&mut bytes, &fact(alloc, &[1, -3], Claim::Split(2))?)?;
    write_fact(
        &mut bytes,
        &fact(alloc, &[-2], Claim::Refuted(row(alloc)?))?,
    )?;
    write_fact(&mut bytes, &fact(alloc, &[], Claim::Model)?)?;
    Ok(bytes)
}

/// Whether a pack has the three facts.
fn has_all(pack: &Pack) -> bool {
    if pack.facts.len() != 3 || pack.passed_over != 0 || !pack.whole {
        return false;
    }
    let split = matches!(&pack.facts[0].claim, Claim::Split(2));
    let refuted = match &pack.facts[1].claim {
        Claim::Refuted(row) => row.bytes() == [3, 0, 2, 2, 0, 0, 0, 6, 0, 10, 0].as_slice(),
        _ => false,
    };
    let model = matches!(&pack.facts[2].claim, Claim::Model);
    split
        && refuted
        && model
        && reads(pack.facts[0].cube.lits(), &[1, -3])
        && reads(pack.facts[1].cube.lits(), &[-2])
        && reads(pack.facts[2].cube.lits(), &[])
}

#[test]
fn facts_have_these_bytes(rt: HostRuntime) -> Result<(), Fail> {
    let bytes = written(rt.alloc())?;
    assert_eq!(rt; bytes.as_slice(), BYTES.as_slice());
    Ok(())
}

#[test]
fn facts_are_read_as_written(rt: HostRuntime) -> Result<(), Fail> {
    let pack = read_pack(rt.alloc(), 3, &BYTES)?;
    assert!(rt; has_all(&pack));
    Ok(())
}

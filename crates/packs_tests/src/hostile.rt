//! Bytes that no one has written as a pack.

use packs::{FactReader, read_pack};
use std::alloc::{AllocError, Global};
use std::test::Fail;

/// A name, the body of a fact, and whether it is one, over the variables 1 to 3.
type Body<'a> = (&'a str, &'a [u8], bool);

static BODIES: [Body; 23] = [
    ("a model", &[0, 6, 0, 0], true),
    ("a split on 3", &[0, 2, 4, 0, 0], true),
    ("a refutation by no line", &[3, 0, 4, 0, 0], true),
    ("no line", &[], false),
    ("a line that isn't whole", &[0, 6], false),
    ("a line without what it forgets", &[0, 6, 0], false),
    ("a number that isn't whole", &[0, 6, 0, 128], false),
    ("no hints", &[0, 0, 0], false),
    ("the kind 0", &[0, 1, 0, 0], false),
    ("the kind 4", &[0, 8, 0, 0], false),
    ("a split on nothing", &[0, 2, 0, 0], false),
    ("a split on 0", &[0, 2, 3, 0, 0], false),
    ("a split on 4", &[0, 2, 6, 0, 0], false),
    ("a split on two variables", &[0, 2, 4, 4, 0, 0], false),
    (
        "a split with a line behind it",
        &[0, 2, 4, 0, 0, 0, 0, 0],
        false,
    ),
    ("a split that forgets", &[0, 2, 4, 0, 2, 0], false),
    (
        "a model with a line behind it",
        &[0, 6, 0, 0, 0, 0, 0],
        false,
    ),
    ("a model that forgets", &[0, 6, 0, 2, 0], false),
    ("a refutation with a second hint", &[0, 4, 2, 0, 0], false),
    ("a refutation that forgets", &[3, 0, 4, 0, 2, 0], false),
    ("a cube with the variable 4", &[9, 0, 6, 0, 0], false),
    (
        "a cube with 1 twice",
        &[3, 144, 128, 128, 128, 0, 0, 6, 0, 0],
        false,
    ),
    (
        "a cube with 1 and -1",
        &[3, 143, 255, 255, 255, 127, 0, 6, 0, 0],
        false,
    ),
];

/// The name of the first body that is read otherwise.
fn first_other<'a>(alloc: Global, bodies: &[Body<'a>]) -> Result<Option<&'a str>, AllocError> {
    let mut reader = FactReader::open(alloc, 3)?;
    for (name, body, wanted) in bodies {
        let fact = reader.read(Vec::from_slice(alloc, body)?)?;
        if fact.is_some() != *wanted {
            return Ok(Some(*name));
        }
    }
    Ok(None)
}

#[test]
fn bodies_are_facts_or_not(rt: HostRuntime) -> Result<(), Fail> {
    assert_eq!(rt; first_other(rt.alloc(), &BODIES)?, None);
    Ok(())
}

/// Bytes, how many facts they have, how many bodies are passed over, and whether they are whole.
type Bytes<'a> = (&'a [u8], usize, u64, bool);

static PACKS: [Bytes; 8] = [
    (&[], 0, 0, true),
    (&[4], 0, 0, false),
    (&[4, 0, 0, 0, 0, 0, 0, 0, 0, 6, 0], 0, 0, false),
    (&[4, 0, 0, 0, 0, 0, 0, 0, 0, 6, 0, 0], 1, 0, true),
    (&[0, 0, 0, 0, 0, 0, 0, 0], 0, 1, true),
    (
        &[255, 255, 255, 255, 255, 255, 255, 255, 0, 6, 0, 0],
        0,
        0,
        false,
    ),
    (
        &[
            2, 0, 0, 0, 0, 0, 0, 0, 7, 7, 4, 0, 0, 0, 0, 0, 0, 0, 0, 6, 0, 0,
        ],
        1,
        1,
        true,
    ),
    (
        &[4, 0, 0, 0, 0, 0, 0, 0, 0, 6, 0, 0, 4, 0, 0, 0],
        1,
        0,
        false,
    ),
];

#[test]
fn packs_are_read_to_their_end(rt: HostRuntime) -> Result<(), Fail> {
    for (bytes, facts, passed_over, whole) in &PACKS {
        let pack = read_pack(rt.alloc(), 3, bytes)?;
        assert_eq!(rt;
            (bytes, pack.facts.len(), pack.passed_over, pack.whole),
            (bytes, *facts, *passed_over, *whole)
        );
    }
    Ok(())
}

/// The body of a model of the cube of the first variables, up to so many.
fn long_cube(alloc: Global, vars: usize) -> Result<Vec<u8>, AllocError> {
    let mut body = vec![in alloc; 2u8; vars]?;
    if !body.is_empty() {
        body[0] = 3;
    }
    body.extend_from_slice(&[0, 6, 0, 0])?;
    Ok(body)
}

/// The literals of the cube that is read from it.
fn literals_read(alloc: Global, vars: u32) -> Result<usize, AllocError> {
    let body = long_cube(alloc, vars as usize)?;
    match FactReader::open(alloc, vars)?.read(body)? {
        Some(fact) => Ok(fact.cube.lits().len()),
        None => Ok(0),
    }
}

#[test]
fn a_long_cube_takes_time_by_its_literals(rt: HostRuntime) -> Result<(), Fail> {
    assert_eq!(rt; literals_read(rt.alloc(), 1_000_000)?, 1_000_000);
    Ok(())
}

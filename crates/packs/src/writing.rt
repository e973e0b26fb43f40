//! Facts to bytes.
ghost use Rattle.std.specs.Prelude.{◌≡◌, ◌++◌, ◌∷◌, [], List, IfOk, OnOk, OnErr};
ghost use Rattle.packs.specs.declared.fact.Fact as facts;
ghost use Rattle.lines.specs.Rows.{row, IsFront, IsWhole};
ghost use Rattle.packs.specs.Facts.{hints_of, lines_behind};
ghost use Rattle.packs.specs.Packs.{framed, IsPackOf};

use crate::fact::{Claim, Fact};
use lines::Row;
use std::alloc::{AllocError, Global};

/// The first line of a fact, as a row.
fn first_line(alloc: Global, fact: &Fact) -> Result<Row, AllocError>
    ensures { IfOk result (λ r. r ≡ record { clause = fact.now.cube; hints = hints_of fact.now.claim; forgets = [] } ∷ []) }
{
    let mut row = Row::new(alloc);
    let cube = fact.cube.lits();
    match &fact.claim {
        Claim::Split(var) => row.push(cube, &[1, u64::from(*var)], &[])?,
        Claim::Refuted(_) => row.push(cube, &[2], &[])?,
        Claim::Model => row.push(cube, &[3], &[])?,
    }
    Ok(row)
}

/// The bytes of the lines of a refuted cube, and none for another one.
fn bytes_behind(fact: &Fact) -> &[u8]
    ensures whole { IsWhole result.now }
    ensures lines { (row result.now).lines ≡ lines_behind fact.now.claim }
{
    match &fact.claim {
        Claim::Refuted(row) => row.bytes(),
        Claim::Split(_) => &[],
        Claim::Model => &[],
    }
}

/// Puts the bytes of a fact behind others, with their number before them.
fn put_body(bytes: &mut Vec<u8>, first: &[u8], rest: &[u8]) -> Result<(), AllocError>
    ensures framed { OnOk result (bytes.new.items ≡ bytes.old.items ++ framed (first.now ++ rest.now)) }
    ensures front { IsFront bytes.old.items bytes.new.items }
{
    let length = (first.len() + rest.len()) as u64;
    bytes.extend_from_slice(&length.to_le_bytes())?;
    bytes.extend_from_slice(first)?;
    bytes.extend_from_slice(rest)?;
    Ok(())
}

/// Puts a fact at the end of a pack. It takes time by the fact, and fails where a request for
/// memory is refused: the pack is then as it was.
pub fn write_fact(bytes: &mut Vec<u8>, fact: &Fact) -> Result<(), AllocError>
    ensures ok { OnOk result ((fs : List facts.Fact) → IsPackOf bytes.old.items fs → IsPackOf bytes.new.items (fs ++ fact.now ∷ [])) }
    ensures err { OnErr result (bytes.new.items ≡ bytes.old.items) }
{
    let first = first_line(*bytes.allocator(), fact)?;
    let end = bytes.len();
    match put_body(bytes, first.bytes(), bytes_behind(fact)) {
        Ok(()) => Ok(()),
        Err(error) => {
            bytes.truncate(end);
            Err(error)
        }
    }
}

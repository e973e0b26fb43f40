//! The text of a step.
ghost use Rattle.std.specs.Prelude.{◌≡◌, [], ◌∷◌, ◌++◌, map, codes, decimal, OnOk, OnErr};
ghost use Rattle.theory.specs.Texts.{space, literal_text, group_words, groups_words, step_text};
ghost use Rattle.theory.specs.Steps.{add, delete};
ghost use Rattle.lrat_text.specs.Steps.{step_of};
ghost use Rattle.lrat_text.specs.Words.{spaced, begun_line, IsBegunBy};

use crate::placed::{clause_room, numbers_room, place_clause, place_numbers};
use crate::step::{Addition, Deletion, Group, Step};
use cnf::Lit;
use itoa::Buffer;
use std::alloc::AllocError;

/// Appends a number and a space.
fn append_number(n: u64, out: &mut Vec<u8>) -> Result<(), AllocError>
    ensures ok { OnOk result (out.new.items ≡ out.old.items ++ decimal n ++ space ∷ []) }
    ensures extends { IsBegunBy out.old.items out.new.items }
{
    let mut buffer = Buffer::new();
    out.extend_from_slice(buffer.format(n).as_bytes())?;
    out.push(b' ')?;
    Ok(())
}

/// Appends a literal and a space.
fn append_literal(lit: Lit, out: &mut Vec<u8>) -> Result<(), AllocError>
    ensures ok { OnOk result (out.new.items ≡ out.old.items ++ literal_text lit ++ space ∷ []) }
    ensures extends { IsBegunBy out.old.items out.new.items }
{
    if !lit.positive() {
        out.push(b'-')?;
    }
    append_number(lit.var() as u64, out)
}

/// Appends literals, each with a space behind it. It fails where a request for memory is refused;
/// then some of them may stand there.
pub fn append_literals(lits: &[Lit], out: &mut Vec<u8>) -> Result<(), AllocError>
    ensures ok { OnOk result (out.new.items ≡ out.old.items ++ spaced (map literal_text lits.now)) }
    ensures extends { IsBegunBy out.old.items out.new.items }
{
    for lit in lits {
        append_literal(*lit, out)?;
    }
    Ok(())
}

/// Appends numbers one after the other, each with a space behind it.
fn append_each_number(numbers: &[u64], out: &mut Vec<u8>) -> Result<(), AllocError>
    ensures ok { OnOk result (out.new.items ≡ out.old.items ++ spaced (map decimal numbers.now)) }
    ensures extends { IsBegunBy out.old.items out.new.items }
{
    for number in numbers {
        append_number(*number, out)?;
    }
    Ok(())
}

/// Appends numbers, each with a space behind it: all at once where there is room for the longest
/// text of so many.
fn append_numbers(numbers: &[u64], out: &mut Vec<u8>) -> Result<(), AllocError>
    ensures ok { OnOk result (out.new.items ≡ out.old.items ++ spaced (map decimal numbers.now)) }
    ensures extends { IsBegunBy out.old.items out.new.items }
{
    let start = out.len();
    let room = numbers_room(numbers.len());
    if out.capacity() - start < room {
        return append_each_number(numbers, out);
    }
    out.resize(start + room, b' ')?;
    let end = place_numbers(numbers, out, start);
    out.truncate(end);
    Ok(())
}

/// Appends a group: the candidate behind a minus, then the hints, each with a space behind it.
fn append_group(group: &Group, out: &mut Vec<u8>) -> Result<(), AllocError>
    ensures ok { OnOk result (out.new.items ≡ out.old.items ++ spaced (group_words group.now)) }
    ensures extends { IsBegunBy out.old.items out.new.items }
{
    out.push(b'-')?;
    append_number(group.candidate(), out)?;
    append_numbers(group.hints(), out)
}

/// Appends groups, one after the other.
fn append_groups(groups: &[Group], out: &mut Vec<u8>) -> Result<(), AllocError>
    ensures ok { OnOk result (out.new.items ≡ out.old.items ++ spaced (groups_words groups.now)) }
    ensures extends { IsBegunBy out.old.items out.new.items }
{
    for group in groups {
        append_group(group, out)?;
    }
    Ok(())
}

/// Appends the end of a line.
fn append_end(out: &mut Vec<u8>) -> Result<(), AllocError>
    ensures ok { OnOk result (out.new.items ≡ out.old.items ++ codes "0\n") }
    ensures extends { IsBegunBy out.old.items out.new.items }
{
    out.extend_from_slice(b"0\n")
}

/// Appends a clause's number, the clause, and the hints before the first group, word by word.
fn append_each_word(
    id: u64,
    clause: &[Lit],
    hints: &[u64],
    out: &mut Vec<u8>,
) -> Result<(), AllocError>
    ensures ok { OnOk result (out.new.items ≡ out.old.items ++ begun_line id clause.now hints.now) }
    ensures extends { IsBegunBy out.old.items out.new.items }
{
    append_number(id, out)?;
    append_literals(clause, out)?;
    out.extend_from_slice(b"0 ")?;
    append_numbers(hints, out)?;
    Ok(())
}

/// Appends a clause's number, the clause, and the hints before the first group: all at once where
/// there is room for the longest text of so many.
fn append_clause(
    id: u64,
    clause: &[Lit],
    hints: &[u64],
    out: &mut Vec<u8>,
) -> Result<(), AllocError>
    ensures ok { OnOk result (out.new.items ≡ out.old.items ++ begun_line id clause.now hints.now) }
    ensures extends { IsBegunBy out.old.items out.new.items }
{
    let start = out.len();
    let room = clause_room(clause.len(), hints.len());
    if out.capacity() - start < room {
        return append_each_word(id, clause, hints, out);
    }
    out.resize(start + room, b' ')?;
    let end = place_clause(id, clause, hints, out, start);
    out.truncate(end);
    Ok(())
}

/// Appends the line of an addition without groups, of which only the parts are there: its words
/// with single spaces, and a line feed. Where a growth is refused, a beginning of the line may
/// stand. No other memory is taken.
pub fn write_clause(
    id: u64,
    clause: &[Lit],
    hints: &[u64],
    out: &mut Vec<u8>,
) -> Result<(), AllocError>
    ensures { OnOk result (out.new.items ≡ out.old.items ++ step_text (add (record { id = id; clause = clause.now; hints = hints.now; groups = [] }))) }
{
    append_clause(id, clause, hints, out)?;
    append_end(out)?;
    Ok(())
}

/// Appends the line of an addition.
fn append_addition(addition: &Addition, out: &mut Vec<u8>) -> Result<(), AllocError>
    ensures ok { OnOk result (out.new.items ≡ out.old.items ++ step_text (step_of (Step.Add addition.now))) }
    ensures extends { IsBegunBy out.old.items out.new.items }
{
    append_clause(addition.id(), addition.clause(), addition.hints(), out)?;
    append_groups(addition.groups(), out)?;
    append_end(out)
}

/// Appends the line that deletes the clauses of these numbers.
fn append_ids(id: u64, ids: &[u64], out: &mut Vec<u8>) -> Result<(), AllocError>
    ensures ok { OnOk result (out.new.items ≡ out.old.items ++ step_text (delete (record { id = id; ids = ids.now }))) }
    ensures extends { IsBegunBy out.old.items out.new.items }
{
    append_number(id, out)?;
    out.extend_from_slice(b"d ")?;
    append_numbers(ids, out)?;
    append_end(out)
}

/// Appends the line of a deletion, of which only the parts are there: the number that it carries,
/// and those of the clauses that it deletes. Where a growth is refused, a beginning of the line may
/// stand. No other memory is taken.
pub fn write_deletion(id: u64, ids: &[u64], out: &mut Vec<u8>) -> Result<(), AllocError>
    ensures { OnOk result (out.new.items ≡ out.old.items ++ step_text (delete (record { id = id; ids = ids.now }))) }
{
    append_ids(id, ids, out)?;
    Ok(())
}

/// Appends the line of a deletion.
fn append_deletion(deletion: &Deletion, out: &mut Vec<u8>) -> Result<(), AllocError>
    ensures ok { OnOk result (out.new.items ≡ out.old.items ++ step_text (step_of (Step.Delete deletion.now))) }
    ensures extends { IsBegunBy out.old.items out.new.items }
{
    append_ids(deletion.id(), deletion.ids(), out)
}

/// Appends the step's line: its words with single spaces, and a line feed. A refused growth leaves
/// the vector as it was. No other memory is taken.
pub fn write_step(step: &Step, out: &mut Vec<u8>) -> Result<(), AllocError>
    ensures ok { OnOk result (out.new.items ≡ out.old.items ++ step_text (step_of step.now)) }
    ensures err { OnErr result (out.new.items ≡ out.old.items) }
{
    let start = out.len();
    let written = match step {
        Step::Add(addition) => append_addition(addition, out),
        Step::Delete(deletion) => append_deletion(deletion, out),
    };
    if written.is_err() {
        out.truncate(start);
    }
    written
}

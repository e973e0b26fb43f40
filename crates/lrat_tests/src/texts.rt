//! Worked rows of steps and of the text of proofs.
use cnf::Lit;
use lrat::{Addition, Deletion, Group, Step, TextFault, read_proof, write_step};
use std::alloc::{AllocError, Global};
use std::process::Abort;
use std::test::Fail;
use test_samples::reads;

/// What a text's fault is, if it has one.
fn fault_of(alloc: Global, text: &[u8]) -> Option<TextFault> {
    read_proof(alloc, text).err()
}

/// The text of the steps that a text is read as.
fn rewritten(alloc: Global, text: &[u8]) -> Result<Vec<u8>, Fail> {
    let mut out = Vec::new(alloc);
    for step in &read_proof(alloc, text)? {
        write_step(step, &mut out)?;
    }
    Ok(out)
}

/// A text with a thousand sevens in it.
fn with_long_number(alloc: Global, before: &[u8], after: &[u8]) -> Result<Vec<u8>, AllocError> {
    let mut text = before.to_vec(alloc)?;
    for _ in 0..1000 {
        text.push(b'7')?;
    }
    text.extend_from_slice(after)?;
    Ok(text)
}

/// A text with a step behind it.
fn with_step(alloc: Global, text: &[u8], step: &Step) -> Result<Vec<u8>, AllocError> {
    let mut out = text.to_vec(alloc)?;
    write_step(step, &mut out)?;
    Ok(out)
}

fn deletion(alloc: Global) -> Result<Step, AllocError> {
    let ids = vec![in alloc; 1u64, 2]?;
    Ok(Step::Delete(Deletion::new(5, ids)))
}

#[test]
fn deletion_is_written(rt: HostRuntime) -> Result<(), Fail> {
    let out = with_step(rt.alloc(), b"x", &deletion(rt.alloc())?)?;
    assert_eq!(rt; out.as_slice(), b"x5 d 1 2 0\n".as_slice());
    Ok(())
}

fn addition(alloc: Global) -> Result<Step, AllocError> {
    let clause = vec![in alloc; Lit::of(1, true), Lit::of(2, false)]?;
    let hints = vec![in alloc; 7u64]?;
    let group = Group::new(3, vec![in alloc; 1u64]?);
    let empty_group = Group::new(4, Vec::new(alloc));
    let groups = vec![in alloc; group, empty_group]?;
    Ok(Step::Add(Addition::new(5, clause, hints, groups)))
}

#[test]
fn addition_is_written(rt: HostRuntime) -> Result<(), Fail> {
    let out = with_step(rt.alloc(), b"", &addition(rt.alloc())?)?;
    assert_eq!(rt; out.as_slice(), b"5 1 -2 0 7 -3 1 -4 0\n".as_slice());
    Ok(())
}

fn is_group(group: &Group, candidate: u64, hints: &[u64]) -> bool {
    group.candidate() == candidate && group.hints() == hints
}

fn has_two_groups(addition: &Addition) -> bool {
    let groups = addition.groups();
    groups.len() == 2 && is_group(&groups[0], 3, &[1]) && is_group(&groups[1], 4, &[])
}

fn is_addition(step: &Step) -> bool {
    match step {
        Step::Add(addition) => addition.id() == 5
            && reads(addition.clause(), &[1, -2])
            && addition.hints() == [7, 8].as_slice()
            && has_two_groups(addition),
        Step::Delete(_) => false,
    }
}

fn is_deletion(step: &Step) -> bool {
    match step {
        Step::Add(_) => false,
        Step::Delete(deletion) => deletion.id() == 6 && deletion.ids() == [1, 2].as_slice(),
    }
}

#[test]
fn parts_are_read(rt: HostRuntime) -> Result<(), Fail> {
    let steps = read_proof(rt.alloc(), b"5 1 -2 0 7 8 -3 1 -4 0\n6 d 1 2 0\n")?;
    assert!(rt; steps.len() == 2);
    assert!(rt; is_addition(&steps[0]));
    assert!(rt; is_deletion(&steps[1]));
    Ok(())
}

/// Texts that are written as they are read.
static KEPT: [&[u8]; 9] = [
    b"",
    b"5 1 0 1 2 0\n5 d 1 2 0\n6 0 5 3 4 0\n",
    b"5 1 0 -3 1 -4 2 0\n5 1 -2 0 7 8 -3 -4 0\n",
    b"7 d 0\n8 0 0\n8 0 0\n1 0 -2 0\n",
    // numbers at their limits
    b"5 2147483647 -2147483647 0 0\n",
    b"9223372036854775807 0 9223372036854775807 0\n",
    b"5 1 0 -9223372036854775807 9223372036854775807 0\n",
    b"9223372036854775807 d 9223372036854775807 0\n",
    b"2147483648 1 0 2147483648 -2147483648 0\n",
];

#[test]
fn text_is_kept(rt: HostRuntime) -> Result<(), Fail> {
    for text in &KEPT {
        let kept = rewritten(rt.alloc(), text)?;
        assert_eq!(rt; kept.as_slice(), *text);
    }
    Ok(())
}

#[test]
fn blanks_are_passed_over(rt: HostRuntime) -> Result<(), Fail> {
    let text = rewritten(rt.alloc(), b" 5\t1  0 \r1 2 0 \r\n\t5 d\t0\r\n")?;
    assert_eq!(rt; text.as_slice(), b"5 1 0 1 2 0\n5 d 0\n".as_slice());
    Ok(())
}

static REFUSED: [(&[u8], TextFault); 40] = [
    // numbers above their limits
    (b"5 2147483648 0 0\n", TextFault::BadNumber(1)),
    (b"5 1 -2147483648 0 0\n", TextFault::BadNumber(1)),
    (b"9223372036854775808 0 0\n", TextFault::BadNumber(1)),
    (b"-9223372036854775808 0 0\n", TextFault::BadNumber(1)),
    (b"5 0 9223372036854775808 0\n", TextFault::BadNumber(1)),
    (b"5 1 0 -9223372036854775808 0\n", TextFault::BadNumber(1)),
    (
        b"5 1 0 -3 18446744073709551617 0\n",
        TextFault::BadNumber(1),
    ),
    (b"5 d 9223372036854775808 0\n", TextFault::BadNumber(1)),
    (b"5 d -9223372036854775808 0\n", TextFault::BadNumber(1)),
    // no numbers
    (b"5 01 0 0\n", TextFault::BadNumber(1)),
    (b"5 1 0 -3 -0 0\n", TextFault::BadNumber(1)),
    (b"5 1 00 0\n", TextFault::BadNumber(1)),
    (b"5 1 - 0 0\n", TextFault::BadNumber(1)),
    (b"5 --1 0 0\n", TextFault::BadNumber(1)),
    (b"5 +1 0 0\n", TextFault::BadNumber(1)),
    (b"5 1x 0 0\n", TextFault::BadNumber(1)),
    (b"d 1 0\n", TextFault::BadNumber(1)),
    (b"5 1 d 0\n", TextFault::BadNumber(1)),
    (b"5 dd 0\n", TextFault::BadNumber(1)),
    (b"5 d 0 x\n", TextFault::BadNumber(1)),
    // wrong shapes
    (b"5 1 0 1 2\n", TextFault::BadShape(1)),
    (b"\n", TextFault::BadShape(1)),
    (b" \t\r\n", TextFault::BadShape(1)),
    (b"5\n", TextFault::BadShape(1)),
    (b"5 d\n", TextFault::BadShape(1)),
    (b"0 0 0\n", TextFault::BadShape(1)),
    (b"5 1 0 1 2 0 7\n", TextFault::BadShape(1)),
    (b"5 0 0 0\n", TextFault::BadShape(1)),
    (b"5 d 1 0 2\n", TextFault::BadShape(1)),
    (b"5 d -1 0\n", TextFault::BadShape(1)),
    (b"5 1 0 1 2 0\n-6 0 0\n", TextFault::BadShape(2)),
    (b"5 1 0 1 2 0\n\n6 x\n", TextFault::BadShape(2)),
    // lines without end
    (b"5 1 0 1 2 0", TextFault::LineNotEnded(1)),
    (b" ", TextFault::LineNotEnded(1)),
    (b"5 x", TextFault::LineNotEnded(1)),
    (b"8 0 0\n5 1", TextFault::LineNotEnded(2)),
    (b"5 x\n5 1", TextFault::BadNumber(1)),
    // the first fault decides
    (b"5 1 0 1 2\n6 01 0 0\n", TextFault::BadShape(1)),
    (b"5 0 0 7 x\n", TextFault::BadShape(1)),
    (b"5 x 0 0 7\n", TextFault::BadNumber(1)),
];

fn all_are_refused(rt: &impl Abort, alloc: Global, rows: &[(&[u8], TextFault)]) {
    for (text, fault) in rows {
        assert_eq!(rt; (*text, fault_of(alloc, text)), (*text, Some(*fault)));
    }
}

#[test]
fn texts_are_refused(rt: HostRuntime) {
    all_are_refused(&rt, rt.alloc(), &REFUSED);
}

/// What stands before and behind a long number.
static LONG_NUMBERS: [(&[u8], &[u8], TextFault); 5] = [
    (b"", b" 0 0\n", TextFault::BadNumber(1)),
    (b"5 -", b" 0 0\n", TextFault::BadNumber(1)),
    (b"5 0 ", b" 0\n", TextFault::BadNumber(1)),
    (b"5 0 0", b" 0\n", TextFault::BadNumber(1)),
    // Behind the last 0 any number stands where it can't, of whatever size.
    (b"5 0 0 ", b"\n", TextFault::BadShape(1)),
];

fn fault_with_long_number(
    alloc: Global,
    before: &[u8],
    after: &[u8],
) -> Result<Option<TextFault>, AllocError> {
    let text = with_long_number(alloc, before, after)?;
    Ok(fault_of(alloc, &text))
}

#[test]
fn long_numbers_are_refused(rt: HostRuntime) -> Result<(), Fail> {
    for (before, after, fault) in &LONG_NUMBERS {
        let found = fault_with_long_number(rt.alloc(), before, after)?;
        assert_eq!(rt; (*before, found), (*before, Some(*fault)));
    }
    Ok(())
}

#[test]
fn faults_have_numbers_and_lines(rt: HostRuntime) {
    assert!(rt; TextFault::BadNumber(3).number() == 41);
    assert!(rt; TextFault::LineNotEnded(3).number() == 42);
    assert!(rt; TextFault::BadShape(3).number() == 43);
    assert!(rt; TextFault::NoMemory.number() == 44);
    assert!(rt; TextFault::TooLong.number() == 45);
    assert!(rt; TextFault::BadShape(3).line() == Some(3));
    assert!(rt; TextFault::TooLong.line().is_none());
}

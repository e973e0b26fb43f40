//! Readers that give little, fail, or never end.
use cnf::{Place, ReadFault, read_bytes, read_from};
use std::alloc::Global;
use std::io;
use std::io::{ErrorKind, Read};
use std::test::Fail;

const TEXT: &[u8] = b"p cnf 2 1\n1 2 0\n";

/// Gives `TEXT` one byte a call, and after `left` bytes an error, once. It counts its calls.
#[derive(Drop)]
struct Failing {
    at: usize,
    left: usize,
    kind: ErrorKind,
    failed: bool,
    calls: u32,
}

impl Failing {
    fn after(left: usize, kind: ErrorKind) -> Failing {
        Failing {
            at: 0,
            left,
            kind,
            failed: false,
            calls: 0,
        }
    }
}

impl Read for Failing {
    fn read(&mut self, buf: &mut [u8]) -> io::Result<usize> {
        self.calls = self.calls.saturating_add(1);
        if self.left == 0 && !self.failed {
            self.failed = true;
            return Err(io::Error::from(self.kind));
        }
        if self.at >= TEXT.len() || buf.is_empty() {
            return Ok(0);
        }
        buf[0] = TEXT[self.at];
        self.at += 1;
        self.left = self.left.saturating_sub(1);
        Ok(1)
    }
}

/// Gives a byte over and over, as many as there is room for, and counts them.
#[derive(Drop)]
struct Endless {
    byte: u8,
    given: usize,
}

impl Read for Endless {
    fn read(&mut self, buf: &mut [u8]) -> io::Result<usize> {
        for byte in buf.iter_mut() {
            *byte = self.byte;
        }
        self.given = self.given.saturating_add(buf.len());
        Ok(buf.len())
    }
}

/// The numbers of variables and of clauses that are read, and how many calls that takes.
fn shape_and_calls(alloc: Global, left: usize) -> Result<(u32, usize, u32), ReadFault> {
    let mut reader = Failing::after(left, ErrorKind::Other);
    let formula = read_from(alloc, &mut reader)?;
    Ok((formula.vars(), formula.clause_count(), reader.calls))
}

#[test]
fn pieces(rt: HostRuntime) -> Result<(), Fail> {
    assert_eq!(rt; shape_and_calls(rt.alloc(), 100)?, (2, 1, 17));
    let whole = read_from(rt.alloc(), TEXT)?;
    assert!(rt; whole.clause_count() == 1);
    Ok(())
}

/// The fault that a reader's error gives, and how many calls the reader had.
fn fault_and_calls(alloc: Global, left: usize, kind: ErrorKind) -> (Option<ReadFault>, usize) {
    let mut reader = Failing::after(left, kind);
    let fault = read_from(alloc, &mut reader).err();
    (fault, reader.calls as usize)
}

#[test]
fn errors(rt: HostRuntime) {
    for kind in [ErrorKind::Other, ErrorKind::Interrupted] {
        for left in 0..17usize {
            let found = fault_and_calls(rt.alloc(), left, kind);
            assert_eq!(rt; found, (Some(ReadFault::ReadFailed), left + 1));
        }
    }
}

/// How many bytes are wanted at most, those that are read, and how many calls the reader gets.
static BYTES: [(usize, &[u8], u32); 6] = [
    (0, b"", 0),
    (1, b"p", 1),
    (15, b"p cnf 2 1\n1 2 0", 15),
    (16, b"p cnf 2 1\n1 2 0\n", 16),
    (17, b"p cnf 2 1\n1 2 0\n", 17),
    (70_000, b"p cnf 2 1\n1 2 0\n", 17),
];

fn bytes_and_calls(alloc: Global, most: usize) -> Result<(Vec<u8>, u32), ReadFault> {
    let mut reader = Failing::after(100, ErrorKind::Other);
    let bytes = read_bytes(alloc, &mut reader, most)?;
    Ok((bytes, reader.calls))
}

/// As many bytes are read as there are, `most` of them at most; behind these the reader isn't
/// asked.
#[test]
fn bytes(rt: HostRuntime) -> Result<(), Fail> {
    for (most, wanted, calls) in &BYTES {
        let (bytes, found) = bytes_and_calls(rt.alloc(), *most)?;
        assert_eq!(rt; (*most, bytes.as_slice(), found), (*most, *wanted, *calls));
    }
    Ok(())
}

/// How many of ten bytes are read, or the fault.
fn ten_read(alloc: Global, left: usize) -> Result<usize, ReadFault> {
    let mut reader = Failing::after(left, ErrorKind::Interrupted);
    let bytes = read_bytes(alloc, &mut reader, 10)?;
    Ok(bytes.len())
}

/// An error behind the bytes that are wanted doesn't come.
#[test]
fn bytes_of_a_failing_reader(rt: HostRuntime) {
    for left in 0..17usize {
        let wanted = if left >= 10 {
            Ok(10)
        } else {
            Err(ReadFault::ReadFailed)
        };
        assert_eq!(rt; (left, ten_read(rt.alloc(), left)), (left, wanted));
    }
}

#[test]
fn too_long(rt: HostRuntime) {
    let mut reader = Endless {
        byte: b'x',
        given: 0,
    };
    let fault = read_from(rt.alloc(), &mut reader).err();
    let wanted = ReadFault::OverLimit(Place { line: 1, column: 1 });
    assert_eq!(rt; (fault, reader.given), (Some(wanted), 67_108_865));
}

#[test]
fn longest(rt: HostRuntime) {
    let mut reader = io::Read::take(
        Endless {
            byte: b' ',
            given: 0,
        },
        67_108_864,
    );
    let fault = read_from(rt.alloc(), &mut reader).err();
    assert_eq!(rt;
        fault,
        Some(ReadFault::NoHeader(Place {
            line: 1,
            column: 67_108_865
        }))
    );
}

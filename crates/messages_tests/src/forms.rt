//! The text that proofs are read as, in pieces of all lengths, and where one in binary is broken.

use lrat_forms::{Broken, BrokenBy, Form, ProofText};
use std::alloc::{AllocError, Global};
use std::io;
use std::io::{ErrorKind, Read};
use std::test::Fail;

/// Gives these bytes, at most so many by one read, and fails once where so many are left.
#[derive(Clone, Copy, Drop)]
pub struct Pieces<'a> {
    pub bytes: &'a [u8],
    pub size: usize,
    pub fails_at: Option<usize>,
}

impl Read for Pieces<'_> {
    fn read(&mut self, buf: &mut [u8]) -> io::Result<usize> {
        if self.fails_at == Some(self.bytes.len()) {
            self.fails_at = None;
            return Err(io::Error::from(ErrorKind::TimedOut));
        }
        let count = self.size.min(buf.len()).min(self.bytes.len());
        buf[..count].copy_from_slice(&self.bytes[..count]);
        self.bytes = &self.bytes[count..];
        Ok(count)
    }
}

/// A proof's bytes, its form, its text, and where it is broken.
#[derive(Clone, Copy)]
struct Row<'a> {
    bytes: &'a [u8],
    form: Form,
    text: &'a [u8],
    broken: Option<Broken>,
}

const TEXT: Row = Row {
    bytes: b"5 1 0 1 2 0\n5 d 1 2 0\n6 0 5 3 4 0\n",
    form: Form::Text,
    text: b"5 1 0 1 2 0\n5 d 1 2 0\n6 0 5 3 4 0\n",
    broken: None,
};

/// The same in binary, where no number stands before those that a deletion takes away.
const BINARY: Row = Row {
    bytes: b"a\x05\x02\x00\x02\x04\x00d\x02\x04\x00a\x06\x00\x0a\x06\x08\x00",
    form: Form::Binary,
    ..TEXT
};

static ROWS: [Row; 14] = [
    TEXT,
    BINARY,
    Row {
        bytes: b"",
        text: b"",
        ..TEXT
    },
    // a text longer than the bytes that tell the form, and with a byte that no text has
    Row {
        bytes: b"5 1 2 3 4 5 6 7 8 9 0 1 2 3 0\n5 1 2 3 4 5 6 7 8 9 0 1 2 3 0\n6 \x01\n\xff",
        text: b"5 1 2 3 4 5 6 7 8 9 0 1 2 3 0\n5 1 2 3 4 5 6 7 8 9 0 1 2 3 0\n6 \x01\n\xff",
        ..TEXT
    },
    // texts that begin as a step in binary does
    Row {
        bytes: b"d 1 2 0\r\n\t1 0\n",
        text: b"d 1 2 0\r\n\t1 0\n",
        ..TEXT
    },
    Row {
        bytes: b"abc\n",
        text: b"abc\n",
        ..TEXT
    },
    // a deletion before all additions
    Row {
        bytes: b"d\x02\x04\x00",
        text: b"1 d 1 2 0\n",
        ..BINARY
    },
    // numbers of several bytes: 100, -64 and 8192; a group for the clause 3
    Row {
        bytes: b"a\x64\x81\x01\x80\x80\x01\x00\x07\x02\x00",
        text: b"100 -64 8192 0 -3 1 0\n",
        ..BINARY
    },
    // the greatest number, then what is no number of a clause
    Row {
        bytes: b"a\xff\xff\xff\xff\xff\xff\xff\xff\xff\x01\x01\x00\x00",
        text: b"18446744073709551615 -0 0 0\n",
        ..BINARY
    },
    Row {
        bytes: b"a\x05\x02\x00\x02\x04\x00\x00\x01",
        text: b"5 1 0 1 2 0\n?\n",
        broken: Some(Broken {
            by: BrokenBy::StepByte,
            byte: 8,
            step: 2,
        }),
        ..BINARY
    },
    Row {
        bytes: b"a\xff\xff\xff\xff\xff\xff\xff\xff\xff\x02\x00",
        text: b"?\n",
        broken: Some(Broken {
            by: BrokenBy::Number,
            byte: 11,
            step: 1,
        }),
        ..BINARY
    },
    Row {
        bytes: b"d\x02\x80\x80\x80\x80\x80\x80\x80\x80\x80\x80\x00",
        text: b"1 d 1 ?\n",
        broken: Some(Broken {
            by: BrokenBy::Number,
            byte: 12,
            step: 1,
        }),
        ..BINARY
    },
    Row {
        bytes: b"a\x05\x02",
        text: b"5 1 ?",
        broken: Some(Broken {
            by: BrokenBy::End,
            byte: 3,
            step: 1,
        }),
        ..BINARY
    },
    Row {
        bytes: b"a\x05\x02\x00\x02\x04\x00a",
        text: b"5 1 0 1 2 0\n?",
        broken: Some(Broken {
            by: BrokenBy::End,
            byte: 8,
            step: 2,
        }),
        ..BINARY
    },
];

/// Puts what one read gives, into room for so many bytes, at the end of a text; whether there may
/// be more. A read that fails gives nothing.
fn read_piece<I: Read>(proof: &mut I, room: usize, text: &mut Vec<u8>) -> Result<bool, AllocError> {
    let mut buf = [0u8; 100];
    match proof.read(&mut buf[..room.min(100)]) {
        Ok(count) => {
            text.extend_from_slice(&buf[..count])?;
            Ok(count > 0)
        }
        Err(_) => Ok(true),
    }
}

/// The text of a proof, read with room for so many bytes.
pub fn text_of<I: Read>(alloc: Global, proof: &mut I, room: usize) -> Result<Vec<u8>, AllocError> {
    let mut text = Vec::new(alloc);
    for _ in 0..u64::MAX {
        if !read_piece(proof, room, &mut text)? {
            break;
        }
    }
    Ok(text)
}

/// Whether a row's proof is read as it is wanted, from pieces of this size, into this room, with a
/// read that fails where so many bytes are left.
fn holds(
    alloc: Global,
    row: &Row,
    (size, room): (usize, usize),
    fails_at: Option<usize>,
) -> Result<bool, AllocError> {
    let pieces = Pieces {
        bytes: row.bytes,
        size,
        fails_at,
    };
    let mut proof = ProofText::of(pieces);
    let text = text_of(alloc, &mut proof, room)?;
    Ok(text.as_slice() == row.text && proof.form() == row.form && proof.broken() == row.broken)
}

#[test]
fn proofs_are_read_as_text(rt: HostRuntime) -> Result<(), Fail> {
    for row in &ROWS {
        for sizes in [(100, 100), (1, 100), (100, 1), (3, 7)] {
            for fails_at in [None, Some(row.bytes.len()), Some(1)] {
                let is_so = holds(rt.alloc(), row, sizes, fails_at)?;
                assert!(rt; is_so, "{:?} {sizes:?}", row.bytes);
            }
        }
    }
    Ok(())
}

/// So many times these bytes.
fn times(alloc: Global, count: usize, bytes: &[u8]) -> Result<Vec<u8>, AllocError> {
    let mut all = Vec::new(alloc);
    for _ in 0..count {
        all.extend_from_slice(bytes)?;
    }
    Ok(all)
}

/// More steps than are read at once, and more text than is kept.
#[test]
fn a_long_proof_in_binary(rt: HostRuntime) -> Result<(), Fail> {
    let bytes = times(rt.alloc(), 5000, b"d\x02\x00")?;
    let wanted = times(rt.alloc(), 5000, b"1 d 1 0\n")?;
    let row = Row {
        bytes: &bytes,
        text: &wanted,
        ..BINARY
    };
    assert!(rt; holds(rt.alloc(), &row, (10_000, 100), None)?);
    Ok(())
}

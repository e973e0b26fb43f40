//! What is kept of readers and writers that are looked at: all goes through, in spite of errors.

use files::{FirstBytes, KEPT, NoticedReader, NoticedWriter};
use std::io;
use std::io::{ErrorKind, Read, Write};
use std::test::Fail;

/// More bytes than are kept.
const TEXT: &[u8] = b"0123456789012345678901234567890123456789012345678901234567890123456789";

/// Fails at every call.
#[derive(Drop)]
struct Failing;

impl Read for Failing {
    fn read(&mut self, _buf: &mut [u8]) -> io::Result<usize> {
        Err(io::Error::from(ErrorKind::IsADirectory))
    }
}

impl Write for Failing {
    fn write(&mut self, _buf: &[u8]) -> io::Result<usize> {
        Err(io::Error::from(ErrorKind::StorageFull))
    }

    fn flush(&mut self) -> io::Result<()> {
        Err(io::Error::from(ErrorKind::BrokenPipe))
    }
}

/// The kind of an error, if there is one.
fn kind_of(error: Option<io::Error>) -> Option<ErrorKind> {
    match error {
        Some(error) => Some(error.kind()),
        None => None,
    }
}

#[test]
fn what_is_read_goes_through(rt: HostRuntime) -> Result<(), Fail> {
    let mut reader = NoticedReader::of(TEXT);
    let mut buf = [0u8; 50];
    for (count, kept) in [(50, 50), (20, KEPT), (0, KEPT)] {
        assert_eq!(rt; reader.read(&mut buf)?, count);
        assert!(rt; Some(reader.beginning()) == TEXT.get(..kept), "{count}");
    }
    assert!(rt; reader.error().is_none());
    Ok(())
}

#[test]
fn what_is_written_goes_through(rt: HostRuntime) -> Result<(), Fail> {
    let mut taken = Vec::new(rt.alloc());
    let mut writer = NoticedWriter::of(&mut taken);
    writer.write_all(b"refused 30")?;
    writer.write_all(b"\n")?;
    writer.flush()?;
    assert!(rt; writer.error().is_none());
    drop(writer);
    assert!(rt; taken.as_slice() == b"refused 30\n".as_slice());
    Ok(())
}

/// The kinds of the errors that are kept behind a read, a write and a flush that fail.
fn kinds_kept() -> [Option<ErrorKind>; 3] {
    let mut reader = NoticedReader::of(Failing);
    let _ = reader.read(&mut [0u8; 8]);
    let mut writer = NoticedWriter::of(Failing);
    let _ = writer.write(b"x");
    let written = kind_of(writer.error());
    let _ = writer.flush();
    [kind_of(reader.error()), written, kind_of(writer.error())]
}

#[test]
fn errors_are_kept(rt: HostRuntime) {
    let wanted = [
        Some(ErrorKind::IsADirectory),
        Some(ErrorKind::StorageFull),
        Some(ErrorKind::BrokenPipe),
    ];
    assert!(rt; kinds_kept() == wanted);
    assert!(rt; FirstBytes::new().bytes().is_empty());
}

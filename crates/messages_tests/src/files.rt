//! What is said of files that the system refuses, and of memory.

use messages::{
    say_answer_not_written, say_no_memory, say_not_created, say_not_read, say_part_in_use,
    say_part_not_created, say_proof_not_written, say_same_file, say_unproved,
};
use std::alloc::Global;
use std::io::{Error, ErrorKind};

/// Kinds of errors, with what is said of a file that is read.
static READ: [(ErrorKind, &str); 8] = [
    (ErrorKind::NotFound, "c f.cnf: no such file\n"),
    (
        ErrorKind::PermissionDenied,
        "c f.cnf: no permission to read it\n",
    ),
    (ErrorKind::IsADirectory, "c f.cnf: is a folder\n"),
    (
        ErrorKind::NotADirectory,
        "c f.cnf: a part of its path is no folder\n",
    ),
    (
        ErrorKind::InvalidFilename,
        "c f.cnf: its name is too long\n",
    ),
    (
        ErrorKind::FilesystemLoop,
        "c f.cnf: its links lead round in a circle\n",
    ),
    (ErrorKind::Interrupted, "c f.cnf: operation interrupted\n"),
    (
        ErrorKind::BrokenPipe,
        "c f.cnf: the program that reads it has ended\n",
    ),
];

/// The same of a file that is created.
static CREATED: [(ErrorKind, &str); 8] = [
    (
        ErrorKind::AlreadyExists,
        "c p.lrat: can't be created: the name of its part, with .part behind, is taken by something other than a file\n",
    ),
    (
        ErrorKind::NotFound,
        "c p.lrat: can't be created: its folder doesn't exist\n",
    ),
    (
        ErrorKind::PermissionDenied,
        "c p.lrat: can't be created: no permission to write it\n",
    ),
    (
        ErrorKind::IsADirectory,
        "c p.lrat: can't be created: it is a folder\n",
    ),
    (
        ErrorKind::StorageFull,
        "c p.lrat: can't be created: no room on the device\n",
    ),
    (
        ErrorKind::QuotaExceeded,
        "c p.lrat: can't be created: your share of the device is used up\n",
    ),
    (
        ErrorKind::FileTooLarge,
        "c p.lrat: can't be created: it would be longer than a file may be\n",
    ),
    (
        ErrorKind::ReadOnlyFilesystem,
        "c p.lrat: can't be created: the device can only be read\n",
    ),
];

/// What is said of a file of this name.
fn said_of_read(alloc: Global, name: &str, kind: ErrorKind) -> Vec<u8> {
    let mut out = Vec::new(alloc);
    say_not_read(&mut out, name, Error::from(kind));
    out
}

fn said_of_created(alloc: Global, kind: ErrorKind) -> Vec<u8> {
    let mut out = Vec::new(alloc);
    say_not_created(&mut out, "p.lrat", Error::from(kind));
    out
}

#[test]
fn files_that_are_not_opened(rt: HostRuntime) {
    for (kind, wanted) in &READ {
        let said = said_of_read(rt.alloc(), "f.cnf", *kind);
        assert!(rt; said.as_slice() == wanted.as_bytes(), "{wanted}");
    }
    for (kind, wanted) in &CREATED {
        let said = said_of_created(rt.alloc(), *kind);
        assert!(rt; said.as_slice() == wanted.as_bytes(), "{wanted}");
    }
}

/// The part of a proof, why it can't be made, and what is said.
static PARTS: [(&str, ErrorKind, &str); 4] = [
    (
        "far/off/p.lrat.part",
        ErrorKind::PermissionDenied,
        "c p.lrat: can't be created: no permission to make a file in its folder, far/off\n",
    ),
    (
        "/p.lrat.part",
        ErrorKind::PermissionDenied,
        "c p.lrat: can't be created: no permission to make a file in its folder, /\n",
    ),
    (
        "p.lrat.part",
        ErrorKind::PermissionDenied,
        "c p.lrat: can't be created: no permission to make a file in its folder, ./\n",
    ),
    (
        "far/p.lrat.part",
        ErrorKind::NotFound,
        "c p.lrat: can't be created: its folder doesn't exist\n",
    ),
];

#[test]
fn parts_that_are_not_made(rt: HostRuntime) {
    for (part, kind, wanted) in &PARTS {
        let mut said = Vec::new(rt.alloc());
        say_part_not_created(&mut said, "p.lrat", part, Error::from(*kind));
        assert!(rt; said.as_slice() == wanted.as_bytes(), "{wanted}");
    }
}

#[test]
fn a_name_stays_on_its_line(rt: HostRuntime) {
    let said = said_of_read(rt.alloc(), "é\n\u{1b}[K.cnf", ErrorKind::NotFound);
    assert!(rt; said.as_slice() == "c é??[K.cnf: no such file\n".as_bytes());
}

/// All that is said of texts that aren't written, and of memory.
fn said_of_written(alloc: Global) -> Vec<u8> {
    let mut out = Vec::new(alloc);
    let full = Error::from(ErrorKind::StorageFull);
    say_proof_not_written(&mut out, "p.lrat", Some(full));
    say_unproved(&mut out, Some(full));
    say_proof_not_written(&mut out, "p.lrat", None);
    say_unproved(&mut out, None);
    say_answer_not_written(&mut out, Some(Error::from(ErrorKind::BrokenPipe)));
    say_no_memory(&mut out, "f.cnf");
    say_same_file(&mut out, "f.cnf");
    say_part_in_use(&mut out, "p.lrat", "far/p.lrat.part");
    out
}

static WRITTEN: &str = "c p.lrat: no room on the device
c the proof isn't whole; make room for all of it, or name another place
c s UNSATISFIABLE (without a proof: no room on the device)
c p.lrat: the system took none of it
c the proof isn't whole; make room for all of it, or name another place
c s UNSATISFIABLE (without a proof: the system took none of it)
c the answer: the program that reads it has ended
c what was printed is only a beginning of it
c f.cnf: not enough memory; free some and try again
c f.cnf: formula and proof are one file; give the proof another name
c p.lrat: another run is writing it, in far/p.lrat.part; let that run end, or name another place
";

#[test]
fn texts_that_are_not_written(rt: HostRuntime) {
    let said = said_of_written(rt.alloc());
    assert!(rt; said.as_slice() == WRITTEN.as_bytes());
}

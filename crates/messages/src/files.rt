//! What is said of files that the system refuses to open, to create, to read or to write, and of
//! memory.

use crate::cause::Cause;
use crate::name::Name;
use std::io;
use std::io::{ErrorKind, Write};

/// The folder of the file of this path.
fn folder_of(path: &str) -> &str {
    match path.rsplit_once('/') {
        Some(("", _)) => "/",
        Some((folder, _)) => folder,
        None => "./",
    }
}

/// Says why a file can't be opened or read. A failed write changes nothing, here and below.
pub fn say_not_read<E: Write>(out: &mut E, file: &str, error: io::Error) {
    let (name, cause) = (Name::of(file), Cause::of_reading(error));
    let _ = writeln!(out, "c {name}: {cause}");
}

/// Says why a file can't be created.
pub fn say_not_created<E: Write>(out: &mut E, file: &str, error: io::Error) {
    let (name, cause) = (Name::of(file), Cause::of_writing(Some(error)));
    let _ = writeln!(out, "c {name}: can't be created: {cause}");
}

/// Says why the part in which a proof is written can't be made: its folder is named where it isn't to
/// be written.
pub fn say_part_not_created<E: Write>(out: &mut E, file: &str, part: &str, error: io::Error) {
    if error.kind() != ErrorKind::PermissionDenied {
        say_not_created(out, file, error);
        return;
    }
    let name = Name::of(file);
    let folder = Name::of(folder_of(part));
    let _ = writeln!(
        out,
        "c {name}: can't be created: no permission to make a file in its folder, {folder}"
    );
}

/// Says that the formula's file is the proof's too.
pub fn say_same_file<E: Write>(out: &mut E, file: &str) {
    let name = Name::of(file);
    let _ = writeln!(
        out,
        "c {name}: formula and proof are one file; give the proof another name"
    );
}

/// Says that another run is writing the proof, in this part of it.
pub fn say_part_in_use<E: Write>(out: &mut E, file: &str, part: &str) {
    let (name, part) = (Name::of(file), Name::of(part));
    let _ = writeln!(
        out,
        "c {name}: another run is writing it, in {part}; let that run end, or name another place"
    );
}

/// Says that memory didn't suffice for a formula or its proof.
pub fn say_no_memory<E: Write>(out: &mut E, file: &str) {
    let name = Name::of(file);
    let _ = writeln!(out, "c {name}: not enough memory; free some and try again");
}

/// Says why the proof wasn't written whole. Without an error, a write took nothing.
pub fn say_proof_not_written<E: Write>(out: &mut E, file: &str, error: Option<io::Error>) {
    let (name, cause) = (Name::of(file), Cause::of_writing(error));
    let _ = writeln!(
        out,
        "c {name}: {cause}\nc the proof isn't whole; make room for all of it, or name another place"
    );
}

/// Says the answer to a formula that was refuted, where that fault kept the proof from being written.
pub fn say_unproved<E: Write>(out: &mut E, error: Option<io::Error>) {
    let cause = Cause::of_writing(error);
    let _ = writeln!(out, "c s UNSATISFIABLE (without a proof: {cause})");
}

/// Says why the answer, which goes to standard output, wasn't written whole. Without an error, a
/// write took nothing.
pub fn say_answer_not_written<E: Write>(out: &mut E, error: Option<io::Error>) {
    let cause = Cause::of_writing(error);
    let _ = if cause.is_closed() {
        writeln!(out, "c standard output is closed")
    } else {
        writeln!(
            out,
            "c the answer: {cause}\nc what was printed is only a beginning of it"
        )
    };
}

/// Says why what goes to standard output wasn't written.
pub fn say_not_printed<E: Write>(out: &mut E, error: io::Error) {
    let cause = Cause::of_writing(Some(error));
    let _ = if cause.is_closed() {
        writeln!(out, "cubesat: standard output is closed")
    } else {
        writeln!(out, "cubesat: standard output: {cause}")
    };
}

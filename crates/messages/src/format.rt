//! What packed a file, by its first bytes, and the command that reads it all the same.

use crate::command::Command;
use crate::name::Name;
use crate::shell::Arguments;
use std::io::Write;

/// What packs a file.
#[derive(Clone, Copy, PartialEq, Eq)]
pub(crate) enum Packer {
    Gzip,
    Xz,
    Bzip2,
    Zstandard,
}

/// What a compressed file begins with.
static BEGINNINGS: [(&[u8], Packer); 4] = [
    (b"\x1f\x8b", Packer::Gzip),
    (b"\xfd7zXZ\x00", Packer::Xz),
    (b"BZh", Packer::Bzip2),
    (b"\x28\xb5\x2f\xfd", Packer::Zstandard),
];

impl Packer {
    /// What packed a file with these first bytes, if anything did.
    pub(crate) fn of(first: &[u8]) -> Option<Packer> {
        for (beginning, packer) in &BEGINNINGS {
            if first.starts_with(beginning) {
                return Some(*packer);
            }
        }
        None
    }

    /// The program that unpacks it, called with `-dc`.
    fn program(self) -> &'static str {
        match self {
            Packer::Gzip => "gzip",
            Packer::Xz => "xz",
            Packer::Bzip2 => "bzip2",
            Packer::Zstandard => "zstd",
        }
    }
}

/// Says by which call a packed file is unpacked and read, by these words of ours.
fn say_packed_for<E: Write>(out: &mut E, file: &str, packer: Packer, call: &str) {
    let (name, program, arguments) = (Name::of(file), packer.program(), Arguments::of(file));
    let _ = writeln!(
        out,
        "c {name}: compressed by {program}; unpack it on the way: {program} -dc{arguments} | {call}"
    );
}

/// Says of a formula's file what packed it, and how this command reads it.
pub(crate) fn say_packed<E: Write>(out: &mut E, file: &str, packer: Packer, command: Command) {
    say_packed_for(out, file, packer, command.of_unpacked());
}

/// Says of a proof's file what packed it, and how it is read.
pub(crate) fn say_packed_proof<E: Write>(out: &mut E, file: &str, packer: Packer) {
    say_packed_for(out, file, packer, "cubesat check FORMULA -");
}

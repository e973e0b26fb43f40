//! Files that are read once more, for their text around a place.

use cnf::Place;
use command_line::STANDARD_INPUT;
use lenient::Counts;
use lrat_forms::{Form, ProofText};
use messages::{Excerpt, header_in};
use std::fs;
use std::fs::Files;
use std::io::Read;

/// How many bytes a read is given room for: so many that a large file takes few calls.
const CHUNK: usize = 65_536;

/// Adds what one read gives; whether more is to be read. None where the read fails.
fn add_chunk<I: Read>(input: &mut I, chunk: &mut [u8], excerpt: &mut Excerpt) -> Option<bool> {
    let count = input.read(chunk).ok()?;
    excerpt.add(&chunk[..count]);
    Some(count > 0 && !excerpt.is_full())
}

/// A file that is read once more. There is none where it can't be opened, and none of what isn't a
/// regular file, or of standard input: a pipe gives its bytes once.
fn opened_anew<R: Files>(rt: &R, file: &str) -> Option<R::File> {
    if file == STANDARD_INPUT || !fs::metadata(rt, file).ok()?.is_file() {
        return None;
    }
    fs::open(rt, file).ok()
}

/// The text of a reader around a place. There is none where it can't be read.
fn excerpt_in<I: Read + Drop>(mut input: I, place: Place) -> Option<Excerpt> {
    let mut excerpt = Excerpt::around(place);
    let mut chunk = [0u8; CHUNK];
    for _ in 0..u64::MAX {
        if !add_chunk(&mut input, &mut chunk, &mut excerpt)? {
            break;
        }
    }
    Some(excerpt)
}

/// The text of a file around a place, where it can be read anew.
pub(crate) fn excerpt_of<R: Files>(rt: &R, file: &str, place: Place) -> Option<Excerpt> {
    excerpt_in(opened_anew(rt, file)?, place)
}

/// What the header of a file counts, where the file can be read anew and has few comments before it.
pub(crate) fn header_of<R: Files>(rt: &R, file: &str) -> Option<Counts> {
    let mut input = opened_anew(rt, file)?;
    let mut chunk = [0u8; CHUNK];
    let count = input.read(&mut chunk).ok()?;
    header_in(&chunk[..count])
}

/// The text that a proof's file is read as, around a place, where it can be read anew.
pub(crate) fn proof_excerpt_of<R: Files>(rt: &R, file: &str, place: Place) -> Option<Excerpt> {
    excerpt_in(ProofText::of(opened_anew(rt, file)?), place)
}

/// Whether a proof's file can be read anew, and is in binary.
pub(crate) fn is_seen_in_binary<R: Files>(rt: &R, file: &str) -> bool {
    let Some(inner) = opened_anew(rt, file) else {
        return false;
    };
    let mut text = ProofText::of(inner);
    let _ = text.read(&mut [0u8]);
    text.form() == Form::Binary
}

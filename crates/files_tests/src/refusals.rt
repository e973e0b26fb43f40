//! What is left where a call of the system is refused.
use crate::folder::{begin, folder, is_left, put, write_whole};
use crate::place::Place;
use std::io::Write;
use std::rt::Files;
use std::test::Fail;
use std::{fs, io};
use test_console::fake::{Call, Fake};

/// What is tried of a new file where a call is refused.
#[derive(Clone, Copy)]
enum Trial {
    End,
    /// A flush before the end.
    Flush,
}

fn is_flushed<R: Files + AllocGlobal>(rt: &R, path: &str) -> io::Result<bool> {
    let mut file = begin(rt, path)?;
    Ok(file.flush().is_ok())
}

fn goes_well<R: Files + AllocGlobal>(rt: &R, path: &str, trial: Trial) -> io::Result<bool> {
    match trial {
        Trial::End => Ok(write_whole(rt, path, "new").is_ok()),
        Trial::Flush => is_flushed(rt, path),
    }
}

/// Whether a trial goes well where this call is refused. All trials go through this function, since
/// the proof of a call by such a system is long (docs/PROVING.md).
fn goes_without<R: Files + AllocGlobal>(
    rt: &R,
    path: &str,
    call: Call,
    trial: Trial,
) -> io::Result<bool> {
    let refusing = Fake::refusing(rt, rt, call);
    goes_well(&refusing, path, trial)
}

/// Whether a file that was there, or none, is as it was, with no part beside it, behind a new one
/// that the refused call ends.
fn is_kept<R: Files + AllocGlobal>(
    rt: &R,
    folder: &str,
    call: Call,
    old: Option<&str>,
) -> Result<bool, Fail> {
    let place = Place::of(rt, folder)?;
    put(rt, place.name.as_str(), old)?;
    let is_ended = goes_without(rt, place.name.as_str(), call, Trial::End)?;
    Ok(!is_ended && place.has(rt, old, None))
}

/// Each call that ends a file, and what stood at its place.
static REFUSED: [(Call, Option<&str>); 9] = [
    (Call::Write, None),
    (Call::Write, Some("old")),
    (Call::Flush, None),
    (Call::Flush, Some("old")),
    (Call::Sync, None),
    (Call::Sync, Some("old")),
    (Call::Rename, None),
    (Call::Rename, Some("old")),
    // a file that may not be written
    (Call::Open, Some("old")),
];

#[test]
fn each_call_refused(rt: HostRuntime) -> Result<(), Fail> {
    let folder = folder(&rt, "refused")?;
    for (call, old) in &REFUSED {
        let is_kept = is_kept(&rt, folder.as_str(), *call, *old)?;
        assert!(rt; is_kept, "{call:?} with {old:?}");
    }
    Ok(())
}

/// A call, and whether a flush needs it.
static FLUSHES: [(Call, bool); 2] = [(Call::Flush, true), (Call::Sync, false)];

#[test]
fn a_flush_is_passed_on(rt: HostRuntime) -> Result<(), Fail> {
    let folder = folder(&rt, "flushed")?;
    let place = Place::of(&rt, folder.as_str())?;
    for (call, is_needed) in &FLUSHES {
        let is_flushed = goes_without(&rt, place.name.as_str(), *call, Trial::Flush)?;
        assert!(rt; is_flushed != *is_needed, "{call:?}");
    }
    Ok(())
}

/// Whether a file takes its place where permissions can't be set.
pub(crate) fn goes_without_modes<R: Files + AllocGlobal>(
    rt: &R,
    place: &Place,
) -> Result<bool, Fail> {
    fs::write(rt, place.name.as_str(), "old")?;
    let is_ended = goes_without(rt, place.name.as_str(), Call::SetPermissions, Trial::End)?;
    Ok(is_ended && is_left(rt, place.file.as_str(), Some("new")))
}

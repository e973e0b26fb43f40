//! A part that another run is writing, and one that a killed run left.
use crate::folder::folder;
use crate::place::Place;
use files::{Destination, Locks, NotMade, SystemLocks, WholeFile};
use std::fs;
use std::io::Write;
use std::rt::Files;
use std::test::Fail;

/// Begins a file at a place, and locks its part.
fn begin<'a, R: Files + AllocGlobal, L: Locks<R::File>>(
    rt: &'a R,
    place: &Place,
    locks: &L,
) -> Result<WholeFile<'a, R>, Fail> {
    let destination = Destination::of(rt, rt.alloc(), place.name.as_str())?;
    match WholeFile::create_locked(rt, destination, locks) {
        Ok(file) => Ok(file),
        Err(why) => Err(Fail::from(std::io::Error::from(why))),
    }
}

/// Whether no file is begun at a place, since its part is in use.
fn is_in_use<R: Files + AllocGlobal, L: Locks<R::File>>(
    rt: &R,
    place: &Place,
    locks: &L,
) -> Result<bool, Fail> {
    let destination = Destination::of(rt, rt.alloc(), place.name.as_str())?;
    match WholeFile::create_locked(rt, destination, locks) {
        Err(NotMade::InUse(part)) => Ok(part.as_str() == place.part.as_str()),
        _ => Ok(false),
    }
}

/// Whether the later one of two files is refused, and the earlier one takes its place.
fn is_first_put<R: Files + AllocGlobal, L: Locks<R::File>>(
    rt: &R,
    place: &Place,
    locks: &L,
) -> Result<bool, Fail> {
    let mut first = begin(rt, place, locks)?;
    first.write_all(b"first")?;
    let is_refused = is_in_use(rt, place, locks)?;
    let is_left = place.has(rt, None, Some("first"));
    first.end()?;
    Ok(is_refused && is_left && place.has(rt, Some("first"), None))
}

/// Whether a file is written over the part of a killed run.
fn goes_over<R: Files + AllocGlobal, L: Locks<R::File>>(
    rt: &R,
    place: &Place,
    locks: &L,
) -> Result<bool, Fail> {
    fs::write(rt, place.part.as_str(), "a beginning")?;
    let mut file = begin(rt, place, locks)?;
    file.write_all(b"new")?;
    file.end()?;
    // a file in its place keeps no other from being begun
    let is_free = !is_in_use(rt, place, locks)?;
    Ok(is_free && place.has(rt, Some("new"), None))
}

#[test]
fn a_part_in_use(rt: HostRuntime) -> Result<(), Fail> {
    let folder = folder(&rt, "in_use")?;
    let place = Place::of(&rt, folder.as_str())?;
    assert!(rt; is_first_put(&rt, &place, &SystemLocks)?);
    assert!(rt; goes_over(&rt, &place, &SystemLocks)?);
    Ok(())
}

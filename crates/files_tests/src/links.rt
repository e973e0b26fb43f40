//! Symbolic links: the part of the file that one leads to, and links that lead nowhere.
use crate::folder::{is_link, within, write_whole};
use crate::place::{Place, link};
use files::Destination;
use std::rt::Files;
use std::test::Fail;

fn names_part<R: Files + AllocGlobal>(rt: &R, place: &Place) -> Result<bool, Fail> {
    let destination = Destination::of(rt, rt.alloc(), place.name.as_str())?;
    Ok(destination.part() == Some(place.part.as_str()))
}

/// Whether the part stands beside the file that a link leads to.
pub(crate) fn names_linked_part<R: Files + AllocGlobal>(
    rt: &R,
    folder: &str,
) -> Result<bool, Fail> {
    let place = Place::linked(rt, folder)?;
    names_part(rt, &place)
}

/// Whether a link to itself is refused, and stays.
pub(crate) fn refuses_circle<R: Files + AllocGlobal>(rt: &R, folder: &str) -> Result<bool, Fail> {
    link(rt, folder, "link", "link")?;
    let link = within(rt, folder, "link")?;
    Ok(write_whole(rt, link.as_str(), "new").is_err() && is_link(rt, link.as_str()))
}

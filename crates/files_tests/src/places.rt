//! What stands at a place, and in the part beside it, while a file is written; and places of other
//! kinds.
use crate::folder::{begin, folder, is_link, within, write_whole};
use crate::links::{names_linked_part, refuses_circle};
use crate::place::{Place, link};
use crate::refusals::goes_without_modes;
use files::{Destination, WholeFile};
use std::fs::Permissions;
use std::io::Write;
use std::os::unix::fs::{FileTypeExt, PermissionsExt};
use std::rt::{Env, Files};
use std::test::Fail;
use std::{fs, io};

/// Whether a new file stands in its part until it is ended, and then in its place.
fn is_put<R: Files + AllocGlobal>(
    rt: &R,
    place: &Place,
    file: &mut WholeFile<R>,
) -> Result<bool, Fail> {
    file.write_all(b"whole")?;
    file.flush()?;
    let is_in_part = place.has(rt, None, Some("whole"));
    file.end()?;
    Ok(is_in_part && place.has(rt, Some("whole"), None))
}

/// The same, and whether it stays there when it is let go.
fn stays<R: Files + AllocGlobal>(rt: &R, place: &Place) -> Result<bool, Fail> {
    let mut file = begin(rt, place.name.as_str())?;
    let is_put = is_put(rt, place, &mut file)?;
    drop(file);
    Ok(is_put && place.has(rt, Some("whole"), None))
}

/// Whether a part that is a link is left, with what it leads to.
fn keeps_link<R: Files + AllocGlobal>(rt: &R, place: &Place, other: &str) -> Result<bool, Fail> {
    fs::write(rt, other, "other")?;
    rt.symlink(other, place.part.as_str())?;
    let is_refused = write_whole(rt, place.name.as_str(), "new").is_err();
    Ok(is_refused && place.has(rt, None, Some("other")))
}

/// Whether a part that is a folder is left.
fn keeps_folder<R: Files + AllocGlobal>(rt: &R, place: &Place) -> Result<bool, Fail> {
    fs::remove_file(rt, place.part.as_str())?;
    fs::create_dir(rt, place.part.as_str())?;
    let is_refused = write_whole(rt, place.name.as_str(), "new").is_err();
    Ok(is_refused && rt.metadata(place.part.as_str())?.is_dir())
}

/// Whether both are left, one after the other.
fn keeps_both<R: Files + AllocGlobal>(rt: &R, folder: &str, place: &Place) -> Result<bool, Fail> {
    let other = within(rt, folder, "other")?;
    Ok(keeps_link(rt, place, other.as_str())? && keeps_folder(rt, place)?)
}

/// The permissions of the file at this path.
fn mode_of<R: Files>(rt: &R, path: &str) -> io::Result<u32> {
    Ok(rt.metadata(path)?.permissions().mode() & 0o777)
}

/// Whether a new file has the permissions of the old one.
fn keeps_mode<R: Files + AllocGlobal>(rt: &R, place: &Place, mode: u32) -> Result<bool, Fail> {
    let path = place.name.as_str();
    fs::write(rt, path, "old")?;
    rt.set_permissions(path, Permissions::from_mode(mode))?;
    write_whole(rt, path, "new")?;
    Ok(place.has(rt, Some("new"), None) && mode_of(rt, path)? == mode)
}

fn keeps_modes<R: Files + AllocGlobal>(rt: &R, place: &Place) -> Result<bool, Fail> {
    for mode in [0o600, 0o666, 0o750] {
        if !keeps_mode(rt, place, mode)? {
            return Ok(false);
        }
    }
    Ok(true)
}

/// Whether the second one of two files is put where the first one isn't, which is let go before.
fn is_last_put<R: Files + AllocGlobal>(
    rt: &R,
    place: &Place,
    mut first: WholeFile<R>,
    second: &mut WholeFile<R>,
) -> Result<bool, Fail> {
    second.write_all(b"second")?;
    let is_refused = first.end().is_err();
    drop(first);
    let is_in_part = place.has(rt, None, Some("second"));
    second.end()?;
    Ok(is_refused && is_in_part && place.has(rt, Some("second"), None))
}

fn takes_the_name<R: Files + AllocGlobal>(rt: &R, place: &Place) -> Result<bool, Fail> {
    let mut first = begin(rt, place.name.as_str())?;
    first.write_all(b"first")?;
    let mut second = begin(rt, place.name.as_str())?;
    is_last_put(rt, place, first, &mut second)
}

/// Whether nothing can be written at an empty path, at a folder's, and in a folder that isn't there.
fn are_no_places<R: Files + AllocGlobal>(rt: &R, folder: &str) -> Result<bool, Fail> {
    let missing = within(rt, folder, "no_such_folder/f")?;
    for path in ["", folder, missing.as_str()] {
        if write_whole(rt, path, "new").is_ok() {
            return Ok(false);
        }
    }
    Ok(rt.metadata(folder)?.is_dir())
}

fn has_part<R: Files + AllocGlobal>(rt: &R, path: &str) -> Result<bool, Fail> {
    let destination = Destination::of(rt, rt.alloc(), path)?;
    Ok(destination.part().is_some())
}

/// Whether a device is written without a part, and stays one.
fn is_device<R: Files + AllocGlobal>(rt: &R, path: &str) -> Result<bool, Fail> {
    let has_part = has_part(rt, path)?;
    write_whole(rt, path, "nothing")?;
    Ok(!has_part && rt.metadata(path)?.file_type().is_char_device())
}

/// Whether that holds by a device's name, and by a link to it, which stays.
fn are_devices<R: Files + AllocGlobal>(rt: &R, folder: &str) -> Result<bool, Fail> {
    link(rt, folder, "link", "/dev/null")?;
    let link = within(rt, folder, "link")?;
    let is_one = is_device(rt, "/dev/null")?;
    Ok(is_one && is_device(rt, link.as_str())? && is_link(rt, link.as_str()))
}

/// What is tried in a folder of its own.
#[derive(Clone, Copy)]
enum Trial {
    NewFile,
    /// A folder isn't taken away, and neither is a link.
    TakenPart,
    KeptModes,
    /// Who comes later to the same place takes the part's name; then the first one's file doesn't
    /// get there.
    TwoFiles,
    NoPlace,
    Device,
    LinkedPart,
    LinkInACircle,
    NoModes,
}

/// Each trial, with its folder's name.
static TRIALS: [(&str, Trial); 9] = [
    ("new", Trial::NewFile),
    ("taken", Trial::TakenPart),
    ("modes", Trial::KeptModes),
    ("two", Trial::TwoFiles),
    ("no_place", Trial::NoPlace),
    ("device", Trial::Device),
    ("part", Trial::LinkedPart),
    ("circle", Trial::LinkInACircle),
    ("no_modes", Trial::NoModes),
];

/// Whether a trial goes well, in this folder or at this place in it.
fn goes_well<R: Files + AllocGlobal>(
    rt: &R,
    trial: Trial,
    folder: &str,
    place: &Place,
) -> Result<bool, Fail> {
    match trial {
        Trial::NewFile => stays(rt, place),
        Trial::TakenPart => keeps_both(rt, folder, place),
        Trial::KeptModes => keeps_modes(rt, place),
        Trial::TwoFiles => takes_the_name(rt, place),
        Trial::NoPlace => are_no_places(rt, folder),
        Trial::Device => are_devices(rt, folder),
        Trial::LinkedPart => names_linked_part(rt, folder),
        Trial::LinkInACircle => refuses_circle(rt, folder),
        Trial::NoModes => goes_without_modes(rt, place),
    }
}

fn tried<R: Env + Files + AllocGlobal>(rt: &R, name: &str, trial: Trial) -> Result<bool, Fail> {
    let folder = folder(rt, name)?;
    let place = Place::of(rt, folder.as_str())?;
    goes_well(rt, trial, folder.as_str(), &place)
}

#[test]
fn places_of_each_kind(rt: HostRuntime) -> Result<(), Fail> {
    for (name, trial) in &TRIALS {
        assert!(rt; tried(&rt, name, *trial)?, "{name}");
    }
    Ok(())
}

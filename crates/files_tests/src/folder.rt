//! A folder of a test's own, and what is written in it.
use files::{Destination, WholeFile};
use std::alloc::AllocError;
use std::io::Write;
use std::rt::{Env, Files};
use std::test::Fail;
use std::{fs, io};
use test_console::path_of;

/// The path of a folder that is made anew for the test of this name.
pub(crate) fn folder<R: Env + Files + AllocGlobal>(rt: &R, name: &str) -> Result<String, Fail> {
    let folder = path_of(rt, name)?;
    let _ = fs::remove_dir_all(rt, folder.as_str());
    fs::create_dir(rt, folder.as_str())?;
    Ok(folder)
}

/// The path of a file in it.
pub(crate) fn within<R: AllocGlobal>(
    rt: &R,
    folder: &str,
    name: &str,
) -> Result<String, AllocError> {
    format!(in rt.alloc(); "{folder}/{name}")
}

/// Puts a text into a file; for none, takes away what is there.
pub(crate) fn put<R: Files>(rt: &R, path: &str, text: Option<&str>) -> io::Result<()> {
    let _ = fs::remove_file(rt, path);
    match text {
        Some(text) => fs::write(rt, path, text),
        None => Ok(()),
    }
}

/// Whether the file is there with just this text; or, for none, whether nothing is there.
pub(crate) fn is_left<R: Files + AllocGlobal>(rt: &R, path: &str, text: Option<&str>) -> bool {
    match text {
        Some(text) => has_text(rt, path, text),
        None => rt.symlink_metadata(path).is_err(),
    }
}

fn has_text<R: Files + AllocGlobal>(rt: &R, path: &str, text: &str) -> bool {
    match fs::read(rt, path) {
        Ok(bytes) => bytes.as_slice() == text.as_bytes(),
        Err(_) => false,
    }
}

/// Whether a symbolic link is there.
pub(crate) fn is_link<R: Files>(rt: &R, path: &str) -> bool {
    match rt.symlink_metadata(path) {
        Ok(there) => there.is_symlink(),
        Err(_) => false,
    }
}

/// Begins a file at this path.
pub(crate) fn begin<'a, R: Files + AllocGlobal>(
    rt: &'a R,
    path: &str,
) -> io::Result<WholeFile<'a, R>> {
    let destination = Destination::of(rt, rt.alloc(), path)?;
    WholeFile::create(rt, destination)
}

/// Writes a file with this text.
pub(crate) fn write_whole<R: Files + AllocGlobal>(
    rt: &R,
    path: &str,
    text: &str,
) -> io::Result<()> {
    let mut file = begin(rt, path)?;
    file.write_all(text.as_bytes())?;
    file.end()
}

/// Writes the text and lets the file go.
pub(crate) fn write_some<R: Files + AllocGlobal>(rt: &R, path: &str, text: &str) -> io::Result<()> {
    let mut file = begin(rt, path)?;
    file.write_all(text.as_bytes())
}

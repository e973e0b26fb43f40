//! A file's place, and the part beside it.
use crate::folder::{is_left, within};
use std::fs;
use std::rt::Files;
use std::test::Fail;

/// The name by which a file is written, its path, and its part's. The name is the path, or a link
/// that leads to it.
pub(crate) struct Place {
    pub(crate) name: String,
    pub(crate) file: String,
    pub(crate) part: String,
}

// written out, so that proofs of its owners stay short (docs/PROVING.md)
impl Drop for Place {
    fn drop(self) {
        let Place {
            name: _,
            file: _,
            part: _,
        } = self;
    }
}

impl Place {
    /// Of a file `f` in a folder, written by its path.
    pub(crate) fn of<R: AllocGlobal>(rt: &R, folder: &str) -> Result<Place, Fail> {
        Ok(Place {
            name: within(rt, folder, "f")?,
            file: within(rt, folder, "f")?,
            part: within(rt, folder, "f.part")?,
        })
    }

    /// Of a file in one folder, and in another one a link that leads by a second link to it.
    pub(crate) fn linked<R: Files + AllocGlobal>(rt: &R, folder: &str) -> Result<Place, Fail> {
        link_far(rt, folder)?;
        Ok(Place {
            name: within(rt, folder, "link")?,
            file: within(rt, folder, "far/file")?,
            part: within(rt, folder, "far/file.part")?,
        })
    }

    /// Whether just these texts stand in the file and its part.
    pub(crate) fn has<R: Files + AllocGlobal>(
        &self,
        rt: &R,
        file: Option<&str>,
        part: Option<&str>,
    ) -> bool {
        is_left(rt, self.file.as_str(), file) && is_left(rt, self.part.as_str(), part)
    }
}

fn link_far<R: Files + AllocGlobal>(rt: &R, folder: &str) -> Result<(), Fail> {
    fs::create_dir(rt, within(rt, folder, "far")?.as_str())?;
    link(rt, folder, "link", "far/second")?;
    link(rt, folder, "far/second", "file")
}

/// Makes a symbolic link of this name in the folder.
pub(crate) fn link<R: Files + AllocGlobal>(
    rt: &R,
    folder: &str,
    name: &str,
    to: &str,
) -> Result<(), Fail> {
    let link = within(rt, folder, name)?;
    rt.symlink(to, link.as_str())?;
    Ok(())
}

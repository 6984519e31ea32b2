//! Folders for what tests make.

use std::test::Fail;
use std::{env, fs};

/// The folder for what tests make.
fn test_folder(rt: &HostRuntime) -> Result<String, Fail> {
    match env::var(rt, "TMPDIR") {
        Ok(folder) => Ok(folder),
        Err(_) => Ok(String::from_str(rt.alloc(), "/tmp")?),
    }
}

/// A new folder, for what one test makes. It goes with all that is in it.
pub(super) struct Folder<'a> {
    rt: &'a HostRuntime,
    path: String,
}

impl Drop for Folder<'_> {
    fn drop(self) {
        let Folder { rt, path } = self;
        let _ = fs::remove_dir_all(rt, path.as_str());
    }
}

impl<'a> Folder<'a> {
    pub(super) fn new(rt: &'a HostRuntime) -> Result<Folder<'a>, Fail> {
        let folder = test_folder(rt)?;
        for n in 0..1_000 {
            let path = format!(in rt.alloc(); "{folder}/desk-{n}")?;
            if fs::create_dir(rt, path.as_str()).is_ok() {
                return Ok(Folder { rt, path });
            }
        }
        Err(Fail::from("no new folder can be made"))
    }

    /// The path of a name in it.
    pub(super) fn path(&self, name: &str) -> Result<String, Fail> {
        Ok(format!(in self.rt.alloc(); "{}/{name}", self.path)?)
    }

    /// A path in it of so many bytes, or of more if its own has more.
    pub(super) fn path_of(&self, length: usize) -> Result<String, Fail> {
        let mut path = self.path("")?;
        for _ in 0..length {
            if path.len() < length {
                path.push('x')?;
            }
        }
        Ok(path)
    }
}

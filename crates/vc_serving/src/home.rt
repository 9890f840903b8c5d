//! The folder that a server serves, as it was when the server began.
use std::fs::{self, File, Metadata};
use std::io::{self, ErrorKind};
use std::os::unix::fs::MetadataExt;
use std::rt;
use vc_files::Fault;
use vc_transport::fault_of;

/// The folder of the store that is served. It is kept open, so that no other folder has its number while the server runs.
#[derive(Drop)]
pub struct Home {
    // With a slash at its end, which lets nothing but a folder be opened.
    path: String,
    folder: File,
}

impl Home {
    /// The folder with this path, which is there.
    pub fn open<R>(rt: &R, path: &str) -> Result<Home, Fault>
    where
        R: rt::Files<File = File> + AllocGlobal,
    {
        let path = format!(in rt.alloc(); "{path}/")?;
        match File::open(rt, path.as_str()) {
            Ok(folder) => Ok(Home { path, folder }),
            Err(error) => Err(fault_of(&error)),
        }
    }

    /// Whether the path still leads to this folder, and the store in it has its HEAD.
    pub fn is_there<R>(&self, rt: &R) -> Result<bool, Fault>
    where
        R: rt::Files + AllocGlobal,
    {
        match self.stands(rt) {
            Ok(stands) => Ok(stands),
            Err(error) => Err(fault_of(&error)),
        }
    }

    fn stands<R: rt::Files + AllocGlobal>(&self, rt: &R) -> io::Result<bool> {
        let there = match fs::metadata(rt, self.path.as_str()) {
            Ok(there) => there,
            Err(error) if error.kind() == ErrorKind::NotFound => return Ok(false),
            Err(error) => return Err(error),
        };
        if !is_same(&there, &self.folder.metadata()?) {
            return Ok(false);
        }
        let head = format!(in rt.alloc(); "{}HEAD", self.path)?;
        fs::exists(rt, head.as_str())
    }
}

// Whether two looks were at one folder: it has its number on its device alone.
fn is_same(one: &Metadata, other: &Metadata) -> bool {
    one.dev() == other.dev() && one.ino() == other.ino()
}

//! Rows on a real folder that bypass the libraries: what a stopped process or another program leaves there.
use crate::answers::{Answer, done, quoted, word};
use crate::devices::Host;
use crate::ids::{bytes_of, two};
use std::fs::{self, File};
use std::io::ErrorKind;
use std::os::unix::fs::symlink;

pub fn obey<R: Host>(rt: &R, verb: &str, rest: &str) -> Answer {
    let (path, text) = two(rest);
    let changed = match verb {
        "raw-write" => fs::write(rt, path, bytes_of(rt.alloc(), text)?.as_slice()),
        "raw-folder" => fs::create_dir_all(rt, path),
        "raw-remove" => fs::remove_dir(rt, path),
        "raw-link" => symlink(rt, text, path),
        "raw-zeros" => File::create(rt, path)?.set_len(text.parse()?),
        "raw-unlink" => fs::remove_file(rt, path),
        "raw-kind" => return kind(rt, path),
        _ => return read(rt, path),
    };
    changed?;
    done(rt.alloc())
}

fn read<R: Host>(rt: &R, path: &str) -> Answer {
    match fs::read(rt, path) {
        Ok(bytes) => quoted(rt.alloc(), &bytes),
        Err(error) if error.kind() == ErrorKind::NotFound => word(rt.alloc(), "none"),
        Err(error) => Err(error.into()),
    }
}

// What stands at a path.
fn kind<R: Host>(rt: &R, path: &str) -> Answer {
    let kind = match fs::symlink_metadata(rt, path) {
        Ok(metadata) if metadata.is_file() => "file",
        Ok(metadata) if metadata.is_dir() => "folder",
        Ok(_) => "neither file nor folder",
        Err(error) if error.kind() == ErrorKind::NotFound => "none",
        Err(error) => return Err(error.into()),
    };
    word(rt.alloc(), kind)
}

//! Rows about the real folder that the rows run in: what lies there is made and looked at behind the work tree's back.
use crate::bench::Host;
use crate::words::{bytes, cut, escaped};
use anyhow::{Result, bail};
use std::alloc::Global;
use std::fs;
use std::io::ErrorKind;
use std::os::unix::fs::symlink;

pub fn row<R: Host>(rt: &R, alloc: Global, row: &str) -> Result<String> {
    let (verb, rest) = cut(row);
    let (path, text) = cut(rest);
    let changed = match verb {
        "folder" => fs::create_dir_all(rt, path),
        "write" => fs::write(rt, path, bytes(alloc, text)?.as_slice()),
        "link" => symlink(rt, text, path),
        "remove" => fs::remove_dir_all(rt, path),
        "read" => return Ok(escaped(alloc, &fs::read(rt, path)?)?),
        "kind" => return Ok(String::from_str(alloc, kind(rt, path)?)?),
        _ => bail!("no such row"),
    };
    changed?;
    Ok(String::new(alloc))
}

// What lies at a path.
fn kind<R: Host>(rt: &R, path: &str) -> Result<&'static str> {
    match fs::symlink_metadata(rt, path) {
        Ok(found) if found.is_dir() => Ok("folder"),
        Ok(found) if found.is_symlink() => Ok("link"),
        Ok(_) => Ok("file"),
        Err(error) if error.kind() == ErrorKind::NotFound => Ok("none"),
        Err(error) => Err(error.into()),
    }
}

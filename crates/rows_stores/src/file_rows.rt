//! Rows on files.
use crate::answers::{Answer, displayed, done, joined, quoted, word};
use crate::ids::{bytes_of, two};
use crate::object_rows;
use std::alloc::Global;
use vc_files::Files;

pub fn obey<F: Files>(files: &mut F, alloc: Global, verb: &str, rest: &str) -> Answer {
    match verb {
        "put" => put(files, alloc, rest),
        "get" => get(files, alloc, rest),
        "length" => length(files, alloc, rest),
        "remove" => {
            files.remove(alloc, rest)?;
            done(alloc)
        }
        "list" => {
            let paths = files.list(alloc, rest)?;
            joined(alloc, &paths, " ")
        }
        "failures" => displayed(alloc, &files.failures()),
        _ => object_rows::obey(files, alloc, verb, rest),
    }
}

fn put<F: Files>(files: &mut F, alloc: Global, rest: &str) -> Answer {
    let (path, text) = two(rest);
    let bytes = bytes_of(alloc, text)?;
    files.put(alloc, path, &bytes)?;
    done(alloc)
}

fn get<F: Files>(files: &mut F, alloc: Global, path: &str) -> Answer {
    match files.get(alloc, path)? {
        Some(bytes) => quoted(alloc, &bytes),
        None => word(alloc, "none"),
    }
}

fn length<F: Files>(files: &mut F, alloc: Global, path: &str) -> Answer {
    match files.get(alloc, path)? {
        Some(bytes) => displayed(alloc, &bytes.len()),
        None => word(alloc, "none"),
    }
}

//! The shared node of the rows, or its files while it is closed.

use crate::words::{push_bytes, push_done};
use crate::{arriving, calls};
use bstr::ByteVec;
use std::alloc::{AllocError, Global};
use std::fmt::Write;
use std::mem;
use vc_files::{FailOnce, Files, FusedFiles, MemoryFiles};
use vc_shared::Shared;

/// Files in memory that can be stopped, and of which one call can fail.
pub type Device = FusedFiles<FailOnce<MemoryFiles>>;

// The files, of which no call fails.
fn sound_device(files: MemoryFiles) -> Device {
    FusedFiles::new(FailOnce::new(files, u64::MAX))
}

// The files, which fail as the words say: `once` and a number have one call fail after so many calls; a number alone has every
// call fail after so many writes.
fn device_of(files: MemoryFiles, words: &str) -> Device {
    if let Some(number) = words.strip_prefix("once ") {
        let calls = number.parse::<u64>().unwrap_or(u64::MAX);
        return FusedFiles::new(FailOnce::new(files, calls));
    }
    let mut device = sound_device(files);
    if let Ok(writes) = words.parse::<u64>() {
        device.stop_after(writes);
    }
    device
}

// No files at all.
fn no_files(alloc: Global) -> Device {
    sound_device(MemoryFiles::new(alloc))
}

/// A shared node, or the files of one that was closed, or not opened yet.
#[derive(Drop)]
pub struct Site {
    node: Option<Shared<Device>>,
    files: Device,
    alloc: Global,
}

impl Site {
    /// No files at all.
    pub fn empty(alloc: Global) -> Self {
        Site {
            node: None,
            files: no_files(alloc),
            alloc,
        }
    }

    // Lets go the node, and all files.
    fn renew(&mut self) {
        self.node = None;
        self.files = no_files(self.alloc);
    }

    // The files alone.
    fn take_files(&mut self) -> MemoryFiles {
        let files = mem::replace(&mut self.files, no_files(self.alloc));
        let files = match self.node.take() {
            Some(node) => node.close(),
            None => files,
        };
        files.into_inner().into_inner()
    }

    // Opens the node over files that fail as the words say from here on.
    fn open(&mut self, out: &mut String, words: &str) -> Result<(), AllocError> {
        let files = device_of(self.take_files(), words);
        match Shared::open(self.alloc, files) {
            Ok(node) => {
                self.node = Some(node);
                out.push_str("ok")
            }
            Err((files, fault)) => {
                self.files = files;
                write!(out, "{fault}")
            }
        }
    }

    // Closes the node.
    fn close(&mut self) {
        self.files = sound_device(self.take_files());
    }

    // Puts a file below the node, which is closed for it: its path, and its bytes by escapes.
    fn file(&mut self, out: &mut String, text: &str) -> Result<(), AllocError> {
        self.close();
        let (path, words) = text.split_once(' ').unwrap_or((text, ""));
        let bytes = Vec::unescape_bytes(self.alloc, words)?;
        push_done(out, &self.files.put(self.alloc, path, &bytes))
    }

    // What the file below the node holds, by escapes; the node is closed for it.
    fn text(&mut self, out: &mut String, path: &str) -> Result<(), AllocError> {
        self.close();
        match self.files.get(self.alloc, path) {
            Ok(Some(bytes)) => push_bytes(out, &bytes),
            Ok(None) => out.push_str("no file"),
            Err(fault) => write!(out, "{fault}"),
        }
    }

    // How many files stand below a path of the node, which is closed for it.
    fn count(&mut self, out: &mut String, text: &str) -> Result<(), AllocError> {
        self.close();
        match self.files.list(self.alloc, text) {
            Ok(paths) => write!(out, "{}", paths.len()),
            Err(fault) => write!(out, "{fault}"),
        }
    }

    // A call of the node.
    fn call(&mut self, out: &mut String, verb: &str, text: &str) -> Result<(), AllocError> {
        match &mut self.node {
            Some(node) => calls::call(out, self.alloc, node, verb, text),
            None => out.push_str("closed"),
        }
    }

    /// What is answered to a row: a verb, and what stands after it.
    pub fn row(&mut self, out: &mut String, row: &str) -> Result<(), AllocError> {
        let (verb, text) = row.split_once(' ').unwrap_or((row, ""));
        match verb {
            "new" => {
                self.renew();
                out.push_str("ok")
            }
            "open" => self.open(out, text),
            "close" => {
                self.close();
                out.push_str("ok")
            }
            "file" => self.file(out, text),
            "text" => self.text(out, text),
            "count" => self.count(out, text),
            "recorded" => arriving::recorded(out, self.alloc, text),
            _ => self.call(out, verb, text),
        }
    }
}

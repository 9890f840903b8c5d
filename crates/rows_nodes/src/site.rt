//! A node of the rows, or its files while it is closed.

use crate::words::push_bytes;
use std::alloc::{AllocError, Global};
use std::fmt::Write;
use std::mem;
use vc_files::{FailOnce, Fault, Files, FusedFiles, MemoryFiles};
use vc_graph::first_incomplete;
use vc_local::NodeFault;
use vc_node::CloneNode;
use vc_object::ObjectId;
use vc_refname::RefName;
use vc_refs::list;
use vc_shared::Shared;
use vc_store::Store;

/// Files in memory that can be stopped, and of which one call can fail.
pub type Device = FusedFiles<FailOnce<MemoryFiles>>;

// The files, of which no call fails.
fn sound_device(files: MemoryFiles) -> Device {
    FusedFiles::new(FailOnce::new(files, u64::MAX))
}

// The files, which fail as the words say: `once` and a number have one call fail after so many calls; a number alone has every
// call fail after so many writes.
fn device_of(files: MemoryFiles, words: &str) -> Device {
    if let Some(number) = words.strip_prefix("once ") {
        let calls = number.parse::<u64>().unwrap_or(u64::MAX);
        return FusedFiles::new(FailOnce::new(files, calls));
    }
    let mut device = sound_device(files);
    if let Ok(writes) = words.parse::<u64>() {
        device.stop_after(writes);
    }
    device
}

// No files at all.
fn no_files(alloc: Global) -> Device {
    sound_device(MemoryFiles::new(alloc))
}

// The values of the refs.
fn ids_of(alloc: Global, listed: &[(RefName, ObjectId)]) -> Result<Vec<ObjectId>, AllocError> {
    let mut ids = Vec::new(alloc);
    for (_, id) in listed {
        ids.push(*id)?;
    }
    Ok(ids)
}

/// A node over files.
pub trait Opened: Drop + Sized {
    fn open(alloc: Global, files: Device) -> Result<Self, (Device, NodeFault)>;

    fn close(self) -> Device;
}

impl Opened for Shared<Device> {
    fn open(alloc: Global, files: Device) -> Result<Self, (Device, NodeFault)> {
        Shared::open(alloc, files)
    }

    fn close(self) -> Device {
        Shared::close(self)
    }
}

impl Opened for CloneNode<Device> {
    fn open(alloc: Global, files: Device) -> Result<Self, (Device, NodeFault)> {
        CloneNode::open(alloc, files)
    }

    fn close(self) -> Device {
        CloneNode::close(self)
    }
}

/// A node, or the files of one that was closed, or not opened yet.
#[derive(Drop)]
pub struct Site<N> {
    pub node: Option<N>,
    files: Device,
    alloc: Global,
}

impl<N: Opened> Site<N> {
    /// No files at all.
    pub fn empty(alloc: Global) -> Self {
        Site {
            node: None,
            files: no_files(alloc),
            alloc,
        }
    }

    /// Lets go the node, and all files.
    pub fn renew(&mut self) {
        self.node = None;
        self.files = no_files(self.alloc);
    }

    // The files alone.
    fn take_files(&mut self) -> MemoryFiles {
        let files = mem::replace(&mut self.files, no_files(self.alloc));
        let files = match self.node.take() {
            Some(node) => node.close(),
            None => files,
        };
        files.into_inner().into_inner()
    }

    /// Opens the node over files that fail as the words say from here on.
    pub fn open(&mut self, out: &mut String, words: &str) -> Result<(), AllocError> {
        let files = device_of(self.take_files(), words);
        match N::open(self.alloc, files) {
            Ok(node) => {
                self.node = Some(node);
                out.push_str("ok")
            }
            Err((files, fault)) => {
                self.files = files;
                write!(out, "{fault}")
            }
        }
    }

    /// Closes the node.
    pub fn close(&mut self) {
        self.files = sound_device(self.take_files());
    }

    /// Whether all is there that the refs reach. The node is closed for it.
    pub fn is_whole(&mut self) -> bool {
        self.close();
        let Ok(listed) = list(&mut self.files, self.alloc) else {
            return false;
        };
        let Ok(ids) = ids_of(self.alloc, &listed) else {
            return false;
        };
        let mut store = Store::new(self.alloc, &mut self.files);
        matches!(first_incomplete(self.alloc, &mut store, &ids), Ok(None))
    }

    // All files below the node, which is closed for it, on a line each: the path, and the bytes by escapes.
    fn spelled(&mut self) -> Result<String, Fault> {
        self.close();
        let mut text = String::new(self.alloc);
        for path in &self.files.list(self.alloc, "")? {
            text.push_str(path.as_str())?;
            text.push(' ')?;
            if let Some(bytes) = self.files.get(self.alloc, path.as_str())? {
                push_bytes(&mut text, &bytes)?;
            }
            text.push('\n')?;
        }
        Ok(text)
    }

    /// Whether both nodes, which are closed for it, hold the same files.
    pub fn is_like(&mut self, other: &mut Self) -> bool {
        let Ok(files) = self.spelled() else {
            return false;
        };
        match other.spelled() {
            Ok(others) => files.as_str() == others.as_str(),
            Err(_) => false,
        }
    }
}

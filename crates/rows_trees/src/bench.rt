//! What the rows work on.
use crate::scene::Scene;
use crate::words::{Names, digits};
use std::alloc::{AllocError, Global};
use std::collections::BTreeMap;
use std::rt;
use vc_files::{FusedFiles, MemoryFiles};
use vc_index::Index;
use vc_node::CloneNode;
use vc_object::ObjectId;
use vc_work_folder::Beside;

/// Files in memory, which a row may have stop after a number of writes.
pub type Device = FusedFiles<MemoryFiles>;

/// What a program is given to reach folders.
pub trait Host: rt::Files + Beside<Self> + AllocGlobal + Clone + Drop {}

impl<R: rt::Files + Beside<R> + AllocGlobal + Clone + Drop> Host for R {}

/// Files, and the names that rows gave to their objects.
#[derive(Drop)]
pub struct Repository {
    pub alloc: Global,
    pub names: Names,
    pub files: Device,
}

impl Repository {
    /// With no files.
    pub fn new(alloc: Global) -> Repository {
        Repository {
            alloc,
            names: BTreeMap::new(alloc),
            files: no_files(alloc),
        }
    }

    /// Gives an object a name, and answers its digits.
    pub fn call(&mut self, name: &str, id: ObjectId) -> Result<String, AllocError> {
        let name = String::from_str(self.alloc, name)?;
        self.names.insert(name, id)?;
        digits(self.alloc, id)
    }
}

/// A clone, and who its commits are by. While its node is open it holds the repository's files.
#[derive(Drop)]
pub struct LocalClone {
    pub node: Option<CloneNode<Device>>,
    pub author: Vec<u8>,
    pub committer: Vec<u8>,
}

impl LocalClone {
    /// One that isn't open.
    pub fn new(alloc: Global) -> LocalClone {
        LocalClone {
            node: None,
            author: Vec::new(alloc),
            committer: Vec::new(alloc),
        }
    }
}

/// What the rows work on. Few functions are handed all of it.
#[derive(Drop)]
pub struct Bench<R: Host> {
    pub rt: R,
    pub repository: Repository,
    pub index: Index,
    pub scene: Scene<R>,
    pub clone: LocalClone,
}

impl<R: Host> Bench<R> {
    /// Nothing is there.
    pub fn new(rt: R, scene: Scene<R>) -> Bench<R> {
        let alloc = rt.alloc();
        Bench {
            repository: Repository::new(alloc),
            index: Index::new(alloc),
            scene,
            clone: LocalClone::new(alloc),
            rt,
        }
    }
}

/// A device with no files.
pub fn no_files(alloc: Global) -> Device {
    FusedFiles::new(MemoryFiles::new(alloc))
}

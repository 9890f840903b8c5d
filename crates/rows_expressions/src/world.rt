//! The repository that the rows make, and the answer to each row.

use crate::lying::Lying;
use crate::tokens::{expr_tokens, set_tokens};
use bstr::{ByteSlice, ByteVec};
use indexmap::IndexMap;
use std::alloc::{AllocError, Global};
use std::fmt::Display;
use std::mem;
use vc_expression::{parse, parse_set};
use vc_files::{FailOnce, Files, MemoryFiles};
use vc_index::Index;
use vc_object::{Kind, ObjectId};
use vc_refs::PackedCache;
use vc_repository::FileRepository;
use vc_rev::{RevFault, SourceFault, resolve};
use vc_rev_set::resolve_set;
use vc_store::Store;

#[derive(Drop)]
pub struct World {
    alloc: Global,
    files: FailOnce<MemoryFiles>,
    index: Index,
    packed: PackedCache,
    replaced: IndexMap<ObjectId, ObjectId>,
}

impl World {
    /// An empty repository.
    pub fn new(alloc: Global) -> World {
        World {
            alloc,
            files: FailOnce::new(MemoryFiles::new(alloc), u64::MAX),
            index: Index::new(alloc),
            packed: PackedCache::new(alloc),
            replaced: IndexMap::new(alloc),
        }
    }

    /// What stands behind a row.
    pub fn answer(&mut self, row: &str) -> Result<String, AllocError> {
        let (verb, rest) = row.split_once(' ').unwrap_or((row, ""));
        let bytes = Vec::unescape_bytes(self.alloc, rest)?;
        match verb {
            "" | "#" => Ok(String::new(self.alloc)),
            "parse" => expr_tokens(self.alloc, &bytes),
            "parse-set" => set_tokens(self.alloc, &bytes),
            "resolve" => self.resolve(&bytes),
            "select" => self.select(&bytes),
            "fail" => self.fail(rest),
            "object" => self.put(&bytes),
            "file" => self.write(&bytes),
            "replace" => self.replace(&bytes),
            _ => String::from_str(self.alloc, " = no such row"),
        }
    }

    fn repository(&mut self) -> Lying<'_> {
        Lying {
            real: FileRepository::new(self.alloc, &mut self.files, &self.index, &mut self.packed),
            replaced: &self.replaced,
        }
    }

    fn resolve(&mut self, source: &[u8]) -> Result<String, AllocError> {
        let alloc = self.alloc;
        match parse(alloc, source) {
            Ok(expr) => match resolve(alloc, &mut self.repository(), &expr) {
                Ok(id) => id_text(alloc, id),
                Err(fault) => fault_text(alloc, &fault),
            },
            Err(fault) => shown(alloc, &fault),
        }
    }

    fn select(&mut self, source: &[u8]) -> Result<String, AllocError> {
        let alloc = self.alloc;
        match parse_set(alloc, source) {
            Ok(set) => match resolve_set(alloc, &mut self.repository(), &set) {
                Ok(ids) => ids_text(alloc, &ids),
                Err(fault) => fault_text(alloc, &fault),
            },
            Err(fault) => shown(alloc, &fault),
        }
    }

    fn fail(&mut self, calls: &str) -> Result<String, AllocError> {
        let none = FailOnce::new(MemoryFiles::new(self.alloc), 0);
        let files = mem::replace(&mut self.files, none).into_inner();
        self.files = FailOnce::new(files, calls.parse().unwrap_or(0));
        Ok(String::new(self.alloc))
    }

    fn put(&mut self, words: &[u8]) -> Result<String, AllocError> {
        let (word, body) = words.split_once_str(b" ").unwrap_or((words, b""));
        let kind = Kind::from_word(word).unwrap_or(Kind::Blob);
        match Store::new(self.alloc, &mut self.files).put(kind, body) {
            Ok(id) => id_text(self.alloc, id),
            Err(fault) => shown(self.alloc, &fault),
        }
    }

    fn write(&mut self, words: &[u8]) -> Result<String, AllocError> {
        let (path, bytes) = words.split_once_str(b" ").unwrap_or((words, b""));
        let path = path.to_str_lossy(self.alloc)?;
        match self.files.put(self.alloc, path.as_str(), bytes) {
            Ok(()) => Ok(String::new(self.alloc)),
            Err(fault) => shown(self.alloc, &fault),
        }
    }

    fn replace(&mut self, words: &[u8]) -> Result<String, AllocError> {
        let (id, other) = words.split_once_str(b" ").unwrap_or((words, b""));
        if let (Some(id), Some(other)) = (ObjectId::from_hex(id), ObjectId::from_hex(other)) {
            self.replaced.insert(id, other)?;
        }
        Ok(String::new(self.alloc))
    }
}

fn shown<T: Display>(alloc: Global, answer: &T) -> Result<String, AllocError> {
    format!(in alloc; " = {answer}")
}

fn id_text(alloc: Global, id: ObjectId) -> Result<String, AllocError> {
    shown(alloc, &id.to_hex().as_slice().escape_bytes())
}

fn ids_text(alloc: Global, ids: &[ObjectId]) -> Result<String, AllocError> {
    let mut text = String::from_str(alloc, " =")?;
    for id in ids.iter() {
        write!(text, " {}", id.to_hex().as_slice().escape_bytes())?;
    }
    Ok(text)
}

// The text of a fault, and what it tells besides: a name, a path or a place.
fn fault_text(alloc: Global, fault: &RevFault) -> Result<String, AllocError> {
    let mut text = shown(alloc, fault)?;
    match fault {
        RevFault::Missing(id) | RevFault::NotACommit(id) => {
            write!(text, " {}", id.to_hex().as_slice().escape_bytes())?;
        }
        RevFault::Source(SourceFault::BadRefFile(path)) => write!(text, " {path}")?,
        _ => {}
    }
    Ok(text)
}

//! Connections that wait for a free worker.

use crate::site::{Connection, Reader};
use std::alloc::{AllocError, Global};
use std::sync::{Arc, Mutex, Wait};
use vc_desk::{End, Port};

/// A connection by its place in the list, in which the next stands last.
pub type List = Mutex<Vec<(u64, Reader, Vec<u8>)>>;

/// Where a worker takes the next connection from, and the ends of those that it took.
#[derive(Drop)]
pub struct Waiting<T> {
    rt: T,
    list: Arc<List, Global>,
    name: u64,
    pub ends: Vec<(u64, End<Vec<u8>>)>,
}

/// All connections in one list.
pub fn list_of(
    alloc: Global,
    mut connections: Vec<Connection>,
) -> Result<Arc<List, Global>, AllocError> {
    let mut list = Vec::new(alloc);
    for _ in 0..connections.len() {
        let Some((reader, writer)) = connections.pop() else {
            break;
        };
        list.push((connections.len() as u64, reader, writer))?;
    }
    Ok(Arc::new(alloc, Mutex::new(list))?)
}

impl<T: Wait + Clone> Waiting<T> {
    /// A worker's way to this list.
    pub fn new(rt: &T, alloc: Global, list: &Arc<List, Global>) -> Result<Waiting<T>, AllocError> {
        Ok(Waiting {
            rt: rt.clone()?,
            list: Arc::try_clone(list)?,
            name: 0,
            ends: Vec::new(alloc),
        })
    }
}

impl<T: Wait> Port<Reader, Vec<u8>> for Waiting<T> {
    ghost use Rattle.std.specs.Prelude.{None, ⊤};

    ghost came = { λ _. None };

    ghost told = { λ _. None };

    ghost closed = { λ _. ⊤ };

    fn next(&mut self) -> Option<(u64, Reader, Vec<u8>)> {
        let (name, reader, writer) = self.list.lock(&self.rt).pop()?;
        self.name = name;
        Some((name, reader, writer))
    }

    fn ended(&mut self, end: End<Vec<u8>>)
        ensures came { ⊤ }
        ensures told { ⊤ }
    {
        // An end for which there is no room is missing among those that are told.
        let _ = self.ends.push((self.name, end));
    }
}

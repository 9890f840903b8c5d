//! The shared node of the rows, and the connections that wait for it.

use crate::telling::{push_pooled, push_served};
use crate::turnstile::Turnstile;
use crate::waiting::{Waiting, list_of};
use bstr::ByteVec;
use std::alloc::{AllocError, Global};
use std::fmt::Write;
use std::io::Cursor;
use std::mem;
use std::sync::Wait;
use std::thread::Threads;
use vc_desk::{serve_all, serve_ports};
use vc_files::MemoryFiles;
use vc_message::Fallible;
use vc_shared::Shared;

/// What comes over a connection.
pub type Reader = Fallible<Cursor<Vec<u8>>>;

/// What comes over a connection, and what is written there.
pub type Connection = (Reader, Vec<u8>);

/// A shared node, and connections to it.
#[derive(Drop)]
pub struct Site {
    alloc: Global,
    node: Option<Shared<MemoryFiles>>,
    connections: Vec<Connection>,
}

impl Site {
    /// No node, and no connection.
    pub fn empty(alloc: Global) -> Site {
        Site {
            alloc,
            node: None,
            connections: Vec::new(alloc),
        }
    }

    /// A new node, and no connection.
    pub fn renew(&mut self, out: &mut String) -> Result<(), AllocError> {
        self.connections = Vec::new(self.alloc);
        match Shared::open(self.alloc, MemoryFiles::new(self.alloc)) {
            Ok(node) => {
                self.node = Some(node);
                out.push_str("ok")
            }
            Err(_) => out.push_str("not opened"),
        }
    }

    /// One connection more, on which these bytes come.
    pub fn connect(&mut self, out: &mut String, text: &str) -> Result<(), AllocError> {
        let bytes = Vec::unescape_bytes(self.alloc, text)?;
        let reader = Fallible::new(Cursor::new(bytes));
        self.connections.push((reader, Vec::new(self.alloc)))?;
        out.push_str("ok")
    }

    /// All connections are served at once, and what came of them is told.
    pub fn serve<T: Threads + Wait + Sync>(
        &mut self,
        rt: &T,
        out: &mut String,
    ) -> Result<(), AllocError> {
        let Some(node) = self.node.take() else {
            return out.push_str("no node");
        };
        let connections = mem::replace(&mut self.connections, Vec::new(self.alloc));
        serve_node(rt, self.alloc, node, connections, out)
    }

    /// The connections are served by so many workers, and what came of them is told.
    pub fn pool<T: Threads + Wait + Clone + Drop + Send + Sync>(
        &mut self,
        rt: &T,
        out: &mut String,
        text: &str,
    ) -> Result<(), AllocError> {
        let Ok(workers) = text.parse::<u8>() else {
            return out.push_str("no number");
        };
        let Some(node) = self.node.take() else {
            return out.push_str("no node");
        };
        let connections = mem::replace(&mut self.connections, Vec::new(self.alloc));
        let count = connections.len();
        let list = list_of(self.alloc, connections)?;
        let mut ports = Vec::new(self.alloc);
        for _ in 0..workers {
            ports.push(Waiting::new(rt, self.alloc, &list)?)?;
        }
        let gate = Turnstile::new();
        match serve_ports(rt, self.alloc, u64::MAX, node, ports, &gate) {
            Ok((_node, ports)) => push_pooled(self.alloc, out, count, &ports)?,
            Err((_node, _ports, fault)) => return write!(out, "{fault}"),
        }
        if gate.ran_out() {
            return out.push_str(", the turns ran out");
        }
        Ok(())
    }
}

// All connections are served at once, and what came of them is told. What was served is let go of at one place.
fn serve_node<T: Threads + Wait + Sync>(
    rt: &T,
    alloc: Global,
    node: Shared<MemoryFiles>,
    connections: Vec<Connection>,
    out: &mut String,
) -> Result<(), AllocError> {
    let gate = Turnstile::new();
    let served = serve_all(rt, alloc, u64::MAX, node, connections, &gate);
    let told = push_served(out, &served);
    mem::drop(served);
    told?;
    if gate.ran_out() {
        return out.push_str(", the turns ran out");
    }
    Ok(())
}

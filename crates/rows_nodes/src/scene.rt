//! The shared node and two clones, and what they sent.

use crate::clones::{self, CloneSite};
use crate::exchanges;
use crate::shared::{self, SharedSite};
use crate::site::Site;
use std::alloc::{AllocError, Global};

/// The nodes, and the messages that they sent, in order.
#[derive(Drop)]
pub struct Scene {
    shared: SharedSite,
    first: CloneSite,
    second: CloneSite,
    pub sent: Vec<Vec<u8>>,
    alloc: Global,
}

impl Scene {
    /// All nodes are new and closed, and nothing was sent.
    pub fn empty(alloc: Global) -> Scene {
        Scene {
            shared: Site::empty(alloc),
            first: Site::empty(alloc),
            second: Site::empty(alloc),
            sent: Vec::new(alloc),
            alloc,
        }
    }

    // All nodes are new and open, and nothing was sent.
    fn world(&mut self, out: &mut String) -> Result<(), AllocError> {
        self.sent.clear();
        self.shared.renew();
        self.first.renew();
        self.second.renew();
        self.shared.open(out, "")?;
        out.push(' ')?;
        self.first.open(out, "")?;
        out.push(' ')?;
        self.second.open(out, "")
    }

    // A whole exchange of the clone that is named with the shared node.
    fn exchange(&mut self, out: &mut String, verb: &str, text: &str) -> Result<(), AllocError> {
        let (name, items) = text.split_once(' ').unwrap_or((text, ""));
        let alloc = self.alloc;
        match name {
            "c1" => exchanges::row(out, alloc, &mut self.shared, &mut self.second, verb, items),
            _ => exchanges::row(out, alloc, &mut self.shared, &mut self.first, verb, items),
        }
    }

    /// What a node answers to a row.
    pub fn row(&mut self, out: &mut String, row: &str) -> Result<(), AllocError> {
        let (verb, text) = row.split_once(' ').unwrap_or((row, ""));
        let alloc = self.alloc;
        match verb {
            "world" => self.world(out),
            "fetch"
            | "push"
            | "push-atomic"
            | "fetch-read"
            | "push-read"
            | "fetch-from"
            | "push-from" => { self.exchange(out, verb, text) }
            "c0" => clones::row(out, alloc, &mut self.first, &mut self.sent, text),
            "c1" => clones::row(out, alloc, &mut self.second, &mut self.sent, text),
            _ => shared::row(out, alloc, &mut self.shared, &mut self.sent, verb, text),
        }
    }

    /// Whether each node holds the same files as in the other. The nodes are closed for it.
    pub fn is_like(&mut self, other: &mut Scene) -> bool {
        self.shared.is_like(&mut other.shared)
            && self.first.is_like(&mut other.first)
            && self.second.is_like(&mut other.second)
    }

    /// Whether at each node all is there that its refs reach. The nodes are closed for it.
    pub fn is_whole(&mut self) -> bool {
        self.shared.is_whole() && self.first.is_whole() && self.second.is_whole()
    }
}

//! Two clones.

use crate::site::Site;
use std::alloc::{AllocError, Global};

/// The clones `c0` and `c1`.
#[derive(Drop)]
pub struct Pair {
    first: Site,
    second: Site,
}

impl Pair {
    /// Both are new and closed.
    pub fn empty(alloc: Global) -> Pair {
        Pair {
            first: Site::empty(alloc),
            second: Site::empty(alloc),
        }
    }

    // Both are new and open.
    fn renew(&mut self, out: &mut String) -> Result<(), AllocError> {
        self.first.renew();
        self.second.renew();
        self.first.open(out, "")?;
        out.push(' ')?;
        self.second.open(out, "")
    }

    // Whether both, which are closed for it, hold the same files: how many, and how many of them in a quarantine.
    fn alike(&mut self, out: &mut String) -> Result<(), AllocError> {
        if !self.first.is_like(&mut self.second) {
            return out.push_str("not alike");
        }
        self.first.count(out, "")?;
        out.push_str(" files, ")?;
        self.first.count(out, "quarantine/")?;
        out.push_str(" in quarantine")
    }

    /// What is answered to a row.
    pub fn row(&mut self, out: &mut String, row: &str) -> Result<(), AllocError> {
        let (name, text) = row.split_once(' ').unwrap_or((row, ""));
        match name {
            "pair" => self.renew(out),
            "c0" => self.first.row(out, text),
            "c1" => self.second.row(out, text),
            "alike" => self.alike(out),
            _ => out.push_str("no such clone"),
        }
    }
}

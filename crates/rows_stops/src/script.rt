//! A script: the lines of one, and the nodes that they speak of.
ghost use Rattle.std.specs.Prelude.{◌≡◌};

use anyhow::Result;
use std::alloc::Global;
use vc_events::Letter;

/// How many clones a world has, and what happens there.
#[derive(Drop)]
pub struct Script {
    pub clones: usize,
    pub lines: Vec<String>,
    /// Refs of the shared node that have one value, or none, at each moment.
    pub together: Vec<String>,
}

impl Script {
    /// A world of no clones.
    pub fn empty(alloc: Global) -> Script {
        Script {
            clones: 0,
            lines: Vec::new(alloc),
            together: Vec::new(alloc),
        }
    }

    /// A row that begins a script, or is its next line.
    pub fn add(&mut self, alloc: Global, row: &str) -> Result<()> {
        if let Some(number) = row.strip_prefix("world ") {
            self.clones = number.parse::<usize>()?;
            self.lines.clear();
            self.together.clear();
        } else if let Some(names) = row.strip_prefix("together ") {
            for name in names.split(' ') {
                self.together.push(String::from_str(alloc, name)?)?;
            }
        } else {
            self.lines.push(String::from_str(alloc, row)?)?;
        }
        Ok(())
    }
}

/// The place of a node in a list of the shared node and then the clones.
pub fn place_of(name: &str) -> Option<usize> {
    if name == "shared" {
        return Some(0);
    }
    match name.strip_prefix("c")?.parse::<usize>() {
        Ok(number) => Some(number.saturating_add(1)),
        Err(_) => None,
    }
}

// The place of the node that a message goes to.
fn addressee(letters: &[Letter], number: &str) -> Option<usize> {
    let Ok(number) = number.parse::<usize>() else {
        return None;
    };
    match letters.get(number)? {
        Letter::ToShared(_, _) => Some(0),
        Letter::ToClone(clone, _) => Some(clone.saturating_add(1)),
    }
}

/// The place of the node that a line is for, if it is for one.
pub fn told_by(line: &str, letters: &[Letter]) -> Option<usize> {
    let (word, rest) = line.split_once(' ').unwrap_or((line, ""));
    match word {
        "step" => Some(0),
        "deliver" => addressee(letters, rest),
        _ => place_of(word),
    }
}

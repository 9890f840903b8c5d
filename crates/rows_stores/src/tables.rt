//! Tables of links, for graphs that no store can hold, and that count how often they are read.
ghost use Rattle.std.specs.Prelude.{None};
ghost use Rattle.vc_files.specs.Failures.{unstopped};

use crate::answers::{Answer, displayed, done};
use crate::ids::{bytes_of, id_of, ids_of, lettered, numbered, two};
use crate::{generation_rows, graph_rows};
use indexmap::IndexMap;
use std::alloc::{AllocError, Global};
use std::mem;
use vc_graph::Overlay;
use vc_history::Generations;
use vc_object::{Kind, Object, ObjectId, check};
use vc_object_map::{Commits, Objects, Parents, StoreFault};

/// Objects and what each links to. It claims nothing of itself, so a walk over it is tested and not proved.
#[derive(Drop)]
pub struct Table {
    alloc: Global,
    links: IndexMap<ObjectId, Vec<ObjectId>>,
    // Those that are no commits.
    others: Vec<ObjectId>,
    pub reads: u64,
}

impl Table {
    pub fn new(alloc: Global) -> Table {
        Table {
            alloc,
            links: IndexMap::new(alloc),
            others: Vec::new(alloc),
            reads: 0,
        }
    }

    pub fn add(&mut self, id: ObjectId, links: &[ObjectId]) -> Result<(), AllocError> {
        let links = links.to_vec(self.alloc)?;
        self.links.insert(id, links)?;
        Ok(())
    }

    // A word is an object and then what it links to, all of them letters.
    fn add_word(&mut self, word: &str) -> Result<(), AllocError> {
        let Some((object, letters)) = word.as_bytes().split_first() else {
            return Ok(());
        };
        let mut links = Vec::new(self.alloc);
        for letter in letters {
            links.push(lettered(*letter))?;
        }
        self.links.insert(lettered(*object), links)?;
        Ok(())
    }

    fn add_other(&mut self, word: &str) -> anyhow::Result<()> {
        self.add_word(word)?;
        self.others.push(id_of(self.alloc, word)?)?;
        Ok(())
    }

    // How many reads there were since the last such question.
    fn take_reads(&mut self) -> u64 {
        mem::replace(&mut self.reads, 0)
    }

    fn copied(&self, id: &ObjectId) -> Result<Option<Vec<ObjectId>>, AllocError> {
        match self.links.get(id) {
            Some(links) => Ok(Some(links.to_vec(self.alloc)?)),
            None => Ok(None),
        }
    }
}

impl Objects for Table {
    ghost is_honest = { ⊥ };

    ghost State = { Unit {0} };

    ghost state_of = { λ _. tt };

    ghost objects = { λ _ _. None };

    ghost damaged = { λ _ _. ⊥ };

    ghost failed = { λ _. 0 };

    ghost can_fail = { λ _. ⊥ };

    ghost left = { unstopped };

    fn links(&mut self, id: &ObjectId) -> Result<Option<Vec<ObjectId>>, StoreFault> {
        self.reads = self.reads.wrapping_add(1);
        let links = self.copied(id)?;
        Ok(links)
    }
}

impl Commits for Table {
    fn parents(&mut self, id: &ObjectId) -> Result<Option<Parents>, StoreFault> {
        self.reads = self.reads.wrapping_add(1);
        if self.others.contains(id) {
            return Ok(Some(Parents::NotCommit));
        }
        match self.copied(id)? {
            Some(parents) => Ok(Some(Parents::Of(parents))),
            None => Ok(None),
        }
    }
}

/// A table, and objects in memory that lie over it.
#[derive(Drop)]
pub struct Drawn {
    alloc: Global,
    table: Table,
    carried: Vec<(ObjectId, Vec<u8>)>,
    // The last layer that was added.
    top: Vec<ObjectId>,
    // What rows have learned of the table's commits.
    known: Generations,
}

impl Drawn {
    /// With no object.
    pub fn new(alloc: Global) -> Drawn {
        Drawn {
            alloc,
            table: Table::new(alloc),
            carried: Vec::new(alloc),
            top: Vec::new(alloc),
            known: Generations::new(alloc),
        }
    }

    /// Adds objects to the table: each word is one and then what it links to, all of them letters.
    pub fn draw(&mut self, text: &str) -> Result<(), AllocError> {
        for word in text.split(' ') {
            self.table.add_word(word)?;
        }
        Ok(())
    }

    pub fn obey(&mut self, verb: &str, rest: &str) -> Answer {
        match verb {
            "reads" => return displayed(self.alloc, &self.table.take_reads()),
            "other" => self.table.add_other(rest)?,
            "carry" => self.carry(rest)?,
            "layers" => self.add_layers(rest)?,
            "know" => {
                return generation_rows::learn(&mut self.table, self.alloc, &mut self.known, rest);
            }
            "numbered" => return self.ask_numbered(rest),
            _ => return self.ask(verb, rest),
        }
        done(self.alloc)
    }

    fn carry(&mut self, rest: &str) -> anyhow::Result<()> {
        let (id, text) = two(rest);
        let body = bytes_of(self.alloc, text)?;
        self.carried.push((id_of(self.alloc, id)?, body))?;
        Ok(())
    }

    fn ask_numbered(&mut self, rest: &str) -> Answer {
        let (verb, rest) = two(rest);
        graph_rows::obey_commits(&mut self.table, self.alloc, verb, rest, &self.known)
    }

    fn ask(&mut self, verb: &str, rest: &str) -> Answer {
        let none = Generations::new(self.alloc);
        if self.carried.is_empty() {
            return graph_rows::obey_commits(&mut self.table, self.alloc, verb, rest, &none);
        }
        ask_over(
            &mut self.table,
            self.alloc,
            &self.carried,
            verb,
            rest,
            &none,
        )
    }

    // Adds so many layers of so many commits, each of which has all of the layer below as its parents: the one that was
    // added last, or those that are named.
    fn add_layers(&mut self, rest: &str) -> anyhow::Result<()> {
        let (layers, rest) = two(rest);
        let (width, below) = two(rest);
        if !below.is_empty() {
            self.top = ids_of(self.alloc, below)?;
        }
        let layers: u32 = layers.parse()?;
        let width = width.parse()?;
        for _ in 0..layers {
            self.add_layer(width)?;
        }
        Ok(())
    }

    fn add_layer(&mut self, width: u32) -> anyhow::Result<()> {
        let mut layer = Vec::new(self.alloc);
        for _ in 0..width {
            let id = numbered(u32::try_from(self.table.links.len())?);
            self.table.add(id, &self.top)?;
            layer.push(id)?;
        }
        self.top = layer;
        Ok(())
    }
}

// A row on what is carried over a table.
fn ask_over(
    table: &mut Table,
    alloc: Global,
    carried: &[(ObjectId, Vec<u8>)],
    verb: &str,
    rest: &str,
    generations: &Generations,
) -> Answer {
    let mut objects = IndexMap::new(alloc);
    lend_all(&mut objects, carried)?;
    let mut overlay = Overlay {
        stored: table,
        carried: &objects,
        alloc,
    };
    graph_rows::obey_commits(&mut overlay, alloc, verb, rest, generations)
}

// Puts the trees and commits that are carried with the objects, by name.
fn lend_all<'a>(
    objects: &mut IndexMap<ObjectId, Object<'a>>,
    carried: &'a [(ObjectId, Vec<u8>)],
) -> anyhow::Result<()> {
    for (id, body) in carried {
        objects.insert(*id, check(kind_of(body), body)?)?;
    }
    Ok(())
}

fn kind_of(body: &[u8]) -> Kind {
    if body.starts_with(b"tree ") {
        Kind::Commit
    } else {
        Kind::Tree
    }
}

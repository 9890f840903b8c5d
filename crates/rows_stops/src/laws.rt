//! What holds of the files of the nodes at each moment: all that a ref, HEAD or the index reaches is there, the shared node's branches
//! only go forward, what a clone knows as a branch's value was its value, and refs that are set together have one value.

use crate::disk::{Disk, OnDisk, counts};
use anyhow::{Result, bail};
use std::alloc::Global;
use vc_graph::first_incomplete;
use vc_history::{Generations, is_ancestor};
use vc_local::read_index;
use vc_object::{Mode, ObjectId};
use vc_refname::RefName;
use vc_refs::{Head, head, list};
use vc_store::Store;

/// The values that the shared node's branches were seen to have.
#[derive(Drop)]
pub struct Seen {
    alloc: Global,
    // Each value of each branch, in the order in which they were seen first.
    values: Vec<(RefName, ObjectId)>,
    // How many writes each disk had seen when it was looked at.
    looked: Vec<u64>,
    // Refs that have one value, or none.
    together: Vec<String>,
}

// The last value that the list has for a name.
fn last_value(values: &[(RefName, ObjectId)], name: &RefName) -> Option<ObjectId> {
    let mut found = None;
    for (other, id) in values {
        if other == name {
            found = Some(*id);
        }
    }
    found
}

// The value of the ref of this name, if it has one.
fn value_of(refs: &[(RefName, ObjectId)], name: &str) -> Option<ObjectId> {
    for (other, id) in refs {
        if other.as_str() == name {
            return Some(*id);
        }
    }
    None
}

// The values of the refs, what HEAD is detached at, and what the index has.
fn roots_of(
    alloc: Global,
    files: &mut OnDisk<'_>,
    refs: &[(RefName, ObjectId)],
) -> Result<Vec<ObjectId>> {
    let mut ids = Vec::new(alloc);
    for (_, id) in refs {
        ids.push(*id)?;
    }
    if let Some(Head::Id(id)) = head(files, alloc)? {
        ids.push(id)?;
    }
    let index = read_index(alloc, files)?;
    for (_, entry) in index.iter() {
        if entry.mode != Mode::Commit {
            ids.push(entry.id)?;
        }
    }
    Ok(ids)
}

// The refs in the files. All that they, HEAD and the index reach has to be there.
fn whole_refs(alloc: Global, files: &mut OnDisk<'_>) -> Result<Vec<(RefName, ObjectId)>> {
    let refs = list(files, alloc)?;
    let ids = roots_of(alloc, files, &refs)?;
    match first_incomplete(alloc, &mut Store::new(alloc, files), &ids)? {
        None => Ok(refs),
        Some(_) => bail!("not all is there that refs, HEAD and the index reach"),
    }
}

/// Each disk holds all that its refs, HEAD and index reach.
pub fn refuse_partial(alloc: Global, disks: &[Disk]) -> Result<()> {
    for disk in disks {
        whole_refs(alloc, &mut OnDisk::seen(disk))?;
    }
    Ok(())
}

impl Seen {
    /// Nothing was seen yet. These refs of the shared node are to have one value, or none.
    pub fn nothing(alloc: Global, together: &[String]) -> Result<Seen> {
        let mut names = Vec::new(alloc);
        for name in together {
            names.push(name.clone()?)?;
        }
        Ok(Seen {
            alloc,
            values: Vec::new(alloc),
            looked: Vec::new(alloc),
            together: names,
        })
    }

    /// Looks at the disk of the shared node, which is the first, and at those of the clones, if they were written to since.
    pub fn look(&mut self, disks: &[Disk]) -> Result<()> {
        let mut looked = Vec::new(self.alloc);
        for (place, disk) in disks.iter().enumerate() {
            let (_, writes) = counts(disk)?;
            if self.looked.get(place) != Some(&writes) {
                self.look_at(place, disk)?;
            }
            looked.push(writes)?;
        }
        self.looked = looked;
        Ok(())
    }

    fn look_at(&mut self, place: usize, disk: &Disk) -> Result<()> {
        if place == 0 {
            self.look_at_shared(disk)
        } else {
            self.look_at_clone(disk)
        }
    }

    fn look_at_shared(&mut self, disk: &Disk) -> Result<()> {
        let mut files = OnDisk::seen(disk);
        let refs = whole_refs(self.alloc, &mut files)?;
        for (name, id) in &refs {
            if name.is_branch() {
                self.go_on(&mut files, name, id)?;
            }
        }
        self.refuse_apart(&refs)?;
        self.refuse_gone(&refs)
    }

    // The refs that are set together have one value, or none.
    fn refuse_apart(&self, refs: &[(RefName, ObjectId)]) -> Result<()> {
        let Some((first, others)) = self.together.split_first() else {
            return Ok(());
        };
        let value = value_of(refs, first);
        for other in others {
            if value_of(refs, other) != value {
                bail!("{first} and {other} are apart");
            }
        }
        Ok(())
    }

    // A branch has this value: the last one that was seen, or one that descends from it.
    fn go_on(&mut self, files: &mut OnDisk<'_>, name: &RefName, id: &ObjectId) -> Result<()> {
        let last = last_value(&self.values, name);
        if last == Some(*id) {
            return Ok(());
        }
        if let Some(last) = last {
            let mut store = Store::new(self.alloc, files);
            let known = Generations::new(self.alloc);
            if !is_ancestor(self.alloc, &mut store, &last, id, &known)? {
                bail!("{name} went back");
            }
        }
        self.values.push((name.clone()?, *id))?;
        Ok(())
    }

    // Each branch that was seen is still there.
    fn refuse_gone(&self, refs: &[(RefName, ObjectId)]) -> Result<()> {
        for (name, _) in &self.values {
            if last_value(refs, name).is_none() {
                bail!("{name} is gone");
            }
        }
        Ok(())
    }

    fn look_at_clone(&self, disk: &Disk) -> Result<()> {
        for (name, id) in &whole_refs(self.alloc, &mut OnDisk::seen(disk))? {
            if let Some(branch) = name.as_str().strip_prefix("refs/remotes/origin/") {
                self.refuse_unknown(branch, id)?;
            }
        }
        Ok(())
    }

    // The shared node's branch had this value.
    fn refuse_unknown(&self, branch: &str, id: &ObjectId) -> Result<()> {
        for (name, value) in &self.values {
            if value == id && name.as_str().strip_prefix("refs/heads/") == Some(branch) {
                return Ok(());
            }
        }
        bail!("{branch} never had what a clone knows")
    }
}

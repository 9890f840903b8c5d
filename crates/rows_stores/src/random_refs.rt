//! Random changes of refs, packed now and then, beside a list of values that is searched from end to end.
use crate::answers::Answer;
use crate::ids::lettered;
use crate::random::{Numbers, told};
use crate::ref_rows::name_of;
use std::alloc::{AllocError, Global};
use vc_files::MemoryFiles;
use vc_object::ObjectId;
use vc_refname::RefName;
use vc_refs::{RefFault, Refs};

// Names, some in the folders of others, in the order of their bytes.
const NAMES: [&str; 8] = [
    "refs/a",
    "refs/heads/a",
    "refs/heads/a/b",
    "refs/heads/a/b/c",
    "refs/heads/ab",
    "refs/heads/b",
    "refs/tags/a",
    "refs/tags/a/x",
];

const STEPS: u8 = 40;

// What a call says.
#[derive(Clone, Copy, PartialEq, Eq)]
enum Said {
    Done,
    Stale(Option<ObjectId>),
    Conflict(Option<u8>),
    Another,
}

// The value of each name, or none.
#[derive(Drop)]
struct Plain(Vec<Option<ObjectId>>);

impl Plain {
    fn new(alloc: Global) -> Result<Plain, AllocError> {
        let mut values = Vec::new(alloc);
        for _ in NAMES {
            values.push(None)?;
        }
        Ok(Plain(values))
    }

    fn get(&self, name: u8) -> Option<ObjectId> {
        match self.0.get(usize::from(name)) {
            Some(value) => *value,
            None => None,
        }
    }

    // Takes the value of each name away.
    fn clear(&mut self) {
        for value in self.0.iter_mut() {
            *value = None;
        }
    }

    // How many names have a value.
    fn count(&self) -> usize {
        let mut count = 0_usize;
        for value in &self.0 {
            if value.is_some() {
                count = count.wrapping_add(1);
            }
        }
        count
    }

    fn put(&mut self, name: u8, value: Option<ObjectId>) {
        if let Some(place) = self.0.get_mut(usize::from(name)) {
            *place = value;
        }
    }

    // The first name with a value that lies in the folder of this one, or has this one in its own.
    fn in_the_way(&self, name: u8) -> Option<u8> {
        for other in 0..8_u8 {
            let lies = lies_below(text_of(name), text_of(other))
                || lies_below(text_of(other), text_of(name));
            if lies && self.get(other).is_some() {
                return Some(other);
            }
        }
        None
    }

    fn set(&mut self, name: u8, expected: Option<ObjectId>, new: ObjectId) -> Said {
        if let Some(other) = self.in_the_way(name) {
            return Said::Conflict(Some(other));
        }
        if self.get(name) != expected {
            return Said::Stale(self.get(name));
        }
        self.put(name, Some(new));
        Said::Done
    }

    fn remove(&mut self, name: u8, expected: Option<ObjectId>) -> Said {
        if self.get(name) != expected {
            return Said::Stale(self.get(name));
        }
        self.put(name, None);
        Said::Done
    }
}

fn text_of(name: u8) -> &'static str {
    match NAMES.get(usize::from(name)) {
        Some(text) => text,
        None => "refs/none",
    }
}

// Whether the name lies in the folder of the other.
fn lies_below(name: &str, other: &str) -> bool {
    match name.as_bytes().strip_prefix(other.as_bytes()) {
        Some(rest) => rest.starts_with(b"/"),
        None => false,
    }
}

// What a change of the refs says.
fn outcome(answer: Result<(), RefFault>) -> Said {
    match answer {
        Ok(()) => Said::Done,
        Err(RefFault::Stale(current)) => Said::Stale(current),
        Err(RefFault::Conflict(name)) => Said::Conflict(place_of(&name)),
        Err(RefFault::BadRefFile(_) | RefFault::HeadLoop | RefFault::Fault(_)) => Said::Another,
    }
}

// Where the name stands among the names.
fn place_of(name: &RefName) -> Option<u8> {
    for place in 0..8_u8 {
        if text_of(place) == name.as_str() {
            return Some(place);
        }
    }
    None
}

// Whether the list of all refs is that of the values, in the order of the names.
fn are_listed(listed: &[(RefName, ObjectId)], plain: &Plain) -> bool {
    // The first name that may come now.
    let mut next = 0_u8;
    for (told, id) in listed {
        match place_of(told) {
            Some(name) if name >= next && plain.get(name) == Some(*id) => {
                next = name.wrapping_add(1);
            }
            _ => return false,
        }
    }
    listed.len() == plain.count()
}

// Whether one random call says what the values say.
fn step(
    alloc: Global,
    files: &mut MemoryFiles,
    plain: &mut Plain,
    numbers: &mut Numbers,
) -> anyhow::Result<bool> {
    let at = numbers.below(8);
    let new = lettered(numbers.below(4).wrapping_add(97));
    let expected = match numbers.below(6) {
        0 => None,
        1 => Some(new),
        _ => plain.get(at),
    };
    let name = name_of(alloc, text_of(at))?;
    let mut refs = Refs::new(alloc, files);
    let same: Result<bool, RefFault> = match numbers.below(10) {
        0 => Ok(outcome(refs.pack()) == Said::Done),
        1 => lists(&mut refs, plain),
        2 => is_value(refs.get(&name), plain.get(at)),
        3 | 4 | 5 => Ok(outcome(refs.remove(&name, expected)) == plain.remove(at, expected)),
        _ => Ok(outcome(refs.set(&name, expected, new)) == plain.set(at, expected, new)),
    };
    Ok(same?)
}

// Whether all refs are listed.
fn lists(refs: &mut Refs<'_, MemoryFiles>, plain: &Plain) -> Result<bool, RefFault> {
    let listed = refs.list()?;
    Ok(are_listed(&listed, plain))
}

// Whether the value of a ref is this one.
fn is_value(
    found: Result<Option<ObjectId>, RefFault>,
    expected: Option<ObjectId>,
) -> Result<bool, RefFault> {
    let value = found?;
    Ok(value == expected)
}

// Whether each call of a seed says what it should, and all refs are listed in the end.
fn agrees(
    alloc: Global,
    files: &mut MemoryFiles,
    plain: &mut Plain,
    seed: u64,
) -> anyhow::Result<bool> {
    let mut numbers = Numbers::of(seed);
    for _ in 0..STEPS {
        if !step(alloc, files, plain, &mut numbers)? {
            return Ok(false);
        }
    }
    Ok(lists(&mut Refs::new(alloc, files), plain)?)
}

/// In how many of so many runs of random calls each says what it should.
pub fn agreements(alloc: Global, text: &str) -> Answer {
    let seeds: u64 = text.parse()?;
    let mut plain = Plain::new(alloc)?;
    let mut agreed = 0_u64;
    for seed in 0..seeds {
        let mut files = MemoryFiles::new(alloc);
        plain.clear();
        agreed = agreed.wrapping_add(u64::from(agrees(alloc, &mut files, &mut plain, seed)?));
    }
    told(alloc, agreed)
}

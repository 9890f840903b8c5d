// The index that a text stands for.
ghost use Rattle.std.specs.Prelude.{◌≡◌, ◌≢◌, ◌↔◌, ◌<◌, ◌≤◌, ℕ, List, IfOk, IfErr, IsTrue, Some, length, take, map, slice_index_or};
ghost use Rattle.std.specs.Ordering.{nat_cmp};
ghost use Rattle.std.specs.Cmp.Lexicographic.{slice_cmp};
ghost use Rattle.vc_index.specs.IndexMap.{HasFileAbove, IndexMap, IsFile, IsIndex, index_of};
ghost use Rattle.vc_index.specs.declared.entry.IndexEntry.{IndexEntry as Entry};
ghost use Rattle.std.specs.FinMap as paths;
ghost use Rattle.vc_index.specs.IndexText.{index_text, IsOfRead};
ghost use Rattle.vc_index.specs.Reading.{IsFront, IsReadTo, MayFollow, has_front};

use crate::path::is_path;
use crate::text::entry_at;
use crate::{Index, IndexEntry, IndexFault};
use std::alloc::{AllocError, Global};
use std::cmp::Ordering;
use std::collections::BTreeMap;

// How many bytes two texts have in common at their fronts.
fn shared_front(a: &[u8], b: &[u8]) -> usize
    ensures inside { (result ≤ length a.now) × (result ≤ length b.now) }
    ensures shared { take result a.now ≡ take result b.now }
    ensures all { result < length a.now → result < length b.now → slice_index_or a.now result 0 ≢ slice_index_or b.now result 0 }
{
    let mut count = 0;
    while count < a.len() && count < b.len() && a[count] == b[count] {
        count += 1;
    }
    count
}

// Whether one of the files has this path.
fn has_front(fronts: &[&[u8]], path: &[u8]) -> bool
    ensures { result ≡ has_front (map (λ front. front.now) fronts.now) path.now }
{
    fronts.contains(&path)
}

// Whether a path lies in a file, where it comes behind all paths, of which `last` is the last, and `fronts` has those that this one
// begins with. A file that the path lies in comes before `last` and `last` before the path, so `last` begins with its name, too, and goes
// on with a byte below `/`.
fn lies_in_file(fronts: &[&[u8]], last: &[u8], path: &[u8]) -> bool
    ensures { (m : IndexMap) → IsReadTo m last.now (map (λ front. front.now) fronts.now) → slice_cmp nat_cmp last.now path.now ≡ Ordering.Less → IsTrue result ↔ HasFileAbove m path.now }
{
    let shared = shared_front(last, path);
    shared < path.len() && path[shared] == b'/' && has_front(fronts, &path[..shared])
}

// Whether a path may stand behind all paths so far.
fn may_follow(fronts: &[&[u8]], last: &[u8], path: &[u8]) -> bool
    ensures { (m : IndexMap) → IsReadTo m last.now (map (λ front. front.now) fronts.now) → IsTrue result ↔ MayFollow m last.now path.now }
{
    if last.cmp(path) != Ordering::Less || !is_path(path) {
        return false;
    }
    !lies_in_file(fronts, last, path)
}

// Takes away what the path doesn't begin with, from the end until it does.
fn keep_fronts(fronts: &mut Vec<&[u8]>, path: &[u8])
    ensures some { (front : List ℕ) → IsTrue (has_front (map (λ front. front.now) fronts.new.items) front) → IsTrue (has_front (map (λ front. front.now) fronts.old.items) front) }
    ensures all { (front : List ℕ) → IsFront front path.now → IsTrue (has_front (map (λ front. front.now) fronts.old.items) front) → IsTrue (has_front (map (λ front. front.now) fronts.new.items) front) }
{
    while let Some(front) = fronts.last() {
        if path.starts_with(front) {
            return;
        }
        fronts.pop();
    }
}

/// Whether no file of the map lies in another.
pub(crate) fn are_apart(
    alloc: Global,
    map: &BTreeMap<Vec<u8>, IndexEntry>,
) -> Result<bool, AllocError>
    requires { (path : List ℕ) (entry : Entry) → paths.get (index_of map.now) path ≡ Some entry → IsFile path entry }
    ensures { IfOk result (λ yes. IsTrue yes ↔ IsIndex (index_of map.now)) }
{
    let mut fronts: Vec<&[u8]> = Vec::new(alloc);
    let mut last: &[u8] = b"";
    for (path, _) in map {
        if lies_in_file(&fronts, last, path) {
            return Ok(false);
        }
        keep_fronts(&mut fronts, path);
        fronts.push(path)?;
        last = path;
    }
    Ok(true)
}

/// The index that a text stands for.
pub(crate) fn read_text(alloc: Global, bytes: &[u8]) -> Result<Index, IndexFault>
    ensures ok { IfOk result (λ index. bytes.now ≡ index_text index) }
    ensures index { IfOk result IsIndex }
    ensures refused { IfErr result (IsOfRead bytes.now) }
{
    let mut files = Vec::new(alloc);
    // The files that the last path begins with, itself the last of them.
    let mut fronts: Vec<&[u8]> = Vec::new(alloc);
    let mut last: &[u8] = b"";
    let mut rest = bytes;
    while !rest.is_empty() {
        let place = bytes.len() - rest.len();
        let Some((path, entry, after)) = entry_at(rest) else {
            return Err(IndexFault::BadIndex(place));
        };
        if !may_follow(&fronts, last, path) {
            return Err(IndexFault::BadIndex(place));
        }
        files.push((path.to_vec(alloc)?, entry))?;
        keep_fronts(&mut fronts, path);
        fronts.push(path)?;
        last = path;
        rest = after;
    }
    let index = Index::of_files(alloc, files)?;
    Ok(index)
}

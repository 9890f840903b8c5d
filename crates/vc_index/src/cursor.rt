// Looking up the paths of an index one after the other.
ghost use Rattle.std.specs.Prelude.{◌≡◌};
ghost use Rattle.std.specs.FinMap as paths;
ghost use Rattle.vc_index.specs.IndexMap.{IndexMap};

use crate::{Index, IndexEntry};
use std::cmp::Ordering;
use std::collections::btree_map::Iter;
use std::marker::Model;

/// Looks up paths of an index one after the other. Where they rise, each costs a comparison or two; a path that doesn't come behind
/// the one before it is searched for.
#[derive(Drop)]
pub struct IndexCursor<'a> {
    index: &'a Index,
    // The path that was passed last.
    last: &'a [u8],
    here: Option<(&'a Vec<u8>, &'a IndexEntry)>,
    rest: Iter<'a, Vec<u8>, IndexEntry>,
}

impl<'a> Model for IndexCursor<'a> {
    ghost use Rattle.vc_index.specs.Cursor.{IsCursor};
    ghost use Rattle.vc_index.specs.IndexMap.{IndexMap, index_code};

    ghost Value = { IndexMap };

    ghost coded = { index_code };

    ghost view = { λ s. s.index.now };

    ghost invariant = { λ s. IsCursor s.index.now s.last.now s.here s.rest };
}

impl<'a> IndexCursor<'a> {
    /// At the first path of the index.
    pub fn new(index: &'a Index) -> IndexCursor<'a>
        ensures { result ≡ index.now }
    {
        let mut rest = index.iter();
        let here = rest.next();
        IndexCursor {
            index,
            last: b"",
            here,
            rest,
        }
    }

    /// What stands at a path.
    pub fn get(&mut self, path: &[u8]) -> Option<IndexEntry>
        ensures found { result ≡ paths.get self.old path.now }
        ensures same { self.new ≡ self.old }
    {
        if self.last.cmp(path) != Ordering::Less {
            return self.index.get(path);
        }
        while let Some((key, entry)) = self.here {
            match key.as_slice().cmp(path) {
                Ordering::Less => {
                    self.last = key;
                    self.here = self.rest.next();
                }
                Ordering::Equal => return Some(*entry),
                Ordering::Greater => return None,
            }
        }
        None
    }
}

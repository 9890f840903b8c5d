// Refs of which one is a folder of another.
ghost use Rattle.std.specs.Prelude.{◌≡◌, true, IfOk, MatchOption};
ghost use Rattle.std.specs.FinMap as names;
ghost use Rattle.std.specs.FinMap.Entries.{below_all, is_sorted};
ghost use Rattle.std.specs.List.{list_any};
ghost use Rattle.std.specs.Cmp.Lexicographic.{slice_cmp};
ghost use Rattle.std.specs.Ordering.{nat_cmp};
ghost use Rattle.vc_files.specs.Path.{is_above};
ghost use Rattle.vc_refs.specs.Packed.{PackedRef};
ghost use Rattle.vc_refs.specs.RefMap.{IsFirstFolder, IsRefMap};

use crate::PackedRefs;
use std::alloc::AllocError;
use std::collections::btree_map::Iter;
use vc_files::is_above;
use vc_object::ObjectId;
use vc_refname::RefName;

// The first name, by its bytes, that is a folder of another.
pub(crate) fn first_folder(refs: &PackedRefs) -> Result<Option<&RefName>, AllocError>
    ensures first { IfOk result (λ found. MatchOption found (IsRefMap (names.get refs.now)) (λ name. IsFirstFolder (names.get refs.now) name.now)) }
{
    let mut later = refs.iter();
    while let Some((name, _)) = later.next() {
        if is_folder_of_any(name, later.clone()?) {
            return Ok(Some(name));
        }
    }
    Ok(None)
}

// Whether one of the names that come after this one lies in its folder. Those that do come before the first that doesn't begin
// with it.
fn is_folder_of_any(name: &RefName, later: Iter<'_, RefName, ObjectId>) -> bool
    requires above { below_all (slice_cmp nat_cmp) name.now later ≡ true }
    requires sorted { is_sorted (slice_cmp nat_cmp) later ≡ true }
    ensures { result ≡ list_any (λ (other : PackedRef). is_above name.now other.0) later.entry }
{
    let name = name.as_str().as_bytes();
    for (other, _) in later {
        let other = other.as_str().as_bytes();
        if is_above(name, other) {
            return true;
        }
        if !other.starts_with(name) {
            return false;
        }
    }
    false
}

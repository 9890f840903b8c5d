//! Rows on the text of packed refs.
use crate::answers::{Answer, or_nothing, quoted, word};
use crate::ids::{bytes_of, two};
use crate::ref_rows::{name_of, push_ref};
use std::alloc::Global;
use vc_refs::{PackedRefs, packed_in_the_way};

/// A row has a text. The answer is the refs that it stands for, or the text that is written for them.
pub fn obey(alloc: Global, verb: &str, rest: &str) -> Answer {
    let text = bytes_of(alloc, rest)?;
    match PackedRefs::read(alloc, &text)? {
        Some(refs) if verb == "packed-text" => quoted(alloc, &refs.write(alloc)?),
        Some(refs) => listed(alloc, &refs),
        None => word(alloc, "bad"),
    }
}

/// A row has a name and a text. The answer is the first of the text's refs that stands in the way of the name.
pub fn conflict(alloc: Global, rest: &str) -> Answer {
    let (name, text) = two(rest);
    let name = name_of(alloc, name)?;
    let text = bytes_of(alloc, text)?;
    let Some(refs) = PackedRefs::read(alloc, &text)? else {
        return word(alloc, "bad");
    };
    match packed_in_the_way(&refs, &name) {
        Some(other) => word(alloc, other.as_str()),
        None => word(alloc, "none"),
    }
}

/// The refs of a map.
pub fn listed(alloc: Global, refs: &PackedRefs) -> Answer {
    let mut list = String::new(alloc);
    for (name, id) in refs.iter() {
        push_ref(&mut list, name, *id)?;
    }
    or_nothing(list)
}

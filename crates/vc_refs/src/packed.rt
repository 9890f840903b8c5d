//! Packed refs: many refs in one text, a line for each, as git keeps them in the file `packed-refs`.
ghost use Rattle.std.specs.Prelude.{◌≡◌, ◌++◌, option_map, true, false, Some, IfOk, IfSome, IfNone, OnOk, OnErr};
ghost use Rattle.std.specs.FinMap as names;
ghost use Rattle.std.specs.List.{list_all};
ghost use Rattle.vc_refs.specs.Packed.{apart_map, hex_id, is_comment, is_packed_name, is_peeled, lines, map_of, may_be_packed, packed_name, packed_refs, packed_text, parts, ref_in, ref_line, refs_in, texts, IsBadPacked, IsPackedMap};
ghost use Rattle.vc_refs.specs.PackedView.{packed_of};
ghost use Rattle.vc_refs.specs.RefMap.{IsInRefs, IsRefMap};

use crate::folders::first_folder;
use crate::loose::name_at;
use crate::text::without_lf;
use std::alloc::{AllocError, Global};
use std::collections::BTreeMap;
use std::collections::btree_map::Iter;
use std::marker::Model;
use vc_object::ObjectId;
use vc_refname::RefName;

/// Refs by their names, all in `refs/`. Contracts see them as a finite map from names to ids.
#[derive(Drop)]
pub struct PackedRefs {
    by_name: BTreeMap<RefName, ObjectId>,
}

impl Model for PackedRefs {
    ghost use Rattle.vc_refs.specs.Packed.{PackedMap, packed_code, IsPackedMap};
    ghost use Rattle.vc_refs.specs.PackedView.{packed_of};

    ghost Value = { PackedMap };

    ghost coded = { packed_code };

    ghost view = { λ refs. packed_of refs.by_name };

    ghost invariant = { λ refs. IsPackedMap (packed_of refs.by_name) };
}

impl PackedRefs {
    /// No refs.
    pub fn new(alloc: Global) -> PackedRefs
        ensures { result ≡ names.empty }
    {
        PackedRefs {
            by_name: BTreeMap::new(alloc),
        }
    }

    /// The refs that a text stands for, or none if the text is bad. Each line is `<id> <name>`, with forty hex digits
    /// of either case and a legal name in `refs/` that stands once and is no folder of another; or it begins with `#` and
    /// is passed over; or it is `^<id>` directly after the line of a ref, and is passed over. A line ends with LF, which
    /// the last may lack.
    pub fn read(alloc: Global, text: &[u8]) -> Result<Option<PackedRefs>, AllocError>
        ensures found { IfOk result (λ found. found ≡ packed_refs text.now) }
        ensures bad { IfOk result (λ found. IfNone found (IsBadPacked text.now)) }
        ensures packed { IfOk result (λ found. IfSome found IsPackedMap) }
        ensures apart { IfOk result (λ found. IfSome found (λ refs. IsRefMap (names.get refs))) }
    {
        let lines = lines_of(alloc, text)?;
        let Some(refs) = refs_in(alloc, &lines)? else {
            return Ok(None);
        };
        let Some(refs) = map_of(alloc, refs)? else {
            return Ok(None);
        };
        let found = apart(refs)?;
        Ok(found)
    }

    /// The text of the refs: a line for each, in the order of the names' bytes. It is read as these refs, if none of their names
    /// is a folder of another.
    pub fn write(&self, alloc: Global) -> Result<Vec<u8>, AllocError>
        ensures text { IfOk result (λ text. text.items ≡ packed_text self.now) }
        ensures written_refs_are_read { IsRefMap (names.get self.now) → packed_refs (packed_text self.now) ≡ Some self.now }
    {
        let mut text = Vec::new(alloc);
        for (name, id) in &self.by_name {
            push_line(&mut text, name, *id)?;
        }
        Ok(text)
    }

    /// The id that the name stands for.
    pub fn get(&self, name: &RefName) -> Option<ObjectId>
        ensures { result ≡ names.get self.now name.now }
    {
        self.by_name.get(name).copied()
    }

    /// The refs in the order of the names' bytes.
    #[tactic(auto, using(crate::proofs::PackedLemmas::iter_refs))]
    pub fn iter(&self) -> Iter<'_, RefName, ObjectId>
        ensures refs { result ≡ names.entries self.now }
        ensures packed { IsPackedMap self.now }
    {
        self.by_name.iter()
    }

    /// The refs in the order of the names' bytes, by value.
    pub(crate) fn into_vec(self, alloc: Global) -> Result<Vec<(RefName, ObjectId)>, AllocError>
        ensures { IfOk result (λ refs. refs.items ≡ names.entries self) }
    {
        let mut refs = Vec::new(alloc);
        for entry in self.by_name {
            refs.push(entry)?;
        }
        Ok(refs)
    }

    /// Sets a ref, in place of what its name stood for. If memory is short, nothing changes.
    pub fn insert(&mut self, name: RefName, id: ObjectId) -> Result<(), AllocError>
        requires { IsInRefs name }
        ensures ok { OnOk result (self.new ≡ names.insert self.old name id) }
        ensures err { OnErr result (self.new ≡ self.old) }
    {
        let name = legal(name);
        let id = id.named();
        self.by_name.insert(name, id)?;
        Ok(())
    }

    /// Takes a ref away. If the name stands for nothing, nothing changes.
    pub fn remove(&mut self, name: &RefName)
        ensures { self.new ≡ names.remove self.old name.now }
    {
        let _ = self.by_name.remove(name);
    }
}

// The name itself. The caller learns that its bytes are those of a text.
fn legal(name: RefName) -> RefName
    requires { IsInRefs name }
    ensures same { result ≡ name }
    ensures valid { is_packed_name name ≡ true }
{
    let _ = name.as_str();
    name
}

// What stands between line feeds.
fn parts_of<'a>(alloc: Global, text: &'a [u8]) -> Result<Vec<&'a [u8]>, AllocError>
    ensures { IfOk result (λ found. texts found.items ≡ parts text.now) }
{
    text.split(|byte| *byte == b'\n').collect(alloc)
}

// The lines of a text.
fn lines_of<'a>(alloc: Global, text: &'a [u8]) -> Result<Vec<&'a [u8]>, AllocError>
    ensures { IfOk result (λ found. texts found.items ≡ lines text.now) }
{
    if text.is_empty() {
        return Ok(Vec::new(alloc));
    }
    let found = parts_of(alloc, without_lf(text))?;
    Ok(found)
}

// The id that forty hex digits spell.
fn hex_id(digits: &[u8]) -> Option<ObjectId>
    ensures { result ≡ hex_id digits.now }
{
    ObjectId::from_hex(digits)
}

// Whether a line is passed over wherever it stands.
fn is_comment(line: &[u8]) -> bool
    ensures { result ≡ is_comment line.now }
{
    line.starts_with(b"#")
}

// Whether a line says what a tag leads to.
fn is_peeled(line: &[u8]) -> bool
    ensures { result ≡ is_peeled line.now }
{
    match line.strip_prefix(b"^") {
        Some(digits) => hex_id(digits).is_some(),
        None => false,
    }
}

// The name that the bytes are, if it may be packed.
fn name_in(alloc: Global, text: &[u8]) -> Result<Option<RefName>, AllocError>
    ensures name { IfOk result (λ found. found ≡ packed_name text.now) }
    ensures valid { IfOk result (λ found. IfSome found (λ name. is_packed_name name ≡ true)) }
{
    let Ok(text) = str::from_utf8(text) else {
        return Ok(None);
    };
    let name = name_at(alloc, text)?;
    Ok(name)
}

// The ref that a line gives.
#[tactic(auto, unfolding(crate::specs::Packed::ref_in))]
fn ref_in(alloc: Global, line: &[u8]) -> Result<Option<(RefName, ObjectId)>, AllocError>
    ensures found { IfOk result (λ found. found ≡ ref_in line.now) }
    ensures valid { IfOk result (λ found. IfSome found (λ entry. may_be_packed entry ≡ true)) }
{
    let Some((digits, rest)) = line.split_at_checked(40) else {
        return Ok(None);
    };
    let Some(id) = hex_id(digits) else {
        return Ok(None);
    };
    let Some(rest) = rest.strip_prefix(b" ") else {
        return Ok(None);
    };
    let Some(name) = name_in(alloc, rest)? else {
        return Ok(None);
    };
    Ok(Some((name, id.named())))
}

// The refs of the lines, in the order of the lines.
fn refs_in(alloc: Global, lines: &[&[u8]]) -> Result<Option<Vec<(RefName, ObjectId)>>, AllocError>
    ensures refs { IfOk result (λ found. option_map (λ refs. refs.items) found ≡ refs_in false (texts lines.now)) }
    ensures valid { IfOk result (λ found. IfSome found (λ refs. list_all may_be_packed refs.items ≡ true)) }
{
    let mut refs = Vec::new(alloc);
    // Whether the line before gave a ref.
    let mut behind = false;
    for line in lines {
        if is_comment(line) {
            behind = false;
            continue;
        }
        if is_peeled(line) {
            if !behind {
                return Ok(None);
            }
            behind = false;
            continue;
        }
        let Some(entry) = ref_in(alloc, line)? else {
            return Ok(None);
        };
        refs.push(entry)?;
        behind = true;
    }
    Ok(Some(refs))
}

// The map of the refs, if no name stands twice.
fn map_of(alloc: Global, refs: Vec<(RefName, ObjectId)>) -> Result<Option<PackedRefs>, AllocError>
    requires { list_all may_be_packed refs.items ≡ true }
    ensures found { IfOk result (λ found. found ≡ map_of refs.items) }
    ensures packed { IfOk result (λ found. IfSome found IsPackedMap) }
{
    let count = refs.len();
    let by_name: BTreeMap<RefName, ObjectId> = refs.into_iter().collect(alloc)?;
    // Of a name that stands twice the map has one.
    if by_name.len() != count {
        return Ok(None);
    }
    Ok(Some(PackedRefs { by_name }))
}

// The map, if no name is a folder of another.
fn apart(refs: PackedRefs) -> Result<Option<PackedRefs>, AllocError>
    ensures found { IfOk result (λ found. found ≡ apart_map refs) }
    ensures apart { IfOk result (λ found. IfSome found (λ refs. IsRefMap (names.get refs))) }
{
    if first_folder(&refs)?.is_some() {
        return Ok(None);
    }
    Ok(Some(refs))
}

// Writes the line of a ref.
fn push_line(text: &mut Vec<u8>, name: &RefName, id: ObjectId) -> Result<(), AllocError>
    ensures { OnOk result (text.new.items ≡ text.old.items ++ ref_line (name.now, id)) }
{
    text.extend_from_slice(&id.to_hex())?;
    text.push(b' ')?;
    text.extend_from_slice(name.as_str().as_bytes())?;
    text.push(b'\n')?;
    Ok(())
}

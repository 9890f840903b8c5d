//! The message by which a shared node tells its refs: HEAD, and each ref with its id.

ghost use Rattle.std.specs.Prelude.{◌≡◌, ◌≤◌, ◌+◌, ◌++◌, length, Ok, OnOk, OnErr, IfOk, IfErr};
ghost use Rattle.std.specs.FinMap.{empty, entries};
ghost use Rattle.std.specs.List.{AllByRecursion, flat_map, list_any};
ghost use Rattle.std.specs.Option.{option_map};
ghost use Rattle.vc_pkt.specs.Line.{spelling};
ghost use Rattle.vc_pkt.specs.Message.{onward, IsSpelledBy, Refuses};
ghost use Rattle.vc_pkt.specs.StepView.{Gives};
ghost use Rattle.vc_fetch.specs.Advert.{AdvertText, HasShortNames, RefIds, SpellsAdvert, advert_lines, advert_of, advert_step, advert_step_own, before_nul, capabilities, is_break, is_name, is_ref, no_refs, one_more_ref, or_no_refs, ref_line, ref_lines, with_ref, written_ref, max_listed};
ghost use Rattle.vc_fetch.specs.AdvertView.{advert_state, advert_text, ref_ids};

use crate::ids::id_of;
use std::alloc::{AllocError, Global};
use std::collections::BTreeMap;
use vc_object::ObjectId;
use vc_pkt::{
    Line, MessageReader, PktError, PktFault, Step, read_message, without_lf, write_flush,
    write_text,
};

/// What is written after the first name: a NUL, and what the node can do.
const CAPABILITIES: &[u8] = b"\0report-status-v2 atomic";

/// The message that tells the refs of a node.
#[derive(Drop)]
pub struct Advert {
    /// The value of HEAD, where it has one.
    pub head: Option<ObjectId>,
    /// The ids of refs by name, in order of the names' bytes. Where the message was read, no name is empty,
    /// is `HEAD`, ends in `^{}`, or holds a NUL, an LF or a space.
    pub refs: BTreeMap<Vec<u8>, ObjectId>,
}

/// Reads an advertisement line by line.
#[derive(Drop)]
pub struct AdvertReader {
    /// Every name so far, that of HEAD and those that are passed over among them.
    pub listed: BTreeMap<Vec<u8>, ObjectId>,
}

/// Whether no name may hold the byte.
fn is_break(byte: u8) -> bool
    ensures { result ≡ is_break byte }
{
    byte == 0 || byte == b'\n' || byte == b' '
}

/// Whether it holds such a byte.
fn has_break(name: &[u8]) -> bool
    ensures { result ≡ list_any is_break name.now }
{
    name.iter().any(|byte| is_break(*byte))
}

/// Whether a ref in a message may have the name.
pub fn is_name(name: &[u8]) -> bool
    ensures { result ≡ is_name name.now }
{
    if name.is_empty() {
        return false;
    }
    !has_break(name)
}

/// What stands before the first NUL, or all.
pub fn before_nul(words: &[u8]) -> &[u8]
    ensures { result.now ≡ before_nul words.now }
{
    for (i, byte) in words.iter().enumerate() {
        if *byte == 0 {
            return &words[..i];
        }
    }
    words
}

/// The name and the id of a line. After the name of the first line there may be a NUL and capabilities.
#[tactic(auto, unfolding(crate::specs::Advert::ref_line))]
fn ref_line(is_first: bool, line: &[u8]) -> Option<(&[u8], ObjectId)>
    ensures { option_map (λ ref. (ref.0.now, ref.1)) result ≡ ref_line is_first line.now }
{
    let (digits, rest) = without_lf(line).split_at_checked(40)?;
    let id = id_of(digits)?;
    let words = rest.strip_prefix(b" ")?;
    let name = if is_first { before_nul(words) } else { words };
    if !is_name(name) {
        return None;
    }
    Some((name, id))
}

/// Whether a name in a line is a ref's, and not that of HEAD or of what a tag leads to.
fn is_ref(name: &[u8]) -> bool
    ensures { result ≡ is_ref name.now }
{
    if name == b"HEAD".as_slice() {
        return false;
    }
    !name.ends_with(b"^{}")
}

/// Adds the ref of a line, if the line has one and its name is new.
fn list_ref(
    alloc: Global,
    listed: &mut BTreeMap<Vec<u8>, ObjectId>,
    found: Option<(&[u8], ObjectId)>,
    number: u64,
) -> Result<(), PktError>
    ensures { Gives (λ _. onward (ref_ids listed.new)) result (one_more_ref number (ref_ids listed.old) (option_map (λ ref. (ref.0.now, ref.1)) found.entry)) }
{
    let Some((name, id)) = found else {
        return Err(PktError::Refused(PktFault::BadRecord(number)));
    };
    let before = listed.insert(name.to_vec(alloc)?, id)?;
    if before.is_some() {
        return Err(PktError::Refused(PktFault::BadRecord(number)));
    }
    Ok(())
}

/// What is advertised by lines with these names.
fn advert_of(listed: BTreeMap<Vec<u8>, ObjectId>) -> Advert
    ensures { advert_text result ≡ advert_of (ref_ids listed) }
{
    let head = listed.get(b"HEAD".as_slice()).copied();
    let mut refs = listed;
    refs.retain(|name: &Vec<u8>, _: &mut ObjectId| is_ref(name));
    Advert { head, refs }
}

impl MessageReader for AdvertReader {
    type Message = Advert;

    ghost State = { RefIds };

    ghost Text = { AdvertText };

    ghost state_of = { advert_state };

    ghost text_of = { advert_text };

    ghost start = { empty };

    ghost step = { advert_step };

    fn new(alloc: Global) -> AdvertReader {
        AdvertReader {
            listed: BTreeMap::new(alloc),
        }
    }

    fn take(
        self,
        alloc: Global,
        line: Line<'_>,
        number: u64,
    ) -> Result<Step<AdvertReader, Advert>, PktError> {
        let mut listed = self.listed;
        let Line::Data(data) = line else {
            if number == 0 {
                return Err(PktError::Refused(PktFault::BadRecord(number)));
            }
            return Ok(Step::Done(advert_of(listed)));
        };
        list_ref(alloc, &mut listed, ref_line(number == 0, data), number)?;
        Ok(Step::More(AdvertReader { listed }))
    }

    ghost line_faults = { advert_step_own };
}

/// Writes the line of a ref, with this tail after its name.
fn write_ref(out: &mut Vec<u8>, tail: &[u8], name: &[u8], id: ObjectId) -> Result<(), AllocError>
    requires short { length name.now + length tail.now ≤ 65474 }
    ensures { OnOk result (out.new.items ≡ out.old.items ++ spelling (written_ref tail.now (name.now, id))) }
{
    let mut words = Vec::new(*out.allocator());
    words.extend_from_slice(&id.to_hex())?;
    words.push(b' ')?;
    words.extend_from_slice(name)?;
    words.extend_from_slice(tail)?;
    write_text(out, &words)
}

/// Writes a line for each ref, the first with this tail after its name.
fn write_refs(
    out: &mut Vec<u8>,
    tail: &[u8],
    refs: &BTreeMap<Vec<u8>, ObjectId>,
) -> Result<(), AllocError>
    requires short { AllByRecursion (λ ref. length ref.0 ≤ max_listed) (entries (ref_ids refs.now)) }
    requires tail { length tail.now ≤ 24 }
    ensures { OnOk result (out.new.items ≡ out.old.items ++ flat_map spelling (ref_lines tail.now (entries (ref_ids refs.now)))) }
{
    let mut tail = tail;
    'refs: for (name, id) in refs {
        write_ref(out, tail, name, *id)?;
        tail = b"";
    }
    Ok(())
}

/// Writes a line for each ref, or one that names no ref.
fn write_refs_or_none(
    out: &mut Vec<u8>,
    refs: &BTreeMap<Vec<u8>, ObjectId>,
) -> Result<(), AllocError>
    requires short { AllByRecursion (λ ref. length ref.0 ≤ max_listed) (entries (ref_ids refs.now)) }
    ensures { OnOk result (out.new.items ≡ out.old.items ++ flat_map spelling (ref_lines capabilities (or_no_refs (entries (ref_ids refs.now))))) }
{
    if refs.is_empty() {
        return write_ref(out, CAPABILITIES, b"capabilities^{}", ObjectId::ZERO);
    }
    write_refs(out, CAPABILITIES, refs)
}

impl Advert {
    /// An advertisement of nothing.
    pub fn new(alloc: Global) -> Advert
        ensures none { advert_text result ≡ no_refs }
        ensures short { HasShortNames (advert_text result) }
    {
        Advert {
            head: None,
            refs: BTreeMap::new(alloc),
        }
    }

    /// Sets the id of a ref. If memory is short, nothing is changed.
    pub fn set(&mut self, alloc: Global, name: &[u8], id: ObjectId) -> Result<(), AllocError>
        ensures ok { OnOk result (advert_text self.new ≡ with_ref (advert_text self.old) name.now id) }
        ensures err { OnErr result (advert_text self.new ≡ advert_text self.old) }
        ensures short { length name.now ≤ max_listed → HasShortNames (advert_text self.old) → HasShortNames (advert_text self.new) }
    {
        self.refs.insert(name.to_vec(alloc)?, id)?;
        Ok(())
    }

    /// The message that is all of the bytes, or their first fault. A name that stands twice is a fault of its
    /// second line, also a name that is passed over.
    pub fn read(alloc: Global, bytes: &[u8]) -> Result<Advert, PktError>
        ensures spelled { IfOk result (λ advert. IsSpelledBy SpellsAdvert (advert_text advert) bytes.now) }
        ensures read { (advert : AdvertText) → IsSpelledBy SpellsAdvert advert bytes.now → Gives advert_text result (Ok advert) }
        ensures refused { IfErr result (Refuses advert_step empty bytes.now) }
    {
        read_message::<AdvertReader>(alloc, bytes)
    }

    /// The message as it is written: HEAD first, then the refs in order of the names' bytes, and
    /// `report-status-v2 atomic` after the first name.
    pub fn write(&self, alloc: Global) -> Result<Vec<u8>, AllocError>
        requires short { HasShortNames (advert_text self.now) }
        ensures { IfOk result (λ bytes. bytes.items ≡ flat_map spelling (advert_lines (advert_text self.now))) }
    {
        let mut bytes = Vec::new(alloc);
        match self.head {
            Some(id) => {
                write_ref(&mut bytes, CAPABILITIES, b"HEAD", id)?;
                write_refs(&mut bytes, b"", &self.refs)?;
            }
            None => write_refs_or_none(&mut bytes, &self.refs)?,
        }
        write_flush(&mut bytes)?;
        Ok(bytes)
    }
}

// HEAD: look and set.
ghost use Rattle.std.specs.Prelude.{◌≡◌, ◌⊎◌, IfOk, IfErr, IfSome, OnOk, string_bytes};
ghost use Rattle.vc_files.specs.Failures.{Wears, Writes};
ghost use Rattle.vc_refs.specs.declared.heads.HeadText.TheVariants.{Says};
ghost use Rattle.vc_refs.specs.Head.{head_of, head_text, name_said, read_head, IsHeadInRefs, IsLegalHead};
ghost use Rattle.vc_refs.specs.RefCalls.{SetsHead};
ghost use Rattle.vc_refs.specs.RefFault.{BlamesHead, IsFault, IsGoodHead, TellsDevice};

use crate::RefFault;
use crate::heads::{Head, HeadText};
use crate::loose::name_at;
use crate::text::{id_in, id_text, without_lf};
use std::alloc::{AllocError, Global};
use vc_files::Files;

// The path of HEAD's file.
const HEAD: &str = "HEAD";

// What HEAD is by the name that its text has after `ref: `.
fn head_named(alloc: Global, name: &[u8]) -> Result<HeadText, AllocError>
    ensures { IfOk result (λ text. text ≡ name_said name.now) }
{
    if name == HEAD.as_bytes() {
        return Ok(HeadText::NamesHead);
    }
    let Ok(path) = str::from_utf8(name) else {
        return Ok(HeadText::SaysNothing);
    };
    match name_at(alloc, path)? {
        Some(name) => Ok(HeadText::Says(Head::Branch(name))),
        None => Ok(HeadText::SaysNothing),
    }
}

// What the text of HEAD's file is.
fn read_head(alloc: Global, text: &[u8]) -> Result<HeadText, AllocError>
    ensures { IfOk result (λ read. read ≡ read_head text.now) }
{
    if let Some(name) = text.strip_prefix(b"ref: ") {
        let read = head_named(alloc, without_lf(name))?;
        return Ok(read);
    }
    match id_in(text) {
        Some(id) => Ok(HeadText::Says(Head::Id(id))),
        None => Ok(HeadText::SaysNothing),
    }
}

// The text that says this HEAD.
fn head_text(alloc: Global, head: &Head) -> Result<String, AllocError>
    requires { IsHeadInRefs head.now }
    ensures text { IfOk result (λ text. string_bytes text ≡ head_text head.now) }
    ensures read_back { IfOk result (λ text. read_head (string_bytes text) ≡ Says head.now) }
{
    match head {
        Head::Branch(name) => {
            let mut text = String::from_str(alloc, "ref: ")?;
            text.push_str(name.as_str())?;
            text.push('\n')?;
            Ok(text)
        }
        Head::Id(id) => {
            let text = id_text(alloc, &id.named())?;
            Ok(text)
        }
    }
}

/// What HEAD is, or none if its file isn't there, as in a repository that is not made yet.
pub fn head<F: Files>(files: &mut F, alloc: Global) -> Result<Option<Head>, RefFault>
    ensures found { F.honest → IfOk result (λ head. head ≡ head_of (F.content files.old)) }
    ensures inside { IfOk result (λ head. IfSome head IsHeadInRefs) }
    ensures good { F.honest → OnOk result (IsGoodHead (F.content files.old)) }
    ensures refused { F.honest → IfErr result (BlamesHead (F.content files.old)) }
    ensures same { F.content files.new ≡ F.content files.old }
    ensures wear { Wears F.failed F.can_fail F.left files.old files.new (TellsDevice result) }
{
    let Some(bytes) = files.get(alloc, HEAD)? else {
        return Ok(None);
    };
    match read_head(alloc, &bytes)? {
        HeadText::Says(head) => Ok(Some(head)),
        HeadText::NamesHead => Err(RefFault::HeadLoop),
        HeadText::SaysNothing => Err(RefFault::BadRefFile(String::from_str(alloc, HEAD)?)),
    }
}

/// Makes HEAD this ref, which need not be there, or this id. What HEAD was doesn't matter.
pub fn set_head<F: Files>(files: &mut F, alloc: Global, head: &Head) -> Result<(), RefFault>
    requires { IsHeadInRefs head.now }
    ensures sets { SetsHead F.honest F.content head.now files.old files.new result }
    ensures refused { IfErr result IsFault }
    ensures wear { Writes F.honest F.content F.failed F.can_fail F.left files.old files.new (TellsDevice result) }
    ensures looks { IsLegalHead head.now ⊎ Wears F.failed F.can_fail F.left files.old files.new (TellsDevice result) }
{
    let text = head_text(alloc, head)?;
    files.put(alloc, HEAD, text.as_bytes())?;
    Ok(())
}

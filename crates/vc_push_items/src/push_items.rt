//! What a push is to change, from the words of the command line.
ghost use Rattle.std.specs.Prelude.{◌≡◌, IfOk, IfErr, OnOk, map};
ghost use Rattle.vc_refname.specs.RefName.{IsRefName};
ghost use Rattle.vc_working.specs.CloneWords.{branch_ref};
ghost use Rattle.vc_push_items.specs.PushWords.{AreItemsFor, DeletesRef, IsItemFor, IsOfItemWord, IsOfItemWords, IsOfName, IsOfSet, SetsRef};
ghost use Rattle.vc_files.specs.Failures.{Wears};
ghost use Rattle.vc_cli.specs.Failure.{TellsDevice};

use std::alloc::Global;
use vc_cli::{Failure, resolve};
use vc_files::{Fault, Files};
use vc_refname::{NewNameError, RefName};
use vc_sending::PushItem;
use vc_transport::{ItemWords, item_words};

/// The items of a push, in the order of the words. The first word that is refused is told.
pub fn items_of<F: Files>(
    alloc: Global,
    files: &mut F,
    words: &[&str],
) -> Result<Vec<PushItem>, Failure>
    ensures items { F.honest → IfOk result (λ items. AreItemsFor (F.content files.old) (map (λ word. word.now) words.now) items.items) }
    ensures refused { F.honest → IfErr result (IsOfItemWords (F.content files.old) (map (λ word. word.now) words.now)) }
    ensures same { F.content files.new ≡ F.content files.old }
    ensures wear { Wears F.failed F.can_fail F.left files.old files.new (TellsDevice result) }
{
    let mut items = Vec::new(alloc);
    for word in words {
        let item = item_of(alloc, files, word)?;
        items.push(item)?;
    }
    Ok(items)
}

// The item that a word asks for.
fn item_of<F: Files>(alloc: Global, files: &mut F, word: &str) -> Result<PushItem, Failure>
    ensures item { F.honest → IfOk result (IsItemFor (F.content files.old) word.now) }
    ensures refused { F.honest → IfErr result (IsOfItemWord (F.content files.old) word.now) }
    ensures same { F.content files.new ≡ F.content files.old }
    ensures wear { Wears F.failed F.can_fail F.left files.old files.new (TellsDevice result) }
{
    match item_words(word) {
        ItemWords::Branch(branch) => set_branch(alloc, files, branch),
        ItemWords::Set { revision, name } => set_ref(alloc, files, revision, name),
        ItemWords::Delete { name } => delete_ref(alloc, name),
    }
}

// A branch is to have at the shared node what it has here.
fn set_branch<F: Files>(alloc: Global, files: &mut F, branch: &str) -> Result<PushItem, Failure>
    ensures item { F.honest → IfOk result (SetsRef (F.content files.old) (branch_ref branch.now) (branch_ref branch.now)) }
    ensures refused { F.honest → IfErr result (IsOfSet (F.content files.old) (branch_ref branch.now) (branch_ref branch.now)) }
    ensures same { F.content files.new ≡ F.content files.old }
    ensures wear { Wears F.failed F.can_fail F.left files.old files.new (TellsDevice result) }
{
    let name = format!(in alloc; "refs/heads/{branch}")?;
    set_ref(alloc, files, name.as_str(), name.as_str())
}

// A ref is to have what a revision has. A name that no ref may have is refused before a revision without a value.
fn set_ref<F: Files>(
    alloc: Global,
    files: &mut F,
    revision: &str,
    name: &str,
) -> Result<PushItem, Failure>
    ensures item { F.honest → IfOk result (SetsRef (F.content files.old) revision.now name.now) }
    ensures refused { F.honest → IfErr result (IsOfSet (F.content files.old) revision.now name.now) }
    ensures same { F.content files.new ≡ F.content files.old }
    ensures wear { Wears F.failed F.can_fail F.left files.old files.new (TellsDevice result) }
{
    let name = name_of(alloc, name)?;
    let id = resolve(alloc, files, revision)?;
    Ok(PushItem { id: Some(id), name })
}

// A ref is to go.
fn delete_ref(alloc: Global, name: &str) -> Result<PushItem, Failure>
    ensures item { IfOk result (DeletesRef name.now) }
    ensures refused { IfErr result (IsOfName name.now) }
{
    let name = name_of(alloc, name)?;
    Ok(PushItem { id: None, name })
}

// The name of a ref that the text is.
fn name_of(alloc: Global, text: &str) -> Result<RefName, Failure>
    ensures name { IfOk result (λ name. name ≡ text.now) }
    ensures refused { IfErr result (IsOfName text.now) }
    ensures legal { OnOk result (IsRefName text.now) }
{
    match RefName::new(alloc, text) {
        Ok(name) => Ok(name),
        Err(NewNameError::Refused(fault)) => Err(Failure::Name(fault)),
        Err(NewNameError::Memory) => Err(Failure::Fault(Fault::Memory)),
    }
}

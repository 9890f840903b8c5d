//! The store that a command works on, and what revisions name in it.
ghost use Rattle.std.specs.Prelude.{◌≡◌, Ok, IfOk, IfErr};
ghost use Rattle.vc_object.specs.ObjectId.{IsSortedByName};
ghost use Rattle.vc_cli.specs.Revisions.{Denoted, IsOfRevision, IsOfTerms, IsSelected};
ghost use Rattle.vc_files.specs.Failures.{Wears};
ghost use Rattle.vc_cli.specs.Failure.{IsFault, TellsDevice};
ghost use Rattle.vc_cli.specs.Stores.{IsUnopened};

use crate::failure::{Failure, fault_of};
use std::alloc::Global;
use std::io::ErrorKind;
use std::{fs, rt};
use vc_expression::{parse, parse_set};
use vc_files::Files;
use vc_folder::{FolderFiles, Syncs};
use vc_index::Index;
use vc_object::ObjectId;
use vc_refs::PackedCache;
use vc_repository::FileRepository;
use vc_rev_set::resolve_set;

/// The files of the store in this folder, which need not be there yet. A folder that Git made is refused.
pub fn open_store<R>(rt: &R, folder: &str) -> Result<FolderFiles<R>, Failure>
where
    R: rt::Files + Syncs<R::File> + AllocGlobal + Clone + Drop,
    ensures refused { IfErr result IsUnopened }
{
    refuse_store_of_git(rt, folder)?;
    let root = String::from_str(rt.alloc(), folder)?;
    Ok(FolderFiles::new(rt.clone()?, root))
}

/// Refuses a folder that Git made: what Git stores there is compressed, and its refs have rules of their own.
pub fn refuse_store_of_git<R>(rt: &R, folder: &str) -> Result<(), Failure>
where
    R: rt::Files + AllocGlobal,
    ensures refused { IfErr result IsUnopened }
{
    if is_of_git(rt, folder)? {
        return Err(Failure::Usage(format!(in rt.alloc();
            "{folder} is a repository that git made, and this is no git: name another folder by --store"
        )?));
    }
    Ok(())
}

/// Whether the folder has Git's file of settings, which begins with the section `core`. This program writes none.
pub fn is_of_git<R: rt::Files + AllocGlobal>(rt: &R, folder: &str) -> Result<bool, Failure>
    ensures fault { IfErr result IsFault }
{
    let path = format!(in rt.alloc(); "{folder}/config")?;
    match fs::read(rt, path.as_str()) {
        Ok(text) => Ok(text.trim_ascii_start().starts_with(b"[core]")),
        Err(error) => match error.kind() {
            ErrorKind::NotFound | ErrorKind::NotADirectory => Ok(false),
            _ => Err(Failure::Fault(fault_of(&error))),
        },
    }
}

/// The object that a revision names.
pub fn resolve<F: Files>(alloc: Global, files: &mut F, revision: &str) -> Result<ObjectId, Failure>
    ensures value { F.honest → IfOk result (λ id. Denoted (F.content files.old) revision.now (Ok id)) }
    ensures refused { F.honest → IfErr result (IsOfRevision (F.content files.old) revision.now) }
    ensures same { F.content files.new ≡ F.content files.old }
    ensures wear { Wears F.failed F.can_fail F.left files.old files.new (TellsDevice result) }
{
    resolve_bytes(alloc, files, revision.as_bytes())
}

/// The same, of a revision that need not be text.
pub fn resolve_bytes<F: Files>(
    alloc: Global,
    files: &mut F,
    revision: &[u8],
) -> Result<ObjectId, Failure>
    ensures value { F.honest → IfOk result (λ id. Denoted (F.content files.old) revision.now (Ok id)) }
    ensures refused { F.honest → IfErr result (IsOfRevision (F.content files.old) revision.now) }
    ensures same { F.content files.new ≡ F.content files.old }
    ensures wear { Wears F.failed F.can_fail F.left files.old files.new (TellsDevice result) }
{
    let expr = match parse(alloc, revision) {
        Ok(expr) => expr,
        Err(fault) => return Err(Failure::Syntax(fault)),
    };
    match vc_repository::resolve(alloc, files, &expr) {
        Ok(id) => Ok(id),
        Err(fault) => Err(Failure::Revision(fault)),
    }
}

/// The commits that some terms select, sorted by name.
pub fn select<F: Files>(
    alloc: Global,
    files: &mut F,
    terms: &[u8],
) -> Result<Vec<ObjectId>, Failure>
    ensures selected { F.honest → IfOk result (λ ids. IsSelected (F.content files.old) terms.now ids.items) }
    ensures sorted { IfOk result (λ ids. IsSortedByName ids.items) }
    ensures refused { F.honest → IfErr result (IsOfTerms (F.content files.old) terms.now) }
    ensures same { F.content files.new ≡ F.content files.old }
    ensures wear { Wears F.failed F.can_fail F.left files.old files.new (TellsDevice result) }
{
    let set = match parse_set(alloc, terms) {
        Ok(set) => set,
        Err(fault) => return Err(Failure::Syntax(fault)),
    };
    let index = Index::new(alloc);
    let mut packed = PackedCache::new(alloc);
    let mut repository = FileRepository::new(alloc, files, &index, &mut packed);
    match resolve_set(alloc, &mut repository, &set) {
        Ok(ids) => Ok(ids),
        Err(fault) => Err(Failure::Revision(fault)),
    }
}

//! Which word of a command line was refused. It is asked for on a terminal alone: what a revision has is looked up again.
ghost use Rattle.std.specs.Prelude.{◌≡◌, IfOk, IfSome};
ghost use Rattle.vc_cli.specs.Stores.{StoresStay};
ghost use Rattle.vc_reading.specs.Again.{IsRefusedRevision, IsRefusedTerms};

use crate::at_fault::{at_line, named_by};
use std::alloc::Global;
use vc_arguments::{LocalTask, Task};
use vc_cli::{Failure, Stores, resolve, select};
use vc_files::Files;

/// The words of a command line of which there may be many.
#[derive(Clone, Copy)]
pub struct Lists<'a> {
    /// The terms of a set, with a space between two.
    pub terms: &'a str,
    pub parents: &'a [&'a str],
    /// What a push asks for.
    pub items: &'a [&'a str],
    /// What is to be added.
    pub paths: &'a [&'a str],
}

/// The line of what a refusal is about: what it names itself, else the word of the command line that was refused, if there is one.
pub fn line_of_refusal<S: Stores>(
    alloc: Global,
    stores: &mut S,
    store: &str,
    task: Task<'_>,
    lists: Lists<'_>,
    failure: &Failure,
) -> Result<Option<Vec<u8>>, Failure>
    ensures same { StoresStay (S.content stores.old) (S.content stores.new) }
{
    if failure.status() != 1 {
        return Ok(None);
    }
    if let Some(place) = named_by(alloc, failure)? {
        return Ok(Some(at_line(alloc, &place)?));
    }
    match word_of(alloc, stores, store, task, lists, failure)? {
        Some(word) => Ok(Some(at_line(alloc, word)?)),
        None => Ok(None),
    }
}

// The word of the command line that was refused, if it was a word.
fn word_of<'a, S: Stores>(
    alloc: Global,
    stores: &mut S,
    store: &str,
    task: Task<'a>,
    lists: Lists<'a>,
    failure: &Failure,
) -> Result<Option<&'a [u8]>, Failure>
    ensures same { StoresStay (S.content stores.old) (S.content stores.new) }
{
    match task {
        Task::MergeBase { first, second } => { revision_in(alloc, stores, store, &[first, second]) }
        Task::RevList => term_in(alloc, stores, store, lists.terms),
        Task::Local(LocalTask::Commit(words)) => {
            if let Failure::Node(_) = failure {
                return Ok(long_name(words.author, words.committer));
            }
            revision_in(alloc, stores, store, lists.parents)
        }
        Task::HashObject { file, .. } => match file {
            Some(path) => Ok(Some(path.as_bytes())),
            None => Ok(None),
        },
        Task::CatFile { revision, .. } => Ok(Some(revision.as_bytes())),
        Task::RevParse { revision } => Ok(Some(revision.as_bytes())),
        Task::Local(LocalTask::Add { .. }) => Ok(only_word(lists.paths)),
        Task::Local(task) => Ok(local_word(task, failure)),
        // A push may have many items, and which one was refused isn't looked up again.
        Task::Remote(_) => Ok(None),
        Task::World { file } => Ok(Some(file.as_bytes())),
        Task::Init => Ok(None),
        Task::ShowRef => Ok(None),
        Task::Prune { .. } => Ok(None),
    }
}

// The first of the revisions that has no value in this store.
fn revision_in<'a, S: Stores>(
    alloc: Global,
    stores: &mut S,
    store: &str,
    revisions: &[&'a str],
) -> Result<Option<&'a [u8]>, Failure>
    ensures refused { S.Files.honest → IfOk result (λ found. IfSome found (λ word. IsRefusedRevision (S.content stores.old store.now) word.now)) }
    ensures same { StoresStay (S.content stores.old) (S.content stores.new) }
{
    let mut files = stores.open(store)?;
    let word = refused_revision(alloc, &mut files, revisions);
    stores.close(store, files);
    Ok(word)
}

// The first of the terms that selects nothing in this store because it is refused.
fn term_in<'a, S: Stores>(
    alloc: Global,
    stores: &mut S,
    store: &str,
    terms: &'a str,
) -> Result<Option<&'a [u8]>, Failure>
    ensures refused { S.Files.honest → IfOk result (λ found. IfSome found (λ word. IsRefusedTerms (S.content stores.old store.now) word.now)) }
    ensures same { StoresStay (S.content stores.old) (S.content stores.new) }
{
    let mut files = stores.open(store)?;
    let word = refused_term(alloc, &mut files, terms);
    stores.close(store, files);
    Ok(word)
}

// Of an author and a committer the first that has more than one line.
fn long_name<'a>(author: &'a [u8], committer: &'a [u8]) -> Option<&'a [u8]> {
    if author.contains(&b'\n') {
        Some(author)
    } else if committer.contains(&b'\n') {
        Some(committer)
    } else {
        None
    }
}

// The only one of the words; none where there are others, since which one was refused isn't looked up again.
fn only_word<'a>(words: &[&'a str]) -> Option<&'a [u8]> {
    match words {
        [word] => Some(word.as_bytes()),
        _ => None,
    }
}

// The one word of a clone's subcommand that can be refused so.
fn local_word<'a>(task: LocalTask<'a>, failure: &Failure) -> Option<&'a [u8]> {
    match task {
        LocalTask::Add { .. } => None,
        LocalTask::Unstage { path } => Some(path.as_bytes()),
        LocalTask::Branch { name, revision } => match failure {
            Failure::Name(_) => Some(name.as_bytes()),
            _ => Some(revision.as_bytes()),
        },
        LocalTask::BranchDelete { name } => Some(name.as_bytes()),
        LocalTask::Checkout { revision, .. } => Some(revision.as_bytes()),
        LocalTask::PackRefs => None,
        LocalTask::WriteTree => None,
        LocalTask::Commit(_) => None,
        LocalTask::Status { .. } => None,
    }
}

// The first of the revisions that has no value; none where each has one, or where that can't be seen.
fn refused_revision<'a, F: Files>(
    alloc: Global,
    files: &mut F,
    revisions: &[&'a str],
) -> Option<&'a [u8]>
    ensures refused { F.honest → IfSome result (λ word. IsRefusedRevision (F.content files.old) word.now) }
    ensures same { F.content files.new ≡ F.content files.old }
{
    for revision in revisions {
        if let Err(failure) = resolve(alloc, files, revision) {
            return if failure.status() == 1 {
                Some(revision.as_bytes())
            } else {
                None
            };
        }
    }
    None
}

// The first of the terms that selects nothing because it is refused; none where no term is.
fn refused_term<'a, F: Files>(alloc: Global, files: &mut F, terms: &'a str) -> Option<&'a [u8]>
    ensures refused { F.honest → IfSome result (λ word. IsRefusedTerms (F.content files.old) word.now) }
    ensures same { F.content files.new ≡ F.content files.old }
{
    for term in terms.split(' ') {
        if let Err(failure) = select(alloc, files, term.as_bytes()) {
            return if failure.status() == 1 {
                Some(term.as_bytes())
            } else {
                None
            };
        }
    }
    None
}

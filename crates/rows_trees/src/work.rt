//! Rows about a work tree: its files and folders, checkouts and what differs.
use crate::bench::{Bench, Device, Host, Repository};
use crate::index::refusal;
use crate::scene::Scene;
use crate::words::{bytes, cut, digits, escaped, id_of, or_word, push_item};
use anyhow::{Error, Result, anyhow, bail};
use std::alloc::{AllocError, Global};
use std::{fs, io};
use vc_checkout::{Change, CheckoutFault, IndexChange, WorkChange};
use vc_index::Index;
use vc_object::ObjectId;
use vc_work_tree::{MemoryTree, WorkTree};

pub fn row<R: Host>(bench: &mut Bench<R>, row: &str) -> Result<String> {
    let (verb, rest) = cut(row);
    match verb {
        "folder" => {
            new_folder(&bench.rt)?;
            bench.scene.start(bench.rt.alloc(), true);
            fill(bench.rt.alloc(), &mut bench.scene, rest)
        }
        "checkout" => checkout(
            &mut bench.scene,
            &mut bench.repository,
            &mut bench.index,
            rest,
        ),
        "status" => status(&mut bench.scene, &mut bench.repository, &bench.index, rest),
        _ => own_row(bench.rt.alloc(), &mut bench.scene, verb, rest),
    }
}

// A row about the work tree alone.
fn own_row<R: Host>(alloc: Global, scene: &mut Scene<R>, verb: &str, rest: &str) -> Result<String> {
    match verb {
        "memory" => {
            scene.start(alloc, false);
            return fill(alloc, scene, rest);
        }
        "fail-after" => scene.fail_after(rest.parse::<u64>()?),
        "files" => return files(alloc, scene),
        "has-folder" => return truth(alloc, scene.has_folder(rest)),
        "failures" => return failures(alloc, scene),
        _ => return call(alloc, scene, verb, rest),
    }
    Ok(String::new(alloc))
}

// A call of the work tree.
fn call<R: Host>(alloc: Global, scene: &mut Scene<R>, verb: &str, rest: &str) -> Result<String> {
    let (path, text) = cut(rest);
    let changed = match verb {
        "read" => match scene.read(alloc, path)? {
            Some(text) => return Ok(escaped(alloc, &text)?),
            None => bail!("none"),
        },
        "name" => match scene.name(alloc, path)? {
            Some(id) => return Ok(digits(alloc, id)?),
            None => bail!("none"),
        },
        "remove-folder" => return truth(alloc, scene.remove_folder(alloc, path)?),
        "write" => scene.write(alloc, path, &bytes(alloc, text)?),
        "remove" => scene.remove(alloc, path),
        "make-folder" => scene.make_folder(alloc, path),
        _ => bail!("no such row"),
    };
    changed?;
    Ok(String::new(alloc))
}

fn truth(alloc: Global, holds: bool) -> Result<String> {
    Ok(String::from_str(alloc, if holds { "yes" } else { "no" })?)
}

// Makes the folder `work`, in place of what it was.
fn new_folder<R: Host>(rt: &R) -> io::Result<()> {
    if fs::exists(rt, "work")? {
        fs::remove_dir_all(rt, "work")?;
    }
    fs::create_dir(rt, "work")
}

// Writes some files, each a path, `=` and the content, into a new work tree.
fn fill<R: Host>(alloc: Global, scene: &mut Scene<R>, items: &str) -> Result<String> {
    for item in items.split(" | ") {
        if let Some((path, text)) = item.split_once('=') {
            scene.write(alloc, path, &bytes(alloc, text)?)?;
        }
    }
    Ok(String::new(alloc))
}

// How often calls failed, and how often the folder did.
fn failures<R: Host>(alloc: Global, scene: &Scene<R>) -> Result<String> {
    let (all, disk) = (scene.failures(), scene.folder_failures());
    Ok(format!(in alloc; "{all}, and {disk} in the folder")?)
}

// The files of the work tree and their contents.
fn files<R: Host>(alloc: Global, scene: &mut Scene<R>) -> Result<String> {
    let mut list = String::new(alloc);
    for path in &scene.list(alloc)? {
        push_file(&mut list, alloc, scene, path.as_str())?;
    }
    Ok(or_word(list, "none")?)
}

fn push_file<R: Host>(
    list: &mut String,
    alloc: Global,
    scene: &mut Scene<R>,
    path: &str,
) -> Result<()> {
    let Some(text) = scene.read(alloc, path)? else {
        bail!("{path} is listed and not there");
    };
    let text = escaped(alloc, &text)?;
    let item = format!(in alloc; "{path}={text}")?;
    push_item(list, " | ", item.as_str())?;
    Ok(())
}

// The words of what refused a call, with the path.
fn refused(alloc: Global, fault: CheckoutFault) -> Error {
    let (word, path) = match fault {
        CheckoutFault::Index(fault) => return refusal(alloc, fault),
        CheckoutFault::LocalChange(path) => ("70 LocalChange", path),
        CheckoutFault::InTheWay(path) => ("71 InTheWay", path),
        CheckoutFault::BadPath(path) => ("60 BadPath", path),
        CheckoutFault::NotText(path) => ("72 NotText", path),
    };
    match escaped(alloc, &path) {
        Ok(path) => anyhow!("{word} {path}"),
        Err(fault) => fault.into(),
    }
}

// Brings the work tree to the files that a tree lists, and answers these.
fn check_out<R: Host>(
    alloc: Global,
    scene: &mut Scene<R>,
    files: &mut Device,
    index: &Index,
    tree: &ObjectId,
) -> Result<Index, CheckoutFault> {
    let tree = Index::list_tree(alloc, files, tree)?;
    match vc_checkout::checkout(alloc, scene, files, index, &tree) {
        Ok(()) => Ok(tree),
        Err(fault) => Err(fault),
    }
}

// Brings the work tree to a tree, and answers which files it then has, also where it was refused or a call failed.
fn checkout<R: Host>(
    scene: &mut Scene<R>,
    repository: &mut Repository,
    index: &mut Index,
    tree: &str,
) -> Result<String> {
    let alloc = repository.alloc;
    let tree = id_of(&repository.names, tree)?;
    let done = check_out(alloc, scene, &mut repository.files, index, &tree);
    scene.fail_after(u64::MAX);
    outcome(alloc, scene, index, done)
}

// The files that are there then, after what refused the call.
fn outcome<R: Host>(
    alloc: Global,
    scene: &mut Scene<R>,
    index: &mut Index,
    done: Result<Index, CheckoutFault>,
) -> Result<String> {
    let files = files(alloc, scene)?;
    match done {
        Ok(tree) => {
            *index = tree;
            Ok(files)
        }
        Err(fault) => {
            let fault = refused(alloc, fault);
            Ok(format!(in alloc; "{fault}: {files}")?)
        }
    }
}

fn status<R: Host>(
    scene: &mut Scene<R>,
    repository: &mut Repository,
    index: &Index,
    tree: &str,
) -> Result<String> {
    let alloc = repository.alloc;
    let tree = match tree {
        "" => None,
        word => Some(id_of(&repository.names, word)?),
    };
    match vc_checkout::status(alloc, scene, &mut repository.files, index, tree) {
        Ok(changes) => Ok(letters(alloc, &changes)?),
        Err(fault) => Err(refused(alloc, fault)),
    }
}

// The changes, each as a letter for the index, one for the work tree, and the path.
fn letters(alloc: Global, changes: &[Change]) -> Result<String, AllocError> {
    let mut list = String::new(alloc);
    for change in changes {
        push_change(&mut list, alloc, change)?;
    }
    or_word(list, "nothing differs")
}

fn push_change(list: &mut String, alloc: Global, change: &Change) -> Result<(), AllocError> {
    let path = escaped(alloc, &change.path)?;
    let (index, work) = (index_letter(change.index), work_letter(change.work));
    let item = format!(in alloc; "{index}{work} {path}")?;
    push_item(list, " | ", item.as_str())
}

fn index_letter(change: IndexChange) -> char {
    match change {
        IndexChange::Same => '.',
        IndexChange::Added => 'A',
        IndexChange::Removed => 'D',
        IndexChange::Changed => 'M',
    }
}

fn work_letter(change: WorkChange) -> char {
    match change {
        WorkChange::Same => '.',
        WorkChange::Gone => 'D',
        WorkChange::Changed => 'M',
        WorkChange::Untracked => '?',
    }
}

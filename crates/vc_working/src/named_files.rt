//! Which files of a work tree the words of a command line name.
ghost use Rattle.std.specs.Prelude.{◌≡◌, ◌≢◌, ◌++◌, [], ◌∷◌, IfOk, IfErr, IsErrOf, OnOk, is_some, map, filter, string_bytes, false};
ghost use Rattle.std.specs.FinMap as maps;
ghost use Rattle.std.specs.List.{AllByRecursion, flat_map};
ghost use Rattle.vc_index.specs.Path.{IsPath};
ghost use Rattle.vc_checkout.specs.Steps.{IsUntouched};
ghost use Rattle.vc_work_folder.specs.Own.{is_own};
ghost use Rattle.vc_working.specs.Naming.{IsAbsentOr, IsListing, IsListingIf, IsOfPath, Names, RefusesWord, RefusesWords, files_below, files_named_by, is_below, spelled_path};
ghost use Rattle.vc_files.specs.Failures.{Wears};
ghost use Rattle.vc_cli.specs.Failure.{TellsDevice};

use std::alloc::{AllocError, Global};
use vc_cli::Failure;
use vc_files::Fault;
use vc_index::{Index, IndexFault};
use vc_local::NodeFault;
use vc_object::{Mode, ObjectId};
use vc_work_folder::is_own;
use vc_work_tree::WorkTree;

// Refuses a path that no index may have, or that lies in the store's own folder.
fn refuse_path(alloc: Global, own: &[u8], path: &[u8]) -> Result<(), Failure>
    ensures legal { OnOk result (IsPath path.now) }
    ensures outside { OnOk result (is_own own.now path.now ≡ false) }
    ensures refused { IfErr result (IsOfPath own.now path.now) }
{
    if is_own(own, path) {
        return Err(Failure::Node(NodeFault::BadPath));
    }
    match Index::new(alloc).add(alloc, path, Mode::File, ObjectId::ZERO) {
        Ok(()) => Ok(()),
        Err(IndexFault::BadPath) => Err(Failure::Node(NodeFault::BadPath)),
        // An index with no files has none in the way, so it was memory.
        Err(_) => Err(Failure::Fault(Fault::Memory)),
    }
}

// The path that a word spells, but for a slash at its end.
fn spelled_path(word: &[u8]) -> &[u8]
    ensures { result.now ≡ spelled_path word.now }
{
    if word.ends_with(b"/") {
        return word.split_at(word.len() - 1).0;
    }
    word
}

// What the path of each file in the folder that a word spells begins with.
fn start_of(alloc: Global, word: &[u8]) -> Result<Vec<u8>, AllocError>
    ensures { IfOk result (λ start. start.items ≡ spelled_path word.now ++ 47 ∷ []) }
{
    let mut start = spelled_path(word).to_vec(alloc)?;
    start.push(b'/')?;
    Ok(start)
}

// Whether the work tree has a file at the path.
fn has_file<W: WorkTree>(alloc: Global, work: &mut W, path: &str) -> Result<bool, Fault>
    ensures found { W.honest → IfOk result (λ found. found ≡ is_some (maps.get (W.content work.old) path.now)) }
    ensures untouched { IsUntouched W.content W.folders work.old work.new }
    ensures wear { Wears W.failed W.can_fail W.left work.old work.new (IsErrOf result Fault.Device) }
{
    let found = work.read(alloc, path)?;
    Ok(found.is_some())
}

// The paths of all files of the work tree, which is listed where that was not done before.
fn list_once<W: WorkTree>(
    alloc: Global,
    work: &mut W,
    listed: Option<Vec<String>>,
) -> Result<Vec<String>, Fault>
    requires { W.honest → IsListingIf (W.content work.old) listed }
    ensures all { W.honest → IfOk result (IsListing (W.content work.old)) }
    ensures untouched { IsUntouched W.content W.folders work.old work.new }
    ensures wear { Wears W.failed W.can_fail W.left work.old work.new (IsErrOf result Fault.Device) }
{
    match listed {
        Some(all) => Ok(all),
        None => {
            let all = work.list(alloc)?;
            Ok(all)
        }
    }
}

// Whether the path begins so and lies outside the store's own folder.
fn is_below(own: &[u8], start: &[u8], path: &[u8]) -> bool
    ensures { result ≡ is_below own.now start.now path.now }
{
    path.starts_with(start) && !is_own(own, path)
}

// Adds those of the paths that begin so and lie outside the store's own folder.
fn push_below(
    alloc: Global,
    all: &[String],
    own: &[u8],
    start: &[u8],
    paths: &mut Vec<String>,
) -> Result<(), AllocError>
    ensures { OnOk result (map string_bytes paths.new.items ≡ map string_bytes paths.old.items ++ filter (is_below own.now start.now) (map string_bytes all.now)) }
{
    for path in all {
        if is_below(own, start, path.as_str().as_bytes()) {
            paths.push(String::from_str(alloc, path.as_str())?)?;
        }
    }
    Ok(())
}

// Adds the files of the work tree whose paths begin so; there is one at least. The listing is handed on.
fn add_below<W: WorkTree>(
    alloc: Global,
    work: &mut W,
    own: &[u8],
    start: &[u8],
    listed: Option<Vec<String>>,
    paths: &mut Vec<String>,
) -> Result<Option<Vec<String>>, Failure>
    requires { W.honest → IsListingIf (W.content work.old) listed }
    ensures added { W.honest → OnOk result (map string_bytes paths.new.items ≡ map string_bytes paths.old.items ++ files_below (W.content work.old) own.now start.now) }
    ensures some { W.honest → OnOk result (files_below (W.content work.old) own.now start.now ≢ []) }
    ensures listed { W.honest → IfOk result (IsListingIf (W.content work.old)) }
    ensures refused { W.honest → IfErr result (λ e. IsAbsentOr (files_below (W.content work.old) own.now start.now) e) }
    ensures untouched { IsUntouched W.content W.folders work.old work.new }
    ensures wear { Wears W.failed W.can_fail W.left work.old work.new (TellsDevice result) }
{
    let before = paths.len();
    let all = list_once(alloc, work, listed)?;
    push_below(alloc, &all, own, start, paths)?;
    if paths.len() == before {
        return Err(Failure::NoSuchPath);
    }
    Ok(Some(all))
}

// Adds the files that a word names: the one at its path, or those in its folder; `.` names all. The listing of the work
// tree is handed on.
fn add_named<W: WorkTree>(
    alloc: Global,
    work: &mut W,
    own: &[u8],
    word: &str,
    listed: Option<Vec<String>>,
    paths: &mut Vec<String>,
) -> Result<Option<Vec<String>>, Failure>
    requires { W.honest → IsListingIf (W.content work.old) listed }
    ensures added { W.honest → OnOk result (map string_bytes paths.new.items ≡ map string_bytes paths.old.items ++ files_named_by (W.content work.old) own.now word.now) }
    ensures names { W.honest → OnOk result (Names (W.content work.old) own.now word.now) }
    ensures listed { W.honest → IfOk result (IsListingIf (W.content work.old)) }
    ensures refused { W.honest → IfErr result (RefusesWord (W.content work.old) own.now word.now) }
    ensures untouched { IsUntouched W.content W.folders work.old work.new }
    ensures wear { Wears W.failed W.can_fail W.left work.old work.new (TellsDevice result) }
{
    if word == "." {
        return add_below(alloc, work, own, b"", listed, paths);
    }
    refuse_path(alloc, own, spelled_path(word.as_bytes()))?;
    if has_file(alloc, work, word)? {
        paths.push(String::from_str(alloc, word)?)?;
        return Ok(listed);
    }
    let start = start_of(alloc, word.as_bytes())?;
    add_below(alloc, work, own, &start, listed, paths)
}

/// The paths of the files that the words name, in their order: a word names the file at its path, or all files in the folder of
/// that path, which may have a slash at its end, in the order of the bytes of their paths; `.` names all files of the work tree.
/// What lies in the store's own folder is no part of it. Of the first word at fault, a path that no index may have, or that lies
/// in the store's own folder, is refused (60) before one at which no file is (56).
pub fn paths_named<W: WorkTree>(
    alloc: Global,
    work: &mut W,
    own: &[u8],
    words: &[&str],
) -> Result<Vec<String>, Failure>
    ensures named { W.honest → IfOk result (λ paths. map string_bytes paths.items ≡ flat_map (files_named_by (W.content work.old) own.now) (map (λ word. word.now) words.now)) }
    ensures names { W.honest → OnOk result (AllByRecursion (Names (W.content work.old) own.now) (map (λ word. word.now) words.now)) }
    ensures refused { W.honest → IfErr result (RefusesWords (W.content work.old) own.now (map (λ word. word.now) words.now)) }
    ensures untouched { IsUntouched W.content W.folders work.old work.new }
    ensures wear { Wears W.failed W.can_fail W.left work.old work.new (TellsDevice result) }
{
    let mut paths = Vec::new(alloc);
    let mut listed = None;
    for word in words {
        listed = add_named(alloc, work, own, word, listed, &mut paths)?;
    }
    Ok(paths)
}

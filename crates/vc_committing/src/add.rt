//! What `add` does to a node: it stages the files of a work tree that words name.
ghost use Rattle.std.specs.Prelude.{◌≡◌, ◌≢◌, [], ◌∷◌, true, IfOk, IfErr, OnOk, IsSome, map, string_bytes};
ghost use Rattle.std.specs.FinMap as maps;
ghost use Rattle.std.specs.List.{All};
ghost use Rattle.vc_arguments.specs.Modes.{mode_of};
ghost use Rattle.vc_index.specs.IndexMap.{HasConflict, index_entry};
ghost use Rattle.vc_index.specs.Path.{IsPath};
ghost use Rattle.vc_object.specs.Object.{IsObject};
ghost use Rattle.vc_checkout.specs.Steps.{IsUntouched};
ghost use Rattle.vc_local.specs.Staging.{MayStandAll, file_placed};
ghost use Rattle.vc_committing.specs.Adding.{AddsInto, AddsTo, AreBlobs, AreNamed, IsNamed, IsOfAdding, IsOfFile, IsOfStoring, RefusesFiles, RefusesInto, StoresInto, file_at, files_at};
ghost use Rattle.vc_working.specs.Devices.{WritesEither};
ghost use Rattle.vc_files.specs.Failures.{Wears};
ghost use Rattle.vc_cli.specs.Failure.{TellsDevice};

use std::alloc::Global;
use vc_arguments::FileMode;
use vc_cli::Failure;
use vc_files::Files;
use vc_index::Index;
use vc_local::Staged;
use vc_node::CloneNode;
use vc_object::{Kind, Mode, ObjectId};
use vc_work_tree::WorkTree;
use vc_working::paths_named;

// Refuses a file of the work tree that may not be staged beside those of the index, or is too large; the index has its path then.
fn check_file<W: WorkTree>(
    alloc: Global,
    index: &mut Index,
    work: &mut W,
    mode: Mode,
    path: &str,
) -> Result<(), Failure>
    requires file { mode ≢ Mode.Tree }
    requires there { W.honest → IsSome (maps.get (W.content work.old) path.now) }
    ensures added { OnOk result (index.new ≡ maps.insert index.old path.now (index_entry mode ObjectId.ZERO)) }
    ensures legal { OnOk result (IsPath path.now) }
    ensures free { OnOk result (¬ (HasConflict index.old path.now)) }
    ensures blob { W.honest → OnOk result (IsObject Kind.Blob (file_at (W.content work.old) mode path.now).body) }
    ensures refused { W.honest → IfErr result (IsOfFile index.old (file_at (W.content work.old) mode path.now)) }
    ensures untouched { IsUntouched W.content W.folders work.old work.new }
    ensures wear { Wears W.failed W.can_fail W.left work.old work.new (TellsDevice result) }
{
    index.add(alloc, path.as_bytes(), mode, ObjectId::ZERO)?;
    let Some(bytes) = work.read(alloc, path)? else {
        return Err(Failure::NoSuchPath);
    };
    vc_object::check(Kind::Blob, &bytes)?;
    Ok(())
}

// Refuses the first of the files that may not be staged behind those before it.
fn check_files<W: WorkTree>(
    alloc: Global,
    index: &mut Index,
    work: &mut W,
    mode: Mode,
    paths: &[String],
) -> Result<(), Failure>
    requires file { mode ≢ Mode.Tree }
    requires there { W.honest → All (λ path. IsSome (maps.get (W.content work.old) (string_bytes path))) paths.now }
    ensures may { W.honest → OnOk result (MayStandAll index.old (map file_placed (files_at (W.content work.old) mode paths.now))) }
    ensures blobs { W.honest → OnOk result (AreBlobs (files_at (W.content work.old) mode paths.now)) }
    ensures refused { W.honest → IfErr result (RefusesFiles index.old (files_at (W.content work.old) mode paths.now)) }
    ensures untouched { IsUntouched W.content W.folders work.old work.new }
    ensures wear { Wears W.failed W.can_fail W.left work.old work.new (TellsDevice result) }
{
    for path in paths {
        check_file(alloc, index, work, mode, path.as_str())?;
    }
    Ok(())
}

// Stores the blob of a file, whose path and mode are handed on with its name.
fn store_file<F: Files, W: WorkTree>(
    alloc: Global,
    node: &mut CloneNode<F>,
    work: &mut W,
    mode: Mode,
    path: &str,
) -> Result<Staged, Failure>
    requires up { node.old.is_up ≡ true }
    requires there { W.honest → IsSome (maps.get (W.content work.old) path.now) }
    requires blob { W.honest → IsObject Kind.Blob (file_at (W.content work.old) mode path.now).body }
    ensures named { W.honest → IfOk result (λ staged. IsNamed staged (file_at (W.content work.old) mode path.now)) }
    ensures mode { IfOk result (λ staged. staged.mode ≡ mode) }
    ensures stored { W.honest → F.honest → OnOk result (StoresInto F.content (file_at (W.content work.old) mode path.now ∷ []) node.old node.new) }
    ensures up { OnOk result (node.new.is_up ≡ true) }
    ensures refused { W.honest → F.honest → IfErr result (IsOfStoring (file_at (W.content work.old) mode path.now ∷ []) (F.content node.old.files) (F.content node.new.files)) }
    ensures untouched { IsUntouched W.content W.folders work.old work.new }
    ensures wear { WritesEither W.failed W.can_fail W.left F.honest F.content F.failed F.can_fail F.left work.old work.new node.old.files node.new.files (TellsDevice result) }
{
    let Some(bytes) = work.read(alloc, path)? else {
        return Err(Failure::NoSuchPath);
    };
    let id = node.write(Kind::Blob, &bytes)?;
    let path = path.as_bytes().to_vec(alloc)?;
    Ok(Staged { path, mode, id })
}

// Stores the blobs of the files, one after the other.
fn store_files<F: Files, W: WorkTree>(
    alloc: Global,
    node: &mut CloneNode<F>,
    work: &mut W,
    mode: Mode,
    paths: &[String],
) -> Result<Vec<Staged>, Failure>
    requires file { mode ≢ Mode.Tree }
    requires up { node.old.is_up ≡ true }
    requires there { W.honest → All (λ path. IsSome (maps.get (W.content work.old) (string_bytes path))) paths.now }
    requires blobs { W.honest → AreBlobs (files_at (W.content work.old) mode paths.now) }
    ensures named { W.honest → IfOk result (λ staged. AreNamed staged.items (files_at (W.content work.old) mode paths.now)) }
    ensures files { IfOk result (λ staged. All (λ file. file.mode ≢ Mode.Tree) staged.items) }
    ensures stored { W.honest → F.honest → OnOk result (StoresInto F.content (files_at (W.content work.old) mode paths.now) node.old node.new) }
    ensures up { OnOk result (node.new.is_up ≡ true) }
    ensures refused { W.honest → F.honest → IfErr result (IsOfStoring (files_at (W.content work.old) mode paths.now) (F.content node.old.files) (F.content node.new.files)) }
    ensures untouched { IsUntouched W.content W.folders work.old work.new }
    ensures wear { WritesEither W.failed W.can_fail W.left F.honest F.content F.failed F.can_fail F.left work.old work.new node.old.files node.new.files (TellsDevice result) }
{
    let mut staged = Vec::new(alloc);
    for path in paths {
        let file = store_file(alloc, node, work, mode, path.as_str())?;
        staged.push(file)?;
    }
    Ok(staged)
}

/// Stages the files of the work tree that the words name (see [`paths_named`]), each with this mode. Before anything is written, the
/// words are looked at, and then each file, in their order: beside the files of the index and those before it, a path that no index
/// may have (60), then a conflict (61), then bytes that are too large (3) refuse all. The blobs are stored then, and all files
/// put into the index by one write; a fault before that leaves blobs at most. `own` is the path of the store's folder in the work
/// tree, empty where it lies elsewhere.
pub fn add_all<F: Files, W: WorkTree>(
    alloc: Global,
    node: &mut CloneNode<F>,
    work: &mut W,
    own: &[u8],
    mode: FileMode,
    words: &[&str],
) -> Result<(), Failure>
    ensures added { W.honest → F.honest → OnOk result (AddsInto F.content (W.content work.old) own.now (mode_of mode) (map (λ word. word.now) words.now) node.old node.new) }
    ensures refused { W.honest → F.honest → IfErr result (RefusesInto F.content (W.content work.old) own.now (mode_of mode) (map (λ word. word.now) words.now) node.old node.new) }
    ensures untouched { IsUntouched W.content W.folders work.old work.new }
    ensures wear { WritesEither W.failed W.can_fail W.left F.honest F.content F.failed F.can_fail F.left work.old work.new node.old.files node.new.files (TellsDevice result) }
{
    let paths = paths_named(alloc, work, own, words)?;
    let mut index = node.index()?;
    check_files(alloc, &mut index, work, mode.mode(), &paths)?;
    let staged = store_files(alloc, node, work, mode.mode(), &paths)?;
    node.stage_all(&staged)?;
    Ok(())
}

/// Opens the files as a clone's, and stages the files of the work tree that the words name, as [`add_all`] does. The files are handed back.
pub fn add_to<F: Files, W: WorkTree>(
    alloc: Global,
    files: F,
    work: &mut W,
    own: &[u8],
    mode: FileMode,
    words: &[&str],
) -> (F, Result<(), Failure>)
    ensures added { W.honest → F.honest → OnOk result.1 (AddsTo (W.content work.old) own.now (mode_of mode) (map (λ word. word.now) words.now) (F.content files) (F.content result.0)) }
    ensures refused { W.honest → F.honest → IfErr result.1 (IsOfAdding (W.content work.old) own.now (mode_of mode) (map (λ word. word.now) words.now) (F.content files) (F.content result.0)) }
    ensures untouched { IsUntouched W.content W.folders work.old work.new }
    ensures wear { WritesEither W.failed W.can_fail W.left F.honest F.content F.failed F.can_fail F.left work.old work.new files result.0 (TellsDevice result.1) }
{
    let mut node = match CloneNode::open(alloc, files) {
        Ok(node) => node,
        Err((files, fault)) => return (files, Err(Failure::Node(fault))),
    };
    let done = add_all(alloc, &mut node, work, own, mode, words);
    (node.close(), done)
}

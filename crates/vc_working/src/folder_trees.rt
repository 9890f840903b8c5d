//! Work trees in real folders. Nothing is claimed of a disk.
ghost use Rattle.std.specs.FinMap as maps;
ghost use Rattle.std.specs.FinSet as sets;
ghost use Rattle.std.specs.Prelude.{◌≡◌, [], IfErr, IfOk, length};
ghost use Rattle.vc_cli.specs.Failure.{IsFault};
ghost use Rattle.vc_work_folder.specs.Holding.{is_held};

use crate::own_folder::own_folder;
use crate::work_trees::WorkTrees;
use std::rt;
use vc_cli::Failure;
use vc_work_folder::{Beside, FolderTree};

/// The work trees in the folders of this machine.
#[derive(Drop)]
pub struct FolderTrees<'a, R> {
    rt: &'a R,
}

impl<'a, R> FolderTrees<'a, R> {
    /// The work trees in the folders of this machine.
    pub fn new(rt: &'a R) -> FolderTrees<'a, R> {
        FolderTrees { rt }
    }
}

impl<'a, R> WorkTrees for FolderTrees<'a, R>
where
    R: rt::Files + Beside<R> + AllocGlobal + Clone + Drop,
{
    type Tree = FolderTree<R>;

    ghost trees = { λ _ _ _. record { files = maps.empty; folders = sets.empty } };

    ghost can_hold = { λ _ _ work path. is_held (length work) path };

    ghost own = { λ _ _ _. [] };

    fn open(&mut self, store: &str, work: &str) -> Result<(String, FolderTree<R>), Failure> {
        let own = own_folder(self.rt, store, work)?;
        let tree = open_work(self.rt, store, work, own.as_str())?;
        Ok((own, tree))
    }

    fn close(&mut self, _store: &str, _work: &str, _tree: FolderTree<R>) {}
}

// The work tree in this folder, of which the folder of the store, at `own` in it if it lies there, is no part.
fn open_work<R>(rt: &R, store: &str, work: &str, own: &str) -> Result<FolderTree<R>, Failure>
where
    R: rt::Files + Beside<R> + AllocGlobal + Clone + Drop,
    ensures holds { IfOk result (λ tree. tree ≡ (0, length work.now)) }
    ensures fault { IfErr result IsFault }
{
    let path = String::from_str(rt.alloc(), work)?;
    let own = String::from_str(rt.alloc(), own)?;
    let store = String::from_str(rt.alloc(), store)?;
    Ok(FolderTree::new(rt.clone()?, path, own, store))
}

//! Where the work trees of commands are: by the names of their folders.
ghost use Rattle.std.specs.Prelude.{◌≡◌, ℕ, Bool, List, IfOk, IfErr, OnErr, OnOk, string_bytes};
ghost use Rattle.vc_cli.specs.Stores.{IsUnopened};
ghost use Rattle.vc_working.specs.Trees.{GivesBackTree, OtherTreesStay, Trees, tree_of};

use vc_cli::Failure;
use vc_work_tree::WorkTree;

/// Where work trees are, by the name of the store that each is of, and its own. Who opens one has it alone until it is handed back by
/// `close`; nothing is known of it meanwhile.
pub trait WorkTrees {
    /// One work tree.
    type Tree: WorkTree + Drop;

    /// What each work tree has. The files of its store are no part of it.
    ghost trees: { Self → Trees };

    /// Whether a file can have a path in a work tree, and a folder.
    ghost can_hold: { Self → List ℕ → List ℕ → List ℕ → Bool };

    /// The path that the folder of the store has in the work tree; an empty one where it lies elsewhere.
    ghost own: { Self → List ℕ → List ℕ → List ℕ };

    /// The store's own path in this work tree, and the work tree. One that lies in the store is refused.
    fn open(&mut self, store: &str, work: &str) -> Result<(String, Self::Tree), Failure>
        ensures opened { IfOk result (λ found. tree_of Self.Tree.content Self.Tree.folders found.1 ≡ trees self.old store.now work.now) }
        ensures holds { IfOk result (λ found. Self.Tree.can_hold found.1 ≡ can_hold self.old store.now work.now) }
        ensures own { Self.Tree.honest → IfOk result (λ found. string_bytes found.0 ≡ own self.old store.now work.now) }
        ensures others { OnOk result (OtherTreesStay work.now (trees self.old) (trees self.new)) }
        ensures refused { IfErr result IsUnopened }
        ensures same { OnErr result (trees self.new ≡ trees self.old) };

    /// Hands back this work tree.
    fn close(&mut self, store: &str, work: &str, tree: Self::Tree)
        ensures back { GivesBackTree store.now work.now (tree_of Self.Tree.content Self.Tree.folders tree) (trees self.old) (trees self.new) };
}

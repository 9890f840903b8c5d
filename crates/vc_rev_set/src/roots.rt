//! What the walk of a set begins with.

ghost use Rattle.std.specs.Prelude.{◌≡◌, ◌∷◌, [], IfOk, OnOk};
ghost use Rattle.vc_rev_set.specs.RootsView.{roots_view};
ghost use Rattle.vc_rev_set.specs.Selection.{joined, selection};

use std::alloc::{AllocError, Global};
use vc_object::ObjectId;

/// Commits that are included with their ancestors, commits that are excluded with theirs, and pairs of commits whose
/// common ancestors are excluded.
#[derive(Drop)]
pub(crate) struct Roots {
    pub(crate) include: Vec<ObjectId>,
    pub(crate) exclude: Vec<ObjectId>,
    pub(crate) apart: Vec<(ObjectId, ObjectId)>,
}

impl Roots {
    /// Nothing.
    pub(crate) fn none(alloc: Global) -> Roots
        ensures { roots_view result ≡ selection [] [] [] }
    {
        Roots {
            include: Vec::new(alloc),
            exclude: Vec::new(alloc),
            apart: Vec::new(alloc),
        }
    }

    /// Some commits that are included, and some that are excluded.
    pub(crate) fn of(alloc: Global, include: Vec<ObjectId>, exclude: Vec<ObjectId>) -> Roots
        ensures { roots_view result ≡ selection include.items exclude.items [] }
    {
        Roots {
            include,
            exclude,
            apart: Vec::new(alloc),
        }
    }

    /// What is between two commits: the second is included, and the first is excluded.
    pub(crate) fn between(
        alloc: Global,
        first: ObjectId,
        second: ObjectId,
    ) -> Result<Roots, AllocError>
        ensures { IfOk result (λ roots. roots_view roots ≡ selection (second ∷ []) (first ∷ []) []) }
    {
        let include = vec![in alloc; second]?;
        let exclude = vec![in alloc; first]?;
        Ok(Roots::of(alloc, include, exclude))
    }

    /// What two commits don't have in common: both are included, and their common ancestors are excluded.
    pub(crate) fn apart(
        alloc: Global,
        first: ObjectId,
        second: ObjectId,
    ) -> Result<Roots, AllocError>
        ensures { IfOk result (λ roots. roots_view roots ≡ selection (first ∷ second ∷ []) [] ((first, second) ∷ [])) }
    {
        Ok(Roots {
            include: vec![in alloc; first, second]?,
            exclude: Vec::new(alloc),
            apart: vec![in alloc; (first, second)]?,
        })
    }

    /// Adds what other roots hold.
    pub(crate) fn append(&mut self, more: &Roots) -> Result<(), AllocError>
        ensures { OnOk result (roots_view self.new ≡ joined (roots_view self.old) (roots_view more.now)) }
    {
        self.include.extend_from_slice(&more.include)?;
        self.exclude.extend_from_slice(&more.exclude)?;
        self.apart.extend_from_slice(&more.apart)?;
        Ok(())
    }
}

// The folder that a path lies in.
ghost use Rattle.std.specs.Prelude.{ℕ, List, MatchOption};
ghost use Rattle.vc_index.specs.Path.{IsAbove};
ghost use Rattle.vc_work_tree.specs.Folders.{IsLowestAbove};

/// The path of the folder that a path lies in, or none where it lies in none.
pub fn folder_of(path: &str) -> Option<&str>
    ensures { MatchOption result ((folder : List ℕ) → ¬ (IsAbove folder path.now)) (λ folder. IsLowestAbove folder.now path.now) }
{
    let end = path.rfind('/')?;
    Some(path.split_at(end).0)
}

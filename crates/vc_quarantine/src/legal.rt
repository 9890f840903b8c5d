//! Which names a ref of the shared repository may have.
ghost use Rattle.std.specs.Prelude.{◌≡◌};
ghost use Rattle.vc_format.specs.Git.{git_is_legal};
ghost use Rattle.vc_push_rules.specs.Verdict.{is_branch};

use vc_refname::{MAX_BRANCH, RefName};

/// Whether it names a branch.
pub fn is_branch(name: &[u8]) -> bool
    ensures { result ≡ is_branch name.now }
{
    name.starts_with(b"refs/heads/")
}

/// Whether a ref of the shared repository may have the name: UTF-8, no rule broken, and short enough to be tracked.
pub fn is_legal(name: &[u8]) -> bool
    ensures { result ≡ git_is_legal name.now }
{
    let Ok(text) = str::from_utf8(name) else {
        return false;
    };
    if RefName::check(text).is_err() {
        return false;
    }
    !is_branch(name) || name.len() <= MAX_BRANCH
}

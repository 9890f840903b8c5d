//! Git's object format as the machine's: the instance of `vc_model`'s object format whose names, links, parents and
//! legal ref names are those of `vc_object` and `vc_refname`, with the laws that the machine asks of a format.
//!
//! Nothing here is program code. The crates that name the machine in their contracts name it at this format.
#![tactic(auto)]

ghost use Rattle.vc_format.specs.Git.{SpellsCommits, LinksAgree, MainIsName};
ghost use Rattle.vc_format.specs.Format.{EveryGitRunIsSafe};

/// A commit that is spelled of a tree and parents, which are names of objects, with an author and a committer on one
/// line each, links to just these, and has just these parents.
pub fn a_commit_links_to_what_it_is_made_of()
    ensures { SpellsCommits }
{}

/// A blob links to nothing, and a parent is a link.
pub fn parents_are_links()
    ensures { LinksAgree }
{}

/// The branch that HEAD of a new repository names has a legal name.
pub fn main_is_a_legal_name()
    ensures { MainIsName }
{}

/// Git's format is one of the machine's: each of its laws of every format holds of it. As one of them, every run of a
/// new world of Git objects is safe.
pub fn every_run_of_git_objects_is_safe()
    ensures { EveryGitRunIsSafe }
{}

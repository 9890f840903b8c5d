//! The type of names.

ghost use Rattle.std.specs.Prelude.{◌≡◌, ◌↔◌, ◌≤◌, nat_eq, IsOk, IfOk, OnOk, IfErr, IsTrue, length, codes};
ghost use Rattle.std.specs.List.{starts_with};
ghost use Rattle.std.specs.Result.{result_err};
ghost use Rattle.vc_refname.specs.RefName.{IsRefName, first_broken_rule, tracking_name, IsRefused, max_branch};

use crate::fault::{NameFault, NewNameError};
use crate::rules::check_rules;
use std::alloc::{AllocError, Global};
use std::marker::Model;

/// The name of a ref, as `refs/heads/main`: a text that breaks no rule. Contracts see its bytes.
#[derive(Debug, Drop)]
pub struct RefName {
    pub(crate) text: String,
}

impl Model for RefName {
    ghost use Rattle.std.specs.Prelude.{List, ℕ, string_bytes};
    ghost use Rattle.vc_refname.specs.RefName.{IsRefName};

    ghost Value = { List ℕ };

    ghost view = { λ a. string_bytes a.text };

    ghost invariant = { λ a. IsRefName (string_bytes a.text) };
}

impl RefName {
    /// Whether a text is a name, or the first rule that it breaks. It takes no memory.
    pub fn check(text: &str) -> Result<(), NameFault>
        ensures exact { IsOk result ↔ IsRefName text.now }
        ensures fault { result_err result ≡ first_broken_rule text.now }
    {
        check_rules(text.as_bytes())
    }

    /// The name that the text is.
    pub fn new(alloc: Global, text: &str) -> Result<RefName, NewNameError>
        ensures ok { IfOk result (λ name. name ≡ text.now) }
        ensures legal { OnOk result (IsRefName text.now) }
        ensures refused { IfErr result (IsRefused text.now) }
    {
        if let Err(fault) = RefName::check(text) {
            return Err(NewNameError::Refused(fault));
        }
        match String::from_str(alloc, text) {
            Ok(text) => Ok(RefName { text }),
            Err(_) => Err(NewNameError::Memory),
        }
    }

    /// The text, which lives as long as the name.
    pub fn as_str(&self) -> &str
        ensures text { result.now ≡ self.now }
        ensures legal { IsRefName result.now }
    {
        self.text.as_str()
    }

    /// Whether it names a branch, in `refs/heads/`.
    pub fn is_branch(&self) -> bool
        ensures { result ≡ starts_with nat_eq self.now (codes "refs/heads/") }
    {
        self.text.as_bytes().starts_with(b"refs/heads/")
    }

    /// Whether it names a tag, in `refs/tags/`.
    pub fn is_tag(&self) -> bool
        ensures { result ≡ starts_with nat_eq self.now (codes "refs/tags/") }
    {
        self.text.as_bytes().starts_with(b"refs/tags/")
    }

    /// Whether it lies in `refs/`, where the stored refs are.
    pub fn in_refs(&self) -> bool
        ensures { result ≡ starts_with nat_eq self.now (codes "refs/") }
    {
        self.text.as_bytes().starts_with(b"refs/")
    }

    /// The name of the ref that follows a branch of the shared repository: `refs/remotes/origin/b` for
    /// `refs/heads/b`. It is nine bytes longer, so the branch's name has at most 246 bytes.
    pub fn tracking(&self, alloc: Global) -> Result<RefName, AllocError>
        requires branch { IsTrue (starts_with nat_eq self.now (codes "refs/heads/")) }
        requires fits { length self.now ≤ max_branch }
        ensures { IfOk result (λ name. name ≡ tracking_name self.now) }
    {
        let branch = self.text.as_str().strip_prefix("refs/heads/").unwrap();
        let mut text = String::from_str(alloc, "refs/remotes/origin/")?;
        text.push_str(branch)?;
        Ok(RefName { text })
    }
}

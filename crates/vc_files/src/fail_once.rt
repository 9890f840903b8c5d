// Files of which one call fails.
ghost use Rattle.std.specs.Prelude.{◌≡◌, ◌↔◌, Some, IsErr, IfErr, is_none};

use crate::{Fault, Files};
use std::alloc::Global;
use std::marker::Model;

/// Files of which one call fails, whatever its kind: so many calls pass, the next one fails without effect, and
/// all later ones pass again. It is for tests: what a layer answers and leaves where any one call fails.
#[derive(Drop)]
pub struct FailOnce<F> {
    files: F,
    left: Option<u64>,
}

impl<F> Model for FailOnce<F> {
    ghost use Rattle.vc_files.specs.FailingOnce.{FailingOnce};

    ghost Value = { FailingOnce F };

    ghost view = { λ s. record { files = s.files; left = s.left } };
}

impl<F: Files> FailOnce<F> {
    ghost use Rattle.vc_files.specs.FailingOnce.{after_call};

    /// The files, of which the call after so many fails. To ask for the count of failures is no such call.
    pub fn new(files: F, calls: u64) -> Self
        ensures files { result.files ≡ files }
        ensures left { result.left ≡ Some calls }
    {
        FailOnce {
            files,
            left: Some(calls),
        }
    }

    /// Whether the call that fails has come.
    pub fn has_failed(&self) -> bool
        ensures { result ≡ is_none self.now.left }
    {
        self.left.is_none()
    }

    /// The files alone.
    pub fn into_inner(self) -> F
        ensures { result ≡ self.files }
    {
        let FailOnce { files, left: _ } = self;
        files
    }

    // Counts a call, and refuses the one that is to fail.
    fn pass(&mut self) -> Result<(), Fault>
        ensures files { self.new.files ≡ self.old.files }
        ensures left { self.new.left ≡ after_call self.old.left }
        ensures device { IfErr result (λ e. e ≡ Fault.Device) }
        ensures fails { IsErr result ↔ (self.old.left ≡ Some 0) }
    {
        match self.left {
            None => Ok(()),
            Some(0) => {
                self.left = None;
                Err(Fault::Device)
            }
            Some(left) => {
                self.left = Some(left - 1);
                Ok(())
            }
        }
    }
}

impl<F: Files> Files for FailOnce<F> {
    ghost use Rattle.std.specs.Prelude.{◌≡◌, Some, map, string_bytes, IfOk, OnOk, OnErr, IsErrOf, option_map};
    ghost use Rattle.std.specs.FinMap as files;
    ghost use Rattle.vc_files.specs.Failures.{Wears, Writes};
    ghost use Rattle.vc_files.specs.FileMap.{paths_under};
    ghost use Rattle.vc_files.specs.FailingOnce.{CanFailOnce, after_call, failed_once};

    ghost honest = { F.honest };

    ghost content = { λ s. F.content s.files };

    ghost failed = { failed_once F.failed };

    ghost can_fail = { CanFailOnce F.can_fail };

    ghost left = { λ s. F.left s.files };

    fn get(&mut self, alloc: Global, path: &str) -> Result<Option<Vec<u8>>, Fault>
        ensures found { F.honest → IfOk result (λ found. option_map (λ bytes. bytes.items) found ≡ files.get (F.content self.old.files) path.now) }
        ensures same { F.content self.new.files ≡ F.content self.old.files }
        ensures wear { Wears (failed_once F.failed) (CanFailOnce F.can_fail) (λ s. F.left s.files) self.old self.new (IsErrOf result Fault.Device) }
        ensures left { self.new.left ≡ after_call self.old.left }
        ensures fails { self.old.left ≡ Some 0 → (result ≡ Err Fault.Device) × (self.new.files ≡ self.old.files) }
        ensures passed { (self.old.left ≡ Some 0 → ⊥) → Wears F.failed F.can_fail F.left self.old.files self.new.files (IsErrOf result Fault.Device) }
    {
        self.pass()?;
        self.files.get(alloc, path)
    }

    fn put(&mut self, alloc: Global, path: &str, bytes: &[u8]) -> Result<(), Fault>
        ensures ok { F.honest → OnOk result (F.content self.new.files ≡ files.insert (F.content self.old.files) path.now bytes.now) }
        ensures err { F.honest → OnErr result (F.content self.new.files ≡ F.content self.old.files) }
        ensures wear { Writes F.honest (λ s. F.content s.files) (failed_once F.failed) (CanFailOnce F.can_fail) (λ s. F.left s.files) self.old self.new (IsErrOf result Fault.Device) }
        ensures left { self.new.left ≡ after_call self.old.left }
        ensures fails { self.old.left ≡ Some 0 → (result ≡ Err Fault.Device) × (self.new.files ≡ self.old.files) }
        ensures passed { (self.old.left ≡ Some 0 → ⊥) → Writes F.honest F.content F.failed F.can_fail F.left self.old.files self.new.files (IsErrOf result Fault.Device) }
    {
        self.pass()?;
        self.files.put(alloc, path, bytes)
    }

    fn remove(&mut self, alloc: Global, path: &str) -> Result<(), Fault>
        ensures ok { F.honest → OnOk result (F.content self.new.files ≡ files.remove (F.content self.old.files) path.now) }
        ensures err { F.honest → OnErr result (F.content self.new.files ≡ F.content self.old.files) }
        ensures wear { Writes F.honest (λ s. F.content s.files) (failed_once F.failed) (CanFailOnce F.can_fail) (λ s. F.left s.files) self.old self.new (IsErrOf result Fault.Device) }
        ensures left { self.new.left ≡ after_call self.old.left }
        ensures fails { self.old.left ≡ Some 0 → (result ≡ Err Fault.Device) × (self.new.files ≡ self.old.files) }
        ensures passed { (self.old.left ≡ Some 0 → ⊥) → Writes F.honest F.content F.failed F.can_fail F.left self.old.files self.new.files (IsErrOf result Fault.Device) }
    {
        self.pass()?;
        self.files.remove(alloc, path)
    }

    fn list(&mut self, alloc: Global, prefix: &str) -> Result<Vec<String>, Fault>
        ensures listed { F.honest → IfOk result (λ listed. map string_bytes listed.items ≡ paths_under (F.content self.old.files) prefix.now) }
        ensures same { F.content self.new.files ≡ F.content self.old.files }
        ensures wear { Wears (failed_once F.failed) (CanFailOnce F.can_fail) (λ s. F.left s.files) self.old self.new (IsErrOf result Fault.Device) }
        ensures left { self.new.left ≡ after_call self.old.left }
        ensures fails { self.old.left ≡ Some 0 → (result ≡ Err Fault.Device) × (self.new.files ≡ self.old.files) }
        ensures passed { (self.old.left ≡ Some 0 → ⊥) → Wears F.failed F.can_fail F.left self.old.files self.new.files (IsErrOf result Fault.Device) }
    {
        self.pass()?;
        self.files.list(alloc, prefix)
    }

    fn failures(&self) -> u64 {
        self.files
            .failures()
            .saturating_add(u64::from(self.left.is_none()))
    }
}

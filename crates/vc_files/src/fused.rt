// Files that stop after a number of writes.
ghost use Rattle.std.specs.Prelude.{◌≡◌, ◌↔◌, IsTrue, IsErr, IfErr};

use crate::{Fault, Files};
use std::alloc::Global;
use std::marker::Model;

/// What is left of a fuse.
#[derive(Clone, Copy, PartialEq, Eq)]
pub enum Fuse {
    /// Every call passes.
    Unset,
    /// So many more writes pass, and the next one blows the fuse.
    Left(u64),
    /// Every call fails.
    Blown,
}

/// Files with a fuse: once it is set, so many calls of `put` and `remove` pass, the next one fails without
/// effect, and from then on every call fails. It stands for a process that is stopped between two writes.
#[derive(Drop)]
pub struct FusedFiles<F> {
    files: F,
    fuse: Fuse,
    refused: u64,
}

impl<F> Model for FusedFiles<F> {
    ghost use Rattle.vc_files.specs.Fused.{Fused};

    ghost Value = { Fused F };

    ghost view = { λ s. record { files = s.files; fuse = s.fuse; refused = s.refused } };
}

impl<F: Files> FusedFiles<F> {
    ghost use Rattle.vc_files.specs.Fused.{IsBlown, left_after};

    /// The files, with a fuse that isn't set.
    pub fn new(files: F) -> Self
        ensures files { result.files ≡ files }
        ensures fuse { result.fuse ≡ Fuse.Unset }
        ensures refused { result.refused ≡ 0 }
    {
        FusedFiles {
            files,
            fuse: Fuse::Unset,
            refused: 0,
        }
    }

    /// Sets the fuse: so many more writes pass. A blown one stays blown.
    pub fn stop_after(&mut self, writes: u64)
        ensures files { self.new.files ≡ self.old.files }
        ensures refused { self.new.refused ≡ self.old.refused }
        ensures fuse { self.new.fuse ≡ left_after self.old.fuse writes }
    {
        if !self.is_blown() {
            self.fuse = Fuse::Left(writes);
        }
    }

    /// Whether every call fails.
    pub fn is_blown(&self) -> bool
        ensures { IsTrue result ↔ IsBlown self.now.fuse }
    {
        matches!(self.fuse, Fuse::Blown)
    }

    /// Takes the fuse out, as a restart does: every call passes then. How often calls were refused is kept.
    pub fn mend(&mut self)
        ensures files { self.new.files ≡ self.old.files }
        ensures refused { self.new.refused ≡ self.old.refused }
        ensures fuse { self.new.fuse ≡ Fuse.Unset }
    {
        self.fuse = Fuse::Unset;
    }

    /// The files without the fuse, as a restart finds them.
    pub fn into_inner(self) -> F
        ensures { result ≡ self.files }
    {
        let FusedFiles {
            files,
            fuse: _,
            refused: _,
        } = self;
        files
    }
}

impl<F: Files> FusedFiles<F> {
    ghost use Rattle.vc_files.specs.Fused.{IsBlown, after_write, refused_after};

    // Counts a call that a blown fuse refuses, and lets any other pass.
    fn pass(&mut self) -> Result<(), Fault>
        ensures files { self.new.files ≡ self.old.files }
        ensures fuse { self.new.fuse ≡ self.old.fuse }
        ensures refused { self.new.refused ≡ refused_after self.old.fuse self.old.refused }
        ensures device { IfErr result (λ e. e ≡ Fault.Device) }
        ensures blown { IsErr result ↔ IsBlown self.old.fuse }
    {
        if self.fuse == Fuse::Blown {
            self.refused = self.refused.saturating_add(1);
            return Err(Fault::Device);
        }
        Ok(())
    }

    // Whether a write may go on, which uses up one of those that are left.
    fn pass_write(&mut self) -> Result<(), Fault>
        ensures files { self.new.files ≡ self.old.files }
        ensures fuse { self.new.fuse ≡ after_write self.old.fuse }
        ensures refused { self.new.refused ≡ refused_after self.new.fuse self.old.refused }
        ensures device { IfErr result (λ e. e ≡ Fault.Device) }
        ensures blown { IsErr result ↔ IsBlown self.new.fuse }
    {
        self.fuse = match self.fuse {
            Fuse::Unset => Fuse::Unset,
            Fuse::Left(0) | Fuse::Blown => Fuse::Blown,
            Fuse::Left(left) => Fuse::Left(left - 1),
        };
        self.pass()
    }
}

impl<F: Files> Files for FusedFiles<F> {
    ghost use Rattle.std.specs.Prelude.{map, string_bytes};
    ghost use Rattle.std.specs.Prelude.{◌≡◌, IfOk, OnOk, OnErr, IsErrOf, option_map};
    ghost use Rattle.std.specs.FinMap as files;
    ghost use Rattle.vc_files.specs.Failures.{Wears, Writes};
    ghost use Rattle.vc_files.specs.FileMap.{paths_under};
    ghost use Rattle.vc_files.specs.Fused.{FusedCanFail, IsBlown, after_write, fused_failed, fused_left, refused_after};

    ghost honest = { F.honest };

    ghost content = { λ s. F.content s.files };

    ghost failed = { fused_failed F.failed };

    ghost can_fail = { FusedCanFail F.can_fail F.left };

    ghost left = { fused_left F.left };

    fn get(&mut self, alloc: Global, path: &str) -> Result<Option<Vec<u8>>, Fault>
        ensures found { F.honest → IfOk result (λ found. option_map (λ bytes. bytes.items) found ≡ files.get (F.content self.old.files) path.now) }
        ensures same { F.content self.new.files ≡ F.content self.old.files }
        ensures wear { Wears (fused_failed F.failed) (FusedCanFail F.can_fail F.left) (fused_left F.left) self.old self.new (IsErrOf result Fault.Device) }
        ensures fuse { self.new.fuse ≡ self.old.fuse }
        ensures refused { self.new.refused ≡ refused_after self.old.fuse self.old.refused }
        ensures blown { IsBlown self.old.fuse → (result ≡ Err Fault.Device) × (self.new.files ≡ self.old.files) }
        ensures passed { (IsBlown self.old.fuse → ⊥) → Wears F.failed F.can_fail F.left self.old.files self.new.files (IsErrOf result Fault.Device) }
    {
        self.pass()?;
        self.files.get(alloc, path)
    }

    fn put(&mut self, alloc: Global, path: &str, bytes: &[u8]) -> Result<(), Fault>
        ensures ok { F.honest → OnOk result (F.content self.new.files ≡ files.insert (F.content self.old.files) path.now bytes.now) }
        ensures err { F.honest → OnErr result (F.content self.new.files ≡ F.content self.old.files) }
        ensures wear { Writes F.honest (λ s. F.content s.files) (fused_failed F.failed) (FusedCanFail F.can_fail F.left) (fused_left F.left) self.old self.new (IsErrOf result Fault.Device) }
        ensures fuse { self.new.fuse ≡ after_write self.old.fuse }
        ensures refused { self.new.refused ≡ refused_after self.new.fuse self.old.refused }
        ensures blown { IsBlown self.new.fuse → (result ≡ Err Fault.Device) × (self.new.files ≡ self.old.files) }
        ensures passed { (IsBlown self.new.fuse → ⊥) → Writes F.honest F.content F.failed F.can_fail F.left self.old.files self.new.files (IsErrOf result Fault.Device) }
    {
        self.pass_write()?;
        self.files.put(alloc, path, bytes)
    }

    fn remove(&mut self, alloc: Global, path: &str) -> Result<(), Fault>
        ensures ok { F.honest → OnOk result (F.content self.new.files ≡ files.remove (F.content self.old.files) path.now) }
        ensures err { F.honest → OnErr result (F.content self.new.files ≡ F.content self.old.files) }
        ensures wear { Writes F.honest (λ s. F.content s.files) (fused_failed F.failed) (FusedCanFail F.can_fail F.left) (fused_left F.left) self.old self.new (IsErrOf result Fault.Device) }
        ensures fuse { self.new.fuse ≡ after_write self.old.fuse }
        ensures refused { self.new.refused ≡ refused_after self.new.fuse self.old.refused }
        ensures blown { IsBlown self.new.fuse → (result ≡ Err Fault.Device) × (self.new.files ≡ self.old.files) }
        ensures passed { (IsBlown self.new.fuse → ⊥) → Writes F.honest F.content F.failed F.can_fail F.left self.old.files self.new.files (IsErrOf result Fault.Device) }
    {
        self.pass_write()?;
        self.files.remove(alloc, path)
    }

    fn list(&mut self, alloc: Global, prefix: &str) -> Result<Vec<String>, Fault>
        ensures listed { F.honest → IfOk result (λ listed. map string_bytes listed.items ≡ paths_under (F.content self.old.files) prefix.now) }
        ensures same { F.content self.new.files ≡ F.content self.old.files }
        ensures wear { Wears (fused_failed F.failed) (FusedCanFail F.can_fail F.left) (fused_left F.left) self.old self.new (IsErrOf result Fault.Device) }
        ensures fuse { self.new.fuse ≡ self.old.fuse }
        ensures refused { self.new.refused ≡ refused_after self.old.fuse self.old.refused }
        ensures blown { IsBlown self.old.fuse → (result ≡ Err Fault.Device) × (self.new.files ≡ self.old.files) }
        ensures passed { (IsBlown self.old.fuse → ⊥) → Wears F.failed F.can_fail F.left self.old.files self.new.files (IsErrOf result Fault.Device) }
    {
        self.pass()?;
        self.files.list(alloc, prefix)
    }

    fn failures(&self) -> u64 {
        self.files.failures().saturating_add(self.refused)
    }
}

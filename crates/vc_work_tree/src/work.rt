// What a checkout knows of a work tree.
ghost use Rattle.std.specs.Prelude.{◌≡◌, ◌≢◌, ◌⊎◌, ◌↔◌, ℕ, Bool, List, Option, map, IfOk, OnOk, OnErr, IsErrOf, false, option_map, string_bytes};
ghost use Rattle.std.specs.FinMap as files;
ghost use Rattle.vc_files.specs.FileMap.{FileMap};
ghost use Rattle.vc_files.specs.Failures.{Spends, Wears, unstopped};
ghost use Rattle.vc_work_tree.specs.Folders.{AreFolders, Folders, IsAtOrIn, IsFolder};
ghost use Rattle.vc_work_tree.specs.Paths.{blob_name};

use std::alloc::Global;
use vc_files::Fault;
use vc_object::ObjectId;

/// The files that a person works on, by their paths, which are text. Each call is safe and ends, whatever the tree
/// does. What the clauses under `honest` say, a real disk doesn't promise.
///
/// A folder is there as long as something lies in it; one in which nothing lies stays until it is removed.
pub trait WorkTree {
    /// Whether the work tree is a finite map of paths to bytes.
    ghost honest: { Type 0 };

    /// The files as they are.
    ghost content: { Self → FileMap };

    /// The folders that are there of themselves. One in which something lies is there by what lies in it.
    ghost folders: { Self → Folders };

    /// Whether a file can have the path here, and a folder.
    ghost can_hold: { Self → List ℕ → Bool };

    /// How often the device has failed.
    ghost failed: { Self → ℕ };

    /// Whether the device can fail.
    ghost can_fail: { Self → Type 0 };

    /// How many more writes the device takes before it stops, or none where no stop is set. A call that looks spends none
    /// of them, and one that writes and is done spends one, also where it changes nothing.
    ghost left: { Self → Option ℕ };

    /// Whether a file can have the path here, and a folder: this looks at no file, and is asked before anything is written.
    fn holds(&self, path: &[u8]) -> bool
        ensures { result ≡ can_hold self.now path.now };

    /// The bytes of a file, or none where no file has the path.
    fn read(&mut self, alloc: Global, path: &str) -> Result<Option<Vec<u8>>, Fault>
        ensures found { honest → IfOk result (λ found. option_map (λ bytes. bytes.items) found ≡ files.get (content self.old) path.now) }
        ensures same { content self.new ≡ content self.old }
        ensures folders { folders self.new ≡ folders self.old }
        ensures holds { can_hold self.new ≡ can_hold self.old }
        ensures wear { Wears failed can_fail left self.old self.new (IsErrOf result Fault.Device) };

    /// The name that the bytes of a file have as a blob, or none where no file has the path.
    fn name(&mut self, alloc: Global, path: &str) -> Result<Option<ObjectId>, Fault>
        ensures named { honest → IfOk result (λ name. name ≡ option_map blob_name (files.get (content self.old) path.now)) }
        ensures same { content self.new ≡ content self.old }
        ensures folders { folders self.new ≡ folders self.old }
        ensures holds { can_hold self.new ≡ can_hold self.old }
        ensures wear { Wears failed can_fail left self.old self.new (IsErrOf result Fault.Device) };

    /// Writes a file whole, and makes the folders above it. A folder at the path gives way with those in it, but where a
    /// file lies.
    fn write(&mut self, alloc: Global, path: &str, bytes: &[u8]) -> Result<(), Fault>
        ensures ok { honest → OnOk result (content self.new ≡ files.insert (content self.old) path.now bytes.now) }
        ensures err { honest → OnErr result (content self.new ≡ content self.old) }
        ensures folders { honest → OnOk result (AreFolders (content self.new) (folders self.new) (λ one. IsFolder (content self.old) (folders self.old) one × ¬ (IsAtOrIn path.now one))) }
        ensures err_folders { honest → OnErr result (folders self.new ≡ folders self.old) }
        ensures spent { OnOk result (Spends 1 (left self.old) (left self.new)) }
        ensures wear { Wears failed can_fail unstopped self.old self.new (IsErrOf result Fault.Device) };

    /// Takes a file away; an absent one stays absent. The folders above it stay, also where nothing is left in them.
    fn remove(&mut self, alloc: Global, path: &str) -> Result<(), Fault>
        ensures ok { honest → OnOk result (content self.new ≡ files.remove (content self.old) path.now) }
        ensures err { honest → OnErr result (content self.new ≡ content self.old) }
        ensures folders { honest → OnOk result (AreFolders (content self.new) (folders self.new) (IsFolder (content self.old) (folders self.old))) }
        ensures err_folders { honest → OnErr result (folders self.new ≡ folders self.old) }
        ensures spent { OnOk result (Spends 1 (left self.old) (left self.new)) }
        ensures wear { Wears failed can_fail unstopped self.old self.new (IsErrOf result Fault.Device) };

    /// Makes a folder, and those above it. One that is there stays.
    fn make_folder(&mut self, alloc: Global, path: &str) -> Result<(), Fault>
        ensures same { content self.new ≡ content self.old }
        ensures folders { honest → OnOk result (AreFolders (content self.new) (folders self.new) (λ one. IsFolder (content self.old) (folders self.old) one ⊎ (one ≡ path.now))) }
        ensures err_folders { honest → OnErr result (folders self.new ≡ folders self.old) }
        ensures spent { OnOk result (Spends 1 (left self.old) (left self.new)) }
        ensures wear { Wears failed can_fail unstopped self.old self.new (IsErrOf result Fault.Device) };

    /// Takes a folder away if nothing lies in it, and says whether none is there now.
    fn remove_folder(&mut self, alloc: Global, path: &str) -> Result<bool, Fault>
        ensures same { content self.new ≡ content self.old }
        ensures folders { honest → OnOk result (AreFolders (content self.new) (folders self.new) (λ one. IsFolder (content self.old) (folders self.old) one × (one ≢ path.now))) }
        ensures gone { honest → IfOk result (λ gone. (gone ≡ false) ↔ IsFolder (content self.new) (folders self.new) path.now) }
        ensures err_folders { honest → OnErr result (folders self.new ≡ folders self.old) }
        ensures spent { OnOk result (Spends 1 (left self.old) (left self.new)) }
        ensures wear { Wears failed can_fail unstopped self.old self.new (IsErrOf result Fault.Device) };

    /// The paths of all files, sorted by their bytes.
    fn list(&mut self, alloc: Global) -> Result<Vec<String>, Fault>
        ensures listed { honest → IfOk result (λ listed. map string_bytes listed.items ≡ files.keys (content self.old)) }
        ensures same { content self.new ≡ content self.old }
        ensures folders { folders self.new ≡ folders self.old }
        ensures holds { can_hold self.new ≡ can_hold self.old }
        ensures wear { Wears failed can_fail left self.old self.new (IsErrOf result Fault.Device) };

    /// How often the device has failed; the count stops at its greatest value.
    fn failures(&self) -> u64
        ensures { result ≡ failed self.now };
}

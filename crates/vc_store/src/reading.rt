// Looking objects up by name.
ghost use Rattle.std.specs.Prelude.{◌≡◌, ◌⊎◌, ◌≤◌, drop, length, Some, IfOk, IfErr, IfSome, IfNone, IsErrOf, option_map, true};
ghost use Rattle.vc_files.specs.Failures.{Wears};
ghost use Rattle.vc_object.specs.Decoding.{stored_object};
ghost use Rattle.vc_object.specs.Object.{object_bytes, object_name};
ghost use Rattle.vc_object.specs.ObjectId.{is_id};
ghost use Rattle.vc_object_map.specs.Store.{stored, stored_in};
ghost use Rattle.vc_store.specs.StoreCalls.{Finds, Gets, TellsStored};
ghost use Rattle.vc_object_map.specs.StoreFault.{IsFault, IsOfName};

use crate::Stored;
use crate::paths::object_path;
use std::alloc::Global;
use vc_files::{Fault, Files};
use vc_object::{Object, ObjectId};
use vc_object_map::StoreFault;

// The object that the bytes of a file give to the name: 12 where they are none, or one of another name.
fn object_in<'a>(id: &ObjectId, bytes: &'a [u8]) -> Result<Object<'a>, StoreFault>
    ensures found { IfOk result (λ o. stored_in id.now (Some bytes.now) ≡ Ok (stored_object o.kind o.body.now)) }
    ensures own { IfOk result (λ o. object_name o.kind o.body.now ≡ id.now) }
    ensures bytes { IfOk result (λ o. bytes.now ≡ object_bytes o.kind o.body.now) }
    ensures refused { IfErr result (λ e. (e ≡ StoreFault.Damaged id.now) × (stored_in id.now (Some bytes.now) ≡ Err e)) }
{
    let Ok(object) = vc_object::decode(bytes) else {
        return Err(StoreFault::Damaged(*id));
    };
    if vc_object::name_of(object.kind, object.body) != *id {
        return Err(StoreFault::Damaged(*id));
    }
    Ok(object)
}

/// The object that the bytes of a file give to the name: 12 where they are none, or one of another name. Its body stays where it
/// lies in memory, so what was read is held once.
pub fn object_from(id: &ObjectId, bytes: Vec<u8>) -> Result<Stored, StoreFault>
    ensures found { IfOk result (λ s. stored_in id.now (Some bytes.items) ≡ Ok (stored_object s.kind s.body.items)) }
    ensures own { IfOk result (λ s. object_name s.kind s.body.items ≡ id.now) }
    ensures refused { IfErr result (λ e. (e ≡ StoreFault.Damaged id.now) × (stored_in id.now (Some bytes.items) ≡ Err e)) }
{
    let object = object_in(id, &bytes)?;
    let kind = object.kind;
    let front = bytes.len() - object.body.len();
    let body = without_front(bytes, front);
    Ok(Stored { kind, body })
}

// The bytes without so many at their front.
fn without_front(bytes: Vec<u8>, front: usize) -> Vec<u8>
    requires { front ≤ length bytes.items }
    ensures { result.items ≡ drop front bytes.items }
{
    let mut rest = bytes;
    let size = rest.len() - front;
    rest.copy_within(front.., 0);
    rest.truncate(size);
    rest
}

// The bytes of the file in the place of the object with this name.
fn read_file<F: Files>(
    files: &mut F,
    alloc: Global,
    id: &ObjectId,
) -> Result<Option<Vec<u8>>, StoreFault>
    ensures found { F.honest → IfOk result (λ bytes. stored_in id.now (option_map (λ b. b.items) bytes) ≡ stored (F.content files.old) id.now) }
    ensures fault { IfErr result IsFault }
    ensures same { F.content files.new ≡ F.content files.old }
    ensures wear { Wears F.failed F.can_fail F.left files.old files.new (IsErrOf result (StoreFault.Fault Fault.Device)) }
{
    let path = object_path(alloc, id)?;
    let bytes = files.get(alloc, path.as_str())?;
    Ok(bytes)
}

// The object with this name, or none where there is no file. It has that name whatever the device does.
fn read_stored<F: Files>(
    files: &mut F,
    alloc: Global,
    id: &ObjectId,
) -> Result<Option<Stored>, StoreFault>
    ensures found { F.honest → IfOk result (λ found. IfSome found (λ s. stored (F.content files.old) id.now ≡ Ok (stored_object s.kind s.body.items))) }
    ensures absent { F.honest → IfOk result (λ found. IfNone found (stored (F.content files.old) id.now ≡ Err (StoreFault.Absent id.now))) }
    ensures refused { F.honest → IfErr result (λ e. IsFault e ⊎ (stored (F.content files.old) id.now ≡ Err e)) }
    ensures of_name { IfErr result (λ e. IsFault e ⊎ (e ≡ StoreFault.Damaged id.now)) }
    ensures own { IfOk result (λ found. IfSome found (λ s. object_name s.kind s.body.items ≡ id.now)) }
    ensures valid { is_id id.now ≡ true }
    ensures same { F.content files.new ≡ F.content files.old }
    ensures wear { Wears F.failed F.can_fail F.left files.old files.new (IsErrOf result (StoreFault.Fault Fault.Device)) }
{
    let id = &id.named();
    let Some(bytes) = read_file(files, alloc, id)? else {
        return Ok(None);
    };
    let object = object_from(id, bytes)?;
    Ok(Some(object))
}

/// The object with this name. The file is read whole, and what it holds must have the name: 11 where there is no
/// file, 12 where it is no object or another one.
pub fn get<F: Files>(files: &mut F, alloc: Global, id: &ObjectId) -> Result<Stored, StoreFault>
    ensures gets { Gets F.honest F.content id.now files.old result }
    ensures of_name { IfErr result (IsOfName id.now) }
    ensures same { F.content files.new ≡ F.content files.old }
    ensures wear { Wears F.failed F.can_fail F.left files.old files.new (IsErrOf result (StoreFault.Fault Fault.Device)) }
{
    match read_stored(files, alloc, id)? {
        Some(object) => Ok(object),
        None => Err(StoreFault::Absent(*id)),
    }
}

/// The object with this name, or none where it is absent, as [`find`] has it. What is found has the name whatever the device
/// does, so that nobody need name it again.
pub fn find_named<F: Files>(
    files: &mut F,
    alloc: Global,
    id: &ObjectId,
) -> Result<Option<Stored>, StoreFault>
    ensures finds { Finds F.honest F.content id.now files.old result }
    ensures own { IfOk result (λ found. IfSome found (λ s. object_name s.kind s.body.items ≡ id.now)) }
    ensures same { F.content files.new ≡ F.content files.old }
    ensures wear { Wears F.failed F.can_fail F.left files.old files.new (IsErrOf result (StoreFault.Fault Fault.Device)) }
{
    match read_stored(files, alloc, id)? {
        Some(object) => Ok(Some(object)),
        None => Ok(None),
    }
}

/// The object with this name, or none where it is absent.
pub fn find<F: Files>(
    files: &mut F,
    alloc: Global,
    id: &ObjectId,
) -> Result<Option<Stored>, StoreFault>
    ensures finds { Finds F.honest F.content id.now files.old result }
    ensures same { F.content files.new ≡ F.content files.old }
    ensures wear { Wears F.failed F.can_fail F.left files.old files.new (IsErrOf result (StoreFault.Fault Fault.Device)) }
{
    find_named(files, alloc, id)
}

/// Whether an object has this name. Its file is read whole, and what it holds must have the name, else it is 12.
pub fn has<F: Files>(files: &mut F, alloc: Global, id: &ObjectId) -> Result<bool, StoreFault>
    ensures tells { TellsStored F.honest F.content id.now files.old result }
    ensures same { F.content files.new ≡ F.content files.old }
    ensures wear { Wears F.failed F.can_fail F.left files.old files.new (IsErrOf result (StoreFault.Fault Fault.Device)) }
{
    let id = &id.named();
    let Some(bytes) = read_file(files, alloc, id)? else {
        return Ok(false);
    };
    object_in(id, &bytes)?;
    Ok(true)
}

//! The subcommand `hash-object`: the name of a body that comes from a file or a stream.
ghost use Rattle.std.specs.Prelude.{◌≡◌, ◌≤◌, ◌⊎◌, IfSome, IfOk, IfErr, IsOk, OnErr, OnOk, codes};
ghost use Rattle.std.specs.Io.KnownBytes.{Appends, Keeps};
ghost use Rattle.vc_object.specs.Object.{object_name, IsObject, max_body};
ghost use Rattle.vc_object.specs.ObjectFault.{BodyFault};
ghost use Rattle.vc_object.specs.declared.kind.Kind.TheVariants.{Blob};
ghost use Rattle.vc_cli.specs.Failure.{IsFault, TellsDevice};
ghost use Rattle.vc_reading.specs.HashObject.{IsOfBody, IsOfStored, LeavesHashed, LeavesStored, StoresBody};
ghost use Rattle.vc_cli.specs.Printed.{AppendsFront, id_line};
ghost use Rattle.vc_cli.specs.Stores.{OthersStay};
ghost use Rattle.vc_files.specs.FileMap.{SameOutside};
ghost use Rattle.vc_files.specs.Failures.{Writes};

use crate::input::{Input, read_body};
use crate::pieces::name_pieces;
use std::alloc::Global;
use std::io::{Read, Write};
use vc_cli::{Failure, Faults, Stores, print_id};
use vc_files::Files;
use vc_object::{Kind, MAX_BODY, ObjectFault, ObjectId};

/// Stores the object whose body the input is in the store of this lock, and prints its name.
pub fn hash_object<S: Stores, I: Read + Drop, O: Write>(
    alloc: Global,
    stores: &mut S,
    lock: &S::Lock,
    kind: Kind,
    input: Input<I>,
    output: &mut O,
) -> Result<(), Failure>
    ensures printed { OnOk result (IfSome (I.remaining input.stream) (λ body. Appends (O.contents output.old) (O.contents output.new) (id_line (object_name kind body)))) }
    ensures stored { S.Files.honest → OnOk result (IfSome (I.remaining input.stream) (λ body. StoresBody (S.content stores.old (S.of lock.now)) kind body (S.content stores.new (S.of lock.now)))) }
    ensures legal { OnOk result (IfSome (I.remaining input.stream) (λ body. IsObject kind body)) }
    ensures left { S.Files.honest → IfErr result (λ e. IfSome (I.remaining input.stream) (λ body. LeavesHashed (S.content stores.old (S.of lock.now)) kind body (S.content stores.new (S.of lock.now)) (O.contents output.old) (O.contents output.new) e)) }
    ensures outside { S.Files.honest → SameOutside (codes "objects/") (S.content stores.old (S.of lock.now)) (S.content stores.new (S.of lock.now)) }
    ensures others { OthersStay (S.of lock.now) (S.content stores.old) (S.content stores.new) }
{
    let Input { stream, length } = input;
    let body = read_body(alloc, stream, length.unwrap_or(MAX_BODY))?;
    print_stored(alloc, stores, lock, kind, &body, output)
}

/// Stores the object whose body the input is in this store, and prints its name. The input is read before the store is locked: whoever
/// makes it may be a command that writes to the store.
pub fn store_stream<S: Stores, I: Read + Drop, O: Write, E: Write>(
    alloc: Global,
    stores: &mut S,
    store: &str,
    kind: Kind,
    input: Input<I>,
    output: &mut O,
    faults: &mut Faults<E>,
) -> Result<(), Failure>
    ensures printed { OnOk result (IfSome (I.remaining input.stream) (λ body. Appends (O.contents output.old) (O.contents output.new) (id_line (object_name kind body)))) }
    ensures stored { S.Files.honest → OnOk result (IfSome (I.remaining input.stream) (λ body. StoresBody (S.content stores.old store.now) kind body (S.content stores.new store.now))) }
    ensures legal { OnOk result (IfSome (I.remaining input.stream) (λ body. IsObject kind body)) }
    ensures left { S.Files.honest → IfErr result (λ e. IfSome (I.remaining input.stream) (λ body. LeavesHashed (S.content stores.old store.now) kind body (S.content stores.new store.now) (O.contents output.old) (O.contents output.new) e)) }
    ensures outside { S.Files.honest → SameOutside (codes "objects/") (S.content stores.old store.now) (S.content stores.new store.now) }
    ensures others { OthersStay store.now (S.content stores.old) (S.content stores.new) }
{
    let Input { stream, length } = input;
    let body = read_body(alloc, stream, length.unwrap_or(MAX_BODY))?;
    let lock = stores.lock(store, faults)?;
    print_stored(alloc, stores, &lock, kind, &body, output)
}

// Stores the object of this body in the store of this lock, and prints its name.
fn print_stored<S: Stores, O: Write>(
    alloc: Global,
    stores: &mut S,
    lock: &S::Lock,
    kind: Kind,
    body: &[u8],
    output: &mut O,
) -> Result<(), Failure>
    ensures printed { OnOk result (Appends (O.contents output.old) (O.contents output.new) (id_line (object_name kind body.now))) }
    ensures stored { S.Files.honest → OnOk result (StoresBody (S.content stores.old (S.of lock.now)) kind body.now (S.content stores.new (S.of lock.now))) }
    ensures legal { OnOk result (IsObject kind body.now) }
    ensures left { S.Files.honest → IfErr result (LeavesHashed (S.content stores.old (S.of lock.now)) kind body.now (S.content stores.new (S.of lock.now)) (O.contents output.old) (O.contents output.new)) }
    ensures outside { S.Files.honest → SameOutside (codes "objects/") (S.content stores.old (S.of lock.now)) (S.content stores.new (S.of lock.now)) }
    ensures others { OthersStay (S.of lock.now) (S.content stores.old) (S.content stores.new) }
{
    let mut files = stores.open_locked(lock)?;
    let stored = store_durably(alloc, stores, &mut files, kind, body);
    stores.close_locked(lock, files);
    match stored {
        Ok(name) => print_id(&name, output),
        Err(failure) => Err(failure),
    }
}

// Stores the object of this body, sees that it lasts, and answers its name.
fn store_durably<S: Stores>(
    alloc: Global,
    stores: &mut S,
    files: &mut S::Files,
    kind: Kind,
    body: &[u8],
) -> Result<ObjectId, Failure>
    ensures named { IfOk result (λ id. id ≡ object_name kind body.now) }
    ensures stored { S.Files.honest → OnOk result (StoresBody (S.Files.content files.old) kind body.now (S.Files.content files.new)) }
    ensures durable { OnOk result (S.is_durable files.new) }
    ensures legal { OnOk result (IsObject kind body.now) }
    ensures left { S.Files.honest → IfErr result (LeavesStored (S.Files.content files.old) kind body.now (S.Files.content files.new)) }
    ensures outside { S.Files.honest → SameOutside (codes "objects/") (S.Files.content files.old) (S.Files.content files.new) }
    ensures same { S.content stores.new ≡ S.content stores.old }
{
    let id = store_body(alloc, files, kind, body)?;
    stores.settle(files)?;
    Ok(id)
}

/// Stores the object of this body, and answers its name. Nothing is stored if the body is refused.
pub fn store_body<F: Files>(
    alloc: Global,
    files: &mut F,
    kind: Kind,
    body: &[u8],
) -> Result<ObjectId, Failure>
    ensures named { IfOk result (λ id. id ≡ object_name kind body.now) }
    ensures stored { F.honest → OnOk result (StoresBody (F.content files.old) kind body.now (F.content files.new)) }
    ensures legal { OnOk result (IsObject kind body.now) }
    ensures refused { IfErr result (IsOfStored kind body.now) }
    ensures outside { F.honest → SameOutside (codes "objects/") (F.content files.old) (F.content files.new) }
    ensures err { F.honest → OnErr result (F.content files.new ≡ F.content files.old) }
    ensures wear { Writes F.honest F.content F.failed F.can_fail F.left files.old files.new (TellsDevice result) }
{
    match vc_store::put(files, alloc, kind, body) {
        Ok(id) => Ok(id),
        Err(fault) => Err(Failure::Store(fault)),
    }
}

/// Prints the name of the object whose body the input is. Nothing is printed where the body is refused. A blob of
/// known length is named as it is read, in the memory of one piece.
pub fn name_input<I: Read + Drop, O: Write>(
    alloc: Global,
    kind: Kind,
    input: Input<I>,
    output: &mut O,
) -> Result<(), Failure>
    ensures printed { OnOk result (IfSome (I.remaining input.stream) (λ body. Appends (O.contents output.old) (O.contents output.new) (id_line (object_name kind body)))) }
    ensures front { OnErr result (IfSome (I.remaining input.stream) (λ body. AppendsFront (O.contents output.old) (O.contents output.new) (id_line (object_name kind body)))) }
    ensures legal { OnOk result (IfSome (I.remaining input.stream) (λ body. IsObject kind body)) }
    ensures refused { IfErr result (λ e. IfSome (I.remaining input.stream) (λ body. IsOfBody kind body e)) }
    ensures nothing_printed { IfErr result (λ e. IsFault e ⊎ Keeps (O.contents output.old) (O.contents output.new)) }
{
    let Input { stream, length } = input;
    if let Some(length) = length
        && kind == Kind::Blob
        && length <= MAX_BODY
    {
        return name_blob(alloc, stream, length, output);
    }
    name_stream(alloc, kind, stream, length.unwrap_or(MAX_BODY), output)
}

// Prints the name of a blob of known length.
fn name_blob<I: Read + Drop, O: Write>(
    alloc: Global,
    stream: I,
    length: usize,
    output: &mut O,
) -> Result<(), Failure>
    requires { length ≤ max_body }
    ensures printed { OnOk result (IfSome (I.remaining stream) (λ body. Appends (O.contents output.old) (O.contents output.new) (id_line (object_name Blob body)))) }
    ensures front { OnErr result (IfSome (I.remaining stream) (λ body. AppendsFront (O.contents output.old) (O.contents output.new) (id_line (object_name Blob body)))) }
    ensures legal { OnOk result (IfSome (I.remaining stream) (λ body. IsObject Blob body)) }
    ensures fault { IfErr result IsFault }
{
    let id = name_pieces(alloc, stream, length)?;
    print_id(&id, output)
}

// Prints the name of the object whose body is all of the stream.
fn name_stream<I: Read + Drop, O: Write>(
    alloc: Global,
    kind: Kind,
    stream: I,
    expected: usize,
    output: &mut O,
) -> Result<(), Failure>
    ensures printed { OnOk result (IfSome (I.remaining stream) (λ body. Appends (O.contents output.old) (O.contents output.new) (id_line (object_name kind body)))) }
    ensures front { OnErr result (IfSome (I.remaining stream) (λ body. AppendsFront (O.contents output.old) (O.contents output.new) (id_line (object_name kind body)))) }
    ensures legal { OnOk result (IfSome (I.remaining stream) (λ body. IsObject kind body)) }
    ensures refused { IfErr result (λ e. IfSome (I.remaining stream) (λ body. IsOfBody kind body e)) }
    ensures nothing_printed { IfErr result (λ e. IsFault e ⊎ Keeps (O.contents output.old) (O.contents output.new)) }
{
    let body = read_body(alloc, stream, expected)?;
    match name_body(kind, &body) {
        Ok(id) => print_id(&id, output),
        Err(fault) => Err(Failure::Object(fault)),
    }
}

// The name of the body, or why it has none.
fn name_body(kind: Kind, body: &[u8]) -> Result<ObjectId, ObjectFault>
    ensures value { IfOk result (λ id. id ≡ object_name kind body.now) }
    ensures legal { IsOk result → IsObject kind body.now }
    ensures fault { IfErr result (BodyFault kind body.now) }
{
    match vc_object::check(kind, body) {
        Ok(_) => Ok(vc_object::name_of(kind, body)),
        Err(fault) => Err(fault),
    }
}

//! Objects: a kind, and a body in its grammar.

ghost use Rattle.std.specs.Prelude.{◌≡◌, ◌≤◌, ◌↔◌, length, ℕ, List, Some, None, IfOk, IfErr, OnErr, IsOk, IsOkAnd};
ghost use Rattle.vc_object.specs.Object.{IsBody, IsObject, object_bytes, max_body};
ghost use Rattle.vc_object.specs.Decoding.{decoded, stored_object};
ghost use Rattle.vc_object.specs.ObjectFault.{GrammarFault, BodyFault, BytesFault};
ghost use Rattle.vc_object.specs.declared.kind.Kind.{Kind};
ghost use Rattle.vc_object.specs.declared.fault.ObjectFault.{ObjectFault};

use crate::commit::read_commit;
use crate::digits::write_decimal;
use crate::fault::ObjectFault;
use crate::header::{MAX_BODY, header_of};
use crate::kind::Kind;
use crate::tag::read_tag;
use crate::tree::check_tree;
use std::alloc::{AllocError, Global};

/// An object: a kind, and a body that is in the kind's grammar. It lends the body for as long as `'a`.
///
/// [`decode`] and [`check`] make one of bytes that may be anything. Whoever has it needs no test again: the type
/// keeps the fact, and a literal elsewhere has to prove it.
#[derive(Clone, Copy)]
pub struct Object<'a> {
    pub kind: Kind,
    pub body: &'a [u8],
    pub ghost sound: { ∥ IsObject kind body.now ∥₁ },
}

/// Whether a body is in the kind's grammar.
fn check_grammar(kind: Kind, body: &[u8]) -> Result<(), ObjectFault>
    ensures exact { IsOk result ↔ IsBody kind body.now }
    ensures fault { IfErr result (GrammarFault kind body.now) }
{
    match kind {
        Kind::Blob => Ok(()),
        Kind::Tree => check_tree(body),
        Kind::Commit => match read_commit(body) {
            Some(_) => Ok(()),
            None => Err(ObjectFault::BadCommit),
        },
        Kind::Tag => match read_tag(body) {
            Some(_) => Ok(()),
            None => Err(ObjectFault::BadTag),
        },
    }
}

/// The object of this kind and body, or its fault.
fn object_with(kind: Kind, body: &[u8]) -> Result<Object<'_>, ObjectFault>
    ensures ok { IfOk result (λ object. (object.kind ≡ kind) × (object.body.now ≡ body.now)) }
    ensures exact { IsOk result ↔ IsObject kind body.now }
    ensures fault { IfErr result (BodyFault kind body.now) }
{
    if body.len() > MAX_BODY {
        return Err(ObjectFault::TooLarge);
    }
    match check_grammar(kind, body) {
        Ok(()) => Ok(Object { kind, body }),
        Err(fault) => Err(fault),
    }
}

/// The object of this kind and body, or why the body is none: `TooLarge`, or else what breaks the kind's grammar.
///
/// In a tree the first entry at fault decides, and in it a bad mode comes before a bad name, a name that stood
/// before, a name out of order, and an id that is cut short, in this order. A mode or a name that is cut short is
/// `Cut` alone. Takes no memory, and time in proportion to the body.
pub fn check(kind: Kind, body: &[u8]) -> Result<Object<'_>, ObjectFault>
    ensures ok { IfOk result (λ object. (object.kind ≡ kind) × (object.body.now ≡ body.now)) }
    ensures exact { IsOk result ↔ IsObject kind body.now }
    ensures fault { IfErr result (BodyFault kind body.now) }
    ensures only { (e : ObjectFault) → BodyFault kind body.now e → result ≡ Err e }
{
    object_with(kind, body)
}

/// The object that the bytes are, or the first fault.
fn object_of(bytes: &[u8]) -> Result<Object<'_>, ObjectFault>
    ensures ok { IfOk result (λ object. bytes.now ≡ object_bytes object.kind object.body.now) }
    ensures small { IfOk result (λ object. length object.body.now ≤ max_body) }
    ensures fault { IfErr result (BytesFault bytes.now) }
{
    let (kind, size, body) = match header_of(bytes) {
        Ok(found) => found,
        Err(fault) => return Err(fault),
    };
    if size > MAX_BODY {
        return Err(ObjectFault::TooLarge);
    }
    if body.len() < size {
        return Err(ObjectFault::Cut);
    }
    if size < body.len() {
        return Err(ObjectFault::BadSize);
    }
    match check_grammar(kind, body) {
        Ok(()) => Ok(Object { kind, body }),
        Err(fault) => Err(fault),
    }
}

/// The object that the bytes are, or why they are none: the header decides first, then `TooLarge`, then whether the
/// body has the stated size, then the body as in [`check`].
///
/// The object's body is a slice of the bytes. Takes no memory, and time in proportion to the bytes.
pub fn decode(bytes: &[u8]) -> Result<Object<'_>, ObjectFault>
    ensures ok { IfOk result (λ object. bytes.now ≡ object_bytes object.kind object.body.now) }
    ensures decoded { IfOk result (λ object. decoded bytes.now ≡ Some (stored_object object.kind object.body.now)) }
    ensures undecoded { OnErr result (decoded bytes.now ≡ None) }
    ensures found { (kind : Kind) (body : List ℕ) → ∥ IsObject kind body ∥₁ → bytes.now ≡ object_bytes kind body → IsOkAnd result (λ object. (object.kind ≡ kind) × (object.body.now ≡ body)) }
    ensures fault { IfErr result (BytesFault bytes.now) }
    ensures only { (e : ObjectFault) → BytesFault bytes.now e → result ≡ Err e }
{
    object_of(bytes)
}

/// The object's bytes, which [`decode`] reads back. They are copied once, into a vector of their size.
pub fn encode(alloc: Global, object: &Object<'_>) -> Result<Vec<u8>, AllocError>
    ensures { IfOk result (λ bytes. bytes.items ≡ object_bytes object.now.kind object.now.body.now) }
{
    let mut place = [0; 20];
    let from = write_decimal(object.body.len(), &mut place);
    let mut bytes = Vec::with_capacity(alloc, object.body.len().saturating_add(28))?;
    bytes.extend_from_slice(object.kind.front())?;
    bytes.extend_from_slice(&place[from..])?;
    bytes.push(0)?;
    bytes.extend_from_slice(object.body)?;
    Ok(bytes)
}

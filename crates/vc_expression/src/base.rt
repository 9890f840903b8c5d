//! The name at the front of a text.

ghost use Rattle.std.specs.Prelude.{◌≡◌, ◌↔◌, IfOk, IsTrue};
ghost use Rattle.vc_expression.specs.Base.{IsBase, IsName, after_name, name_of, is_stop};

use std::alloc::{AllocError, Global};
use std::str;
use vc_refname::RefName;

/// Whether a name ends before the text.
fn ends_name(text: &[u8]) -> bool
    ensures { result ≡ is_stop text.now }
{
    match text {
        [b' ' | b'^' | b'~' | b':', ..] => true,
        [b'.', b'.', ..] => true,
        _ => false,
    }
}

/// What a name takes of the text, and what follows it.
pub(crate) fn split_name(text: &[u8]) -> (&[u8], &[u8])
    ensures name { result.0.now ≡ name_of text.now }
    ensures rest { result.1.now ≡ after_name text.now }
{
    for i in 0..text.len() {
        if ends_name(&text[i..]) {
            return (&text[..i], &text[i..]);
        }
    }
    (text, b"")
}

/// Whether the text is a name.
fn is_name(alloc: Global, text: &[u8]) -> Result<bool, AllocError>
    ensures { IfOk result (λ answer. IsTrue answer ↔ IsName text.now) }
{
    let Ok(text) = str::from_utf8(text) else {
        return Ok(false);
    };
    let mut name = String::from_str(alloc, "refs/")?;
    name.push_str(text)?;
    Ok(RefName::check(name.as_str()).is_ok())
}

/// Whether an expression may begin with the text.
pub(crate) fn is_base(alloc: Global, text: &[u8]) -> Result<bool, AllocError>
    ensures { IfOk result (λ answer. IsTrue answer ↔ IsBase text.now) }
{
    if text == b"@".as_slice() {
        return Ok(true);
    }
    is_name(alloc, text)
}

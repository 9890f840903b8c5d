// Where the files of objects stand.
ghost use Rattle.std.specs.Prelude.{◌≡◌, IfOk, option_map, length, string_bytes};
ghost use Rattle.vc_object_map.specs.Store.{object_path, digits_in, name_in, lower_case, prefix_path};

use std::alloc::{AllocError, Global};
use vc_object::ObjectId;

/// The path of an object's file.
pub(crate) fn object_path(alloc: Global, id: &ObjectId) -> Result<String, AllocError>
    ensures { IfOk result (λ path. string_bytes path ≡ object_path id.now.0) }
{
    let (first, rest) = id.0.split_at(1);
    let folder = hex::encode(alloc, first)?;
    let file = hex::encode(alloc, rest)?;
    format!(in alloc; "objects/{folder}/{file}")
}

// The digits of a path of this length, without what stands before and between them.
fn digits_in(alloc: Global, path: &[u8]) -> Result<Vec<u8>, AllocError>
    requires { length path.now ≡ 49 }
    ensures { IfOk result (λ digits. digits.items ≡ digits_in path.now) }
{
    let mut digits = path.split_at(8).1.split_at(2).0.to_vec(alloc)?;
    digits.extend_from_slice(path.split_at(11).1)?;
    Ok(digits)
}

/// The name whose object has its place at a path, or none where no object has.
pub(crate) fn name_in(alloc: Global, path: &str) -> Result<Option<ObjectId>, AllocError>
    ensures { IfOk result (λ id. id ≡ name_in path.now) }
{
    if path.len() != 49 {
        return Ok(None);
    }
    let digits = digits_in(alloc, path.as_bytes())?;
    let mut name = [0; 20];
    if hex::decode_to_slice(&digits, &mut name).is_err() {
        return Ok(None);
    }
    let id = ObjectId(name);
    if object_path(alloc, &id)?.as_str() != path {
        return Ok(None);
    }
    Ok(Some(id))
}

// The digits in lower case, or none where one of them is no hex digit.
fn lower_case(alloc: Global, digits: &[u8]) -> Result<Option<String>, AllocError>
    ensures { IfOk result (λ text. option_map string_bytes text ≡ lower_case digits.now) }
{
    let mut text = String::new(alloc);
    for digit in digits {
        if !digit.is_ascii_hexdigit() {
            return Ok(None);
        }
        text.push(char::from(digit.to_ascii_lowercase()))?;
    }
    Ok(Some(text))
}

/// How the paths begin of the objects whose digits begin so, or none where one of these is no hex digit. With two
/// digits or more it names one folder.
pub(crate) fn prefix_path(alloc: Global, digits: &[u8]) -> Result<Option<String>, AllocError>
    ensures { IfOk result (λ path. option_map string_bytes path ≡ option_map prefix_path (lower_case digits.now)) }
{
    let (folder, file) = digits.split_at(digits.len().min(2));
    let Some(folder) = lower_case(alloc, folder)? else {
        return Ok(None);
    };
    let Some(file) = lower_case(alloc, file)? else {
        return Ok(None);
    };
    if digits.len() < 2 {
        return Ok(Some(format!(in alloc; "objects/{folder}")?));
    }
    Ok(Some(format!(in alloc; "objects/{folder}/{file}")?))
}

//! How rows spell bytes and ids.

use bstr::{ByteSlice, ByteVec};
use std::alloc::{AllocError, Global};
use std::fmt::Write;
use vc_object::{Kind, ObjectId, name_of};

// The part again and again. A `%` in it stands for five digits, which come in no order and once each in 100,000.
fn push_times(out: &mut String, part: &str, times: u64) -> Result<(), AllocError> {
    let Some((head, tail)) = part.split_once('%') else {
        for _ in 0..times {
            out.push_str(part)?;
        }
        return Ok(());
    };
    for number in 0..times {
        let digits = number.wrapping_mul(61_803) % 100_000;
        write!(out, "{head}{digits:05}{tail}")?;
    }
    Ok(())
}

// The text with its last repeat written out; none where no repeat is left.
fn with_repeat(alloc: Global, text: &str) -> Result<Option<String>, AllocError> {
    let Some((front, rest)) = text.rsplit_once('[') else {
        return Ok(None);
    };
    let (repeat, back) = rest.split_once(']').unwrap_or((rest, ""));
    let (times, part) = repeat.split_once('*').unwrap_or(("0", ""));
    let times = times.parse::<u64>().unwrap_or(0);
    let mut out = String::from_str(alloc, front)?;
    push_times(&mut out, part, times)?;
    out.push_str(back)?;
    Ok(Some(out))
}

/// The bytes that a row spells by repeats such as `[3*ab]`, one inside another too, and by escapes.
pub fn spelled(alloc: Global, text: &str) -> Result<Vec<u8>, AllocError> {
    let mut plain = String::from_str(alloc, text)?;
    for _ in 0..text.len() {
        let Some(longer) = with_repeat(alloc, plain.as_str())? else {
            break;
        };
        plain = longer;
    }
    Vec::unescape_bytes(alloc, plain.as_str())
}

// How many bytes there are, and the name that they have as a blob.
fn push_digest(out: &mut String, bytes: &[u8]) -> Result<(), AllocError> {
    write!(out, "({} bytes, blob ", bytes.len())?;
    push_id(out, name_of(Kind::Blob, bytes))?;
    out.push(')')
}

/// Tells bytes by escapes, a space as it is or by its escape; many bytes by their digest.
pub fn push_bytes(out: &mut String, bytes: &[u8], space: &str) -> Result<(), AllocError> {
    if bytes.len() > 1000 {
        return push_digest(out, bytes);
    }
    for byte in bytes {
        if *byte == b' ' {
            out.push_str(space)?;
        } else {
            for letter in [*byte].as_slice().escape_bytes() {
                out.push(letter)?;
            }
        }
    }
    Ok(())
}

/// Tells an answer, or where it is long its digest.
pub fn push_short(out: &mut String, told: &str) -> Result<(), AllocError> {
    if told.len() > 1000 {
        return push_digest(out, told.as_bytes());
    }
    out.push_str(told)
}

/// The ids of a list parted by commas; `-` is the empty list.
pub fn ids_of(alloc: Global, text: &str) -> Result<Vec<ObjectId>, AllocError> {
    let mut ids = Vec::new(alloc);
    if text != "-" {
        for digits in text.split(',') {
            ids.push(ObjectId::from_hex(digits.as_bytes()).unwrap_or(ObjectId::ZERO))?;
        }
    }
    Ok(ids)
}

/// Tells an id by its digits.
pub fn push_id(out: &mut String, id: ObjectId) -> Result<(), AllocError> {
    for digit in id.to_hex() {
        out.push(digit as char)?;
    }
    Ok(())
}

/// Tells ids as a list parted by commas.
pub fn push_ids(out: &mut String, ids: &[ObjectId]) -> Result<(), AllocError> {
    if ids.is_empty() {
        out.push('-')?;
    }
    let mut comma = "";
    for id in ids {
        out.push_str(comma)?;
        push_id(out, *id)?;
        comma = ",";
    }
    Ok(())
}

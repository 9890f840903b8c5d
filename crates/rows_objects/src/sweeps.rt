//! Rows that try many bytes: each beginning, and each change of one byte.

use crate::objects::object_of;
use crate::spelling::word_at;
use std::alloc::{AllocError, Global};
use vc_object::{ObjectId, name_of};

// The number of the refusal and no id, or 0 and the name of the object.
fn judged(word: &[u8], bytes: &[u8]) -> (u16, ObjectId) {
    match object_of(word, bytes) {
        Ok(object) => (0, name_of(object.kind, object.body)),
        Err(fault) => (fault as u16, ObjectId::ZERO),
    }
}

/// Writes what each beginning is: ` N:F` where the first N bytes and more, up to the next such mark, are refused by
/// number F, and 0 says that they are taken.
pub(crate) fn push_fronts(out: &mut String, bytes: &[u8]) -> Result<(), AllocError> {
    let (word, bytes) = word_at(bytes);
    let mut last = 99;
    for n in 0..bytes.len() {
        let (number, _) = judged(word, bytes.split_at(n).0);
        if last != number {
            write!(out, " {n}:{number}")?;
        }
        last = number;
    }
    write!(out, " whole:{}", judged(word, bytes).0)
}

/// Writes how many of the changes are refused by each number, where 0 says that they are taken, and how many have
/// the name of the bytes as they were. Each byte becomes each of 256, so itself too.
pub(crate) fn push_changes(
    alloc: Global,
    out: &mut String,
    bytes: &[u8],
) -> Result<(), AllocError> {
    let (word, bytes) = word_at(bytes);
    let (_, name) = judged(word, bytes);
    let mut changed = Vec::from_slice(alloc, bytes)?;
    let mut counts = [0u32; 12];
    for (n, kept) in bytes.iter().enumerate() {
        for value in 0..=255 {
            set(changed.as_mut_slice(), n, value);
            let (number, found) = judged(word, changed.as_slice());
            count(&mut counts, number);
            if found == name {
                count(&mut counts, 11);
            }
        }
        set(changed.as_mut_slice(), n, *kept);
    }
    push_counts(out, &counts)
}

fn set(bytes: &mut [u8], n: usize, value: u8) {
    if let Some(byte) = bytes.get_mut(n) {
        *byte = value;
    }
}

fn count(counts: &mut [u32; 12], number: u16) {
    if let Some(count) = counts.get_mut(number as usize) {
        *count = count.saturating_add(1);
    }
}

// The last count is of those that have the name.
fn push_counts(out: &mut String, counts: &[u32; 12]) -> Result<(), AllocError> {
    for (number, count) in counts.iter().enumerate() {
        if *count > 0 {
            write!(out, " {number}:{count}")?;
        }
    }
    Ok(())
}

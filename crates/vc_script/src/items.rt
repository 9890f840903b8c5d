//! The items of a push.
ghost use Rattle.std.specs.Prelude.{◌≡◌, map, option_map, IfOk};
ghost use Rattle.vc_events.specs.Events.{item_of};
ghost use Rattle.vc_script.specs.Words.{all_in, branch_item_in, cut_last, item_in, set_item, texts};

use crate::words::{branch_in, name_in};
use std::alloc::{AllocError, Global};
use vc_events::NamedItem;
use vc_refname::RefName;

// What stands before the last colon, and what stands after it.
fn cut_last(word: &[u8]) -> Option<(&[u8], &[u8])>
    ensures { option_map (λ parts. (parts.0.now, parts.1.now)) result ≡ cut_last 58 word.now }
{
    let mut place = word.len();
    while place > 0 {
        place -= 1;
        if word[place] == b':' {
            return Some((&word[..place], &word[place + 1..]));
        }
    }
    None
}

// The item that gives this ref what the words name, or deletes it where they name nothing.
fn set_item(alloc: Global, value: &[u8], name: RefName) -> Result<NamedItem, AllocError>
    ensures { IfOk result (λ item. item_of item ≡ set_item value.now name) }
{
    if value.is_empty() {
        return Ok(NamedItem { value: None, name });
    }
    let value = Vec::from_slice(alloc, value)?;
    Ok(NamedItem {
        value: Some(value),
        name,
    })
}

// The item that gives a branch the value that it has at the clone.
#[tactic(auto, unfolding(crate::specs::Words::branch_item_in))]
fn branch_item_in(alloc: Global, word: &[u8]) -> Result<Option<NamedItem>, AllocError>
    ensures { IfOk result (λ found. option_map item_of found ≡ branch_item_in word.now) }
{
    let Some(name) = branch_in(alloc, word)? else {
        return Ok(None);
    };
    let value = Vec::from_slice(alloc, name.as_str().as_bytes())?;
    Ok(Some(NamedItem {
        value: Some(value),
        name,
    }))
}

// The item that the word tells.
#[tactic(auto, unfolding(crate::specs::Words::item_in))]
fn item_in(alloc: Global, word: &[u8]) -> Result<Option<NamedItem>, AllocError>
    ensures { IfOk result (λ found. option_map item_of found ≡ item_in word.now) }
{
    let Some((value, name)) = cut_last(word) else {
        let found = branch_item_in(alloc, word)?;
        return Ok(found);
    };
    let Some(name) = name_in(alloc, name)? else {
        return Ok(None);
    };
    let item = set_item(alloc, value, name)?;
    Ok(Some(item))
}

/// The items that the words tell, each one.
pub(crate) fn items_in(alloc: Global, words: &[&[u8]]) -> Result<Option<Vec<NamedItem>>, AllocError>
    ensures { IfOk result (λ found. option_map (λ items. map item_of items.items) found ≡ all_in item_in (texts words.now)) }
{
    let mut items = Vec::new(alloc);
    for word in words {
        let Some(item) = item_in(alloc, word)? else {
            return Ok(None);
        };
        items.push(item)?;
    }
    Ok(Some(items))
}

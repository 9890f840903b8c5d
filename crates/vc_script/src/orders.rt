//! What a clone is told to do: a verb, and the words after it.
ghost use Rattle.std.specs.Prelude.{◌≡◌, map, option_map, IfOk, IfSome};
ghost use Rattle.vc_events.specs.Events.{bytes_in, IsInOrder, order_of};
ghost use Rattle.vc_script.specs.Lines.{add_in, branch_at_in, commit_in, decoded_in, delete_in, detach_in, fetch_in, head_in, load_in, order_by, order_in, push_in, unstage_in, verb_in, write_in};
ghost use Rattle.vc_script.specs.Words.{texts};

use crate::items::items_in;
use crate::words::{branch_in, first_of, pair, sole};
use hex::FromHexError;
use std::alloc::{AllocError, Global};
use vc_events::Order;
use vc_object::{Kind, Mode};

/// The words that begin what a clone is told.
#[derive(Clone, Copy)]
pub(crate) enum Verb {
    Write,
    Add,
    Unstage,
    Commit,
    Branch,
    Delete,
    Head,
    Load,
    Detach,
    Fetch,
    Push,
    PushAtomic,
}

// Who commits in a script, and who is the author.
const SOMEBODY: &[u8] = b"a <a> 0 +0000";

#[tactic(auto, unfolding(crate::specs::Lines::verb_in))]
fn verb_in(word: &[u8]) -> Option<Verb>
    ensures { result ≡ verb_in word.now }
{
    if word == b"write".as_slice() {
        return Some(Verb::Write);
    }
    if word == b"add".as_slice() {
        return Some(Verb::Add);
    }
    if word == b"unstage".as_slice() {
        return Some(Verb::Unstage);
    }
    if word == b"commit".as_slice() {
        return Some(Verb::Commit);
    }
    if word == b"branch".as_slice() {
        return Some(Verb::Branch);
    }
    if word == b"delete".as_slice() {
        return Some(Verb::Delete);
    }
    if word == b"head".as_slice() {
        return Some(Verb::Head);
    }
    if word == b"load".as_slice() {
        return Some(Verb::Load);
    }
    if word == b"detach".as_slice() {
        return Some(Verb::Detach);
    }
    if word == b"fetch".as_slice() {
        return Some(Verb::Fetch);
    }
    if word == b"push".as_slice() {
        return Some(Verb::Push);
    }
    if word == b"push-atomic".as_slice() {
        return Some(Verb::PushAtomic);
    }
    None
}

/// The bytes that hex digits write.
#[tactic(auto, unfolding(crate::specs::Lines::decoded_in))]
pub(crate) fn decoded_in(alloc: Global, digits: &[u8]) -> Result<Option<Vec<u8>>, AllocError>
    ensures { IfOk result (λ found. option_map bytes_in found ≡ decoded_in digits.now) }
{
    match hex::decode(alloc, digits) {
        Ok(bytes) => Ok(Some(bytes)),
        Err(FromHexError::OutOfMemory) => Err(AllocError),
        Err(_) => Ok(None),
    }
}

#[tactic(auto, unfolding(crate::specs::Lines::write_in))]
fn write_in(alloc: Global, words: &[&[u8]]) -> Result<Option<Order>, AllocError>
    ensures order { IfOk result (λ found. option_map order_of found ≡ write_in (texts words.now)) }
    ensures in_order { IfOk result (λ found. IfSome found IsInOrder) }
{
    let Some((kind, digits)) = pair(words) else {
        return Ok(None);
    };
    let Some(kind) = Kind::from_word(kind) else {
        return Ok(None);
    };
    let Some(body) = decoded_in(alloc, digits)? else {
        return Ok(None);
    };
    Ok(Some(Order::Write(kind, body)))
}

// Stages a file that holds a word and a line feed.
#[tactic(auto, unfolding(crate::specs::Lines::add_in))]
fn add_in(alloc: Global, words: &[&[u8]]) -> Result<Option<Order>, AllocError>
    ensures order { IfOk result (λ found. option_map order_of found ≡ add_in (texts words.now)) }
    ensures in_order { IfOk result (λ found. IfSome found IsInOrder) }
{
    let Some((path, word)) = pair(words) else {
        return Ok(None);
    };
    let path = Vec::from_slice(alloc, path)?;
    let mut content = Vec::from_slice(alloc, word)?;
    content.push(b'\n')?;
    Ok(Some(Order::Stage(path, Mode::File, content)))
}

#[tactic(auto, unfolding(crate::specs::Lines::unstage_in))]
fn unstage_in(alloc: Global, words: &[&[u8]]) -> Result<Option<Order>, AllocError>
    ensures order { IfOk result (λ found. option_map order_of found ≡ unstage_in (texts words.now)) }
    ensures in_order { IfOk result (λ found. IfSome found IsInOrder) }
{
    let Some(path) = sole(words) else {
        return Ok(None);
    };
    let path = Vec::from_slice(alloc, path)?;
    Ok(Some(Order::Unstage(path)))
}

// Copies of the words.
fn copies(alloc: Global, words: &[&[u8]]) -> Result<Vec<Vec<u8>>, AllocError>
    ensures { IfOk result (λ found. map bytes_in found.items ≡ texts words.now) }
{
    let mut found = Vec::new(alloc);
    for word in words {
        let copy = Vec::from_slice(alloc, word)?;
        found.push(copy)?;
    }
    Ok(found)
}

#[tactic(auto, unfolding(crate::specs::Lines::commit_in))]
fn commit_in(alloc: Global, words: &[&[u8]]) -> Result<Option<Order>, AllocError>
    ensures order { IfOk result (λ found. option_map order_of found ≡ commit_in (texts words.now)) }
    ensures in_order { IfOk result (λ found. IfSome found IsInOrder) }
{
    let Some((message, parents)) = first_of(words) else {
        return Ok(None);
    };
    let parents = copies(alloc, parents)?;
    let author = Vec::from_slice(alloc, SOMEBODY)?;
    let committer = Vec::from_slice(alloc, SOMEBODY)?;
    let message = Vec::from_slice(alloc, message)?;
    Ok(Some(Order::Commit(parents, author, committer, message)))
}

#[tactic(auto, unfolding(crate::specs::Lines::branch_at_in))]
fn branch_at_in(alloc: Global, words: &[&[u8]]) -> Result<Option<Order>, AllocError>
    ensures order { IfOk result (λ found. option_map order_of found ≡ branch_at_in (texts words.now)) }
    ensures in_order { IfOk result (λ found. IfSome found IsInOrder) }
{
    let Some((name, expression)) = pair(words) else {
        return Ok(None);
    };
    let Some(name) = branch_in(alloc, name)? else {
        return Ok(None);
    };
    let expression = Vec::from_slice(alloc, expression)?;
    Ok(Some(Order::SetBranch(name, expression)))
}

#[tactic(auto, unfolding(crate::specs::Lines::delete_in))]
fn delete_in(alloc: Global, words: &[&[u8]]) -> Result<Option<Order>, AllocError>
    ensures order { IfOk result (λ found. option_map order_of found ≡ delete_in (texts words.now)) }
    ensures in_order { IfOk result (λ found. IfSome found IsInOrder) }
{
    let Some(name) = sole(words) else {
        return Ok(None);
    };
    let Some(name) = branch_in(alloc, name)? else {
        return Ok(None);
    };
    Ok(Some(Order::DeleteBranch(name)))
}

#[tactic(auto, unfolding(crate::specs::Lines::head_in))]
fn head_in(alloc: Global, words: &[&[u8]]) -> Result<Option<Order>, AllocError>
    ensures order { IfOk result (λ found. option_map order_of found ≡ head_in (texts words.now)) }
    ensures in_order { IfOk result (λ found. IfSome found IsInOrder) }
{
    let Some(name) = sole(words) else {
        return Ok(None);
    };
    let Some(name) = branch_in(alloc, name)? else {
        return Ok(None);
    };
    Ok(Some(Order::SetHead(name)))
}

#[tactic(auto, unfolding(crate::specs::Lines::load_in))]
fn load_in(alloc: Global, words: &[&[u8]]) -> Result<Option<Order>, AllocError>
    ensures order { IfOk result (λ found. option_map order_of found ≡ load_in (texts words.now)) }
    ensures in_order { IfOk result (λ found. IfSome found IsInOrder) }
{
    let Some(expression) = sole(words) else {
        return Ok(None);
    };
    let expression = Vec::from_slice(alloc, expression)?;
    Ok(Some(Order::Load(expression)))
}

#[tactic(auto, unfolding(crate::specs::Lines::detach_in))]
fn detach_in(alloc: Global, words: &[&[u8]]) -> Result<Option<Order>, AllocError>
    ensures order { IfOk result (λ found. option_map order_of found ≡ detach_in (texts words.now)) }
    ensures in_order { IfOk result (λ found. IfSome found IsInOrder) }
{
    let Some(expression) = sole(words) else {
        return Ok(None);
    };
    let expression = Vec::from_slice(alloc, expression)?;
    Ok(Some(Order::Detach(expression)))
}

#[tactic(auto, unfolding(crate::specs::Lines::fetch_in))]
fn fetch_in(words: &[&[u8]]) -> Option<Order>
    ensures order { option_map order_of result ≡ fetch_in (texts words.now) }
    ensures in_order { IfSome result IsInOrder }
{
    if !words.is_empty() {
        return None;
    }
    Some(Order::Fetch)
}

#[tactic(auto, unfolding(crate::specs::Lines::push_in))]
fn push_in(alloc: Global, atomic: bool, words: &[&[u8]]) -> Result<Option<Order>, AllocError>
    ensures order { IfOk result (λ found. option_map order_of found ≡ push_in atomic (texts words.now)) }
    ensures in_order { IfOk result (λ found. IfSome found IsInOrder) }
{
    if words.is_empty() {
        return Ok(None);
    }
    let Some(items) = items_in(alloc, words)? else {
        return Ok(None);
    };
    Ok(Some(Order::Push { atomic, items }))
}

// What a verb tells with the words after it.
fn order_by(alloc: Global, verb: Verb, words: &[&[u8]]) -> Result<Option<Order>, AllocError>
    ensures order { IfOk result (λ found. option_map order_of found ≡ order_by verb (texts words.now)) }
    ensures in_order { IfOk result (λ found. IfSome found IsInOrder) }
{
    match verb {
        Verb::Write => write_in(alloc, words),
        Verb::Add => add_in(alloc, words),
        Verb::Unstage => unstage_in(alloc, words),
        Verb::Commit => commit_in(alloc, words),
        Verb::Branch => branch_at_in(alloc, words),
        Verb::Delete => delete_in(alloc, words),
        Verb::Head => head_in(alloc, words),
        Verb::Load => load_in(alloc, words),
        Verb::Detach => detach_in(alloc, words),
        Verb::Fetch => Ok(fetch_in(words)),
        Verb::Push => push_in(alloc, false, words),
        Verb::PushAtomic => push_in(alloc, true, words),
    }
}

/// What a clone is told by the verb and the words after it.
#[tactic(auto, unfolding(crate::specs::Lines::order_in))]
pub(crate) fn order_in(
    alloc: Global,
    word: &[u8],
    others: &[&[u8]],
) -> Result<Option<Order>, AllocError>
    ensures order { IfOk result (λ found. option_map order_of found ≡ order_in word.now (texts others.now)) }
    ensures in_order { IfOk result (λ found. IfSome found IsInOrder) }
{
    let Some(verb) = verb_in(word) else {
        return Ok(None);
    };
    let found = order_by(alloc, verb, others)?;
    Ok(found)
}

//! The event that a line tells.
ghost use Rattle.std.specs.Prelude.{◌≡◌, ℕ, option_map, IfOk, IfSome};
ghost use Rattle.vc_events.specs.Events.{event_of, IsEnd, IsInWorld, IsParty, letter_of, party_of};
ghost use Rattle.vc_script.specs.Lines.{asked_in, compare_in, deliver_in, event_in, forge_in, forged, letter_in, line_event, node_event, ordered, pack_in, prune_in, restart_in, step_in, stop_in};
ghost use Rattle.vc_script.specs.Words.{texts};

use crate::orders::{decoded_in, order_in};
use crate::words::{first_of, has_empty, number_in, pair, party_in, sole, words_of};
use std::alloc::{AllocError, Global};
use vc_events::{Event, Letter, Party};

#[tactic(auto, unfolding(crate::specs::Lines::deliver_in))]
fn deliver_in(words: &[&[u8]]) -> Option<Event>
    ensures event { option_map event_of result ≡ deliver_in (texts words.now) }
    ensures in_world { (n : ℕ) → IfSome result (IsInWorld n) }
{
    let message = number_in(sole(words)?)?;
    Some(Event::Deliver(message))
}

#[tactic(auto, unfolding(crate::specs::Lines::step_in))]
fn step_in(words: &[&[u8]]) -> Option<Event>
    ensures event { option_map event_of result ≡ step_in (texts words.now) }
    ensures in_world { (n : ℕ) → IfSome result (IsInWorld n) }
{
    let slot = number_in(sole(words)?)?;
    Some(Event::Step(slot))
}

#[tactic(auto, unfolding(crate::specs::Lines::restart_in))]
fn restart_in(clones: usize, words: &[&[u8]]) -> Option<Event>
    ensures event { option_map event_of result ≡ restart_in clones (texts words.now) }
    ensures in_world { IfSome result (IsInWorld clones) }
{
    let party = party_in(clones, sole(words)?)?;
    Some(Event::Restart(party))
}

// So many more writes pass at a node.
#[tactic(auto, unfolding(crate::specs::Lines::stop_in))]
fn stop_in(clones: usize, words: &[&[u8]]) -> Option<Event>
    ensures event { option_map event_of result ≡ stop_in clones (texts words.now) }
    ensures in_world { IfSome result (IsInWorld clones) }
{
    let (node, writes) = pair(words)?;
    let party = party_in(clones, node)?;
    let writes = number_in(writes)?;
    Some(Event::Stop(party, writes as u64))
}

// The letter that brings these bytes to a node from the other end. One of the two is the shared node.
fn letter_in(to: Party, from: Party, bytes: Vec<u8>) -> Option<Letter>
    ensures letter { option_map letter_of result ≡ letter_in (party_of to) (party_of from) bytes.items }
    ensures in_world { (n : ℕ) → IsParty n to → IsParty n from → IfSome result (IsEnd n) }
{
    match to {
        Party::Shared => match from {
            Party::Shared => None,
            Party::Clone(clone) => Some(Letter::ToShared(clone, bytes)),
        },
        Party::Clone(clone) => match from {
            Party::Shared => Some(Letter::ToClone(clone, bytes)),
            Party::Clone(_) => None,
        },
    }
}

// The bytes that hex digits write come to a node as if from the other end.
#[tactic(auto, unfolding(crate::specs::Lines::forged))]
fn forged(alloc: Global, to: Party, from: Party, digits: &[u8]) -> Result<Option<Event>, AllocError>
    ensures event { IfOk result (λ found. option_map event_of found ≡ forged (party_of to) (party_of from) digits.now) }
    ensures in_world { (n : ℕ) → IsParty n to → IsParty n from → IfOk result (λ found. IfSome found (IsInWorld n)) }
{
    let Some(bytes) = decoded_in(alloc, digits)? else {
        return Ok(None);
    };
    let Some(letter) = letter_in(to, from, bytes) else {
        return Ok(None);
    };
    Ok(Some(Event::Forge(letter)))
}

#[tactic(auto, unfolding(crate::specs::Lines::forge_in))]
fn forge_in(alloc: Global, clones: usize, words: &[&[u8]]) -> Result<Option<Event>, AllocError>
    ensures event { IfOk result (λ found. option_map event_of found ≡ forge_in clones (texts words.now)) }
    ensures in_world { IfOk result (λ found. IfSome found (IsInWorld clones)) }
{
    let Some((to, others)) = first_of(words) else {
        return Ok(None);
    };
    let Some((from, digits)) = pair(others) else {
        return Ok(None);
    };
    let Some(to) = party_in(clones, to) else {
        return Ok(None);
    };
    let Some(from) = party_in(clones, from) else {
        return Ok(None);
    };
    let found = forged(alloc, to, from, digits)?;
    Ok(found)
}

// The node puts its refs into one file.
#[tactic(auto, unfolding(crate::specs::Lines::pack_in))]
fn pack_in(party: Party, words: &[&[u8]]) -> Option<Event>
    ensures event { option_map event_of result ≡ pack_in (party_of party) (texts words.now) }
    ensures in_world { (n : ℕ) → IsParty n party → IfSome result (IsInWorld n) }
{
    if !words.is_empty() {
        return None;
    }
    Some(Event::Pack(party))
}

// The node removes the objects that nothing needs.
#[tactic(auto, unfolding(crate::specs::Lines::prune_in))]
fn prune_in(party: Party, words: &[&[u8]]) -> Option<Event>
    ensures event { option_map event_of result ≡ prune_in (party_of party) (texts words.now) }
    ensures in_world { (n : ℕ) → IsParty n party → IfSome result (IsInWorld n) }
{
    if words.is_empty() {
        Some(Event::Prune(party))
    } else {
        None
    }
}

// Whether two expressions have one value at the node.
#[tactic(auto, unfolding(crate::specs::Lines::compare_in))]
fn compare_in(alloc: Global, party: Party, words: &[&[u8]]) -> Result<Option<Event>, AllocError>
    ensures event { IfOk result (λ found. option_map event_of found ≡ compare_in (party_of party) (texts words.now)) }
    ensures in_world { (n : ℕ) → IsParty n party → IfOk result (λ found. IfSome found (IsInWorld n)) }
{
    let Some((first, second)) = pair(words) else {
        return Ok(None);
    };
    let first = Vec::from_slice(alloc, first)?;
    let second = Vec::from_slice(alloc, second)?;
    Ok(Some(Event::Compare(party, first, second)))
}

// The node is told to do something: only a clone is.
#[tactic(auto, unfolding(crate::specs::Lines::ordered))]
fn ordered(
    alloc: Global,
    party: Party,
    verb: &[u8],
    words: &[&[u8]],
) -> Result<Option<Event>, AllocError>
    ensures event { IfOk result (λ found. option_map event_of found ≡ ordered (party_of party) verb.now (texts words.now)) }
    ensures in_world { (n : ℕ) → IsParty n party → IfOk result (λ found. IfSome found (IsInWorld n)) }
{
    let Party::Clone(clone) = party else {
        return Ok(None);
    };
    let Some(order) = order_in(alloc, verb, words)? else {
        return Ok(None);
    };
    Ok(Some(Event::Order(clone, order)))
}

// What the words tell a node.
#[tactic(auto, unfolding(crate::specs::Lines::asked_in))]
fn asked_in(alloc: Global, party: Party, words: &[&[u8]]) -> Result<Option<Event>, AllocError>
    ensures event { IfOk result (λ found. option_map event_of found ≡ asked_in (party_of party) (texts words.now)) }
    ensures in_world { (n : ℕ) → IsParty n party → IfOk result (λ found. IfSome found (IsInWorld n)) }
{
    let Some((verb, others)) = first_of(words) else {
        return Ok(None);
    };
    if verb == b"same".as_slice() {
        let found = compare_in(alloc, party, others)?;
        return Ok(found);
    }
    if verb == b"pack".as_slice() {
        return Ok(pack_in(party, others));
    }
    if verb == b"prune".as_slice() {
        return Ok(prune_in(party, others));
    }
    let found = ordered(alloc, party, verb, others)?;
    Ok(found)
}

// What the words after the name of a node tell, in a world of so many clones.
#[tactic(auto, unfolding(crate::specs::Lines::node_event))]
fn node_event(
    alloc: Global,
    clones: usize,
    name: &[u8],
    words: &[&[u8]],
) -> Result<Option<Event>, AllocError>
    ensures event { IfOk result (λ found. option_map event_of found ≡ node_event clones name.now (texts words.now)) }
    ensures in_world { IfOk result (λ found. IfSome found (IsInWorld clones)) }
{
    let Some(party) = party_in(clones, name) else {
        return Ok(None);
    };
    let found = asked_in(alloc, party, words)?;
    Ok(found)
}

// The event that the words tell, in a world of so many clones.
#[tactic(auto, unfolding(crate::specs::Lines::event_in))]
fn event_in(alloc: Global, clones: usize, words: &[&[u8]]) -> Result<Option<Event>, AllocError>
    ensures event { IfOk result (λ found. option_map event_of found ≡ event_in clones (texts words.now)) }
    ensures in_world { IfOk result (λ found. IfSome found (IsInWorld clones)) }
{
    let Some((first, others)) = first_of(words) else {
        return Ok(None);
    };
    if first == b"deliver".as_slice() {
        return Ok(deliver_in(others));
    }
    if first == b"step".as_slice() {
        return Ok(step_in(others));
    }
    if first == b"restart".as_slice() {
        return Ok(restart_in(clones, others));
    }
    if first == b"stop".as_slice() {
        return Ok(stop_in(clones, others));
    }
    if first == b"forge".as_slice() {
        let found = forge_in(alloc, clones, others)?;
        return Ok(found);
    }
    let found = node_event(alloc, clones, first, others)?;
    Ok(found)
}

/// The event that a line tells, in a world of so many clones.
#[tactic(auto, unfolding(crate::specs::Lines::line_event))]
pub(crate) fn line_event(
    alloc: Global,
    clones: usize,
    line: &[u8],
) -> Result<Option<Event>, AllocError>
    ensures event { IfOk result (λ found. option_map event_of found ≡ line_event clones line.now) }
    ensures in_world { IfOk result (λ found. IfSome found (IsInWorld clones)) }
{
    if has_empty(line) {
        return Ok(None);
    }
    let words = words_of(alloc, line)?;
    let found = event_in(alloc, clones, &words)?;
    Ok(found)
}

//! The words of a line, and what a word tells: a number, a node, a name.
ghost use Rattle.std.specs.Prelude.{◌≡◌, ◌<◌, ◌≤◌, ◌∷◌, [], true, length, option_map, IfOk, IfSome, MatchOption};
ghost use Rattle.std.specs.List.{list_all};
ghost use Rattle.vc_events.specs.Events.{IsBranch, IsParty, party_of};
ghost use Rattle.vc_object.specs.Header.{number};
ghost use Rattle.vc_script.specs.Words.{branch_in, clone_in, has_empty, is_digit, name_in, number_in, pair, party_in, plain_number_in, sole, texts, words_of};

use std::alloc::{AllocError, Global};
use vc_events::Party;
use vc_refname::{NewNameError, RefName};

/// What stands between the spaces of a line.
pub(crate) fn words_of<'a>(alloc: Global, line: &'a [u8]) -> Result<Vec<&'a [u8]>, AllocError>
    ensures { IfOk result (λ found. texts found.items ≡ words_of line.now) }
{
    line.split(|byte| *byte == b' ').collect(alloc)
}

/// Whether a word of a line is empty: two spaces side by side, or one at an edge.
pub(crate) fn has_empty(line: &[u8]) -> bool
    ensures { result ≡ has_empty (words_of line.now) }
{
    line.split(|byte| *byte == b' ').any(|word| word.is_empty())
}

/// The first word and the others.
pub(crate) fn first_of<'a, 'b>(words: &'b [&'a [u8]]) -> Option<(&'a [u8], &'b [&'a [u8]])>
    ensures { MatchOption result (texts words.now ≡ []) (λ parts. texts words.now ≡ parts.0.now ∷ texts parts.1.now) }
{
    let (first, others) = words.split_first()?;
    Some((*first, others))
}

/// The word that stands alone.
pub(crate) fn sole<'a>(words: &[&'a [u8]]) -> Option<&'a [u8]>
    ensures { option_map (λ word. word.now) result ≡ sole (texts words.now) }
{
    match words {
        [word] => Some(*word),
        _ => None,
    }
}

/// The words where there are two.
pub(crate) fn pair<'a>(words: &[&'a [u8]]) -> Option<(&'a [u8], &'a [u8])>
    ensures { option_map (λ parts. (parts.0.now, parts.1.now)) result ≡ pair (texts words.now) }
{
    match words {
        [first, second] => Some((*first, *second)),
        _ => None,
    }
}

// The number that so few digits write.
fn number_of(digits: &[u8]) -> usize
    requires few { length digits.now ≤ 9 }
    requires digits { list_all is_digit digits.now ≡ true }
    ensures { result ≡ number digits.now }
{
    let mut number = 0;
    for digit in digits {
        number = number * 10 + (*digit - b'0') as usize;
    }
    number
}

// Whether there are only digits.
fn all_digits(word: &[u8]) -> bool
    ensures { result ≡ list_all is_digit word.now }
{
    word.iter().all(|byte| b'0' <= *byte && *byte <= b'9')
}

/// The number that 1 to 9 digits write.
#[tactic(auto, unfolding(crate::specs::Words::number_in))]
pub(crate) fn number_in(word: &[u8]) -> Option<usize>
    ensures { result ≡ number_in word.now }
{
    if word.is_empty() {
        return None;
    }
    if word.len() > 9 {
        return None;
    }
    if !all_digits(word) {
        return None;
    }
    Some(number_of(word))
}

// The same of a number that has no 0 before it.
fn plain_number_in(word: &[u8]) -> Option<usize>
    ensures { result ≡ plain_number_in word.now }
{
    if word.len() > 1 && word[0] == b'0' {
        return None;
    }
    number_in(word)
}

// The clone with this name, of which there are so many.
#[tactic(auto, unfolding(crate::specs::Words::clone_in))]
fn clone_in(clones: usize, word: &[u8]) -> Option<usize>
    ensures number { result ≡ clone_in clones word.now }
    ensures below { IfSome result (λ number. number < clones) }
{
    let (first, digits) = word.split_first()?;
    if *first != b'c' {
        return None;
    }
    let number = plain_number_in(digits)?;
    if number < clones { Some(number) } else { None }
}

/// The node with this name, in a world of so many clones.
#[tactic(auto, unfolding(crate::specs::Words::party_in))]
pub(crate) fn party_in(clones: usize, word: &[u8]) -> Option<Party>
    ensures party { option_map party_of result ≡ party_in clones word.now }
    ensures in_world { IfSome result (IsParty clones) }
{
    if word == b"shared".as_slice() {
        return Some(Party::Shared);
    }
    let number = clone_in(clones, word)?;
    Some(Party::Clone(number))
}

/// The name of a ref that the bytes are.
#[tactic(auto, unfolding(crate::specs::Words::name_in))]
pub(crate) fn name_in(alloc: Global, text: &[u8]) -> Result<Option<RefName>, AllocError>
    ensures { IfOk result (λ found. found ≡ name_in text.now) }
{
    let Ok(text) = str::from_utf8(text) else {
        return Ok(None);
    };
    match RefName::new(alloc, text) {
        Ok(name) => Ok(Some(name)),
        Err(NewNameError::Refused(_)) => Ok(None),
        Err(NewNameError::Memory) => Err(AllocError),
    }
}

/// The full name of the branch with this short one.
#[tactic(auto, unfolding(crate::specs::Words::branch_in))]
pub(crate) fn branch_in(alloc: Global, word: &[u8]) -> Result<Option<RefName>, AllocError>
    ensures name { IfOk result (λ found. found ≡ branch_in word.now) }
    ensures branch { IfOk result (λ found. IfSome found IsBranch) }
{
    let mut name = Vec::from_slice(alloc, b"refs/heads/")?;
    name.extend_from_slice(word)?;
    let found = name_in(alloc, &name)?;
    Ok(found)
}

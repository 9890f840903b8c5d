//! Rows on the generations of commits.
use crate::answers::{Answer, or_nothing, push_item};
use crate::graph_rows::told_base;
use crate::ids::ids_of;
use std::alloc::{AllocError, Global};
use vc_history::Generations;
use vc_object::ObjectId;
use vc_object_map::Commits;

/// Learns from nothing what the first ids lead to, one after the other, and answers each refusal, and then what is known of
/// the ids after the word `of`.
pub fn obey<C: Commits>(source: &mut C, alloc: Global, rest: &str) -> Answer {
    learn(source, alloc, &mut Generations::new(alloc), rest)
}

/// The same beside what is known before.
pub fn learn<C: Commits>(
    source: &mut C,
    alloc: Global,
    generations: &mut Generations,
    rest: &str,
) -> Answer {
    let (roots, names) = rest.split_once(" of ").unwrap_or((rest, rest));
    let mut list = String::new(alloc);
    learn_all(
        &mut list,
        source,
        alloc,
        generations,
        &ids_of(alloc, roots)?,
    )?;
    push_numbers(&mut list, generations, &ids_of(alloc, names)?)?;
    or_nothing(list)
}

// Learns what the ids lead to, and writes each refusal.
fn learn_all<C: Commits>(
    list: &mut String,
    source: &mut C,
    alloc: Global,
    generations: &mut Generations,
    roots: &[ObjectId],
) -> Result<(), AllocError> {
    for root in roots {
        if let Err(refusal) = told_base(generations.learn(alloc, source, root)) {
            push_item(list, " ", &refusal)?;
            list.push(';')?;
        }
    }
    Ok(())
}

// Writes the generation of each id, or `-` if it isn't known.
fn push_numbers(
    list: &mut String,
    generations: &Generations,
    names: &[ObjectId],
) -> Result<(), AllocError> {
    for name in names {
        match generations.get(name) {
            Some(number) => push_item(list, " ", &number)?,
            None => push_item(list, " ", &'-')?,
        }
    }
    Ok(())
}

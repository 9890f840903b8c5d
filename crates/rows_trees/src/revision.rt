//! Rows about what revisions stand for over the files of a repository.
use crate::bench::Device;
use crate::words::{digits, or_word, push_item};
use anyhow::Result;
use std::alloc::{AllocError, Global};
use vc_expression::{Expr, SetExpr, parse, parse_set};
use vc_index::Index;
use vc_object::ObjectId;
use vc_refs::PackedCache;
use vc_repository::{FileRepository, read_index};
use vc_rev::resolve;
use vc_rev_set::resolve_set;

/// The object that an expression names.
pub fn value(alloc: Global, files: &mut Device, source: &str) -> Result<String> {
    value_of(alloc, files, &parse(alloc, source.as_bytes())?)
}

fn value_of(alloc: Global, files: &mut Device, expr: &Expr<'_>) -> Result<String> {
    let index = read_index(alloc, files)?;
    let id = resolved(alloc, files, &index, expr)?;
    Ok(digits(alloc, id)?)
}

fn resolved(alloc: Global, files: &mut Device, index: &Index, expr: &Expr<'_>) -> Result<ObjectId> {
    let mut packed = PackedCache::new(alloc);
    let mut repository = FileRepository::new(alloc, files, index, &mut packed);
    Ok(resolve(alloc, &mut repository, expr)?)
}

/// The commits that some terms select.
pub fn set(alloc: Global, files: &mut Device, source: &str) -> Result<String> {
    set_of(alloc, files, &parse_set(alloc, source.as_bytes())?)
}

fn set_of(alloc: Global, files: &mut Device, terms: &SetExpr<'_>) -> Result<String> {
    let index = read_index(alloc, files)?;
    let ids = selected(alloc, files, &index, terms)?;
    Ok(listed(alloc, &ids)?)
}

fn selected(
    alloc: Global,
    files: &mut Device,
    index: &Index,
    terms: &SetExpr<'_>,
) -> Result<Vec<ObjectId>> {
    let mut packed = PackedCache::new(alloc);
    let mut repository = FileRepository::new(alloc, files, index, &mut packed);
    Ok(resolve_set(alloc, &mut repository, terms)?)
}

fn listed(alloc: Global, ids: &[ObjectId]) -> Result<String, AllocError> {
    let mut list = String::new(alloc);
    for id in ids {
        push_item(&mut list, " | ", digits(alloc, *id)?.as_str())?;
    }
    or_word(list, "none")
}

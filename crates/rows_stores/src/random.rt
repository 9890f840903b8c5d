//! Random graphs of up to twelve commits, with several roots, criss-cross merges and at times cycles, against a brute force
//! that computes the definitions.
use crate::answers::Answer;
use crate::ids::lettered;
use crate::tables::Table;
use std::alloc::{AllocError, Global};
use vc_history::{Generations, HistoryFault, is_ancestor};
use vc_object::ObjectId;
use vc_selection::{commits, common_ancestors, merge_bases};

/// A generator of numbers, told by its seed.
#[derive(Drop)]
pub struct Numbers(u64);

impl Numbers {
    /// That of a seed; seeds that follow each other give others that don't.
    pub fn of(seed: u64) -> Numbers {
        Numbers(seed.wrapping_mul(0x9e37_79b9_7f4a_7c15))
    }

    fn next(&mut self) -> u32 {
        self.0 = self
            .0
            .wrapping_mul(6_364_136_223_846_793_005)
            .wrapping_add(1_442_695_040_888_963_407);
        (self.0 >> 40) as u32
    }

    /// A number below the bound.
    pub fn below(&mut self, bound: u8) -> u8 {
        let number = self.next().checked_rem(u32::from(bound)).unwrap_or(0);
        u8::try_from(number).unwrap_or(0)
    }

    // A set of one commit below the bound, or of none where the bound is 0.
    fn one_of(&mut self, bound: u8) -> u32 {
        if bound == 0 {
            0
        } else {
            bit(self.below(bound))
        }
    }
}

// A set of commits, one bit for each.
fn bit(commit: u8) -> u32 {
    1_u32.wrapping_shl(u32::from(commit))
}

fn has(set: u32, commit: u8) -> bool {
    set & bit(commit) != 0
}

// Whether these are the commits of a set, in order of name.
fn are_names(found: &[ObjectId], set: u32) -> bool {
    let mut rest = found;
    for commit in 0..12_u8 {
        if has(set, commit) {
            let Some((first, others)) = rest.split_first() else {
                return false;
            };
            if *first != lettered(commit) {
                return false;
            }
            rest = others;
        }
    }
    rest.is_empty()
}

// The commits of a set, in order of name.
fn names(alloc: Global, set: u32) -> Result<Vec<ObjectId>, AllocError> {
    let mut names = Vec::new(alloc);
    for commit in 0..12_u8 {
        if has(set, commit) {
            names.push(lettered(commit))?;
        }
    }
    Ok(names)
}

// Adds so many commits to the parents of each commit, as sets. Only with cycles may a parent be no earlier commit.
fn add_random(parents: &mut Vec<u32>, numbers: &mut Numbers, count: u8) -> Result<(), AllocError> {
    let has_cycles = numbers.below(4) == 0;
    for commit in 0..count {
        let choices = if has_cycles { count } else { commit };
        let mut own = 0;
        for _ in 0..numbers.below(4) {
            own |= numbers.one_of(choices);
        }
        parents.push(own)?;
    }
    Ok(())
}

// Adds each commit with its parents to a table.
fn add_all(table: &mut Table, alloc: Global, parents: &[u32]) -> Result<(), AllocError> {
    let mut commit = 0_u8;
    for own in parents {
        table.add(lettered(commit), &names(alloc, *own)?)?;
        commit = commit.wrapping_add(1);
    }
    Ok(())
}

// The ancestors of all commits of a set: parents are added as often as there are commits.
fn ancestors(parents: &[u32], of: u32) -> u32 {
    let mut all = of;
    for _ in 0..12 {
        let mut commit = 0_u8;
        for own in parents {
            if has(all, commit) {
                all |= *own;
            }
            commit = commit.wrapping_add(1);
        }
    }
    all
}

// The commits of the set that are ancestors of no other of the set.
fn best(parents: &[u32], common: u32) -> u32 {
    let mut passed = 0;
    for other in 0..12_u8 {
        if has(common, other) {
            passed |= ancestors(parents, bit(other)) & !bit(other);
        }
    }
    common & !passed
}

// The common ancestors of two commits.
fn common(parents: &[u32], pair: (u8, u8)) -> u32 {
    ancestors(parents, bit(pair.0)) & ancestors(parents, bit(pair.1))
}

// Whether the best common ancestors of two commits are answered as the definition has it.
fn agrees_on_bases(
    alloc: Global,
    table: &mut Table,
    parents: &[u32],
    pair: (u8, u8),
    known: &Generations,
) -> Result<bool, HistoryFault> {
    let (a, b) = (lettered(pair.0), lettered(pair.1));
    let found = merge_bases(alloc, table, &a, &b, known)?;
    Ok(are_names(&found, best(parents, common(parents, pair))))
}

// The same of all common ancestors.
fn agrees_on_common(
    alloc: Global,
    table: &mut Table,
    parents: &[u32],
    pair: (u8, u8),
) -> Result<bool, HistoryFault> {
    let (a, b) = (lettered(pair.0), lettered(pair.1));
    let found = common_ancestors(alloc, table, &a, &b)?;
    Ok(are_names(&found, common(parents, pair)))
}

// The same of whether the first is an ancestor of the second.
fn agrees_on_ancestry(
    alloc: Global,
    table: &mut Table,
    parents: &[u32],
    pair: (u8, u8),
    known: &Generations,
) -> Result<bool, HistoryFault> {
    let (a, b) = (lettered(pair.0), lettered(pair.1));
    let descends = is_ancestor(alloc, table, &a, &b, known)?;
    Ok(descends == has(ancestors(parents, bit(pair.1)), pair.0))
}

// Whether all is answered so of two commits with nothing known, and for the bases no commit is read twice.
fn agrees_on_pair(
    alloc: Global,
    table: &mut Table,
    parents: &[u32],
    pair: (u8, u8),
    none: &Generations,
) -> Result<bool, HistoryFault> {
    let all = ancestors(parents, bit(pair.0) | bit(pair.1));
    table.reads = 0;
    let bases = agrees_on_bases(alloc, table, parents, pair, none)?;
    let once = table.reads == u64::from(all.count_ones());
    let common = agrees_on_common(alloc, table, parents, pair)?;
    let ancestry = agrees_on_ancestry(alloc, table, parents, pair, none)?;
    Ok(bases && once && common && ancestry)
}

// Whether the commits are selected that the definition has, with these generations known.
fn selects(
    alloc: Global,
    table: &mut Table,
    parents: &[u32],
    sets: (u32, u32),
    known: &Generations,
) -> Result<bool, HistoryFault> {
    let include = names(alloc, sets.0)?;
    let exclude = names(alloc, sets.1)?;
    let found = commits(alloc, table, &include, &exclude, known)?;
    let selected = ancestors(parents, sets.0) & !ancestors(parents, sets.1);
    Ok(are_names(&found, selected))
}

// The same with nothing known: then no commit is read twice.
fn agrees_on_sets(
    alloc: Global,
    table: &mut Table,
    parents: &[u32],
    sets: (u32, u32),
    none: &Generations,
) -> Result<bool, HistoryFault> {
    let all = ancestors(parents, sets.0 | sets.1);
    table.reads = 0;
    Ok(selects(alloc, table, parents, sets, none)? && table.reads == u64::from(all.count_ones()))
}

// Whether all that is asked about a graph is answered so with nothing known.
fn agrees(
    alloc: Global,
    table: &mut Table,
    parents: &[u32],
    numbers: &mut Numbers,
    count: u8,
) -> Result<bool, HistoryFault> {
    let none = Generations::new(alloc);
    let pair = (numbers.below(count), numbers.below(count));
    let all = bit(count).wrapping_sub(1);
    let include = numbers.next() & all;
    let exclude = numbers.next() & numbers.next() & all;
    Ok(
        agrees_on_pair(alloc, table, parents, pair, &none)?
            && agrees_on_sets(alloc, table, parents, (include, exclude), &none)?,
    )
}

// Whether the bases and the ancestry of two commits are answered so, and what one has beyond the other and some more, with these
// generations known.
fn agrees_beside(
    alloc: Global,
    table: &mut Table,
    parents: &[u32],
    roots: u32,
    pair: (u8, u8),
    known: &Generations,
) -> Result<bool, HistoryFault> {
    let (a, b) = (bit(pair.0), bit(pair.1));
    let bases = agrees_on_bases(alloc, table, parents, pair, known)?;
    let ancestry = agrees_on_ancestry(alloc, table, parents, pair, known)?;
    Ok(
        bases
            && ancestry
            && selects(alloc, table, parents, (a, b), known)?
            && selects(alloc, table, parents, (a | roots, b), known)?
            && selects(alloc, table, parents, (a, b | roots), known)?,
    )
}

// Learns the generations of what some commits lead to.
fn learn(
    known: &mut Generations,
    alloc: Global,
    table: &mut Table,
    roots: u32,
) -> Result<(), HistoryFault> {
    for root in &names(alloc, roots)? {
        known.learn(alloc, table, root)?;
    }
    Ok(())
}

// Whether all is answered so with the generations known of what some commits lead to.
fn agrees_where_known(
    alloc: Global,
    table: &mut Table,
    parents: &[u32],
    roots: u32,
    pair: (u8, u8),
) -> Result<bool, HistoryFault> {
    let mut known = Generations::new(alloc);
    learn(&mut known, alloc, table, roots)?;
    agrees_beside(alloc, table, parents, roots, pair, &known)
}

// Whether all is answered so where nothing is known of a graph, where all is, and where a part is.
fn agrees_numbered(
    alloc: Global,
    table: &mut Table,
    parents: &[u32],
    numbers: &mut Numbers,
    count: u8,
) -> Result<bool, HistoryFault> {
    let pair = (numbers.below(count), numbers.below(count));
    let all = bit(count).wrapping_sub(1);
    let part = numbers.next() & numbers.next() & all;
    Ok(
        agrees_where_known(alloc, table, parents, 0, pair)?
            && agrees_where_known(alloc, table, parents, all, pair)?
            && agrees_where_known(alloc, table, parents, part, pair)?,
    )
}

// Whether all that the verb asks about the graph of a seed is answered so.
fn agrees_of(
    alloc: Global,
    table: &mut Table,
    parents: &mut Vec<u32>,
    verb: &str,
    seed: u64,
) -> Result<bool, HistoryFault> {
    let mut numbers = Numbers::of(seed);
    let count = numbers.below(11).wrapping_add(2);
    add_random(parents, &mut numbers, count)?;
    add_all(table, alloc, parents)?;
    match verb {
        "random" => agrees(alloc, table, parents, &mut numbers, count),
        _ => agrees_numbered(alloc, table, parents, &mut numbers, count),
    }
}

/// About how many of so many random graphs all is answered as the definitions have it.
pub fn agreements(alloc: Global, verb: &str, text: &str) -> Answer {
    let seeds: u64 = text.parse()?;
    let mut agreed = 0_u64;
    for seed in 0..seeds {
        let mut parents = Vec::new(alloc);
        let mut table = Table::new(alloc);
        let same = agrees_of(alloc, &mut table, &mut parents, verb, seed)?;
        agreed = agreed.wrapping_add(u64::from(same));
    }
    told(alloc, agreed)
}

/// How many agree.
pub fn told(alloc: Global, agreed: u64) -> Answer {
    Ok(format!(in alloc; "{agreed} agree")?)
}

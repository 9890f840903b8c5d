//! The part of a history that lies above a floor: commits whose number is not above the floor are not read, nor is what lies
//! below them.
ghost use Rattle.std.specs.Prelude.{◌≡◌, ◌⊎◌, ◌<◌, ℕ, Contains, IsTrue, Some};
ghost use Rattle.vc_history.specs.Numbering.{numbers};
ghost use Rattle.vc_selection.specs.Part.{under};
ghost use Rattle.vc_object.specs.declared.id.ObjectId.{ObjectId as Id};

use indexmap::IndexSet;
use vc_history::{Generations, Limit, Walk};
use vc_object::ObjectId;

// What has a number that is not above the floor lies beyond.
#[derive(Drop)]
pub(crate) struct Floor<'a> {
    pub(crate) generations: &'a Generations,
    pub(crate) floor: u64,
}

impl Limit for Floor<'_> {
    ghost beyond = { λ s. under (numbers s.generations.now) s.floor };

    fn is_beyond(&self, id: &ObjectId) -> bool {
        match self.generations.get(id) {
            Some(number) => number <= self.floor,
            None => false,
        }
    }
}

// A floor below each root that has a number. With no generations it is 0, and no number is greater than their count.
pub(crate) fn first_floor(generations: &Generations, roots: &[ObjectId]) -> u64
    ensures below { (r : Id) (n : ℕ) → Contains roots.now r → numbers generations.now r ≡ Some n → 0 < n → result < n }
{
    let mut floor = generations.count();
    for root in roots {
        if let Some(number) = generations.get(root) {
            if number <= floor {
                floor = number.saturating_sub(1);
            }
        }
    }
    floor
}

// A floor that is lower by a step at least, and lower than what was met and not read.
pub(crate) fn lower_floor(walk: &Walk, generations: &Generations, floor: u64, step: u64) -> u64
    requires { 0 < floor }
    ensures lower { result < floor }
{
    let mut greatest: u64 = 0;
    for parents in &walk.parents {
        greatest = greatest_unread(generations, floor, parents, greatest);
    }
    let lower = greatest.saturating_sub(step);
    if lower < floor { lower } else { floor - 1 }
}

// The greatest number under the floor of the names, or the given one.
fn greatest_unread(generations: &Generations, floor: u64, names: &[ObjectId], least: u64) -> u64 {
    let mut greatest = least;
    for name in names {
        if let Some(number) = generations.get(name) {
            if greatest < number && number <= floor {
                greatest = number;
            }
        }
    }
    greatest
}

// Whether each of the names is in one of two sets.
pub(crate) fn each_is_among(
    names: &[ObjectId],
    some: &IndexSet<ObjectId>,
    others: &IndexSet<ObjectId>,
) -> bool
    ensures { IsTrue result → (x : Id) → Contains names.now x → Contains some.now.keys x ⊎ Contains others.now.keys x }
{
    for name in names {
        if !some.contains(name) {
            if !others.contains(name) {
                return false;
            }
        }
    }
    true
}

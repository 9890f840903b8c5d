//! The limit of a walk that looks for one commit. It passes over each commit whose number rules out that the sought one is an
//! ancestor: an ancestor other than the commit itself has a smaller number, and the ancestors of a numbered commit are numbered.
ghost use Rattle.vc_history.specs.Numbering.{numbers};
ghost use Rattle.vc_history.specs.Toward.{ruled_out};

use crate::Generations;
use crate::walk::Limit;
use vc_object::ObjectId;

// The numbers rule out that the sought commit is an ancestor of what lies beyond. No commit is ruled out as its own.
#[derive(Drop)]
pub(crate) struct Toward<'a> {
    pub(crate) sought: &'a ObjectId,
    pub(crate) generations: &'a Generations,
}

impl Limit for Toward<'_> {
    ghost beyond = { λ s. ruled_out (numbers s.generations.now) s.sought.now };

    fn is_beyond(&self, id: &ObjectId) -> bool {
        let Some(number) = self.generations.get(id) else {
            return false;
        };
        if id == self.sought {
            return false;
        }
        match self.generations.get(self.sought) {
            Some(other) => number <= other,
            None => true,
        }
    }
}

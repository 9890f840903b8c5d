//! What is known of a store's objects: how it grows, and what may be asked of it.
ghost use Rattle.std.specs.Prelude.{◌≡◌, ◌↔◌, ◌≤◌, [], IsTrue, OnOk, OnErr, IfErr, IsErrOf, is_some, Contains, ◌++◌, ◌∷◌, IfOk, IsSome, ℕ};
ghost use Rattle.vc_files.specs.Failures.{Wears};
ghost use Rattle.vc_graph.specs.GraphFault.{IsTold};
ghost use Rattle.vc_history.specs.Generation.{Learns};
ghost use Rattle.vc_history.specs.HistoryFault.{IsTold as IsToldOfHistory};
ghost use Rattle.vc_known.specs.Common.{IsLastCommon};
ghost use Rattle.vc_known.specs.Known.{Agrees, count_in, generation_in, kind_in, layer_in, moments_in, KnowsSame, ReachesLast, place_in};
ghost use Rattle.vc_known.specs.Layers.{is_below, last_roots, IsReachedAbove, ReachesLayers};
ghost use Rattle.vc_known.specs.Reach.{IsReachOf};
ghost use Rattle.vc_known.specs.Walked.{Places, kind_met};
ghost use Rattle.vc_object.specs.ObjectId.{IsSortedByName};
ghost use Rattle.vc_object.specs.ObjectMap.{ObjectMap, links_in, parents_in};
ghost use Rattle.vc_object.specs.declared.id.ObjectId.{ObjectId as Id};
ghost use Rattle.vc_object_map.specs.Complete.{AreComplete};
ghost use Rattle.vc_object_map.specs.Graph.{AreExactly, IsReachedBeyond, LinksTo, ReachedFrom};
ghost use Rattle.vc_object_map.specs.StoreFault.{IsMetFrom, IsRefused};

use crate::layer::add_places;
use crate::reach::Reach;
use crate::seen::Kinds;
use crate::walk::{Walked, walk_down};
use indexmap::{IndexMap, IndexSet};
use std::alloc::{AllocError, Global};
use vc_files::Fault;
use vc_graph::GraphFault;
use vc_history::{Generations, HistoryFault};
use vc_object::{Kind, ObjectId};
use vc_object_map::{Commits, Parents, StoreFault, add_names, sorted_from};

// Where a known name stands: its layer, and the kind of its object.
#[derive(Clone, Copy)]
pub(crate) struct Place {
    pub(crate) layer: usize,
    pub(crate) kind: Kind,
}

/// What the roots of a store reached at successive moments: each name in the layer of the first moment whose roots reached it, with the
/// kind of its object, and generations of commits. It takes some 50 bytes of memory for each name.
#[derive(Drop)]
pub struct Known {
    pub(crate) moments: Vec<Vec<ObjectId>>,
    pub(crate) places: IndexMap<ObjectId, Place>,
    pub(crate) generations: Generations,
}

impl Known {
    /// There was no moment yet, and nothing is known.
    pub fn new(alloc: Global) -> Known
        ensures moments { moments_in result ≡ [] }
        ensures agrees { (objects : ObjectMap) → Agrees objects result }
    {
        Known {
            moments: Vec::new(alloc),
            places: IndexMap::new(alloc),
            generations: Generations::new(alloc),
        }
    }

    /// Adds a first moment, at which nothing was reached, if there was none yet.
    pub fn begin(&mut self, alloc: Global) -> Result<(), AllocError>
        ensures agrees { (objects : ObjectMap) → Agrees objects self.old → Agrees objects self.new }
        ensures begun { OnOk result (1 ≤ count_in self.new) }
    {
        if self.moments.is_empty() {
            self.moments.push(Vec::new(alloc))?;
        }
        Ok(())
    }

    /// How many moments there were.
    pub fn moments(&self) -> usize
        ensures { result ≡ count_in self.now }
    {
        self.moments.len()
    }

    /// The layer of a name, if it is known.
    pub fn layer(&self, id: &ObjectId) -> Option<usize>
        ensures { result ≡ layer_in self.now id.now }
    {
        let place = self.places.get(id)?;
        Some(place.layer)
    }

    /// The kind of the object of a name, if that is known.
    pub fn kind(&self, id: &ObjectId) -> Option<Kind>
        ensures { result ≡ kind_in self.now id.now }
    {
        let place = self.places.get(id)?;
        Some(place.kind)
    }

    /// The generation of a commit, if that is known.
    pub fn generation(&self, id: &ObjectId) -> Option<u64>
        ensures { result ≡ generation_in self.now id.now }
    {
        self.generations.get(id)
    }

    /// Whether the name is in a layer.
    pub fn is_known(&self, id: &ObjectId) -> bool
        ensures { result ≡ is_some (layer_in self.now id.now) }
    {
        self.places.contains_key(id)
    }

    /// Whether the name is in one of the first layers, as many as `count`.
    pub fn is_within(&self, id: &ObjectId, count: usize) -> bool
        ensures { result ≡ is_below count (layer_in self.now id.now) }
    {
        match self.layer(id) {
            Some(layer) => layer < count,
            None => false,
        }
    }

    /// The roots of the last of the first moments, as many as `count`; none where that is none.
    pub fn last_roots(&self, count: usize) -> &[ObjectId]
        requires { count ≤ count_in self.now }
        ensures { result.now ≡ last_roots (moments_in self.now) count }
    {
        if count == 0 {
            return &[];
        }
        &self.moments[count - 1]
    }

    /// The greatest count of moments of the last of which each root is one of the names.
    pub fn last_common(&self, names: &IndexSet<ObjectId>) -> usize
        ensures { IsLastCommon (moments_in self.now) names.now.keys result }
    {
        let mut count = self.moments.len();
        while count > 0 {
            if are_among(self.last_roots(count), names) {
                return count;
            }
            count -= 1;
        }
        0
    }

    /// Adds a layer for these roots, of what they reach and is not known. What is known is not read again, nor is what lies below it. The
    /// roots have to reach those of the last moment, as where refs only moved to descendants; else what is known is wrong from then on.
    /// Nothing that they reach may be absent. At an error the same is known as before.
    pub fn add_layer<K: Kinds>(
        &mut self,
        alloc: Global,
        objects: &mut K,
        roots: &[ObjectId],
    ) -> Result<(), GraphFault>
        ensures agrees { OnOk result (K.is_honest → Agrees (K.objects (K.state_of objects.old)) self.old → ReachesLast (K.objects (K.state_of objects.old)) self.old roots.now → Agrees (K.objects (K.state_of objects.old)) self.new) }
        ensures moments { OnOk result (moments_in self.new ≡ moments_in self.old ++ roots.now ∷ []) }
        ensures closed { OnOk result (K.is_honest → Agrees (K.objects (K.state_of objects.old)) self.old → AreComplete (K.objects (K.state_of objects.old)) roots.now) }
        ensures refused { IfErr result (λ e. K.is_honest → IsTold (K.objects (K.state_of objects.old)) (K.damaged (K.state_of objects.old)) roots.now e) }
        ensures generations { (id : Id) → generation_in self.new id ≡ generation_in self.old id }
        ensures err { OnErr result (KnowsSame self.old self.new) }

        ensures kept { K.state_of objects.new ≡ K.state_of objects.old }
        ensures wear { Wears K.failed K.can_fail K.left objects.old objects.new (IsErrOf result (GraphFault.Store (StoreFault.Fault Fault.Device))) }
    {
        let mut walked = Walked::new(alloc);
        walk_down(self, objects, self.moments.len(), roots, &mut walked)?;
        self.place(alloc, &walked, roots)?;
        Ok(())
    }

    // Puts what a walk has met into a new layer. Where memory is wanting, nothing changes.
    fn place(
        &mut self,
        alloc: Global,
        walked: &Walked,
        roots: &[ObjectId],
    ) -> Result<(), AllocError>
        ensures places { OnOk result (Places (count_in self.old) walked.now.met.keys (kind_met walked.now) (place_in self.old) (place_in self.new)) }
        ensures moments { OnOk result (moments_in self.new ≡ moments_in self.old ++ roots.now ∷ []) }
        ensures generations { (id : Id) → generation_in self.new id ≡ generation_in self.old id }
        ensures err { OnErr result (KnowsSame self.old self.new) }
    {
        let layer = self.moments.len();
        self.moments.push(roots.to_vec(alloc)?)?;
        match add_places(&mut self.places, layer, walked) {
            Ok(()) => Ok(()),
            Err(fault) => {
                self.moments.truncate(layer);
                Err(fault)
            }
        }
    }

    /// What the roots reach and none of the first layers has, as many as `count`, sorted by name. Each such object is read once, and none
    /// that these layers have. Nothing that is read may be absent.
    pub fn reached_above<K: Kinds>(
        &self,
        alloc: Global,
        objects: &mut K,
        count: usize,
        roots: &[ObjectId],
    ) -> Result<Vec<ObjectId>, GraphFault>
        requires { count ≤ count_in self.now }
        ensures reached { IfOk result (λ ids. K.is_honest → Agrees (K.objects (K.state_of objects.old)) self.now → AreExactly (IsReachedAbove (links_in (K.objects (K.state_of objects.old))) (layer_in self.now) count roots.now) ids.items) }
        ensures sorted { IfOk result (λ ids. IsSortedByName ids.items) }
        ensures closed { OnOk result (K.is_honest → Agrees (K.objects (K.state_of objects.old)) self.now → AreComplete (K.objects (K.state_of objects.old)) roots.now) }
        ensures refused { IfErr result (λ e. K.is_honest → IsTold (K.objects (K.state_of objects.old)) (K.damaged (K.state_of objects.old)) roots.now e) }

        ensures kept { K.state_of objects.new ≡ K.state_of objects.old }
        ensures wear { Wears K.failed K.can_fail K.left objects.old objects.new (IsErrOf result (GraphFault.Store (StoreFault.Fault Fault.Device))) }
    {
        let mut walked = Walked::new(alloc);
        walk_down(self, objects, count, roots, &mut walked)?;
        Ok(sorted_from(alloc, &walked.met, 0)?)
    }

    /// What the included roots reach and the excluded ones do not, sorted by name, where the excluded ones reach the roots of the last of
    /// the first moments, as many as `count`: all that these layers have is then excluded, and nothing of it is read. Each object above
    /// them is read once, also one that both reach. Nothing that is read may be absent.
    pub fn difference_above<K: Kinds>(
        &self,
        alloc: Global,
        objects: &mut K,
        count: usize,
        include: &[ObjectId],
        exclude: &[ObjectId],
    ) -> Result<Vec<ObjectId>, GraphFault>
        ensures reached { IfOk result (λ ids. K.is_honest → Agrees (K.objects (K.state_of objects.old)) self.now → ReachesLayers (links_in (K.objects (K.state_of objects.old))) (moments_in self.now) count exclude.now → AreExactly (IsReachedBeyond (links_in (K.objects (K.state_of objects.old))) exclude.now include.now) ids.items) }
        ensures sorted { IfOk result (λ ids. IsSortedByName ids.items) }
        ensures closed { OnOk result (K.is_honest → Agrees (K.objects (K.state_of objects.old)) self.now → count ≤ count_in self.now → AreComplete (K.objects (K.state_of objects.old)) (include.now ++ exclude.now)) }
        ensures refused { IfErr result (λ e. K.is_honest → IsTold (K.objects (K.state_of objects.old)) (K.damaged (K.state_of objects.old)) (include.now ++ exclude.now) e) }

        ensures kept { K.state_of objects.new ≡ K.state_of objects.old }
        ensures wear { Wears K.failed K.can_fail K.left objects.old objects.new (IsErrOf result (GraphFault.Store (StoreFault.Fault Fault.Device))) }
    {
        let mut walked = Walked::new(alloc);
        walk_down(self, objects, count, exclude, &mut walked)?;
        let excluded = walked.met.len();
        walk_down(self, objects, count, include, &mut walked)?;
        // What the included roots added is what they alone reach.
        Ok(sorted_from(alloc, &walked.met, excluded)?)
    }

    /// How many of the first moments the roots are found to reach: they reach each root of the last of these. It is no less than
    /// [`last_common`](Known::last_common) of the roots, and more where a walk over commits shows it, as where a branch moved since: it
    /// goes down to the moment 0, 1, 3, 7, .. before the last.
    pub fn last_reached<C: Commits>(
        &self,
        alloc: Global,
        commits: &mut C,
        roots: &[ObjectId],
    ) -> Result<usize, StoreFault>
        ensures reached { IfOk result (λ count. C.is_honest → ReachesLayers (links_in (C.objects (C.state_of commits.old))) (moments_in self.now) count roots.now) }
        ensures common { IfOk result (λ count. (common : ℕ) → IsLastCommon (moments_in self.now) roots.now common → common ≤ count) }
        ensures refused { IfErr result (λ e. C.is_honest → IsMetFrom (C.objects (C.state_of commits.old)) (C.damaged (C.state_of commits.old)) roots.now e) }

        ensures kept { C.state_of commits.new ≡ C.state_of commits.old }
        ensures wear { Wears C.failed C.can_fail C.left commits.old commits.new (IsErrOf result (StoreFault.Fault Fault.Device)) }
    {
        // A node that goes on asks of the last moment.
        let last = self.moments.len();
        if self.reaches(alloc, commits, last, roots)? {
            return Ok(last);
        }
        self.last_reached_before(alloc, commits, roots)
    }

    // Whether the roots and their ancestors down to the first moments, as many as `count`, have each root of the last of these.
    fn reaches<C: Commits>(
        &self,
        alloc: Global,
        commits: &mut C,
        count: usize,
        roots: &[ObjectId],
    ) -> Result<bool, StoreFault>
        requires { count ≤ count_in self.now }
        ensures reached { IfOk result (λ yes. C.is_honest → IsTrue yes → ReachesLayers (links_in (C.objects (C.state_of commits.old))) (moments_in self.now) count roots.now) }
        ensures refused { IfErr result (λ e. C.is_honest → IsMetFrom (C.objects (C.state_of commits.old)) (C.damaged (C.state_of commits.old)) roots.now e) }

        ensures kept { C.state_of commits.new ≡ C.state_of commits.old }
        ensures wear { Wears C.failed C.can_fail C.left commits.old commits.new (IsErrOf result (StoreFault.Fault Fault.Device)) }
    {
        let met = self.ancestors_above(alloc, commits, count, roots)?;
        Ok(are_among(self.last_roots(count), &met))
    }

    // The same of the moments before the last.
    fn last_reached_before<C: Commits>(
        &self,
        alloc: Global,
        commits: &mut C,
        roots: &[ObjectId],
    ) -> Result<usize, StoreFault>
        ensures reached { IfOk result (λ count. C.is_honest → ReachesLayers (links_in (C.objects (C.state_of commits.old))) (moments_in self.now) count roots.now) }
        ensures common { IfOk result (λ count. (common : ℕ) → IsLastCommon (moments_in self.now) roots.now common → common ≤ count) }
        ensures refused { IfErr result (λ e. C.is_honest → IsMetFrom (C.objects (C.state_of commits.old)) (C.damaged (C.state_of commits.old)) roots.now e) }

        ensures kept { C.state_of commits.new ≡ C.state_of commits.old }
        ensures wear { Wears C.failed C.can_fail C.left commits.old commits.new (IsErrOf result (StoreFault.Fault Fault.Device)) }
    {
        let mut names = IndexSet::new(alloc);
        add_names(&mut names, roots)?;
        let common = self.last_common(&names);
        let mut back = 1;
        while back < self.moments.len() - common {
            let count = self.moments.len() - back;
            if self.reaches(alloc, commits, count, roots)? {
                return Ok(count);
            }
            back += back + 1;
        }
        Ok(common)
    }

    // The roots and their ancestors down to the first moments, as many as `count`, with those ancestors that these have and that are met.
    fn ancestors_above<C: Commits>(
        &self,
        alloc: Global,
        commits: &mut C,
        count: usize,
        roots: &[ObjectId],
    ) -> Result<IndexSet<ObjectId>, StoreFault>
        ensures reached { IfOk result (λ met. C.is_honest → (id : Id) → Contains met.keys id → ReachedFrom (links_in (C.objects (C.state_of commits.old))) roots.now id) }
        ensures refused { IfErr result (λ e. C.is_honest → IsMetFrom (C.objects (C.state_of commits.old)) (C.damaged (C.state_of commits.old)) roots.now e) }

        ensures kept { C.state_of commits.new ≡ C.state_of commits.old }
        ensures wear { Wears C.failed C.can_fail C.left commits.old commits.new (IsErrOf result (StoreFault.Fault Fault.Device)) }
    {
        let mut met = IndexSet::new(alloc);
        add_names(&mut met, roots)?;
        let mut next = 0;
        while next < met.len() {
            let id = met[next];
            let parents = self.parents_above(alloc, commits, count, &id)?;
            add_names(&mut met, &parents)?;
            next += 1;
        }
        Ok(met)
    }

    // The parents of a commit that is in none of the first layers, as many as `count`; none of another name.
    fn parents_above<C: Commits>(
        &self,
        alloc: Global,
        commits: &mut C,
        count: usize,
        id: &ObjectId,
    ) -> Result<Vec<ObjectId>, StoreFault>
        ensures parents { IfOk result (λ ids. C.is_honest → (y : Id) → Contains ids.items y → LinksTo (parents_in (C.objects (C.state_of commits.old))) id.now y) }
        ensures refused { IfErr result (IsRefused id.now (C.is_honest → C.damaged (C.state_of commits.old) id.now)) }

        ensures kept { C.state_of commits.new ≡ C.state_of commits.old }
        ensures wear { Wears C.failed C.can_fail C.left commits.old commits.new (IsErrOf result (StoreFault.Fault Fault.Device)) }
    {
        if self.is_within(id, count) {
            return Ok(Vec::new(alloc));
        }
        let Some(found) = commits.parents(id)? else {
            return Ok(Vec::new(alloc));
        };
        match found {
            Parents::Of(ids) => Ok(ids),
            Parents::NotCommit => Ok(Vec::new(alloc)),
        }
    }

    /// The generations that are known, as a floor of walks over the history.
    pub fn generations(&self) -> &Generations
        ensures { result.now ≡ self.now.generations }
    {
        &self.generations
    }

    /// Learns the generation of a known commit and of each of its ancestors, as [`Generations::learn`] does. Of a name that is not known
    /// nothing is learnt. At an error the same is known as before.
    pub fn learn<C: Commits>(
        &mut self,
        alloc: Global,
        commits: &mut C,
        root: &ObjectId,
    ) -> Result<(), HistoryFault>
        ensures agrees { OnOk result (C.is_honest → Agrees (C.objects (C.state_of commits.old)) self.old → Agrees (C.objects (C.state_of commits.old)) self.new) }
        ensures learnt { OnOk result (C.is_honest → Agrees (C.objects (C.state_of commits.old)) self.old → IsSome (layer_in self.old root.now) → Learns (parents_in (C.objects (C.state_of commits.old))) root.now (generation_in self.old) (generation_in self.new)) }
        ensures refused { IfErr result (λ e. C.is_honest → Agrees (C.objects (C.state_of commits.old)) self.old → IsToldOfHistory (C.objects (C.state_of commits.old)) (C.damaged (C.state_of commits.old)) (root.now ∷ []) e) }
        ensures moments { moments_in self.new ≡ moments_in self.old }
        ensures places { (id : Id) → place_in self.new id ≡ place_in self.old id }
        ensures err { OnErr result (KnowsSame self.old self.new) }

        ensures kept { C.state_of commits.new ≡ C.state_of commits.old }
        ensures wear { Wears C.failed C.can_fail C.left commits.old commits.new (IsErrOf result (HistoryFault.Store (StoreFault.Fault Fault.Device))) }
    {
        if !self.is_known(root) {
            return Ok(());
        }
        self.generations.learn(alloc, commits, root)?;
        Ok(())
    }

    /// All that the roots reach. What the first layers have is not read, as many as the roots are [found to
    /// reach](Known::last_reached); each object above them is read once. Nothing that is read may be absent.
    pub fn reach_of<'a, K: Kinds + Commits>(
        &'a self,
        alloc: Global,
        objects: &mut K,
        roots: &[ObjectId],
    ) -> Result<Reach<'a>, GraphFault>
        ensures reach { IfOk result (λ reach. K.is_honest → Agrees (K.objects (K.state_of objects.old)) self.now → IsReachOf (K.objects (K.state_of objects.old)) reach roots.now) }
        ensures refused { IfErr result (λ e. K.is_honest → IsTold (K.objects (K.state_of objects.old)) (K.damaged (K.state_of objects.old)) roots.now e) }

        ensures kept { K.state_of objects.new ≡ K.state_of objects.old }
        ensures wear { Wears K.failed K.can_fail K.left objects.old objects.new (IsErrOf result (GraphFault.Store (StoreFault.Fault Fault.Device))) }
    {
        let count = self.last_reached(alloc, objects, roots)?;
        let mut above = Walked::new(alloc);
        walk_down(self, objects, count, roots, &mut above)?;
        Ok(Reach {
            known: self,
            count,
            above: above.met,
        })
    }

    /// All that the roots of the last moment reach, of which nothing is read.
    pub fn reach_of_last<'a>(&'a self, alloc: Global) -> Reach<'a>
        ensures { (objects : ObjectMap) → Agrees objects self.now → IsReachOf objects result (last_roots (moments_in self.now) (count_in self.now)) }
    {
        Reach {
            known: self,
            count: self.moments.len(),
            above: IndexSet::new(alloc),
        }
    }

    /// Makes the roots those of the last moment. If they are not yet, a layer is added for them, of what is not known; if they are not
    /// [found to reach](Known::last_reached) the roots of the last moment, all that was known is forgotten, and what they reach is walked
    /// anew into one layer. Nothing that is read may be absent. At an error the same is known as before.
    pub fn renew<K: Kinds + Commits>(
        &mut self,
        alloc: Global,
        objects: &mut K,
        roots: &[ObjectId],
    ) -> Result<(), GraphFault>
        ensures agrees { K.is_honest → Agrees (K.objects (K.state_of objects.old)) self.old → Agrees (K.objects (K.state_of objects.old)) self.new }
        ensures last { OnOk result (last_roots (moments_in self.new) (count_in self.new) ≡ roots.now) }
        ensures closed { OnOk result (K.is_honest → Agrees (K.objects (K.state_of objects.old)) self.old → AreComplete (K.objects (K.state_of objects.old)) roots.now) }
        ensures refused { IfErr result (λ e. K.is_honest → IsTold (K.objects (K.state_of objects.old)) (K.damaged (K.state_of objects.old)) roots.now e) }
        ensures err { OnErr result (KnowsSame self.old self.new) }

        ensures kept { K.state_of objects.new ≡ K.state_of objects.old }
        ensures wear { Wears K.failed K.can_fail K.left objects.old objects.new (IsErrOf result (GraphFault.Store (StoreFault.Fault Fault.Device))) }
    {
        let count = self.moments.len();
        if self.last_roots(count) == roots {
            return Ok(());
        }
        if self.last_reached(alloc, objects, roots)? == count {
            self.add_layer(alloc, objects, roots)?;
            return Ok(());
        }
        let anew = first_layer(alloc, objects, roots)?;
        *self = anew;
        Ok(())
    }
}

// Whether each of the roots is one of the names.
fn are_among(roots: &[ObjectId], names: &IndexSet<ObjectId>) -> bool
    ensures { IsTrue result ↔ ((id : Id) → Contains roots.now id → Contains names.now.keys id) }
{
    for root in roots {
        if !names.contains(root) {
            return false;
        }
    }
    true
}

// What is known after one moment alone, of these roots.
fn first_layer<K: Kinds>(
    alloc: Global,
    objects: &mut K,
    roots: &[ObjectId],
) -> Result<Known, GraphFault>
    ensures agrees { IfOk result (λ known. K.is_honest → Agrees (K.objects (K.state_of objects.old)) known) }
    ensures last { IfOk result (λ known. last_roots (moments_in known) (count_in known) ≡ roots.now) }
    ensures closed { OnOk result (K.is_honest → AreComplete (K.objects (K.state_of objects.old)) roots.now) }
    ensures refused { IfErr result (λ e. K.is_honest → IsTold (K.objects (K.state_of objects.old)) (K.damaged (K.state_of objects.old)) roots.now e) }

    ensures kept { K.state_of objects.new ≡ K.state_of objects.old }
    ensures wear { Wears K.failed K.can_fail K.left objects.old objects.new (IsErrOf result (GraphFault.Store (StoreFault.Fault Fault.Device))) }
{
    let mut known = Known::new(alloc);
    known.add_layer(alloc, objects, roots)?;
    Ok(known)
}

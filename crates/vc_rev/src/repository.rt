//! What expressions are resolved over.

ghost use Rattle.std.specs.Prelude.{◌≡◌, ◌↔◌, true, nat_eq, codes, option_map, Contains, IfOk, IfErr, IsErrOf, OnOk};
ghost use Rattle.std.specs.List.{starts_with};
ghost use Rattle.vc_files.specs.Failures.{Wears};
ghost use Rattle.vc_object.specs.Decoding.{stored_object};
ghost use Rattle.vc_object.specs.ObjectId.{IsSortedByName};
ghost use Rattle.vc_object.specs.declared.id.ObjectId.{ObjectId as Id};
ghost use Rattle.vc_rev.specs.Question.{Question, Head, Ref, Entry, Prefix, Object};
ghost use Rattle.vc_rev.specs.Source.{Source};
ghost use Rattle.vc_rev.specs.Meaning.{Begins};
ghost use Rattle.vc_rev.specs.declared.refusal.SourceFault.{SourceFault as Unanswered};

use crate::refusal::SourceFault;
use vc_files::Fault;
use vc_object::ObjectId;
use vc_object_map::{Commits, StoreFault};
use vc_refname::RefName;
use vc_store::Stored;

/// Refs, objects and an index.
pub trait Repository: Commits {
    /// What a value holds.
    ghost View: { Type 0 };

    ghost view_of: { Self → View };

    /// What expressions are over: refs, HEAD, an index and objects.
    ghost source: { View → Source };

    /// All that has to be read to answer a question is in its form.
    ghost is_good: { View → Question → Type 0 };

    /// The faults for which there is a cause in what has to be read to answer a question.
    ghost blames: { View → Question → Unanswered → Type 0 };

    /// The value of HEAD; none where its branch has none.
    fn head(&mut self) -> Result<Option<ObjectId>, SourceFault>
        ensures value { IfOk result (λ found. Self.is_honest → found ≡ (source (view_of self.old)).names.head) }
        ensures good { OnOk result (Self.is_honest → is_good (view_of self.old) Head) }
        ensures refused { IfErr result (λ e. Self.is_honest → blames (view_of self.old) Head e) }
        ensures kept { Self.state_of self.new ≡ Self.state_of self.old }
        ensures seen { view_of self.new ≡ view_of self.old }
        ensures wear { Wears Self.failed Self.can_fail Self.left self.old self.new (IsErrOf result (SourceFault.Store (StoreFault.Fault Fault.Device))) };

    /// The value of the ref with this whole name.
    fn ref_value(&mut self, name: &RefName) -> Result<Option<ObjectId>, SourceFault>
        requires { starts_with nat_eq name.now (codes "refs/") ≡ true }
        ensures value { IfOk result (λ found. Self.is_honest → found ≡ (source (view_of self.old)).names.ref name.now) }
        ensures good { OnOk result (Self.is_honest → is_good (view_of self.old) (Ref name.now)) }
        ensures refused { IfErr result (λ e. Self.is_honest → blames (view_of self.old) (Ref name.now) e) }
        ensures kept { Self.state_of self.new ≡ Self.state_of self.old }
        ensures seen { view_of self.new ≡ view_of self.old }
        ensures wear { Wears Self.failed Self.can_fail Self.left self.old self.new (IsErrOf result (SourceFault.Store (StoreFault.Fault Fault.Device))) };

    /// The id at this path of the index.
    fn index_entry(&mut self, path: &[u8]) -> Result<Option<ObjectId>, SourceFault>
        ensures value { IfOk result (λ found. Self.is_honest → found ≡ (source (view_of self.old)).names.index path.now) }
        ensures good { OnOk result (Self.is_honest → is_good (view_of self.old) (Entry path.now)) }
        ensures refused { IfErr result (λ e. Self.is_honest → blames (view_of self.old) (Entry path.now) e) }
        ensures kept { Self.state_of self.new ≡ Self.state_of self.old }
        ensures seen { view_of self.new ≡ view_of self.old }
        ensures wear { Wears Self.failed Self.can_fail Self.left self.old self.new (IsErrOf result (SourceFault.Store (StoreFault.Fault Fault.Device))) };

    /// The stored names that begin with these hex digits, of either case, sorted.
    fn by_prefix(&mut self, digits: &[u8]) -> Result<Vec<ObjectId>, SourceFault>
        ensures exact { IfOk result (λ ids. Self.is_honest → (id : Id) → Contains ids.items id ↔ Begins (source (view_of self.old)) digits.now id) }
        ensures sorted { IfOk result (λ ids. Self.is_honest → IsSortedByName ids.items) }
        ensures good { OnOk result (Self.is_honest → is_good (view_of self.old) (Prefix digits.now)) }
        ensures refused { IfErr result (λ e. Self.is_honest → blames (view_of self.old) (Prefix digits.now) e) }
        ensures kept { Self.state_of self.new ≡ Self.state_of self.old }
        ensures seen { view_of self.new ≡ view_of self.old }
        ensures wear { Wears Self.failed Self.can_fail Self.left self.old self.new (IsErrOf result (SourceFault.Store (StoreFault.Fault Fault.Device))) };

    /// The object with this name, or none where it is absent.
    fn find(&mut self, id: &ObjectId) -> Result<Option<Stored>, SourceFault>
        ensures found { IfOk result (λ found. Self.is_honest → option_map (λ s. stored_object s.kind s.body.items) found ≡ (source (view_of self.old)).objects id.now) }
        ensures good { OnOk result (Self.is_honest → is_good (view_of self.old) (Object id.now)) }
        ensures refused { IfErr result (λ e. Self.is_honest → blames (view_of self.old) (Object id.now) e) }
        ensures kept { Self.state_of self.new ≡ Self.state_of self.old }
        ensures seen { view_of self.new ≡ view_of self.old }
        ensures wear { Wears Self.failed Self.can_fail Self.left self.old self.new (IsErrOf result (SourceFault.Store (StoreFault.Fault Fault.Device))) };

    /// What a value holds is held as long as its state stays.
    ghost follows: { (x y : Self) → Self.state_of x ≡ Self.state_of y → view_of x ≡ view_of y };

    /// Its objects are those that a walk over commits sees.
    ghost same_objects: { (x : Self) → (source (view_of x)).objects ≡ Self.objects (Self.state_of x) };
}

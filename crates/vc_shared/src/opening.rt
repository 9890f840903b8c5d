//! What a node shows when it is opened.
ghost use Rattle.std.specs.Prelude.{◌≡◌, ◌↔◌, IfErr, IfOk, IsTrue};
ghost use Rattle.vc_files.specs.Failures.{Wears};
ghost use Rattle.vc_local.specs.NodeFault.{TellsDevice};
ghost use Rattle.vc_shared.specs.Opening.{BlamesOpening, HaveOneOpening, ShowsFiles, opening_text};

use std::alloc::Global;
use vc_files::Files;
use vc_local::NodeFault;
use vc_object::ObjectId;
use vc_refname::RefName;
use vc_refs::Head;

/// The refs, HEAD and the names of the objects that a node has at one moment.
#[derive(Drop)]
pub struct Opening {
    /// Each ref once, in the order of the names' bytes.
    pub refs: Vec<(RefName, ObjectId)>,
    /// None if HEAD's file isn't there.
    pub head: Option<Head>,
    /// Each name once, in order.
    pub names: Vec<ObjectId>,
}

// Whether both are one branch, or one id.
fn is_same_head(a: &Head, b: &Head) -> bool
    ensures { IsTrue result ↔ (a.now ≡ b.now) }
{
    match a {
        Head::Branch(a) => match b {
            Head::Branch(b) => a == b,
            Head::Id(_) => false,
        },
        Head::Id(a) => match b {
            Head::Branch(_) => false,
            Head::Id(b) => a == b,
        },
    }
}

// Whether both are none, or the same.
fn are_same_heads(a: &Option<Head>, b: &Option<Head>) -> bool
    ensures { IsTrue result ↔ (a.now ≡ b.now) }
{
    match a {
        None => b.is_none(),
        Some(a) => match b {
            None => false,
            Some(b) => is_same_head(a, b),
        },
    }
}

impl Opening {
    /// Whether both have the same refs, HEAD and names.
    pub fn is_same(&self, other: &Opening) -> bool
        ensures { IsTrue result ↔ (opening_text self.now ≡ opening_text other.now) }
    {
        if self.refs != other.refs {
            return false;
        }
        if self.names != other.names {
            return false;
        }
        are_same_heads(&self.head, &other.head)
    }
}

/// What the files show. 33 for a file of the refs or of HEAD that stands for none, 34 for a HEAD that names HEAD.
pub(crate) fn read_opening<F: Files>(alloc: Global, files: &mut F) -> Result<Opening, NodeFault>
    ensures shows { F.honest → IfOk result (λ opening. ShowsFiles (F.content files.old) (opening_text opening)) }
    ensures refused { F.honest → IfErr result (BlamesOpening (F.content files.old)) }
    ensures same { F.content files.new ≡ F.content files.old }
    ensures wear { Wears F.failed F.can_fail F.left files.old files.new (TellsDevice result) }
{
    let refs = vc_refs::list(files, alloc)?;
    let head = vc_refs::head(files, alloc)?;
    let names = vc_store::names(files, alloc)?;
    Ok(Opening { refs, head, names })
}

/// A node of the machine has one opening: two that are of it are the same.
pub fn a_node_has_one_opening()
    ensures { HaveOneOpening }
{}

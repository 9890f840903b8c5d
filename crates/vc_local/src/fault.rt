// Why a call of a node gives no answer.
ghost use Rattle.std.specs.Prelude.{◌≡◌, Some};
ghost use Rattle.vc_files.specs.declared.faults.Fault.TheVariants.{Memory};
ghost use Rattle.vc_object_map.specs.declared.faults.StoreFault.TheVariants as store_fault;
ghost use Rattle.vc_local.specs.declared.fault.NodeFault.TheVariants.{Store, Ref};
ghost use Rattle.vc_local.specs.NodeFault.{is_fault, takes_down, of_history, of_index, of_source, refused_by_graph, refused_by_refs, refused_by_store};
ghost use Rattle.vc_local.specs.Printed.{node_fault_text};

use std::alloc::{AllocError, AllocFailed};
use std::error::Error;
use std::fmt;
use vc_files::Fault;
use vc_graph::GraphFault;
use vc_history::{HistoryFault, NOT_A_COMMIT};
use vc_index::IndexFault;
use vc_object::ObjectId;
use vc_object_map::{MISSING, StoreFault};
use vc_refs::RefFault;
use vc_rev::SourceFault;

/// What refuses a call of a node, by number, or the fault that ended it. After a fault the node is down, and so it is after 11, 12 and
/// 33: a file of its own is gone or damaged.
#[derive(Debug, Drop)]
pub enum NodeFault {
    /// 1 to 10: a body that is no object of its kind, 8 also for an author or committer of more than one line; 11: the file of an
    /// object is gone; 12: it is damaged. Or a fault.
    Store(StoreFault),
    /// 32: a name that conflicts with a ref; 33 and 34: a file of refs or of HEAD that stands for none. Or a fault.
    Ref(RefFault),
    /// 40: the object with this name, or one that it reaches, is absent.
    Missing(ObjectId),
    /// 41: this object is no commit.
    NotACommit(ObjectId),
    /// 60: a path that may not stand in an index.
    BadPath,
    /// 61: a path that is a folder of a file of the index, or the other way round.
    PathConflict,
    /// 62: the index file goes wrong at this byte.
    BadIndex(usize),
    /// 63: what a tree has at this path is of another kind than its mode says.
    WrongEntry(Vec<u8>),
    /// 112: a fault came before, or a file of the node's own was gone or damaged, and it was not opened again.
    Down,
}

impl fmt::Display for NodeFault {
    ghost output = { λ fault. Some (node_fault_text fault) };

    fn fmt<W: fmt::Write>(&self, f: &mut fmt::Formatter<W>) -> fmt::Result {
        match self {
            NodeFault::Store(fault) => fmt::Display::fmt(fault, f),
            NodeFault::Ref(fault) => fmt::Display::fmt(fault, f),
            NodeFault::Missing(_) => f.write_str(MISSING),
            NodeFault::NotACommit(_) => f.write_str(NOT_A_COMMIT),
            NodeFault::BadPath => f.write_str("60 BadPath"),
            NodeFault::PathConflict => f.write_str("61 PathConflict"),
            NodeFault::BadIndex(place) => fmt::Display::fmt(&SourceFault::BadIndex(*place), f),
            NodeFault::WrongEntry(_) => f.write_str("63 WrongEntry"),
            NodeFault::Down => f.write_str("112 Down"),
        }
    }
}

impl Error for NodeFault {}

impl NodeFault {
    /// Whether it is want of memory or a device that failed, and no refusal.
    pub fn is_fault(&self) -> bool
        ensures { result ≡ is_fault self.now }
    {
        match self {
            NodeFault::Store(StoreFault::Fault(_)) => true,
            NodeFault::Ref(RefFault::Fault(_)) => true,
            _ => false,
        }
    }

    /// Whether the node is down after it: it is a fault, or a file of the node's own is gone or damaged (11, 12, 33). A node that finds
    /// its files bad gives no more answers by them.
    pub fn takes_down(&self) -> bool
        ensures { result ≡ takes_down self.now }
    {
        match self {
            NodeFault::Store(StoreFault::BadObject(_)) => false,
            NodeFault::Store(_) => true,
            NodeFault::Ref(RefFault::BadRefFile(_)) => true,
            NodeFault::Ref(RefFault::Fault(_)) => true,
            _ => false,
        }
    }

    /// Why a layer between the store and a node gave no answer. Such a layer tells a fault of the device by itself: one that
    /// stands in a fault of the store is told as want of memory, since no device is known to have failed.
    pub fn refused_by_store(fault: StoreFault) -> NodeFault
        ensures { result ≡ refused_by_store fault }
    {
        match fault {
            StoreFault::BadObject(_) => NodeFault::Store(fault),
            StoreFault::Absent(_) => NodeFault::Store(fault),
            StoreFault::Damaged(_) => NodeFault::Store(fault),
            StoreFault::Fault(_) => NodeFault::Store(StoreFault::Fault(Fault::Memory)),
        }
    }

    /// The same of a fault of the refs.
    pub fn refused_by_refs(fault: RefFault) -> NodeFault
        ensures { result ≡ refused_by_refs fault }
    {
        match fault {
            RefFault::Stale(current) => NodeFault::Ref(RefFault::Stale(current)),
            RefFault::Conflict(name) => NodeFault::Ref(RefFault::Conflict(name)),
            RefFault::BadRefFile(path) => NodeFault::Ref(RefFault::BadRefFile(path)),
            RefFault::HeadLoop => NodeFault::Ref(RefFault::HeadLoop),
            RefFault::Fault(_) => NodeFault::Store(StoreFault::Fault(Fault::Memory)),
        }
    }

    /// The same of a fault of a walk.
    pub fn refused_by_graph(fault: GraphFault) -> NodeFault
        ensures { result ≡ refused_by_graph fault }
    {
        match fault {
            GraphFault::Missing(id) => NodeFault::Missing(id),
            GraphFault::Store(fault) => NodeFault::refused_by_store(fault),
        }
    }
}

impl From<StoreFault> for NodeFault {
    ghost from_gives = { λ fault e. e ≡ Store fault };

    fn from(fault: StoreFault) -> Self {
        NodeFault::Store(fault)
    }
}

impl From<RefFault> for NodeFault {
    ghost from_gives = { λ fault e. e ≡ Ref fault };

    fn from(fault: RefFault) -> Self {
        NodeFault::Ref(fault)
    }
}

impl From<HistoryFault> for NodeFault {
    ghost from_gives = { λ fault e. e ≡ of_history fault };

    fn from(fault: HistoryFault) -> Self {
        match fault {
            HistoryFault::Missing(id) => NodeFault::Missing(id),
            HistoryFault::NotACommit(id) => NodeFault::NotACommit(id),
            HistoryFault::Store(fault) => NodeFault::Store(fault),
        }
    }
}

impl From<SourceFault> for NodeFault {
    ghost from_gives = { λ fault e. e ≡ of_source fault };

    fn from(fault: SourceFault) -> Self {
        match fault {
            SourceFault::Store(fault) => NodeFault::Store(fault),
            SourceFault::BadRefFile(path) => NodeFault::Ref(RefFault::BadRefFile(path)),
            SourceFault::HeadLoop => NodeFault::Ref(RefFault::HeadLoop),
            SourceFault::BadIndex(place) => NodeFault::BadIndex(place),
        }
    }
}

impl From<IndexFault> for NodeFault {
    ghost from_gives = { λ fault e. e ≡ of_index fault };

    fn from(fault: IndexFault) -> Self {
        match fault {
            IndexFault::BadPath => NodeFault::BadPath,
            IndexFault::PathConflict => NodeFault::PathConflict,
            IndexFault::BadIndex(place) => NodeFault::BadIndex(place),
            IndexFault::WrongEntry(path) => NodeFault::WrongEntry(path),
            IndexFault::Missing(id) => NodeFault::Missing(id),
            IndexFault::Store(fault) => NodeFault::Store(fault),
        }
    }
}

impl From<Fault> for NodeFault {
    ghost from_gives = { λ fault e. e ≡ Store (store_fault.Fault fault) };

    fn from(fault: Fault) -> Self {
        NodeFault::Store(StoreFault::Fault(fault))
    }
}

impl From<AllocError> for NodeFault {
    ghost from_gives = { λ _ e. e ≡ Store (store_fault.Fault Memory) };

    fn from(_: AllocError) -> Self {
        NodeFault::Store(StoreFault::Fault(Fault::Memory))
    }
}

impl<T: Drop> From<AllocFailed<T>> for NodeFault {
    ghost from_gives = { λ _ e. e ≡ Store (store_fault.Fault Memory) };

    fn from(_: AllocFailed<T>) -> Self {
        NodeFault::Store(StoreFault::Fault(Fault::Memory))
    }
}

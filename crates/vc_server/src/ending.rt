// Why a message has no reply: the number of a refusal, or the fault that ended the call.
ghost use Rattle.std.specs.Prelude.{◌≡◌};
ghost use Rattle.vc_message.specs.Machine.{pkt_number};
ghost use Rattle.vc_local.specs.Machine.{fault_answer as node_answer, ref_answer, store_answer};
ghost use Rattle.vc_rev.specs.Value.{refusal_number};
ghost use Rattle.vc_server.specs.Telling.{ended_by};
ghost use Rattle.vc_shared.specs.Faults.{fault_answer};

use vc_files::Fault;
use vc_local::NodeFault;
use vc_object_map::StoreFault;
use vc_pkt::PktFault;
use vc_refs::RefFault;
use vc_rev::Refusal;
use vc_shared::SharedFault;

/// The number of bytes that are no message: 80 to 84, or 3.
pub fn unread_number(fault: &PktFault) -> u16
    ensures { result ≡ pkt_number fault.now }
{
    match fault {
        PktFault::BadLength(_) => 80,
        PktFault::BadRecord(_) => 81,
        PktFault::SizeMismatch => 82,
        PktFault::CutMessage => 83,
        PktFault::TooMany => 84,
        PktFault::TooLarge => 3,
    }
}

/// The number of an expression that has no value: 51 to 56.
pub fn value_number(refusal: &Refusal) -> u16
    ensures { result ≡ refusal_number refusal.now }
{
    match refusal {
        Refusal::Unknown => 51,
        Refusal::Ambiguous => 52,
        Refusal::TooShort => 53,
        Refusal::NoSuchParent => 54,
        Refusal::WrongKind => 55,
        Refusal::NoSuchPath => 56,
    }
}

// What the store tells: 1 to 10, 11 or 12, or a fault.
fn store_ending(fault: &StoreFault) -> Result<u16, Fault>
    ensures { store_answer fault.now ≡ ended_by result }
{
    match fault {
        StoreFault::BadObject(fault) => Ok(*fault as u16),
        StoreFault::Absent(_) => Ok(11),
        StoreFault::Damaged(_) => Ok(12),
        StoreFault::Fault(fault) => Err(*fault),
    }
}

// What the refs tell: 31 to 34, or a fault.
fn ref_ending(fault: &RefFault) -> Result<u16, Fault>
    ensures { ref_answer fault.now ≡ ended_by result }
{
    match fault {
        RefFault::Stale(_) => Ok(31),
        RefFault::Conflict(_) => Ok(32),
        RefFault::BadRefFile(_) => Ok(33),
        RefFault::HeadLoop => Ok(34),
        RefFault::Fault(fault) => Err(*fault),
    }
}

/// The number of what any node refuses, or the fault that it tells.
pub fn node_ending(fault: &NodeFault) -> Result<u16, Fault>
    ensures { node_answer fault.now ≡ ended_by result }
{
    match fault {
        NodeFault::Store(fault) => store_ending(fault),
        NodeFault::Ref(fault) => ref_ending(fault),
        NodeFault::Missing(_) => Ok(40),
        NodeFault::NotACommit(_) => Ok(41),
        NodeFault::BadPath => Ok(60),
        NodeFault::PathConflict => Ok(61),
        NodeFault::BadIndex(_) => Ok(62),
        NodeFault::WrongEntry(_) => Ok(63),
        NodeFault::Down => Ok(112),
    }
}

/// The number of what the shared node refuses, or the fault that it tells.
pub fn shared_ending(fault: &SharedFault) -> Result<u16, Fault>
    ensures { fault_answer fault.now ≡ ended_by result }
{
    match fault {
        SharedFault::Unread(fault) => Ok(unread_number(fault)),
        SharedFault::NotOurs(_) => Ok(90),
        SharedFault::Unexpected => Ok(91),
        SharedFault::Busy => Ok(110),
        SharedFault::NoSuchSlot => Ok(111),
        SharedFault::NoValue(refusal) => Ok(value_number(refusal)),
        SharedFault::Node(fault) => node_ending(fault),
    }
}

// What ended an exchange with a served store, as a failure of a command.
ghost use Rattle.std.specs.Prelude.{◌≡◌};
ghost use Rattle.vc_commands.specs.RemoteFailure.{of_clone, of_remote};

use vc_cli::Failure;
use vc_node::CloneFault;
use vc_pkt::PktFault;
use vc_remote::RemoteFault;
use vc_rev::RevFault;

/// The failure of a command whose exchange ended so.
pub(crate) fn failure_of(fault: RemoteFault) -> Failure
    ensures { result ≡ of_remote fault }
{
    match fault {
        RemoteFault::Refused(text) => Failure::Refused(text),
        RemoteFault::ReadFailed => Failure::ReadFailed,
        RemoteFault::WriteFailed => Failure::WriteFailed,
        RemoteFault::Unread(fault) => Failure::Unread(fault),
        RemoteFault::Clone(fault) => failure_of_clone(fault),
        RemoteFault::Fault(fault) => Failure::Fault(fault),
    }
}

// The failure of a command whose clone refused a call, or was ended by a fault.
fn failure_of_clone(fault: CloneFault) -> Failure
    ensures { result ≡ of_clone fault }
{
    match fault {
        CloneFault::Unread(fault) => Failure::Unread(fault),
        CloneFault::Unexpected => Failure::Unexpected,
        CloneFault::TooMany => Failure::Unread(PktFault::TooMany),
        CloneFault::Incomplete(id) => Failure::Incomplete(id),
        CloneFault::NoValue(refusal) => Failure::Revision(RevFault::Refused(refusal)),
        CloneFault::Node(fault) => Failure::Node(fault),
    }
}

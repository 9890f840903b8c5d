// An answer that is lost on its way to the clone.
ghost use Rattle.std.specs.Prelude.{◌≡◌, ◌≢◌, Err, true};
ghost use Rattle.vc_model.specs.CloneCall.{CloneCall};
ghost use Rattle.vc_model.specs.CloneCall.CloneCall.{Open};
ghost use Rattle.vc_node.specs.CloneCalls.{ReceivedAs};
ghost use Rattle.vc_node.specs.CloneFaults.{of_device};
ghost use Rattle.vc_node.specs.Node.{AnswersCall};

use vc_files::{Fault, Files};
use vc_local::NodeFault;
use vc_node::{CloneFault, CloneNode};
use vc_object_map::StoreFault;

// A fault between the nodes ends the call by which the clone would have taken the answer, so the clone goes down.
pub(crate) fn lose<F: Files>(clone: &mut CloneNode<F>, fault: Fault) -> CloneFault
    ensures fault { result ≡ of_device fault }
    ensures same { clone.new.files ≡ clone.old.files }
    ensures answers { F.honest → clone.old.is_up ≡ true → (call : CloneCall) → call ≢ Open → AnswersCall F.content call (ReceivedAs (Err result)) clone.old clone.new }
{
    clone.take_down();
    CloneFault::Node(NodeFault::Store(StoreFault::Fault(fault)))
}

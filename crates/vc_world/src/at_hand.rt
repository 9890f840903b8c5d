// A shared node at hand.
ghost use Rattle.std.specs.Prelude.{◌≢◌, ◌⊎◌, ⊤, None};
ghost use Rattle.vc_shared.specs.Faults.{IsOfDevice, fault_answer};
ghost use Rattle.vc_shared.specs.Holding.{HoldsShared};

use crate::{Peer, Reply};
use vc_files::Files;
use vc_shared::{Shared, SharedFault};

impl<F: Files> Peer for Shared<F> {
    type Refusal = SharedFault;

    // Its answers are bytes.
    type Answer = &'static [u8];

    ghost honest = { F.honest };

    ghost holds = { λ shared n. HoldsShared (F.content shared.files) shared.slots shared.is_up n };

    ghost told = { fault_answer };

    ghost failed = { λ shared. F.failed shared.files };

    // A stop that is set is one more way to fail.
    ghost can_fail = { λ shared. F.can_fail shared.files ⊎ (F.left shared.files ≢ None) };

    ghost is_device = { IsOfDevice };

    ghost loses = { ⊥ };

    ghost says = { λ _ _ _ _. ⊤ };

    fn ask(&mut self, bytes: &[u8]) -> Result<Reply<&'static [u8]>, SharedFault> {
        match vc_server::answer(self, bytes) {
            Ok(reply) => Ok(Reply::Bytes(reply)),
            Err(fault) => Err(fault),
        }
    }
}

//! A shared node whose answers come as from a connection.
ghost use Rattle.std.specs.Prelude.{⊤};
ghost use Rattle.vc_files.specs.Failures.{greatest_count};
ghost use Rattle.vc_shared.specs.Faults.{IsOfDevice, fault_answer};

use crate::site::Device;
use std::alloc::Global;
use std::io::Cursor;
use vc_files::Fault;
use vc_local::NodeFault;
use vc_message::{Fallible, Message};
use vc_object_map::StoreFault;
use vc_server::answer;
use vc_shared::{Shared, SharedFault};
use vc_world::{Peer, Reply};

/// How answers come to a clone that asks.
#[derive(Clone, Copy)]
pub enum Coming {
    /// Read already.
    Read,
    /// Still to be read.
    Unread,
}

/// The shared node of the rows, whose answers don't come as bytes.
#[derive(Drop)]
pub struct Reading<'a> {
    pub alloc: Global,
    pub coming: Coming,
    pub shared: &'a mut Shared<Device>,
}

impl<'a> Peer for Reading<'a> {
    type Refusal = SharedFault;

    type Answer = Fallible<Cursor<Vec<u8>>>;

    // It stands for the other end of a connection, of which nothing is claimed.
    ghost honest = { ⊥ };

    ghost holds = { λ _ _. ⊥ };

    ghost told = { fault_answer };

    ghost failed = { λ _. greatest_count };

    ghost can_fail = { λ _. ⊤ };

    ghost is_device = { IsOfDevice };

    ghost loses = { ⊤ };

    ghost says = { λ _ _ _ _. ⊤ };

    fn ask(&mut self, bytes: &[u8]) -> Result<Reply<Fallible<Cursor<Vec<u8>>>>, SharedFault> {
        let answered = answer(self.shared, bytes)?;
        if let Coming::Unread = self.coming {
            return Ok(Reply::Reader(Fallible::new(Cursor::new(answered))));
        }
        match Message::read(self.alloc, &answered) {
            Ok(message) => Ok(Reply::Message(message)),
            // A node's answer is a message, so it was memory.
            Err(_) => Err(SharedFault::Node(NodeFault::Store(StoreFault::Fault(Fault::Memory)))),
        }
    }
}

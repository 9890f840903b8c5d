// What a worker asks of what lies under the lock.
ghost use Rattle.std.specs.Prelude.{IfOk};
ghost use Rattle.vc_desk.specs.Entry.EventText.{Accepts, Steps};
ghost use Rattle.vc_desk.specs.Talk.{IsOf, receipt_text};

use crate::locked::Receipt;
use std::alloc::AllocError;

/// A node under the lock. A call is one event of the node, made under one hold of the lock.
pub trait Desk {
    ghost use Rattle.vc_desk.specs.Talk.{ReceiptText};

    /// What is known of a receipt by itself.
    ghost made: { ReceiptText → Type 0 };

    /// The node takes these bytes for a connection.
    fn accept(&mut self, connection: u64, bytes: &[u8]) -> Result<Receipt, AllocError>
        ensures mine { IsOf connection (Accepts bytes.now) result }
        ensures made { IfOk result (λ receipt. made (receipt_text receipt)) };

    /// The push in this slot is stepped for a connection.
    fn step(&mut self, connection: u64, slot: u8) -> Result<Receipt, AllocError>
        ensures mine { IsOf connection (Steps slot) result }
        ensures made { IfOk result (λ receipt. made (receipt_text receipt)) };
}

// Why an exchange is not done.

use vc_node::CloneFault;

/// Why an exchange with a shared node that refuses with an `R` came to no end of its own.
#[derive(Drop)]
pub enum ExchangeEnd<R> {
    /// The clone refused a call, or a fault ended it there.
    Clone(CloneFault),
    /// The shared node refused a message, or a fault ended it there.
    Shared(R),
    /// A message came that is no answer to the one that was sent.
    Stray,
    /// No memory to read an answer that the clone has taken.
    Memory,
}

//! The machine's wire at Git's format: which bytes are which message, and how the others are refused, beside the rules by which each
//! body that a message brings is one of its kind.
//!
//! Nothing here is program code. A world's laws hold of the messages that go over this wire.
#![tactic(auto)]

ghost use Rattle.vc_wire.specs.Laws.{MessageLaws};

/// What is read and refused is as the machine asks of its wire: beside the laws of `vc_message`, each body that is read is one of its
/// kind, and bytes that are refused have one number, of those that refuse bytes.
pub fn messages_are_a_wire()
    ensures { MessageLaws }
{}

//! Laws of the definitions: functions with no work to do, whose contracts are the laws.

ghost use Rattle.std.specs.Prelude.{◌≡◌, ◌⊎◌, ℕ, List};
ghost use Rattle.std.specs.List.{flat_map};
ghost use Rattle.vc_pkt.specs.Line.{spelling};
ghost use Rattle.vc_pkt.specs.Message.{FirstFault, IsSpelledBy};
ghost use Rattle.vc_pkt.specs.declared.fault.PktFault.{PktFault};
ghost use Rattle.vc_model.specs.Message.{IsNamedMessage, Message};
ghost use Rattle.vc_rules.specs.Git.{git};
ghost use Rattle.vc_message.specs.AnyMessage.{IsWrittenMessage, MessageText, SpellsMessage, any_step, beginning, message_lines};
ghost use Rattle.vc_message.specs.Machine.{IsPlain, IsUnread, IsWritten, Reads};

/// A written message is read as that message.
pub fn written_message_is_read()
    ensures { (message : MessageText) → IsWrittenMessage message → IsSpelledBy SpellsMessage message (flat_map spelling (message_lines message)) }
{}

/// Bytes are one message at most: no two kinds take the same bytes.
pub fn one_message()
    ensures { (bytes : List ℕ) (message other : MessageText) → IsSpelledBy SpellsMessage message bytes → IsSpelledBy SpellsMessage other bytes → message ≡ other }
{}

/// Bytes are a message or have a first fault, and never both.
pub fn read_or_unread()
    ensures each { (bytes : List ℕ) → ((message : MessageText) × IsSpelledBy SpellsMessage message bytes) ⊎ ((fault : PktFault) × FirstFault any_step beginning bytes fault) }
    ensures apart { (bytes : List ℕ) (message : MessageText) (fault : PktFault) → IsSpelledBy SpellsMessage message bytes → FirstFault any_step beginning bytes fault → ⊥ }
{}

/// Bytes are one message of the machine at most.
pub fn one_reading()
    ensures { (bytes : List ℕ) (m n : Message) → Reads bytes m → Reads bytes n → m ≡ n }
{}

/// A message is written in one way, but for one that tells the number of a text that others have too, or of a body at fault: the
/// machine has neither the text nor the body.
pub fn one_writing()
    ensures { (m : Message) (a b : List ℕ) → IsPlain m → IsWritten m a → IsWritten m b → a ≡ b }
{}

/// What is read stands under its names.
pub fn what_is_read_is_named()
    ensures { (bytes : List ℕ) (m : Message) → Reads bytes m → IsNamedMessage git m }
{}

/// Bytes are a message of the machine, or it refuses them, and never both.
pub fn every_reading()
    ensures each { (bytes : List ℕ) → ((m : Message) × Reads bytes m) ⊎ ((n : ℕ) × IsUnread bytes n) }
    ensures apart { (bytes : List ℕ) (m : Message) (n : ℕ) → Reads bytes m → IsUnread bytes n → ⊥ }
{}

//! What comes of a message that isn't taken, read to its end: one line and one body of it are held at a time.
ghost use Rattle.std.specs.Prelude.{◌≡◌, ◌<◌, IfErr, IfNone, IfOk, IfSome, IsErrOf, Ok, OnOk, true, false};
ghost use Rattle.vc_fetch.specs.Pack.{is_object};
ghost use Rattle.vc_pkt.specs.StreamObjectView.{stored};
ghost use Rattle.vc_pkt.specs.declared.fault.PktFault.TheVariants.{BadRecord};
ghost use Rattle.vc_message.specs.AnyMessage.{any_step, beginning};
ghost use Rattle.vc_message.specs.Incoming.{Fails, TakesNothing};
ghost use Rattle.vc_message.specs.Source.{TellsFailures};
ghost use Rattle.vc_message.specs.Streaming.{EndsPack, EndsPush, FailsFrom, TakesSome, no_pack, no_push};
ghost use Rattle.vc_message.specs.declared.incoming_fault.IncomingFault.TheVariants.{Failed};

use crate::incoming_fault::IncomingFault;
use crate::source::Source;
use crate::streaming::{Head, Taken, next_object, read_head};
use std::alloc::Global;
use vc_object::check;
use vc_pkt::{PktFault, StreamObject};

/// Reads the objects of a push to its end, of which what stands before them was taken.
pub fn skip_push<R: Source>(
    alloc: Global,
    reader: &mut R,
    mut taken: Taken,
) -> Result<(), IncomingFault>
    requires few { taken.lines < taken.bytes }
    ensures end { OnOk result (EndsPush (R.remaining reader.old) taken (R.remaining reader.new)) }
    ensures fault { IfErr result (FailsFrom no_push (R.remaining reader.old) taken (R.remaining reader.new)) }
    ensures failures { TellsFailures R.failed R.can_fail reader.old reader.new (IsErrOf result Failed) }
{
    'objects: loop {
        let Some(_) = next_object(alloc, reader, &mut taken)? else {
            return Ok(());
        };
    }
}

// Refuses an object whose body is not in the grammar of its kind, by the number of the line that began it.
fn admit(first: u64, object: &StreamObject) -> Result<(), PktFault>
    ensures ok { OnOk result (is_object (stored object.now) ≡ true) }
    ensures fault { IfErr result (λ e. (e ≡ BadRecord first) × (is_object (stored object.now) ≡ false)) }
{
    match check(object.kind, &object.body) {
        Ok(_) => Ok(()),
        Err(_) => Err(PktFault::BadRecord(first)),
    }
}

/// Reads the objects of a pack to its end, of which what stands before them was taken. One whose body is not in the grammar of its
/// kind is at fault there.
pub fn skip_pack<R: Source>(
    alloc: Global,
    reader: &mut R,
    mut taken: Taken,
) -> Result<(), IncomingFault>
    requires few { taken.lines < taken.bytes }
    ensures end { OnOk result (EndsPack (R.remaining reader.old) taken (R.remaining reader.new)) }
    ensures fault { IfErr result (FailsFrom no_pack (R.remaining reader.old) taken (R.remaining reader.new)) }
    ensures failures { TellsFailures R.failed R.can_fail reader.old reader.new (IsErrOf result Failed) }
{
    'objects: loop {
        let Some(found) = next_object(alloc, reader, &mut taken)? else {
            return Ok(());
        };
        admit(found.0, &found.1)?;
    }
}

/// Reads the next message to its end, and no byte behind it; none where the reader is at its end before the first byte.
pub fn skip_message<R: Source>(alloc: Global, reader: &mut R) -> Result<Option<()>, IncomingFault>
    ensures message { IfOk result (λ found. IfSome found (λ u. TakesSome (R.remaining reader.old) (R.remaining reader.new))) }
    ensures end { IfOk result (λ found. IfNone found (TakesNothing (R.remaining reader.old) (R.remaining reader.new))) }
    ensures fault { IfErr result (Fails any_step beginning (R.remaining reader.old) (R.remaining reader.new)) }
    ensures failures { TellsFailures R.failed R.can_fail reader.old reader.new (IsErrOf result Failed) }
{
    let Some(found) = read_head(alloc, reader)? else {
        return Ok(None);
    };
    let (head, taken) = found;
    match head {
        Head::Message(_) => Ok(Some(())),
        Head::Push(_) => {
            skip_push(alloc, reader, taken)?;
            Ok(Some(()))
        }
        Head::Pack(_) => {
            skip_pack(alloc, reader, taken)?;
            Ok(Some(()))
        }
    }
}

// What is answered where a node answered a call, and what is posted.
ghost use Rattle.std.specs.Prelude.{◌≡◌, ◌<◌, vec_len, vec_capacity, slice_get, unwrap_or};
ghost use Rattle.vc_events.specs.Posting.{PostsTold, to_clone, to_shared, senders_told};

use crate::answers::failed;
use crate::letters::post;
use crate::{Answer, Deed, Ended, Letter, Told};

/// What a clone answered: a message that it sends goes to the shared node.
pub(crate) fn from_clone(
    letters: &mut Vec<Letter>,
    clone: usize,
    called: Result<Told, Ended>,
) -> Answer
    requires { vec_len letters.old < vec_capacity letters.old }
    ensures { PostsTold (to_shared clone) called letters.old.items letters.new.items result }
{
    match called {
        Ok(Told::Did(deed)) => Answer::Did(deed),
        Ok(Told::Sends(bytes)) => Answer::Sent(post(letters, Letter::ToShared(clone, bytes))),
        Err(end) => failed(end),
    }
}

/// What the shared node answered: a message that it sends goes to this clone, whose push it is that was taken.
pub(crate) fn from_shared(
    letters: &mut Vec<Letter>,
    senders: &mut [usize; 8],
    clone: usize,
    called: Result<Told, Ended>,
) -> Answer
    requires { vec_len letters.old < vec_capacity letters.old }
    ensures posts { PostsTold (to_clone clone) called letters.old.items letters.new.items result }
    ensures senders { senders.new ≡ senders_told clone called senders.old }
{
    match called {
        Ok(Told::Did(Deed::Opened(slot))) => {
            let place = usize::from(slot);
            if place < 8 {
                senders[place] = clone;
            }
            Answer::Did(Deed::Opened(slot))
        }
        Ok(Told::Did(deed)) => Answer::Did(deed),
        Ok(Told::Sends(bytes)) => Answer::Sent(post(letters, Letter::ToClone(clone, bytes))),
        Err(end) => failed(end),
    }
}

/// The clone whose push was opened in the slot last.
pub(crate) fn sender_of(senders: &[usize; 8], slot: usize) -> usize
    ensures { result ≡ unwrap_or (slice_get senders.now slot) 0 }
{
    if slot < 8 { senders[slot] } else { 0 }
}

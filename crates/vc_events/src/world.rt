// The world and its events.
ghost use Rattle.std.specs.Prelude.{◌≡◌, ◌⊎◌, ◌<◌, Bool, All, IfErr, IfOk, OnErr, OnOk, vec_len, vec_capacity, length};
ghost use Rattle.vc_model.specs.ExactWorld.WorldEvent.{Orders, Delivers, Forges, Steps as StepsPush, Stops, Compares, Packs, Prunes, Restarts};
ghost use Rattle.vc_events.specs.Events.{event_of, letter_of, order_of, party_of, IsEnd, IsInOrder, IsInWorld, IsParty};
ghost use Rattle.vc_events.specs.Running.{GoesOn, Lengthens, RunsSafely, done_of, said_of};
ghost use Rattle.vc_events.specs.World.{AreFresh, Steps, IsFull, IsSame, IsNewWorld};

use crate::posting::{from_clone, from_shared, sender_of};
use crate::{Answer, CloneCalls, Deed, Event, Letter, Order, Party, SharedCalls};
use std::alloc::{AllocError, Global};

/// The number that refuses a delivery where no message has the number.
const NO_MESSAGE: u16 = 113;

/// One shared node, its clones, and every message that was ever sent.
#[derive(Drop)]
pub struct World<S, C> {
    pub(crate) shared: S,
    pub(crate) clones: Vec<C>,
    // The messages in the order in which they were sent.
    pub(crate) letters: Vec<Letter>,
    // For each slot, the clone whose push was opened there last.
    pub(crate) senders: [usize; 8],
}

impl<S: SharedCalls, C: CloneCalls> World<S, C> {
    /// The world of these nodes, which are new. There is at least one clone.
    pub fn over(alloc: Global, shared: S, clones: Vec<C>) -> World<S, C>
        requires some { 0 < length clones.items }
        ensures new { S.honest → C.honest → (frail : Bool) → AreFresh S.seen C.seen frail shared clones.items → IsNewWorld S.seen C.seen (length clones.items) frail result }
        ensures clones { vec_len result.clones ≡ vec_len clones }
    {
        World {
            shared,
            clones,
            letters: Vec::new(alloc),
            senders: [0; 8],
        }
    }

    /// Every message that was ever sent, in the order of their numbers. The slice is lent for as long as the world is.
    pub fn letters(&self) -> &[Letter]
        ensures { result.now ≡ self.now.letters.items }
    {
        &self.letters
    }

    /// The nodes as they are: the shared node, and the clones in the order of their numbers. The messages are dropped.
    pub fn into_nodes(self) -> (S, Vec<C>)
        ensures shared { result.0 ≡ self.shared }
        ensures clones { result.1 ≡ self.clones }
    {
        let World {
            shared,
            clones,
            letters: _,
            senders: _,
        } = self;
        (shared, clones)
    }

    /// One event, and its answer. Where the world's own lists can't grow, it isn't done.
    pub fn step(&mut self, alloc: Global, event: &Event) -> Result<Answer, AllocError>
        requires { IsInWorld (vec_len self.old.clones) event.now }
        ensures steps { S.honest → C.honest → IfOk result (λ answer. Steps S.seen C.seen self.old (event_of event.now) answer self.new) }
        ensures err { OnErr result (IsSame self.old self.new) }
        ensures full { OnErr result (IsFull self.new.letters) }
        ensures clones { vec_len self.new.clones ≡ vec_len self.old.clones }
    {
        self.letters.reserve(1)?;
        Ok(self.answer(alloc, event))
    }

    /// The events, one after the other, and their answers. Where the world's own lists can't grow, that event isn't done, nor any
    /// after it, and the answers so far are handed back.
    pub fn run(&mut self, alloc: Global, events: &[Event]) -> Result<Vec<Answer>, Vec<Answer>>
        requires { All (IsInWorld (vec_len self.old.clones)) events.now }
        ensures safe { S.honest → C.honest → RunsSafely S.seen C.seen self.old (done_of events.now result) (said_of result) self.new }
        ensures run { S.honest → C.honest → Lengthens S.seen C.seen self.old (done_of events.now result) (said_of result) self.new }
        ensures full { IfErr result (λ answers. IsFull answers ⊎ IsFull self.new.letters) }
        ensures clones { vec_len self.new.clones ≡ vec_len self.old.clones }
    {
        let mut answers = Vec::new(alloc);
        for event in events {
            if self.more(alloc, &mut answers, event).is_err() {
                return Err(answers);
            }
        }
        Ok(answers)
    }

    // One event more, with its answer after the others.
    fn more(
        &mut self,
        alloc: Global,
        answers: &mut Vec<Answer>,
        event: &Event,
    ) -> Result<(), AllocError>
        requires { IsInWorld (vec_len self.old.clones) event.now }
        ensures more { S.honest → C.honest → OnOk result (GoesOn S.seen C.seen answers.old.items answers.new.items self.old event.now self.new) }
        ensures err { OnErr result (IsSame self.old self.new × (answers.new.items ≡ answers.old.items)) }
        ensures full { OnErr result (IsFull answers.new ⊎ IsFull self.new.letters) }
        ensures clones { vec_len self.new.clones ≡ vec_len self.old.clones }
    {
        answers.reserve(1)?;
        let answer = self.step(alloc, event)?;
        answers.push(answer)?;
        Ok(())
    }

    // One event, where there is room for what is sent.
    fn answer(&mut self, alloc: Global, event: &Event) -> Answer
        requires in_world { IsInWorld (vec_len self.old.clones) event.now }
        requires room { vec_len self.old.letters < vec_capacity self.old.letters }
        ensures steps { S.honest → C.honest → Steps S.seen C.seen self.old (event_of event.now) result self.new }
        ensures clones { vec_len self.new.clones ≡ vec_len self.old.clones }
    {
        match event {
            Event::Order(clone, order) => self.order(alloc, *clone, order),
            Event::Deliver(message) => self.deliver(*message),
            Event::Step(slot) => self.advance(*slot),
            Event::Compare(party, first, second) => self.compare(alloc, *party, first, second),
            Event::Pack(party) => self.pack(*party),
            Event::Prune(party) => self.prune(*party),
            Event::Restart(party) => self.restart(*party),
            Event::Stop(party, writes) => self.stop(*party, *writes),
            Event::Forge(letter) => self.forge(letter),
        }
    }

    // A clone does what it is told.
    fn order(&mut self, alloc: Global, clone: usize, order: &Order) -> Answer
        requires there { clone < vec_len self.old.clones }
        requires in_order { IsInOrder order.now }
        requires room { vec_len self.old.letters < vec_capacity self.old.letters }
        ensures steps { S.honest → C.honest → Steps S.seen C.seen self.old (Orders clone (order_of order.now)) result self.new }
        ensures clones { vec_len self.new.clones ≡ vec_len self.old.clones }
    {
        let called = self.clones[clone].obey(alloc, order);
        from_clone(&mut self.letters, clone, called)
    }

    // A message comes to its addressee.
    fn deliver(&mut self, message: usize) -> Answer
        requires { vec_len self.old.letters < vec_capacity self.old.letters }
        ensures steps { S.honest → C.honest → Steps S.seen C.seen self.old (Delivers message) result self.new }
        ensures clones { vec_len self.new.clones ≡ vec_len self.old.clones }
    {
        let Some(letter) = self.letters.get(message) else {
            return Answer::Refused(NO_MESSAGE);
        };
        match letter {
            Letter::ToShared(from, bytes) => {
                let from = *from;
                let called = self.shared.deliver(bytes);
                from_shared(&mut self.letters, &mut self.senders, from, called)
            }
            Letter::ToClone(to, bytes) => {
                let to = *to;
                if to >= self.clones.len() {
                    return Answer::Refused(NO_MESSAGE);
                }
                let called = self.clones[to].deliver(bytes);
                from_clone(&mut self.letters, to, called)
            }
        }
    }

    // A step of the push in a slot.
    fn advance(&mut self, slot: usize) -> Answer
        requires { vec_len self.old.letters < vec_capacity self.old.letters }
        ensures steps { S.honest → C.honest → Steps S.seen C.seen self.old (StepsPush slot) result self.new }
        ensures clones { vec_len self.new.clones ≡ vec_len self.old.clones }
    {
        let sender = sender_of(&self.senders, slot);
        let called = self.shared.advance(slot);
        from_shared(&mut self.letters, &mut self.senders, sender, called)
    }

    // A node is asked whether two expressions have one value.
    fn compare(&mut self, alloc: Global, party: Party, first: &[u8], second: &[u8]) -> Answer
        requires there { IsParty (vec_len self.old.clones) party }
        requires room { vec_len self.old.letters < vec_capacity self.old.letters }
        ensures steps { S.honest → C.honest → Steps S.seen C.seen self.old (Compares (party_of party) first.now second.now) result self.new }
        ensures clones { vec_len self.new.clones ≡ vec_len self.old.clones }
    {
        match party {
            Party::Shared => {
                let called = self.shared.compare(alloc, first, second);
                from_shared(&mut self.letters, &mut self.senders, 0, called)
            }
            Party::Clone(clone) => {
                let called = self.clones[clone].compare(alloc, first, second);
                from_clone(&mut self.letters, clone, called)
            }
        }
    }

    // A node puts its refs into one file.
    fn pack(&mut self, party: Party) -> Answer
        requires there { IsParty (vec_len self.old.clones) party }
        requires room { vec_len self.old.letters < vec_capacity self.old.letters }
        ensures steps { S.honest → C.honest → Steps S.seen C.seen self.old (Packs (party_of party)) result self.new }
        ensures clones { vec_len self.new.clones ≡ vec_len self.old.clones }
    {
        match party {
            Party::Shared => {
                let called = self.shared.pack();
                from_shared(&mut self.letters, &mut self.senders, 0, called)
            }
            Party::Clone(clone) => {
                let called = self.clones[clone].pack();
                from_clone(&mut self.letters, clone, called)
            }
        }
    }

    // A node removes the objects that nothing needs.
    fn prune(&mut self, party: Party) -> Answer
        requires there { IsParty (vec_len self.old.clones) party }
        requires room { vec_len self.old.letters < vec_capacity self.old.letters }
        ensures steps { S.honest → C.honest → Steps S.seen C.seen self.old (Prunes (party_of party)) result self.new }
        ensures clones { vec_len self.new.clones ≡ vec_len self.old.clones }
    {
        match party {
            Party::Shared => {
                let called = self.shared.prune();
                from_shared(&mut self.letters, &mut self.senders, 0, called)
            }
            Party::Clone(clone) => {
                let called = self.clones[clone].prune();
                from_clone(&mut self.letters, clone, called)
            }
        }
    }

    // A node starts anew over what it has stored.
    fn restart(&mut self, party: Party) -> Answer
        requires there { IsParty (vec_len self.old.clones) party }
        requires room { vec_len self.old.letters < vec_capacity self.old.letters }
        ensures steps { S.honest → C.honest → Steps S.seen C.seen self.old (Restarts (party_of party)) result self.new }
        ensures clones { vec_len self.new.clones ≡ vec_len self.old.clones }
    {
        match party {
            Party::Shared => {
                let called = self.shared.reopen();
                from_shared(&mut self.letters, &mut self.senders, 0, called)
            }
            Party::Clone(clone) => {
                let called = self.clones[clone].reopen();
                from_clone(&mut self.letters, clone, called)
            }
        }
    }

    // A stop is set at a node.
    fn stop(&mut self, party: Party, writes: u64) -> Answer
        requires { IsParty (vec_len self.old.clones) party }
        ensures steps { S.honest → C.honest → Steps S.seen C.seen self.old (Stops (party_of party) writes) result self.new }
        ensures clones { vec_len self.new.clones ≡ vec_len self.old.clones }
    {
        match party {
            Party::Shared => {
                self.shared.stop(writes);
                Answer::Did(Deed::Stored)
            }
            Party::Clone(clone) => {
                self.clones[clone].stop(writes);
                Answer::Did(Deed::Stored)
            }
        }
    }

    // Bytes come that nobody sent.
    fn forge(&mut self, letter: &Letter) -> Answer
        requires there { IsEnd (vec_len self.old.clones) letter.now }
        requires room { vec_len self.old.letters < vec_capacity self.old.letters }
        ensures steps { S.honest → C.honest → Steps S.seen C.seen self.old (Forges (letter_of letter.now)) result self.new }
        ensures clones { vec_len self.new.clones ≡ vec_len self.old.clones }
    {
        match letter {
            Letter::ToShared(from, bytes) => {
                let called = self.shared.deliver(bytes);
                from_shared(&mut self.letters, &mut self.senders, *from, called)
            }
            Letter::ToClone(to, bytes) => {
                let called = self.clones[*to].deliver(bytes);
                from_clone(&mut self.letters, *to, called)
            }
        }
    }
}

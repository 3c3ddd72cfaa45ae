//! Takes the input of a connection in pieces, and has each item answered once it is whole.

ghost use Rattle.std.specs.Prelude.{◌≡◌, ℕ, List, [], None, length, ◌++◌, ◌==◌, ◌≤◌, IfErr, IfSome, OnOk, OnErr};
ghost use Rattle.rtsp_grammar.specs.Answer.{HasFault, IsUndecided};
ghost use Rattle.rtsp_grammar.specs.declared.message.Item.{Item};
ghost use Rattle.rtsp_engine.specs.Served.{Puts, Answered, FaultedAfter, at};

use rtsp_grammar::{Feed, Item, MessageFault, law_stays};
use rtsp_state::Room;
use std::alloc::{AllocError, Global};
use std::marker::Model;

/// Who answers the items of a connection.
pub trait Answerer {
    /// How an item is answered: with which bytes, and who then takes the answerer's place.
    ghost answers: { Self → Item → List ℕ → Self → Type 0 };

    /// What may have been done where memory ran out, and the item has no answer.
    ghost gives_up: { Self → Item → Self → Type 0 };

    /// Answers one item: what is to be written for it is put behind what is in the room. Where
    /// memory runs out, the item is given up, and the room is as it was.
    fn answer(&mut self, alloc: Global, item: &Item, room: &mut Room) -> Result<(), AllocError>
        ensures ok { OnOk result (Puts (λ bytes. answers self.old item.now bytes self.new) room.old.text room.new.text) }
        ensures err { OnErr result (gives_up self.old item.now self.new) }
        ensures mute { OnErr result (room.new.text ≡ room.old.text) };
}

/// The input side of a connection: what has come of an item that isn't whole yet. It has no memory
/// while no item is begun.
#[derive(Drop)]
pub struct Connection {
    feed: Feed,
}

impl Model for Connection {
    ghost use Rattle.std.specs.Prelude.{ℕ, List, IfSome};
    ghost use Rattle.rtsp_grammar.specs.Answer.{HasFault};

    ghost Value = { List ℕ };

    ghost view = { λ c. c.feed.unread };

    // So a fault that was met is that of whatever is pushed after it.
    ghost invariant = { λ c. IfSome c.feed.fault (λ f. HasFault c.feed.unread f) };
}

impl Connection {
    /// A connection from which nothing has come.
    pub fn new(alloc: Global) -> Connection
        ensures { result ≡ [] }
    {
        Connection {
            feed: Feed::open(alloc),
        }
    }

    /// Whether no item is begun.
    pub fn is_idle(&self) -> bool
        ensures { result ≡ (length self.now == 0) }
    {
        self.feed.capacity() == 0
    }

    /// How many bytes have come of the item that is begun.
    pub fn len(&self) -> usize
        ensures { result ≡ length self.now }
    {
        self.feed.len()
    }

    /// How many bytes of memory it holds.
    pub fn capacity(&self) -> usize
        ensures enough { length self.now ≤ result }
        ensures none { self.now ≡ [] → result ≡ 0 }
    {
        self.feed.capacity()
    }

    /// Takes a piece of input, and has the items answered that are whole then, in order. What is to
    /// be written for all of them is put behind what is in the room; the caller writes it.
    ///
    /// A fault ends the connection: the next item can't be read, or memory ran out. It is told by
    /// `fault_response`, after what is in the room. Nothing is pushed after it.
    pub fn push<A: Answerer>(
        &mut self,
        alloc: Global,
        answerer: &mut A,
        piece: &[u8],
        room: &mut Room,
    ) -> Result<(), MessageFault>
        ensures goes_on { OnOk result (Answered A.answers A.gives_up (self.old ++ piece.now) self.new (at room.old answerer.old) (at room.new answerer.new)) }
        ensures undecided { OnOk result (IsUndecided self.new) }
        ensures ends { IfErr result (λ f. FaultedAfter A.answers A.gives_up (self.old ++ piece.now) f (at room.old answerer.old) (at room.new answerer.new)) }
    {
        law_stays();
        match self.feed.push(piece) {
            Ok(()) => answer_items(alloc, answerer, &mut self.feed, room),
            Err(fault) => Err(fault),
        }
    }
}

// Answers an item, and lets it go.
fn answer_item<A: Answerer>(
    alloc: Global,
    answerer: &mut A,
    item: Item,
    room: &mut Room,
) -> Result<(), AllocError>
    ensures ok { OnOk result (Puts (λ bytes. A.answers answerer.old item bytes answerer.new) room.old.text room.new.text) }
    ensures err { OnErr result (A.gives_up answerer.old item answerer.new) }
    ensures mute { OnErr result (room.new.text ≡ room.old.text) }
{
    answerer.answer(alloc, &item, room)
}

// Has the items answered that are whole.
fn answer_items<A: Answerer>(
    alloc: Global,
    answerer: &mut A,
    feed: &mut Feed,
    room: &mut Room,
) -> Result<(), MessageFault>
    requires { feed.old.fault ≡ None }
    ensures goes_on { OnOk result (Answered A.answers A.gives_up feed.old.unread feed.new.unread (at room.old answerer.old) (at room.new answerer.new)) }
    ensures undecided { OnOk result (IsUndecided feed.new.unread) }
    ensures ends { IfErr result (λ f. FaultedAfter A.answers A.gives_up feed.old.unread f (at room.old answerer.old) (at room.new answerer.new)) }
    ensures kept { IfSome feed.new.fault (λ f. HasFault feed.new.unread f) }
{
    loop {
        match feed.next() {
            Ok(Some(item)) => match answer_item(alloc, answerer, item, room) {
                Ok(()) => {}
                Err(AllocError) => return Err(MessageFault::OutOfMemory),
            },
            Ok(None) => return Ok(()),
            Err(fault) => return Err(fault),
        }
    }
}

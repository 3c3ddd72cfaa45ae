//! A stream that comes in pieces.

ghost use Rattle.std.specs.Prelude.{◌≡◌, ◌≢◌, ◌≤◌, ◌++◌, [], Some, None, Err, OnOk, OnErr, IfErr, IfSome, IfNone, List, ℕ, drop, length};
ghost use Rattle.std.specs.Bool.{OnTrue};
ghost use Rattle.rtsp_grammar.specs.Answer.{IsUndecided};
ghost use Rattle.rtsp_grammar.specs.declared.fault.MessageFault.TheVariants.{OutOfMemory};
ghost use Rattle.rtsp_grammar.specs.declared.message.Item.{Item};

use crate::fault::MessageFault;
use crate::message::Item;
use crate::read::{Front, HEAD_LIMIT, front_of};
use crate::scan::{ScanPlace, scan};
use bytes::BytesMut;
use std::alloc::Global;
use std::marker::Model;

// What is known of the unread bytes, so that no byte is looked at again with each piece.
#[derive(Clone, Copy)]
enum Progress {
    Fresh,
    // They are a head, whose end wasn't found before this place.
    Head(ScanPlace),
    // They are no whole item while they are fewer than this.
    Whole(usize),
}

// Gives the memory of a buffer back if it has no bytes.
fn let_go(bytes: &mut BytesMut, alloc: Global)
    ensures items { bytes.new.items ≡ bytes.old.items }
    ensures empty { bytes.new.items ≡ [] → bytes.new.spare ≡ 0 }
{
    if bytes.is_empty() {
        *bytes = BytesMut::new(alloc);
    }
}

/// The bytes of a stream that have come and are in no item yet, and the fault that was met.
///
/// Bytes are pushed as they come, and items taken until there are no more. The items are those of
/// all bytes together, wherever these were cut. What a byte costs doesn't depend on that either: a
/// head is scanned for its end once and then read, at most twice; a body isn't looked at before it
/// is whole. A Feed with no unread bytes holds no memory.
#[derive(Drop)]
pub struct Feed {
    alloc: Global,
    bytes: BytesMut,
    progress: Progress,
    fault: Option<MessageFault>,
}

impl Model for Feed {
    ghost use Rattle.std.specs.Prelude.{◌≡◌, []};
    ghost use Rattle.rtsp_grammar.specs.Scan.{HasProgress};
    ghost use Rattle.rtsp_grammar.specs.Stream.{Feeding};

    ghost Value = { Feeding };

    ghost view = { λ f. record { unread = f.bytes.items; fault = f.fault } };

    ghost invariant = { λ f. HasProgress f.bytes.items f.progress × (f.bytes.items ≡ [] → f.bytes.spare ≡ 0) };
}

impl Feed {
    ghost use Rattle.rtsp_grammar.specs.Stream.{waiting, Takes, given, IsFed};

    /// A Feed to which nothing was pushed yet.
    pub fn open(alloc: Global) -> Feed
        ensures { result ≡ waiting [] }
    {
        Feed {
            alloc,
            bytes: BytesMut::new(alloc),
            progress: Progress::Fresh,
            fault: None,
        }
    }

    /// How many bytes are unread.
    pub fn len(&self) -> usize
        ensures { result ≡ length self.now.unread }
    {
        self.bytes.len()
    }

    /// How many bytes of memory it holds.
    pub fn capacity(&self) -> usize
        ensures enough { length self.now.unread ≤ result }
        ensures none { self.now.unread ≡ [] → result ≡ 0 }
    {
        self.bytes.capacity()
    }

    /// Takes the next piece, whole or not at all: a Feed that met a fault takes nothing more.
    pub fn push(&mut self, piece: &[u8]) -> Result<(), MessageFault>
        ensures ok { OnOk result ((self.old.fault ≡ None) × (self.new ≡ waiting (self.old.unread ++ piece.now))) }
        ensures err { OnErr result (self.new ≡ self.old) }
        // The fault that is kept, or else want of memory.
        ensures kept { IfSome self.old.fault (λ f. result ≡ Err f) }
        ensures memory { IfNone self.old.fault (IfErr result (λ f. f ≡ OutOfMemory)) }
        ensures fed { (text : List ℕ) (items : List Item) → IsFed text items self.old → OnOk result (IsFed (text ++ piece.now) items self.new) }
    {
        self.append(piece)
    }

    /// The next item. None: its end hasn't come. A fault is answered from then on; want of memory
    /// changes nothing.
    pub fn next(&mut self) -> Result<Option<Item>, MessageFault>
        ensures kept { IfSome self.old.fault (λ f. (result ≡ Err f) × (self.new ≡ self.old)) }
        ensures takes { IfNone self.old.fault (Takes self.old.unread self.new result) }
        ensures fed { (text : List ℕ) (items : List Item) → IsFed text items self.old → IsFed text (items ++ given result) self.new }
    {
        self.read_next()
    }

    // `push`, without its clause on the whole stream, of which this is the next piece.
    fn append(&mut self, piece: &[u8]) -> Result<(), MessageFault>
        ensures ok { OnOk result ((self.old.fault ≡ None) × (self.new ≡ waiting (self.old.unread ++ piece.now))) }
        ensures err { OnErr result (self.new ≡ self.old) }
        ensures kept { IfSome self.old.fault (λ f. result ≡ Err f) }
        ensures memory { IfNone self.old.fault (IfErr result (λ f. f ≡ OutOfMemory)) }
    {
        if let Some(fault) = self.fault {
            return Err(fault);
        }
        if piece.is_empty() {
            return Ok(());
        }
        match self.bytes.extend_from_slice(piece) {
            Ok(()) => Ok(()),
            Err(_) => {
                let_go(&mut self.bytes, self.alloc);
                Err(MessageFault::OutOfMemory)
            }
        }
    }

    // `next`, without its clause on the whole stream and the items given before.
    fn read_next(&mut self) -> Result<Option<Item>, MessageFault>
        ensures kept { IfSome self.old.fault (λ f. (result ≡ Err f) × (self.new ≡ self.old)) }
        ensures takes { IfNone self.old.fault (Takes self.old.unread self.new result) }
    {
        if let Some(fault) = self.fault {
            return Err(fault);
        }
        if self.is_short() {
            return Ok(None);
        }
        match front_of(self.alloc, self.bytes.as_slice()) {
            Ok(Front::Item { item, len }) => {
                self.forget(len);
                Ok(Some(item))
            }
            Ok(Front::OpenHead) => {
                self.progress = match scan(self.bytes.as_slice(), ScanPlace::FRONT) {
                    Some(place) => Progress::Head(place),
                    None => Progress::Fresh,
                };
                Ok(None)
            }
            Ok(Front::Short { whole }) => {
                self.progress = Progress::Whole(whole);
                Ok(None)
            }
            Err(fault) => {
                self.keep(fault);
                Err(fault)
            }
        }
    }

    // Whether it is known, without reading from the front, that no item is whole.
    fn is_short(&mut self) -> bool
        ensures same { self.new ≡ self.old }
        ensures short { OnTrue result (IsUndecided self.old.unread) }
    {
        match self.progress {
            Progress::Fresh => false,
            Progress::Whole(len) => self.bytes.len() < len,
            Progress::Head(place) => {
                if self.bytes.len() >= HEAD_LIMIT {
                    return false;
                }
                let Some(place) = scan(self.bytes.as_slice(), place) else {
                    return false;
                };
                self.progress = Progress::Head(place);
                true
            }
        }
    }

    // Keeps a fault of the bytes. Want of memory is no fault of theirs, and isn't kept.
    fn keep(&mut self, fault: MessageFault)
        ensures memory { fault ≡ OutOfMemory → self.new ≡ self.old }
        ensures kept { fault ≢ OutOfMemory → self.new ≡ record { unread = self.old.unread; fault = Some fault } }
    {
        match fault {
            MessageFault::OutOfMemory => {}
            fault => self.fault = Some(fault),
        }
    }

    // Drops the first bytes, which are those of an item that is given.
    fn forget(&mut self, len: usize)
        requires { len ≤ length self.old.unread }
        ensures { self.new ≡ record { unread = drop len self.old.unread; fault = self.old.fault } }
    {
        self.bytes.advance(len);
        let_go(&mut self.bytes, self.alloc);
        self.progress = Progress::Fresh;
    }
}

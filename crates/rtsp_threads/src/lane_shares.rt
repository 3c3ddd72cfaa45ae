//! The sessions of addresses, as a lane counts them.

ghost use Rattle.std.specs.Prelude.{◌≡◌, None};
ghost use Rattle.rtsp_lock.specs.Calls.{seat_view};
ghost use Rattle.rtsp_threads.specs.Looks.{TellsOf};

use crate::share_numbers::{ANY, counted_share, share_of};
use rtsp_engine::{ShareSpent, Shares};
use rtsp_lock::BookHandle;
use rtsp_shares::{EndedPlace, KeptPlace, Living, NoPlace, Search, ShareTable};
use std::alloc::{AllocError, Global};
use std::sync::{Mutex, Wait};

/// What addresses have of the sessions, of which so many places are counted in all. Nothing where no address
/// has a share, unless that `may_change`.
pub fn open_shares(
    alloc: Global,
    share: Option<u16>,
    may_change: bool,
    most: usize,
) -> Result<Option<Mutex<ShareTable>>, AllocError> {
    match counted_share(share, may_change) {
        Some(share) => Ok(Some(Mutex::new(ShareTable::new(alloc, share, most)?))),
        None => Ok(None),
    }
}

/// An address may open so many sessions from now on, or any number. Those that live stay, also where they are
/// more.
pub fn set_share<R: Wait>(rt: &R, places: &Mutex<ShareTable>, share: Option<u16>) {
    places.lock(rt).set_share(share_of(share));
}

// Whether addresses have a share by now.
fn is_shared<R: Wait>(rt: &R, places: &Mutex<ShareTable>) -> bool {
    places.lock(rt).share() != ANY
}

// Whether a session lives, by a look at the book.
fn lives<R: Wait>(rt: &R, handle: &mut BookHandle, session: u64) -> bool
    ensures { TellsOf (seat_view handle.old.seat) (seat_view handle.new.seat) session result }
{
    handle.seat.phase(rt, &handle.lock, session).is_some()
}

// Which sessions live, as a handle of the book sees them.
#[derive(Drop)]
struct LivingSessions<'a, 'h, R> {
    rt: &'a R,
    handle: &'h mut BookHandle,
}

impl<R: Wait> Living for LivingSessions<'_, '_, R> {
    ghost use Rattle.rtsp_lock.specs.Calls.{seat_view};
    ghost use Rattle.rtsp_threads.specs.Looks.{TellsOf};

    ghost tells = { λ s number lives t. TellsOf (seat_view s.handle.now.seat) (seat_view t.handle.now.seat) number lives };

    fn lives(&mut self, number: u64) -> bool {
        lives(self.rt, self.handle, number)
    }
}

// Asks whether the session lives for which a place is kept.
fn ask<R: Wait>(rt: &R, handle: &mut BookHandle, kept: KeptPlace) -> Option<EndedPlace> {
    let mut living = LivingSessions { rt, handle };
    kept.ask(&mut living)
}

/// The places that addresses have for sessions, as a lane takes them for what it answers.
#[derive(Drop)]
pub struct LaneShares<'a, R> {
    rt: &'a R,
    // There are none where addresses have no share, and won't come to have one.
    places: Option<&'a Mutex<ShareTable>>,
    // By which the lane looks which sessions live.
    handle: &'a mut BookHandle,
    // The address of the place that isn't settled yet.
    taken: Option<u32>,
    refused: u64,
}

// Takes a place for an address, or tells whose places may be given back first.
fn take_or_search<R: Wait>(rt: &R, places: &Mutex<ShareTable>, peer: u32) -> Option<Search> {
    let mut places = places.lock(rt);
    match places.take(peer) {
        Ok(()) => None,
        Err(NoPlace::Share | NoPlace::Full) => Some(places.search(peer)),
    }
}

// A place that is to be asked about.
fn next_kept<R: Wait>(
    rt: &R,
    places: &Mutex<ShareTable>,
    search: &mut Search,
) -> Option<KeptPlace> {
    places.lock(rt).next_kept(search)
}

// Gives a place back, and takes one for an address.
fn take_instead<R: Wait>(rt: &R, places: &Mutex<ShareTable>, ended: EndedPlace, peer: u32) -> bool {
    let mut places = places.lock(rt);
    places.give_back_ended(ended);
    places.take(peer).is_ok()
}

// Takes a place for an address. Where its share is in use, one of its places is looked at, in case nobody
// told that the session has ended; where all places are taken, all are. No look is made with the table
// held.
fn take_place<R: Wait>(
    rt: &R,
    places: &Mutex<ShareTable>,
    handle: &mut BookHandle,
    peer: u32,
) -> bool {
    let Some(mut search) = take_or_search(rt, places, peer) else {
        return true;
    };
    for _ in 0..search.looks() {
        let Some(kept) = next_kept(rt, places, &mut search) else {
            return false;
        };
        if let Some(ended) = ask(rt, handle, kept)
            && take_instead(rt, places, ended, peer)
        {
            return true;
        }
    }
    false
}

// Keeps the place that an address took for the session that was opened in it, or gives it back.
fn settle_place<R: Wait>(rt: &R, places: &Mutex<ShareTable>, peer: u32, opened: Option<u64>) {
    let mut places = places.lock(rt);
    match opened {
        Some(session) => places.keep(peer, session),
        None => places.give_back(peer),
    }
}

// The last place that is kept below an index.
fn kept_below<R: Wait>(rt: &R, places: &Mutex<ShareTable>, below: usize) -> Option<KeptPlace> {
    places.lock(rt).kept_below(below)
}

/// A session has ended: the place that is kept for it is given back to its address. Whoever ends one
/// calls it.
pub fn end_place<R: Wait>(rt: &R, places: &Mutex<ShareTable>, session: u64) {
    places.lock(rt).end(session);
}

/// Gives back all places that are kept for sessions which don't live any more, as a handle of the book
/// sees them. The table is let go of before each look, so nobody waits for more than one place's. Where
/// addresses have no share by now nobody wants them: who needs one gives it back.
pub fn give_back_ended<R: Wait>(rt: &R, places: &Mutex<ShareTable>, handle: &mut BookHandle) {
    if !is_shared(rt, places) {
        return;
    }
    let mut below = usize::MAX;
    for _ in rt.forever() {
        let Some(kept) = kept_below(rt, places, below) else {
            break;
        };
        below = kept.at();
        if let Some(ended) = ask(rt, handle, kept) {
            places.lock(rt).give_back_ended(ended);
        }
    }
}

impl<'a, R> LaneShares<'a, R> {
    /// The places of a server, if there are any, and a lane's handle of the book.
    pub fn new(
        rt: &'a R,
        places: Option<&'a Mutex<ShareTable>>,
        handle: &'a mut BookHandle,
    ) -> LaneShares<'a, R>
        ensures taken { result.taken ≡ None }
        ensures refused { result.refused ≡ 0 }
    {
        LaneShares {
            rt,
            places,
            handle,
            taken: None,
            refused: 0,
        }
    }

    /// How often no place was left.
    pub fn refused(&self) -> u64
        ensures { result ≡ self.now.refused }
    {
        self.refused
    }
}

impl<R: Wait> LaneShares<'_, R> {
    // A session may have ended: where it doesn't live any more its place is given back. The look is made
    // before the table is taken.
    pub(crate) fn end_unless_living(&mut self, session: Option<u64>) {
        if let Some(places) = self.places
            && let Some(session) = session
            && !lives(self.rt, self.handle, session)
        {
            end_place(self.rt, places, session);
        }
    }
}

// What places there are is known to all lanes, so a clause knows of a call nothing but whether there
// is a place of this lane's that isn't settled, and whether one was refused.
impl<R: Wait> Shares for LaneShares<'_, R> {
    ghost use Rattle.std.specs.Prelude.{◌≡◌, Some, None};

    ghost calls = { record { takes = λ s peer t. t.taken ≡ Some peer; refuses = λ s peer t. t.taken ≡ s.taken; settles = λ s opened t. t.taken ≡ None; refusals = λ s. s.refused } };

    fn take(&mut self, peer: u32) -> Result<(), ShareSpent> {
        let is_taken = match self.places {
            Some(places) => take_place(self.rt, places, self.handle, peer),
            None => true,
        };
        if is_taken {
            self.taken = Some(peer);
            return Ok(());
        }
        self.refused = self.refused.saturating_add(1);
        Err(ShareSpent)
    }

    fn settle(&mut self, opened: Option<u64>) {
        let taken = self.taken.take();
        if let Some(places) = self.places
            && let Some(peer) = taken
        {
            settle_place(self.rt, places, peer, opened);
        }
    }
}

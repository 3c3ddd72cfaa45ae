//! What wakes a pacer: plays that were begun, and the end.

ghost use Rattle.std.specs.Prelude.{◌≡◌, IfOk, vec_len, option_copied};
ghost use Rattle.rtsp_pacing.specs.Bells.{bell_of};

use crate::credit::Credit;
use crate::inbox::{Heard, Inbox};
use crate::noted::NewPlay;
use std::alloc::{AllocError, Global};
use std::rt::Clock;
use std::sync::atomic::{AtomicU64, Ordering};
use std::sync::{Arc, Condvar, Mutex, Wait};
use std::thread;
use std::time::Duration;

// How long, in milliseconds, a pacer sleeps where the system can't tell the time.
const UNTOLD: u64 = 100;

// How many plays more may wait than there may be sessions. From there on whoever begins plays isn't
// read on; a piece of each connection's input may have been under way.
const SPARE: u16 = 1_024;

/// What wakes a pacer.
#[derive(Drop)]
pub struct Bell {
    inbox: Mutex<Inbox>,
    rung: Condvar,
    // Tells whoever has a play for which there was no room that the pacer has heard of another.
    heard: Condvar,
    // How many plays wait, and how many are a crowd.
    waiting: AtomicU64,
    crowd: u64,
    // What the plays of all pacers may send that are late.
    credit: Arc<Mutex<Credit>>,
}

impl Bell {
    // A bell of a pacer for so many sessions.
    fn new(alloc: Global, sessions: u16, credit: Arc<Mutex<Credit>>) -> Result<Bell, AllocError> {
        let room = usize::from(sessions) + usize::from(SPARE);
        Ok(Bell {
            inbox: Mutex::new(Inbox::new(alloc, room)?),
            rung: Condvar::new(),
            heard: Condvar::new(),
            waiting: AtomicU64::new(0),
            crowd: u64::from(sessions),
            credit,
        })
    }

    // Hands a play over, once there is room for it. Whether there is: none is needed after the end.
    pub(crate) fn ring<R: Wait>(&self, rt: &R, play: NewPlay) -> bool {
        let inbox = self.inbox.lock(rt);
        let mut inbox = self.heard.wait_while(rt, inbox, |inbox| inbox.is_full());
        let is_kept = inbox.put(play);
        self.waiting.store(inbox.len() as u64, Ordering::SeqCst);
        drop(inbox);
        self.rung.notify_one();
        is_kept
    }

    /// Whether as many plays wait as there may be sessions. Then whoever has begun some for this pacer
    /// isn't to begin more. It takes no lock.
    pub fn is_crowded(&self) -> bool {
        self.waiting.load(Ordering::SeqCst) >= self.crowd
    }

    // What the plays of all pacers may send that are late.
    pub(crate) fn credit(&self) -> &Mutex<Credit> {
        &self.credit
    }

    // Waits for so long, or until there is something to hear. `None` where the system can't tell the
    // time, which ends each wait at once: then it sleeps for a while, and hears what there is.
    pub(crate) fn hear<R: Wait + Clock>(&self, rt: &R, wait: Option<Duration>) -> Heard {
        if wait.is_none() {
            thread::sleep(rt, Duration::from_millis(UNTOLD));
        }
        let mut inbox = self.inbox.lock(rt);
        if let Some(wait) = wait
            && !wait.is_zero()
        {
            let (heard, _) = self
                .rung
                .wait_timeout_while(rt, inbox, wait, |inbox| inbox.is_quiet());
            inbox = heard;
        }
        let was_full = inbox.is_full();
        let next = inbox.next();
        self.waiting.store(inbox.len() as u64, Ordering::SeqCst);
        drop(inbox);
        if was_full {
            self.heard.notify_all();
        }
        next
    }

    /// Ends the pacer.
    pub fn stop<R: Wait>(&self, rt: &R) {
        self.inbox.lock(rt).stop();
        self.rung.notify_all();
        self.heard.notify_all();
    }
}

// 2^64 divided by the golden ratio. The numbers of sessions come in steps, since each SETUP and
// each connection draws several: by their remainders alone one pacer would have them all.
const SPREAD: u64 = 0x9E37_79B9_7F4A_7C15;

// What the plays of all pacers may send that are late.
fn shared_credit(alloc: Global) -> Result<Arc<Mutex<Credit>>, AllocError> {
    match Arc::new(alloc, Mutex::new(Credit::new())) {
        Ok(credit) => Ok(credit),
        Err(_) => Err(AllocError),
    }
}

/// The bells of all pacers. A session's plays are all sent by one of them.
pub struct Bells {
    bells: Vec<Bell>,
}

// Written out, so that whoever lets go of them makes one call, and not one for each of their parts.
impl Drop for Bells {
    fn drop(self) {
        let Self { bells: _bells } = self;
    }
}

impl Bells {
    /// The bells of so many pacers, for so many sessions. Memory for all plays that may wait is taken
    /// here, so handing one over takes none: for one of each session, and for those that are begun
    /// while a crowd of so many waits.
    pub fn new(alloc: Global, pacers: usize, sessions: u16) -> Result<Bells, AllocError>
        ensures { IfOk result (λ b. vec_len b.bells ≡ pacers) }
    {
        let credit = shared_credit(alloc)?;
        let mut bells = Vec::new(alloc);
        for _count in 0..pacers {
            let Ok(credit) = Arc::try_clone(&credit) else {
                return Err(AllocError);
            };
            bells.push(Bell::new(alloc, sessions, credit)?)?;
        }
        Ok(Bells { bells })
    }

    /// All of them, each for one pacer.
    pub fn as_slice(&self) -> &[Bell]
        ensures { result.now ≡ self.now.bells.items }
    {
        self.bells.as_slice()
    }

    /// The bell of the pacer that has a session. `None` where there is no pacer.
    pub fn of(&self, session: u64) -> Option<&Bell>
        ensures { option_copied result ≡ bell_of self.now.bells.items session }
    {
        let spread = session.wrapping_mul(SPREAD) / (1 << 32);
        let place = spread.checked_rem(self.bells.len() as u64)?;
        self.bells.get(usize::try_from(place).ok()?)
    }

    /// Ends all pacers.
    pub fn stop<R: Wait>(&self, rt: &R) {
        for bell in &self.bells {
            bell.stop(rt);
        }
    }
}

//! Puts connections aside that ask for what the journal has no room for, and calls them back.

use crate::clients::Clients;
use crate::service::Service;
use rtsp_lock::BookHandle;
use rtsp_threads::RoomLooks;
use std::rt;
use std::sync::Wait;

impl Clients {
    /// How many milliseconds from this moment on those that were put aside wait until room is looked for.
    pub(crate) fn patience_aside(&self, now: u64, looks: RoomLooks) -> u64 {
        if self.aside.len() == 0 {
            u64::MAX
        } else {
            looks.patience(now)
        }
    }

    /// Has those visited again that were put aside: all of them once there is room, in the order in
    /// which they were put there. Others of which the system tells come before them, since these may ask
    /// for what needs no room. Where there was none for as long as may be, the first is let through: so
    /// a lane makes no more entries without room than those of one piece each such time.
    pub(crate) fn call_back<R: Wait + rt::Clock>(
        &mut self,
        service: &Service<'_, R>,
        handle: &mut BookHandle,
    ) {
        let count = self.aside.len();
        if count == 0 {
            self.room_wait.end();
            return;
        }
        if !service.looks.get().is_due(service.now) {
            return;
        }
        if service.make_room(handle) {
            self.room_wait.end();
            self.call_back_some(count);
        } else if self.room_wait.is_over(service.now) {
            self.room_wait.end();
            self.let_first_through();
        }
        if self.aside.len() > 0 {
            self.room_wait.begin(service.now);
        }
    }

    // Has so many visited again.
    fn call_back_some(&mut self, count: usize) {
        for _ in 0..count {
            if let Some(key) = self.aside.take() {
                self.roster.queue(key);
            }
        }
    }

    // Has the first visited again, of which a piece is answered though there is no room.
    fn let_first_through(&mut self) {
        if let Some(key) = self.aside.take()
            && let Some(client) = self.roster.get_mut(key)
        {
            client.let_through();
            self.roster.queue(key);
        }
    }
}

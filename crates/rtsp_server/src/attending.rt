//! What the first thread does while the others serve.

use crate::growing::Growth;
use crate::growing_users::UsersGrowth;
use crate::threads::Parts;
use std::fs::File;
use std::rt;
use std::rt::Files;
use std::sync::Wait;
use std::time::Duration;

impl Parts {
    // Makes the files that the thread which writes the journal asks for, takes a changed configuration up,
    // and looks whether the file of users has changed, until the lanes are over.
    pub(crate) fn attend<R: Wait + rt::Clock + Files<File = File>>(
        &self,
        rt: &R,
        growth: &mut Growth,
        mut users: Option<UsersGrowth>,
    ) {
        let shared = &self.shared;
        for _ in rt.forever() {
            if self.attend_scribe(rt, Duration::from_millis(growth.pause())) {
                break;
            }
            growth.turn(rt, shared);
            if let (Some(users), Some(current)) = (&mut users, &shared.users) {
                users.turn(rt, current, &shared.log, shared.now(rt));
            }
        }
    }
}

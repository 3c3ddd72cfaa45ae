//! Has a changed file of users taken up while the server runs: the first thread sees that it has changed,
//! since it alone opens files, and another one reads it, since a disk may hold that up.

use crate::shared::Shared;
use crate::users::CurrentUsers;
use crate::users_reasons::users_reason;
use crate::watched_file::{WatchedFile, read_all};
use rtsp_content::Operation;
use rtsp_credentials::{Users, UsersFault, read_users};
use rtsp_log::{Event, Log};
use rtsp_threads::{CONFIGURATION_EVERY, StopBell};
use std::alloc::{AllocError, Global};
use std::fs::File;
use std::rt::Files;
use std::sync::{Arc, Wait};
use std::thread::Threads;
use std::time::Duration;
use std::{rt, thread};

// So often it is looked whether the file is to be read, in milliseconds.
const LOOK: u64 = 100;

// The users of a text, for all lanes.
fn shared_users(alloc: Global, text: &[u8]) -> Result<Arc<Users>, UsersFault> {
    match Arc::new(alloc, read_users(alloc, text)?) {
        Ok(users) => Ok(users),
        Err(_) => Err(UsersFault::OutOfMemory),
    }
}

// The file isn't taken up: the log tells why.
fn refuse<R: Wait + rt::Clock>(
    rt: &R,
    alloc: Global,
    log: &Log,
    reason: Result<String, AllocError>,
) {
    match reason {
        Ok(reason) => log.not_taken(rt, alloc, reason.as_bytes()),
        Err(AllocError) => log.not_taken(rt, alloc, b"out of memory"),
    }
}

fn unreadable(alloc: Global, path: &str) -> Result<String, AllocError> {
    format!(in alloc; "{path}: it can't be read")
}

/// What sees that the file of users has changed.
#[derive(Drop)]
pub(crate) struct UsersGrowth {
    alloc: Global,
    file: WatchedFile,
    looked: u64,
}

impl UsersGrowth {
    /// Nothing has changed yet. Nothing where the configuration names no file of users.
    pub(crate) fn open<R: Files<File = File>>(
        rt: &R,
        alloc: Global,
        operation: &Operation,
    ) -> Result<Option<UsersGrowth>, AllocError> {
        let Some(path) = operation.users() else {
            return Ok(None);
        };
        let path = String::from_str(alloc, path)?;
        Ok(Some(UsersGrowth {
            alloc,
            file: WatchedFile::open(rt, path),
            looked: 0,
        }))
    }

    /// Looks whether the file has changed, if it is time, and has it read then.
    pub(crate) fn turn<R: Wait + rt::Clock + Files<File = File>>(
        &mut self,
        rt: &R,
        users: &CurrentUsers,
        log: &Log,
        now: u64,
    ) {
        if now < self.looked.saturating_add(CONFIGURATION_EVERY) {
            return;
        }
        self.looked = now;
        if !self.file.has_settled(rt, now) {
            return;
        }
        match self.file.open_again(rt) {
            Some(file) => users.note_changed(rt, file),
            None => refuse(
                rt,
                self.alloc,
                log,
                unreadable(self.alloc, self.file.path()),
            ),
        }
    }
}

/// What reads the file of users.
#[derive(Drop)]
pub(crate) struct UsersReader {
    alloc: Global,
    path: String,
}

impl UsersReader {
    /// Nothing where the configuration names no file of users.
    pub(crate) fn open(
        alloc: Global,
        operation: &Operation,
    ) -> Result<Option<UsersReader>, AllocError> {
        let Some(path) = operation.users() else {
            return Ok(None);
        };
        let path = String::from_str(alloc, path)?;
        Ok(Some(UsersReader { alloc, path }))
    }

    // Takes the file up. A bad one changes nothing, and the log tells why.
    fn take<R: Wait + rt::Clock>(&self, rt: &R, log: &Log, users: &CurrentUsers, file: &File) {
        let path = self.path.as_str();
        let Some(text) = read_all(self.alloc, file) else {
            return refuse(rt, self.alloc, log, unreadable(self.alloc, path));
        };
        match shared_users(self.alloc, &text) {
            Ok(taken) => {
                users.replace(rt, taken);
                log.event(rt, Event::UsersTaken);
            }
            Err(fault) => refuse(
                rt,
                self.alloc,
                log,
                users_reason(self.alloc, path, &text, fault),
            ),
        }
    }

    // The body of the thread.
    fn run<R: Wait + rt::Clock>(
        &self,
        rt: &R,
        users: &CurrentUsers,
        stop_bell: &StopBell,
        log: &Log,
    ) {
        for _ in rt.forever() {
            if stop_bell.wait(rt, Duration::from_millis(LOOK)) {
                break;
            }
            if let Some(file) = users.take_changed(rt) {
                self.take(rt, log, users, &file);
            }
        }
    }
}

/// Starts the thread that reads the file of users, where there is one. Whether it could be made. Nobody
/// joins it, since a disk may hold it up for longer than the server lives, so it has its own share of what
/// it needs.
pub(crate) fn start_users<R: Threads + Wait + rt::Clock + Copy + Send + 'static>(
    rt: &R,
    reader: Option<UsersReader>,
    shared: &Arc<Shared>,
) -> bool {
    let Some(reader) = reader else {
        return true;
    };
    let Ok(shared) = Arc::try_clone(shared) else {
        return false;
    };
    let own = *rt;
    thread::spawn(rt, move || {
        if let Some(users) = &shared.users {
            reader.run(&own, users, &shared.stop_bell, &shared.log);
        }
    })
    .is_ok()
}

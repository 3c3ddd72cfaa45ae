//! Who is let through, where that isn't everybody, by the file of the moment.

use crate::fault::ServerFault;
use rtsp_content::Operation;
use rtsp_credentials::{Users, read_users};
use std::alloc::{AllocError, Global};
use std::fs::File;
use std::io::Read;
use std::rt::Files;
use std::sync::atomic::{AtomicU64, Ordering};
use std::sync::{Arc, Mutex, Wait};

/// The users of the moment, which each lane takes at the beginning of a turn.
#[derive(Drop)]
pub(crate) struct CurrentUsers {
    // How often they were replaced.
    number: AtomicU64,
    current: Mutex<Arc<Users>>,
    // A changed file, until it is read.
    changed: Mutex<Option<File>>,
}

impl CurrentUsers {
    fn open(alloc: Global, users: Users) -> Result<CurrentUsers, AllocError> {
        match Arc::new(alloc, users) {
            Ok(users) => Ok(CurrentUsers {
                number: AtomicU64::new(0),
                current: Mutex::new(users),
                changed: Mutex::new(None),
            }),
            Err(_) => Err(AllocError),
        }
    }

    fn current<R: Wait>(&self, rt: &R) -> Option<Arc<Users>> {
        Arc::try_clone(&*self.current.lock(rt)).ok()
    }

    /// These are let through from now on.
    pub(crate) fn replace<R: Wait>(&self, rt: &R, users: Arc<Users>) {
        *self.current.lock(rt) = users;
        self.number.fetch_add(1, Ordering::SeqCst);
    }

    /// Their file has changed, and this is to be read.
    pub(crate) fn note_changed<R: Wait>(&self, rt: &R, file: File) {
        *self.changed.lock(rt) = Some(file);
    }

    /// The changed file, if it is still to be read.
    pub(crate) fn take_changed<R: Wait>(&self, rt: &R) -> Option<File> {
        self.changed.lock(rt).take()
    }
}

/// The users as a lane sees them.
#[derive(Drop)]
pub(crate) struct SeenUsers {
    number: u64,
    users: Arc<Users>,
}

impl SeenUsers {
    /// Those of the moment, where not everybody is let through.
    pub(crate) fn open<R: Wait>(
        rt: &R,
        users: Option<&CurrentUsers>,
    ) -> Result<Option<SeenUsers>, AllocError> {
        let Some(users) = users else {
            return Ok(None);
        };
        let number = users.number.load(Ordering::SeqCst);
        match users.current(rt) {
            Some(users) => Ok(Some(SeenUsers { number, users })),
            None => Err(AllocError),
        }
    }

    /// Takes those of the moment, where they are others.
    pub(crate) fn refresh<R: Wait>(&mut self, rt: &R, users: &CurrentUsers) {
        let number = users.number.load(Ordering::SeqCst);
        if number == self.number {
            return;
        }
        if let Some(current) = users.current(rt) {
            self.users = current;
            self.number = number;
        }
    }

    pub(crate) fn users(&self) -> &Users {
        &self.users
    }
}

/// The users of a server, where its configuration names a file of them.
pub(crate) fn open_users<R: Files<File = File>>(
    rt: &R,
    alloc: Global,
    operation: &Operation,
) -> Result<Option<CurrentUsers>, ServerFault> {
    let Some(path) = operation.users() else {
        return Ok(None);
    };
    let mut text = Vec::new(alloc);
    File::open(rt, path)?.read_to_end(&mut text)?;
    let users = read_users(alloc, &text)?;
    Ok(Some(CurrentUsers::open(alloc, users)?))
}

//! What is served at a moment, which goes on by another configuration while it is.

ghost use Rattle.std.specs.Prelude.{◌≡◌};
ghost use Rattle.std.specs.Arc.{arc_value};
ghost use Rattle.rtsp_sockets.specs.Contents.{SeesOn};

use crate::media::Media;
use rtsp_content::{Allowed, Table};
use std::alloc::{AllocError, Global};
use std::sync::atomic::{AtomicU64, Ordering};
use std::sync::{Arc, Mutex, Wait};

/// What is served at a time: presentations by their places, their media, and for whom they are there, where
/// that isn't everybody.
#[derive(Drop)]
pub struct Content {
    pub table: Table,
    pub media: Media,
    pub allowed: Option<Arc<Allowed>>,
}

impl Content {
    /// For whom presentations are there, where that isn't everybody.
    pub fn allowed(&self) -> Option<&Allowed> {
        match &self.allowed {
            Some(allowed) => Some(&**allowed),
            None => None,
        }
    }
}

/// The content of the moment, which all threads that serve take at the beginning of a turn.
#[derive(Drop)]
pub struct Contents {
    // How often it was replaced.
    number: AtomicU64,
    current: Mutex<Arc<Content>>,
}

impl Contents {
    /// The first is this.
    pub fn open(alloc: Global, content: Content) -> Result<Contents, AllocError> {
        match Arc::new(alloc, content) {
            Ok(content) => Ok(Contents {
                number: AtomicU64::new(0),
                current: Mutex::new(content),
            }),
            Err(_) => Err(AllocError),
        }
    }

    /// The content of the moment. It is let go of soon, since its files are open for as long.
    pub fn current<R: Wait>(&self, rt: &R) -> Option<Arc<Content>> {
        Arc::try_clone(&*self.current.lock(rt)).ok()
    }

    /// How often it was replaced.
    pub fn number(&self) -> u64 {
        self.number.load(Ordering::SeqCst)
    }

    /// This content is served from now on.
    pub fn replace<R: Wait>(&self, rt: &R, content: Arc<Content>) {
        *self.current.lock(rt) = content;
        self.number.fetch_add(1, Ordering::SeqCst);
    }
}

/// The content as a thread sees it.
#[derive(Drop)]
pub struct Seen {
    number: u64,
    content: Arc<Content>,
}

impl Seen {
    /// The content of the moment.
    pub fn open<R: Wait>(rt: &R, contents: &Contents) -> Option<Seen> {
        let number = contents.number();
        Some(Seen {
            number,
            content: contents.current(rt)?,
        })
    }

    /// Takes the content of the moment, where it is another. It is taken only where each place that wasn't given
    /// to another has in it what it has in the one before.
    pub fn refresh<R: Wait>(&mut self, rt: &R, contents: &Contents)
        ensures { SeesOn self.old self.new }
    {
        let number = contents.number();
        if number == self.number {
            return;
        }
        if let Some(content) = contents.current(rt) {
            self.take(number, content);
        }
    }

    // Takes a content that goes on from this one.
    fn take(&mut self, number: u64, content: Arc<Content>)
        ensures { SeesOn self.old self.new }
    {
        if content.table.is_longer(&self.content.table) {
            self.content = content;
            self.number = number;
        }
    }

    /// What is seen.
    pub fn content(&self) -> &Content
        ensures { result.now ≡ arc_value self.now.content }
    {
        &self.content
    }
}

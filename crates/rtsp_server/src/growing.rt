//! Has a changed configuration taken up while the server runs.

use crate::descriptors::Descriptors;
use crate::errands::{Errand, Outcome};
use crate::following::FollowedKeys;
use crate::giving::{free_places, give_counts, places_in_use};
use crate::growth_reasons::{NotTaken, reason};
use crate::hiding::share_allowed;
use crate::replaced::{KEPT, Replaced};
use crate::shared::Shared;
use crate::wanted_media::{is_any_unwatched, needed, renewed, withdrawn};
use crate::watched_file::WatchedFile;
use rtsp_content::{Allowed, Operation, Table};
use rtsp_log::Event;
use rtsp_sockets::{ClosedMedia, Content, Longer, MediaFault};
use rtsp_threads::CONFIGURATION_EVERY;
use std::alloc::{AllocError, Global};
use std::fs::File;
use std::rt::Files;
use std::sync::{Arc, Wait};
use std::{mem, rt};

// So often it is looked how far a change is that is under way, in milliseconds.
const UNDER_WAY_EVERY: u64 = 20;

// What of a changed configuration is no content.
#[derive(Clone, Copy)]
struct Beside {
    // How many presentations it offers.
    offered: u64,
    keys: FollowedKeys,
}

// What a changed configuration wants, but for its media.
#[derive(Drop)]
struct Wanted {
    old: Arc<Content>,
    table: Table,
    allowed: Option<Arc<Allowed>>,
    // Nothing where files are closed alone.
    beside: Option<Beside>,
}

// A content that is served once all threads that it needs run.
#[derive(Drop)]
struct Ready {
    old: Arc<Content>,
    content: Arc<Content>,
    // For how many connections it leaves descriptors.
    connections: u64,
    beside: Option<Beside>,
}

// How far a change is.
#[derive(Drop)]
enum Phase {
    // There is none.
    Resting,
    // Its text is being read.
    Reading,
    // What it wants held in memory is being read.
    Holding(Wanted),
    // Threads that read a further disk ahead are being started.
    Starting(Ready),
}

/// What takes a changed configuration up. What a disk may hold up for long is done by another thread.
#[derive(Drop)]
pub(crate) struct Growth {
    alloc: Global,
    operation: Operation,
    file: WatchedFile,
    descriptors: Descriptors,
    phase: Phase,
    // The text of the change that is under way.
    text: Vec<u8>,
    // What is known of files that are closed.
    closed: ClosedMedia,
    looked: u64,
    // When the content was replaced last, or files were seen last that are wanted no more.
    changed: u64,
    replaced: Replaced,
}

impl Growth {
    /// Nothing has changed yet.
    pub(crate) fn open(
        alloc: Global,
        file: WatchedFile,
        operation: Operation,
        descriptors: Descriptors,
    ) -> Growth {
        Growth {
            alloc,
            operation,
            file,
            descriptors,
            phase: Phase::Resting,
            text: Vec::new(alloc),
            closed: ClosedMedia::new(alloc),
            looked: 0,
            changed: 0,
            replaced: Replaced::new(alloc),
        }
    }

    /// What the server keeps and shows.
    pub(crate) fn operation(&self) -> &Operation {
        &self.operation
    }

    /// The milliseconds up to the next turn.
    pub(crate) fn pause(&self) -> u64 {
        match self.phase {
            Phase::Resting => CONFIGURATION_EVERY,
            _ => UNDER_WAY_EVERY,
        }
    }

    /// Looks whether the configuration has changed, if it is time and that is wanted, and takes it up, as far
    /// as it is by now.
    pub(crate) fn turn<R: Wait + rt::Clock + Files<File = File>>(
        &mut self,
        rt: &R,
        shared: &Shared,
    ) {
        let now = shared.now(rt);
        match mem::replace(&mut self.phase, Phase::Resting) {
            Phase::Resting => self.look(rt, shared, now),
            phase => match shared.errands.outcome(rt) {
                Some(outcome) => self.go_on(rt, shared, phase, outcome, now),
                None => self.phase = phase,
            },
        }
    }

    // Looks whether the configuration has changed, and has it read then.
    fn look<R: Wait + rt::Clock + Files<File = File>>(
        &mut self,
        rt: &R,
        shared: &Shared,
        now: u64,
    ) {
        if !self.operation.watch() || now < self.looked.saturating_add(CONFIGURATION_EVERY) {
            return;
        }
        self.looked = now;
        self.let_go(rt, shared, now);
        if self.file.has_settled(rt, now) {
            match self.file.open_again(rt) {
                Some(file) => {
                    shared.errands.ask(rt, Errand::Read(file));
                    self.phase = Phase::Reading;
                }
                None => self.refuse(rt, shared, NotTaken::Unreadable),
            }
        } else if self.changed.saturating_add(KEPT) <= now {
            self.close_unwatched(rt, shared, now);
        }
    }

    // Lets go of what was replaced long ago, which closes its files, and counts the places that are in use.
    fn let_go<R: Wait>(&mut self, rt: &R, shared: &Shared, now: u64) {
        self.replaced.let_go(now);
        if let Ok(content) = current(rt, shared) {
            let places = places_in_use(shared, &content, &self.replaced);
            shared.content_counts.use_places(places);
        }
    }

    // Goes on with a change by what came of the errand that it waited for.
    fn go_on<R: Wait + rt::Clock + Files<File = File>>(
        &mut self,
        rt: &R,
        shared: &Shared,
        phase: Phase,
        outcome: Outcome,
        now: u64,
    ) {
        let next = match (phase, outcome) {
            (Phase::Reading, Outcome::Read(Some(text))) => {
                self.text = text;
                self.begin(rt, shared, now)
            }
            (Phase::Reading, Outcome::Read(None)) => Err(NotTaken::Unreadable),
            (Phase::Holding(wanted), Outcome::Held(Ok(media))) => {
                self.assemble(rt, shared, wanted, media, now)
            }
            (Phase::Holding(_), Outcome::Held(Err(fault))) => Err(NotTaken::from(fault)),
            (Phase::Starting(ready), Outcome::Started(true)) => {
                Ok(self.switch(rt, shared, ready, now))
            }
            (Phase::Starting(_), Outcome::Started(false)) => Err(NotTaken::NoThread),
            _ => Ok(Phase::Resting),
        };
        match next {
            Ok(phase) => self.phase = phase,
            Err(why) => self.refuse(rt, shared, why),
        }
    }

    // The change isn't taken up: the log tells why.
    fn refuse<R: Wait + rt::Clock + Files<File = File>>(
        &mut self,
        rt: &R,
        shared: &Shared,
        why: NotTaken,
    ) {
        shared.content_counts.refuse();
        match reason(rt, self.alloc, self.file.path(), self.text.as_slice(), why) {
            Ok(reason) => shared.log.not_taken(rt, self.alloc, reason.as_bytes()),
            Err(AllocError) => shared.log.not_taken(rt, self.alloc, b"out of memory"),
        }
        self.text = Vec::new(self.alloc);
    }

    // What the text wants that was read, unless it changes what stays as long as the server runs.
    fn wanted<R: Wait + Files<File = File>>(
        &self,
        rt: &R,
        shared: &Shared,
    ) -> Result<Wanted, NotTaken> {
        let (text, path) = (self.text.as_slice(), self.file.path());
        let wanted = Table::read_at(self.alloc, text, path)?;
        let operation = Operation::read_at(self.alloc, text, path)?;
        let allowed = share_allowed(self.alloc, Allowed::read(self.alloc, text)?)?;
        let old = current(rt, shared)?;
        let changed = old.table.changed_key(&wanted);
        if let Some(key) = changed.or(self.operation.changed_key(&operation)) {
            return Err(NotTaken::Stays(key));
        }
        let renewed = renewed(rt, self.alloc, &old, &wanted, &self.closed)?;
        let free = free_places(self.alloc, shared, &old, &self.replaced)?;
        let table = old
            .table
            .longer(self.alloc, &wanted, renewed.as_slice(), free.as_slice())?;
        Ok(Wanted {
            old,
            table,
            allowed,
            beside: Some(Beside {
                offered: wanted.presentations().len() as u64,
                keys: FollowedKeys::of(wanted.server(), &operation),
            }),
        })
    }

    // What the text wants that was read, and its media, whose files are open.
    fn opened<R: Wait + rt::Clock + Files<File = File>>(
        &self,
        rt: &R,
        shared: &Shared,
    ) -> Result<(Wanted, Longer), NotTaken> {
        let wanted = self.wanted(rt, shared)?;
        let needed = needed(self.alloc, shared, &wanted.table, Some(&*wanted.old))?;
        let (media, table) = (&wanted.old.media, &wanted.table);
        let media = media.longer(rt, self.alloc, table, needed.as_slice(), &self.closed)?;
        Ok((wanted, media))
    }

    // Opens the files of the change that was read, and has those held in memory that are to be. Where a file
    // that was closed changes meanwhile, nothing that comes back is taken for what it was.
    fn begin<R: Wait + rt::Clock + Files<File = File>>(
        &mut self,
        rt: &R,
        shared: &Shared,
        now: u64,
    ) -> Result<Phase, NotTaken> {
        let (wanted, media) = match self.opened(rt, shared) {
            Err(NotTaken::Media(MediaFault::Changed)) => {
                self.closed.forget();
                self.opened(rt, shared)?
            }
            opened => opened?,
        };
        if media.is_held() {
            shared.errands.ask(rt, Errand::Hold(media));
            return Ok(Phase::Holding(wanted));
        }
        self.assemble(rt, shared, wanted, media, now)
    }

    // Has the content served whose media are whole, once the threads run that it needs. Connections give up
    // what descriptors its files need, or get them back.
    fn assemble<R: Wait + rt::Clock>(
        &mut self,
        rt: &R,
        shared: &Shared,
        wanted: Wanted,
        media: Longer,
        now: u64,
    ) -> Result<Phase, NotTaken> {
        let Wanted {
            old,
            table,
            allowed,
            beside,
        } = wanted;
        let media = media.finish(self.alloc)?;
        let connections = match self.descriptors.connections(media.open_files()) {
            Some(connections) if connections >= shared.gate.open_now() => connections,
            _ => return Err(NotTaken::NoDescriptor),
        };
        let readers = media.readers(self.alloc, old.media.disk_count())?;
        let content = Content {
            table,
            media,
            allowed,
        };
        let ready = Ready {
            old,
            content: shared_content(self.alloc, content)?,
            connections,
            beside,
        };
        if readers.is_empty() {
            return Ok(self.switch(rt, shared, ready, now));
        }
        shared.errands.ask(rt, Errand::Start(readers));
        Ok(Phase::Starting(ready))
    }

    // Has this content served from now on.
    fn switch<R: Wait + rt::Clock>(
        &mut self,
        rt: &R,
        shared: &Shared,
        ready: Ready,
        now: u64,
    ) -> Phase {
        let Ready {
            old,
            content,
            connections,
            beside,
        } = ready;
        shared.gate.allow(connections);
        self.closed.note(&old, &content);
        give_counts(shared, &old.table, &content.table);
        shared.contents.replace(rt, content);
        self.changed = now;
        self.replaced.keep(old, now);
        self.let_go(rt, shared, now);
        if let Some(Beside { offered, keys }) = beside {
            shared.follow(rt, keys);
            let number = shared.content_counts.take(now / 1_000, offered);
            let event = Event::Taken {
                number,
                presentations: offered,
            };
            shared.log.event(rt, event);
            self.text = Vec::new(self.alloc);
        }
        Phase::Resting
    }

    // Closes the files of what is withdrawn and watched by nobody, if there are such.
    fn close_unwatched<R: Wait + rt::Clock + Files<File = File>>(
        &mut self,
        rt: &R,
        shared: &Shared,
        now: u64,
    ) {
        let Ok(old) = current(rt, shared) else {
            return;
        };
        if is_any_unwatched(shared, &old)
            && let Ok(phase) = self.close(rt, shared, old, now)
        {
            self.phase = phase;
        }
    }

    // Has the same presentations served at the same places, with the files alone that are wanted.
    fn close<R: Wait + rt::Clock + Files<File = File>>(
        &mut self,
        rt: &R,
        shared: &Shared,
        old: Arc<Content>,
        now: u64,
    ) -> Result<Phase, NotTaken> {
        // What was replaced by other files is the same as what is offered, and stays withdrawn.
        let withdrawn = withdrawn(self.alloc, &old.table)?;
        let table = old
            .table
            .longer(self.alloc, &old.table, withdrawn.as_slice(), &[])?;
        let needed = needed(self.alloc, shared, &table, None)?;
        let media = old
            .media
            .longer(rt, self.alloc, &table, needed.as_slice(), &self.closed)?;
        let allowed = match &old.allowed {
            Some(allowed) => Some(Arc::try_clone(allowed).map_err(|_| NotTaken::OutOfMemory)?),
            None => None,
        };
        let wanted = Wanted {
            old,
            table,
            allowed,
            beside: None,
        };
        self.assemble(rt, shared, wanted, media, now)
    }
}

// A content that threads share.
fn shared_content(alloc: Global, content: Content) -> Result<Arc<Content>, NotTaken> {
    Arc::new(alloc, content).map_err(|_| NotTaken::OutOfMemory)
}

fn current<R: Wait>(rt: &R, shared: &Shared) -> Result<Arc<Content>, NotTaken> {
    shared.contents.current(rt).ok_or(NotTaken::OutOfMemory)
}

//! The threads that read ahead.

ghost use Rattle.std.specs.Prelude.{◌≡◌, ◌*◌, ◌-◌, if◌then◌else◌, IfOk, vec_len};
ghost use Rattle.std.specs.Arc.{arc_value};
ghost use Rattle.rtsp_sockets.specs.Media.{are_held};
ghost use Rattle.rtsp_sockets.specs.declared.media_file.MediaFile.{MediaFile};

use crate::clock::RunningClock;
use crate::contents::Contents;
use crate::cut::Cut;
use crate::disk::{Disk, READERS};
use crate::kept::Kept;
use crate::media::{MediaOf, TrackPlace};
use crate::read_at::ReadAt;
use crate::spaces::State;
use rtsp_traits::Clock;
use std::alloc::{AllocError, Global};
use std::rt;
use std::sync::{Arc, Wait};
use std::time::Instant;

/// A thread that reads ahead: which disk it reads, and which of its readers it is.
#[derive(Drop)]
pub struct Reader {
    disk: Arc<Disk>,
    place: usize,
}

impl Reader {
    /// Reads what is wanted of its disk, until the media's `stop_readers`: of the content that is served at
    /// the time. What can't be read counts as read, so that whoever wants it finds the fault. The server
    /// began at `begun`.
    pub fn run<R: Wait + rt::Clock>(&self, rt: &R, contents: &Contents, begun: Instant) {
        let mut clock = RunningClock::new(rt, begun);
        for _ in rt.forever() {
            let Some(cut) = self.disk.next(rt) else {
                break;
            };
            let Some(content) = contents.current(rt) else {
                continue;
            };
            let media = &content.media;
            if media.begin_reading(rt, self, cut, clock.now()) {
                let state = media.read(rt, cut);
                media.end_reading(rt, self, cut, state, clock.now());
            }
        }
    }
}

impl<F: ReadAt> MediaOf<F> {
    // Whether all files are held in memory.
    fn are_held(&self) -> bool
        ensures { result ≡ are_held (λ file. (arc_value {X = MediaFile F _} file).held) self.now.files.items }
    {
        self.files.iter().all(|file| match file {
            Some(file) => file.held.is_some(),
            None => true,
        })
    }

    /// The threads that read ahead: four for each disk that files are on but for the first ones, and none
    /// where all files are held in memory.
    pub fn readers(&self, alloc: Global, first: usize) -> Result<Vec<Reader>, AllocError>
        ensures { IfOk result (λ r. vec_len r
            ≡ (if are_held (λ file. (arc_value {X = MediaFile F _} file).held) self.now.files.items then 0 else READERS * (vec_len self.now.disks - first))) }
    {
        let mut readers = Vec::new(alloc);
        if self.are_held() {
            return Ok(readers);
        }
        for index in first..self.disks.len() {
            for place in 0..READERS {
                let disk = Arc::try_clone(&self.disks[index]).map_err(|_| AllocError)?;
                readers.push(Reader { disk, place })?;
            }
        }
        Ok(readers)
    }

    /// How many disks have files that are read ahead.
    pub fn disk_count(&self) -> usize {
        self.disks.len()
    }

    // Notes that a reader reads a part, where a play waits for it. Whether it does.
    fn begin_reading<R: Wait>(&self, rt: &R, reader: &Reader, cut: Cut, now: u64) -> bool {
        if !self.shelf.is_awaited(rt, cut, now) {
            return false;
        }
        reader.disk.note(reader.place, Some(cut.file));
        true
    }

    // Reads a part, which waits for the disk. `None` where there is no memory for it.
    fn read<R: Wait>(&self, rt: &R, cut: Cut) -> Option<State<F>> {
        let file = self.file(cut.file)?;
        let blank = self.shelf.blank(rt, cut.len as usize)?;
        match Kept::read(&file.file, cut.at, blank) {
            Ok(kept) => Some(State::Kept(kept)),
            Err(_) => Some(State::Unreadable),
        }
    }

    // Puts what came of reading a part. Where nothing did, whoever wants it asks anew.
    fn end_reading<R: Wait>(
        &self,
        rt: &R,
        reader: &Reader,
        cut: Cut,
        state: Option<State<F>>,
        now: u64,
    ) {
        match state {
            Some(state) => self.shelf.put(rt, cut, state, now),
            None => self.shelf.forget(rt, cut),
        }
        reader.disk.note(reader.place, None);
    }

    /// Ends the threads that read ahead, each after the read that it is at.
    pub fn stop_readers<R: Wait>(&self, rt: &R) {
        for disk in &self.disks {
            disk.stop(rt);
        }
    }

    /// The track whose file a reader of a disk reads now, if it reads one: the first of the table that has
    /// that file.
    pub fn read_by(&self, disk: usize, reader: usize) -> Option<TrackPlace> {
        let file = self.disks.get(disk)?.read_by(reader)?;
        self.track_of(file)
    }
}

//! Files that are opened for presentations which are new, or come back.

ghost use Rattle.std.specs.Prelude.{◌≡◌, IfOk, IfNone, IfSome, OnOk};

use crate::closed::ClosedFile;
use crate::media::{Media, MediaFault, Place, len_of};
use crate::media_file::MediaFile;
use crate::read_at::ReadAt;
use rtsp_content::{Presentation, Track};
use std::alloc::{AllocError, Global};
use std::fs::File;
use std::rt::Files;

// A file that was opened, and the index that it gets.
#[derive(Drop)]
pub(crate) struct OpenedFile<F: ReadAt> {
    pub(crate) index: usize,
    path: String,
    pub(crate) file: MediaFile<F>,
}

// Files that were opened together. Tracks that name one path share a file.
#[derive(Drop)]
pub(crate) struct OpenedFiles<F: ReadAt> {
    alloc: Global,
    // The index that the next one gets which was never open before.
    next: usize,
    pub(crate) files: Vec<OpenedFile<F>>,
}

impl<F: ReadAt> OpenedFiles<F> {
    pub(crate) fn new(alloc: Global, next: usize) -> OpenedFiles<F> {
        OpenedFiles {
            alloc,
            next,
            files: Vec::new(alloc),
        }
    }

    // How many bytes they have together.
    pub(crate) fn total(&self) -> u64 {
        let mut total = 0u64;
        for opened in &self.files {
            total = total.saturating_add(opened.file.len);
        }
        total
    }

    // Holds all of them in memory.
    pub(crate) fn hold(&mut self) -> Result<(), MediaFault> {
        for opened in &mut self.files {
            opened.file.hold(self.alloc)?;
        }
        Ok(())
    }

    // The one that was opened by a path.
    fn by_path(&self, path: &str) -> Option<&OpenedFile<F>> {
        self.files
            .iter()
            .find(|opened| opened.path.as_str() == path)
    }
}

impl OpenedFile<File> {
    // Its index, for a track whose file has so many bytes, and was closed before, where it was.
    fn index_for(&self, len: u64, closed: Option<ClosedFile>) -> Result<usize, MediaFault>
        ensures index { IfOk result (λ index. index ≡ self.now.index) }
        ensures len { OnOk result (self.now.file.len ≡ len) }
        ensures state { OnOk result (IfSome closed (λ c. self.now.file.state ≡ c.state)) }
    {
        if self.file.len != len {
            return Err(MediaFault::WrongLength);
        }
        match closed {
            Some(closed) if !closed.is(&self.file) => Err(MediaFault::Changed),
            _ => Ok(self.index),
        }
    }
}

impl OpenedFiles<File> {
    // The places of the tracks of a presentation in these media, of which these files were closed, or none.
    pub(crate) fn places_of<R: Files<File = File>>(
        &mut self,
        rt: &R,
        media: &Media,
        presentation: &Presentation,
        closed: &[ClosedFile],
    ) -> Result<Vec<Place>, MediaFault> {
        let mut places = Vec::new(self.alloc);
        for (number, track) in presentation.tracks().iter().enumerate() {
            let closed = closed.get(number).copied();
            let file = self.file_of(rt, media, presentation, track, closed)?;
            let place = Place::of(file, track, presentation.unit_ms().ms());
            places.push(place).map_err(AllocError::from)?;
        }
        Ok(places)
    }

    // The index of a track's file. The file is opened here, unless it was closed and is open for others, or
    // a track before named it.
    fn file_of<R: Files<File = File>>(
        &mut self,
        rt: &R,
        media: &Media,
        presentation: &Presentation,
        track: &Track,
        closed: Option<ClosedFile>,
    ) -> Result<usize, MediaFault> {
        if let Some(closed) = closed
            && media.file(closed.index).is_some()
        {
            return Ok(closed.index);
        }
        let (path, len) = (track.file(), len_of(presentation, track));
        match self.by_path(path) {
            Some(opened) => opened.index_for(len, closed),
            None => self.open(rt, path, len, closed),
        }
    }

    // Opens a file. Its index is that which it had, where it was closed before.
    fn open<R: Files<File = File>>(
        &mut self,
        rt: &R,
        path: &str,
        len: u64,
        closed: Option<ClosedFile>,
    ) -> Result<usize, MediaFault>
        ensures kept { IfSome closed (λ c. IfOk result (λ index. index ≡ c.index)) }
        ensures fresh { IfNone closed (IfOk result (λ index. index ≡ self.old.next)) }
    {
        let opened = OpenedFile {
            index: match closed {
                Some(closed) => closed.index,
                None => self.next,
            },
            file: MediaFile::open(rt, path, len)?,
            path: String::from_str(self.alloc, path)?,
        };
        let index = opened.index_for(len, closed)?;
        self.files.push(opened).map_err(AllocError::from)?;
        if closed.is_none() {
            self.next = self.next.saturating_add(1);
        }
        Ok(index)
    }
}

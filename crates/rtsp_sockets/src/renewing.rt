//! Media that go on by another table.

use crate::closed::{ClosedFile, ClosedMedia};
use crate::media::{HELD_LIMIT, Media, MediaFault, MediaOf, Place};
use crate::media_file::FileMark;
use crate::opened_files::OpenedFiles;
use crate::read_at::ReadAt;
use rtsp_content::{Presentation, Table};
use std::alloc::{AllocError, Global};
use std::fs;
use std::fs::File;
use std::rt::Files;
use std::sync::Arc;

impl<F: ReadAt> MediaOf<F> {
    // These media without their files and tracks, but with room for as many files.
    fn emptied(&self, alloc: Global) -> Result<MediaOf<F>, MediaFault> {
        let mut files = Vec::new(alloc);
        for _ in 0..self.files.len() {
            files.push(None).map_err(AllocError::from)?;
        }
        let mut disks = Vec::new(alloc);
        for disk in &self.disks {
            disks.push(another(disk)?).map_err(AllocError::from)?;
        }
        Ok(MediaOf {
            files,
            places: Vec::new(alloc),
            disks,
            shelf: another(&self.shelf)?,
        })
    }

    // The tracks of a presentation stay in the files that they have there.
    fn keep(&mut self, alloc: Global, old: &MediaOf<F>, of: &Vec<Place>) -> Result<(), MediaFault> {
        let mut places = Vec::new(alloc);
        for place in of {
            if let (Some(kept), Some(Some(file))) = (
                self.files.get_mut(place.file),
                old.files.get(place.file),
            ) {
                *kept = Some(another(file)?);
            }
            places.push(*place).map_err(AllocError::from)?;
        }
        self.places.push(places).map_err(AllocError::from)?;
        Ok(())
    }

    // Shares what is still open of files that were closed at a place, since other tracks are in them.
    fn share(&mut self, old: &MediaOf<F>, closed: &[ClosedFile]) -> Result<(), MediaFault> {
        for file in closed {
            if let (Some(shared), Some(Some(open))) = (
                self.files.get_mut(file.index),
                old.files.get(file.index),
            ) {
                *shared = Some(another(open)?);
            }
        }
        Ok(())
    }

    // How many bytes are held in memory.
    fn held_bytes(&self) -> u64 {
        let mut total = 0u64;
        for file in self.files.iter().flatten() {
            if file.held.is_some() {
                total = total.saturating_add(file.len);
            }
        }
        total
    }

    /// How many files are open.
    pub fn open_files(&self) -> u64 {
        self.files.iter().flatten().count() as u64
    }

    /// Whether there are files for the presentation at this place.
    pub fn has(&self, presentation: usize) -> bool {
        match self.places.get(presentation) {
            Some(places) => !places.is_empty(),
            None => false,
        }
    }
}

// Another share of a value.
fn another<T>(value: &Arc<T>) -> Result<Arc<T>, MediaFault> {
    Arc::try_clone(value).map_err(|_| MediaFault::OutOfMemory)
}

impl MediaOf<File> {
    /// Whether another file is at the path of some track of the presentation at this place than the one
    /// that is open, or the file was changed.
    pub fn is_renewed<R: Files<File = File>>(
        &self,
        rt: &R,
        place: usize,
        presentation: &Presentation,
    ) -> bool {
        let Some(places) = self.places.get(place) else {
            return false;
        };
        for (track, place) in presentation.tracks().iter().zip(places) {
            if let Some(Some(file)) = self.files.get(place.file)
                && let Ok(metadata) = fs::metadata(rt, track.file())
                && FileMark::of(&metadata) != file.state.mark
            {
                return true;
            }
        }
        false
    }

    /// The media of a longer table, as far as they are wanted at its places, before anything of them is read.
    /// What is open for a place is shared with these; files of other places are opened, and are held in memory
    /// where all are and there is room. Those that were closed at a place have to be as they were: `Changed`
    /// where one isn't. On a fault nothing is open that wasn't.
    pub fn longer<R: Files<File = File>>(
        &self,
        rt: &R,
        alloc: Global,
        table: &Table,
        wanted: &[bool],
        closed: &ClosedMedia,
    ) -> Result<Longer, MediaFault> {
        let mut media = self.emptied(alloc)?;
        let mut opened = OpenedFiles::new(alloc, self.files.len());
        for (place, presentation) in table.presentations().iter().enumerate() {
            match self.places.get(place) {
                _ if !matches!(wanted.get(place), Some(true)) => {
                    media
                        .places
                        .push(Vec::new(alloc))
                        .map_err(AllocError::from)?;
                }
                Some(places) if !places.is_empty() => media.keep(alloc, self, places)?,
                _ => {
                    let closed = closed.files(table, place);
                    media.share(self, closed)?;
                    let places = opened.places_of(rt, &media, presentation, closed)?;
                    media.places.push(places).map_err(AllocError::from)?;
                }
            }
        }
        let is_small = media.held_bytes().saturating_add(opened.total()) < HELD_LIMIT;
        Ok(Longer {
            is_held: self.disks.is_empty() && is_small && !opened.files.is_empty(),
            media,
            opened,
        })
    }
}

/// Media of a longer table, whose files are open.
#[derive(Drop)]
pub struct Longer {
    media: Media,
    opened: OpenedFiles<File>,
    // Whether the new files are to be held in memory.
    is_held: bool,
}

impl Longer {
    /// Whether files are to be read into memory, for which a disk may take its time.
    pub fn is_held(&self) -> bool {
        self.is_held
    }

    /// Reads what is to be held in memory.
    pub fn hold(&mut self) -> Result<(), MediaFault> {
        if self.is_held {
            self.opened.hold()?;
        }
        Ok(())
    }

    /// The media.
    pub fn finish(self, alloc: Global) -> Result<Media, MediaFault> {
        let Longer {
            mut media,
            opened,
            ..
        } = self;
        media.take_in(alloc, opened)?;
        Ok(media)
    }
}

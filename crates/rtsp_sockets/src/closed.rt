//! What is remembered of media whose files are closed, so that what comes back as it was is known again.

ghost use Rattle.std.specs.Prelude.{◌≡◌, true};

use crate::contents::Content;
use crate::media::Media;
use crate::media_file::{FileState, MediaFile};
use crate::read_at::ReadAt;
use rtsp_content::{Presentation, Table};
use std::alloc::{AllocError, Global};
use std::fs;
use std::fs::File;
use std::rt::Files;

/// A file that is closed: the index that it keeps, and how it stood when it was opened.
#[derive(Clone, Copy)]
pub(crate) struct ClosedFile {
    pub(crate) index: usize,
    state: FileState,
}

impl ClosedFile {
    /// Whether it is this one that is open again, as it was.
    pub(crate) fn is<F: ReadAt>(&self, file: &MediaFile<F>) -> bool
        ensures { result ≡ true → file.now.state ≡ self.now.state }
    {
        file.state.is_same(&self.state)
    }

    // Whether it is at a path, as it was.
    fn is_at<R: Files<File = File>>(&self, rt: &R, path: &str) -> bool {
        match fs::metadata(rt, path) {
            Ok(metadata) => FileState::of(&metadata).is_same(&self.state),
            Err(_) => false,
        }
    }
}

/// The files that were closed, by the places of their presentations.
#[derive(Drop)]
pub struct ClosedMedia {
    alloc: Global,
    // What was closed at each place up to some.
    films: Vec<ClosedFilm>,
}

// The files of the tracks of a place while it had a number: none where it isn't known which these were.
#[derive(Drop)]
struct ClosedFilm {
    number: u64,
    files: Vec<ClosedFile>,
}

impl ClosedMedia {
    /// Nothing was closed.
    pub fn new(alloc: Global) -> ClosedMedia {
        ClosedMedia {
            alloc,
            films: Vec::new(alloc),
        }
    }

    /// It isn't known any more what was closed.
    pub fn forget(&mut self) {
        self.films = Vec::new(self.alloc);
    }

    /// Notes what is closed with the content of before. Where there is no memory for it, it isn't known.
    pub fn note(&mut self, before: &Content, now: &Content) {
        for place in 0..before.media.places.len() {
            let number = number_of(&before.table, place);
            if now.media.has(place) {
                self.set(place, number, Vec::new(self.alloc));
            } else if before.media.has(place)
                && let Ok(files) = files_of(self.alloc, &before.media, place)
            {
                self.set(place, number, files);
            }
        }
    }

    fn set(&mut self, place: usize, number: u64, files: Vec<ClosedFile>) {
        for _ in self.films.len()..place.saturating_add(1) {
            let none = ClosedFilm {
                number: 0,
                files: Vec::new(self.alloc),
            };
            if self.films.push(none).is_err() {
                return;
            }
        }
        if let Some(known) = self.films.get_mut(place) {
            *known = ClosedFilm { number, files };
        }
    }

    /// The files of the tracks of a place of a table, where they are closed and known.
    pub(crate) fn files(&self, table: &Table, place: usize) -> &[ClosedFile] {
        match self.films.get(place) {
            Some(film) if film.number == number_of(table, place) => film.files.as_slice(),
            _ => &[],
        }
    }

    /// Whether the files of this presentation, which were closed at this place of a table, are at its paths as
    /// they were. No where it can't be told.
    pub fn is_back<R: Files<File = File>>(
        &self,
        rt: &R,
        table: &Table,
        place: usize,
        presentation: &Presentation,
    ) -> bool {
        let (files, tracks) = (self.files(table, place), presentation.tracks());
        if files.len() != tracks.len() {
            return false;
        }
        for (file, track) in files.iter().zip(tracks) {
            if !file.is_at(rt, track.file()) {
                return false;
            }
        }
        true
    }
}

// The number of a place.
fn number_of(table: &Table, place: usize) -> u64 {
    match u16::try_from(place) {
        Ok(place) => table.number(place),
        Err(_) => 0,
    }
}

// The files of the tracks of a place of these media.
fn files_of(alloc: Global, media: &Media, place: usize) -> Result<Vec<ClosedFile>, AllocError> {
    let mut files = Vec::new(alloc);
    let Some(places) = media.places.get(place) else {
        return Ok(files);
    };
    for place in places {
        let index = place.file;
        if let Some(file) = media.file(index) {
            let state = file.state;
            files.push(ClosedFile { index, state })?;
        }
    }
    Ok(files)
}

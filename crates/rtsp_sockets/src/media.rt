//! The files of the tracks.

ghost use Rattle.std.specs.Prelude.{◌≡◌, ◌<◌, ◌*◌, ◌/◌, max, IfSome, IfNone, option_copied, option_map, slice_get};
ghost use Rattle.std.specs.Arc.{arc_value};
ghost use Rattle.rtsp_content.specs.PackingLimits.{unit_len};
ghost use Rattle.rtsp_sockets.specs.declared.media.Place.{Place};
ghost use Rattle.rtsp_sockets.specs.Media.{IsPlaceOf, file_at};

use crate::cut::{CUT_MS, cut_len};
use crate::disk::Disk;
use crate::media_file::MediaFile;
use crate::opened_files::{OpenedFile, OpenedFiles};
use crate::read_at::ReadAt;
use crate::shelf::Shelf;
use rtsp_content::{Presentation, Table, Track};
use std::alloc::{AllocError, Global};
use std::fs::File;
use std::rt::Files;
use std::sync::Arc;
use thiserror::Error;

/// Files that have fewer bytes than this together are held in memory: 256 MiB. Otherwise they are read
/// ahead by threads of their own, and what was read is kept for a while.
pub const HELD_LIMIT: u64 = 256 * 1024 * 1024;

// What is kept has room for so many bytes at least, 64 MiB, and for two seconds of the uplink: all plays
// together send no more than that, and of each little more than one second is kept.
const LEAST_KEPT: u64 = 64 * 1024 * 1024;

/// Media that can't be had.
#[derive(Clone, Copy, Debug, PartialEq, Eq, Error)]
pub enum MediaFault {
    /// A file hasn't the bytes of all units of its track, or has more.
    #[error("a track's file has a wrong length")]
    WrongLength,
    /// A file can't be read, or it has no such unit any more.
    #[error("a track's file can't be read")]
    Unreadable,
    /// A file that was closed has become another since it was looked at.
    #[error("a track's file has changed while it was opened")]
    Changed,
    /// There is no descriptor for a file.
    #[error("there is no descriptor for a track's file")]
    NoDescriptor,
    #[error("out of memory")]
    OutOfMemory,
}

impl From<AllocError> for MediaFault {
    fn from(_: AllocError) -> MediaFault {
        MediaFault::OutOfMemory
    }
}

// Where the units of a track are: in which file, how long each is, and how much is read at once.
#[derive(Clone, Copy)]
pub(crate) struct Place {
    pub(crate) file: usize,
    pub(crate) octets: u32,
    pub(crate) step: u64,
}

impl Place {
    // The place of a track whose units have so many milliseconds each.
    pub(crate) fn of(file: usize, track: &Track, unit_ms: u32) -> Place
        requires { 0 < unit_ms }
        ensures file { result.file ≡ file }
        ensures octets { result.octets ≡ unit_len track.now.packing track.now.octets }
        ensures step { result.step ≡ result.octets * max (CUT_MS / unit_ms) 1 }
    {
        let octets = track.unit_len();
        Place {
            file,
            octets,
            step: cut_len(octets, unit_ms),
        }
    }
}

/// A track, by the place of its presentation in the table and its own place there.
#[derive(Clone, Copy, Debug, PartialEq, Eq)]
pub struct TrackPlace {
    pub presentation: u16,
    pub track: u16,
}

/// The media of all tracks. Tracks that name one file share it.
#[derive(Drop)]
pub struct MediaOf<F: ReadAt> {
    // What is unchanged is shared with the media before these. A file keeps its index as long as the server
    // runs, also where it is closed, once no track is in it, and opened again.
    pub(crate) files: Vec<Option<Arc<MediaFile<F>>>>,
    // The places of the tracks of each presentation, in the order of the table: none of one that nobody has.
    pub(crate) places: Vec<Vec<Place>>,
    // The disks that files are on which aren't held in memory, and what was read ahead of these.
    pub(crate) disks: Vec<Arc<Disk>>,
    pub(crate) shelf: Arc<Shelf<F>>,
}

/// The media of files of the system.
pub type Media = MediaOf<File>;

// A value that threads share.
pub(crate) fn shared<T: Drop>(alloc: Global, value: T) -> Result<Arc<T>, MediaFault> {
    Arc::new(alloc, value).map_err(|_| MediaFault::OutOfMemory)
}

// For how many bytes what is kept has room, where the uplink has so many bits per second.
fn kept_limit(uplink: u64) -> u64
    ensures { result ≡ max (uplink / 4) LEAST_KEPT }
{
    (uplink / 4).max(LEAST_KEPT)
}

// How many bytes the file of a track has.
pub(crate) fn len_of(presentation: &Presentation, track: &Track) -> u64
    ensures { result ≡ presentation.now.units * unit_len track.now.packing track.now.octets }
{
    u64::from(presentation.units()) * u64::from(track.unit_len())
}

impl MediaOf<File> {
    /// Opens the files of all tracks, by the paths that the configuration has. Each has to have the
    /// bytes of all units of its track, and no more.
    pub fn open<R: Files<File = File>>(
        rt: &R,
        alloc: Global,
        table: &Table,
    ) -> Result<Media, MediaFault> {
        let mut media = MediaOf {
            files: Vec::new(alloc),
            places: Vec::new(alloc),
            disks: Vec::new(alloc),
            shelf: shared(
                alloc,
                Shelf::open(alloc, kept_limit(table.server().uplink))?,
            )?,
        };
        let mut opening = OpenedFiles::new(alloc, 0);
        for presentation in table.presentations() {
            let places = opening.places_of(rt, &media, presentation, &[])?;
            media.places.push(places).map_err(AllocError::from)?;
        }
        if opening.total() < HELD_LIMIT {
            opening.hold()?;
        }
        media.take_in(alloc, opening)?;
        Ok(media)
    }
}

// The place of a track among those of its presentation.
fn place_of(places: &[Place], track: usize) -> Option<Place>
    ensures { result ≡ slice_get places.now track }
{
    places.get(track).copied()
}

impl<F: ReadAt> MediaOf<F> {
    // Takes files in that were opened. Those that aren't held in memory are to be read ahead.
    pub(crate) fn take_in(
        &mut self,
        alloc: Global,
        opened: OpenedFiles<F>,
    ) -> Result<(), MediaFault> {
        for opened in opened.files {
            let OpenedFile { index, file, .. } = opened;
            if file.held.is_none() {
                self.add_disk(alloc, file.state.mark.device)?;
            }
            self.put(index, shared(alloc, file)?)?;
        }
        Ok(())
    }

    // Puts a file at its index.
    fn put(&mut self, index: usize, file: Arc<MediaFile<F>>) -> Result<(), MediaFault> {
        for _ in self.files.len()..index.saturating_add(1) {
            self.files.push(None).map_err(AllocError::from)?;
        }
        if let Some(slot) = self.files.get_mut(index) {
            *slot = Some(file);
        }
        Ok(())
    }

    // Files of this disk are to be read ahead.
    fn add_disk(&mut self, alloc: Global, device: u64) -> Result<(), MediaFault> {
        if !self.disks.iter().any(|disk| disk.is(device)) {
            let disk = shared(alloc, Disk::new(alloc, device)?)?;
            self.disks.push(disk).map_err(AllocError::from)?;
        }
        Ok(())
    }

    // The places of a presentation's tracks.
    fn places_of(&self, presentation: usize) -> Option<&Vec<Place>>
        ensures { option_copied result ≡ slice_get self.now.places.items presentation }
    {
        self.places.get(presentation)
    }

    pub(crate) fn place(&self, presentation: usize, track: u16) -> Option<Place>
        ensures some { IfSome result (IsPlaceOf self.now.places.items presentation track) }
        ensures none { IfNone result ((place : Place) → ¬ IsPlaceOf self.now.places.items presentation track place) }
    {
        match self.places_of(presentation) {
            Some(places) => place_of(places, usize::from(track)),
            None => None,
        }
    }

    pub(crate) fn file(&self, place: usize) -> Option<&MediaFile<F>>
        ensures { option_map (λ f. f.now) result ≡ file_at arc_value self.now.files.items place }
    {
        match self.files.get(place)? {
            Some(file) => Some(&**file),
            None => None,
        }
    }

    // The first track whose units are in a file.
    pub(crate) fn track_of(&self, file: usize) -> Option<TrackPlace> {
        for (presentation, places) in self.places.iter().enumerate() {
            if let Some(track) = places.iter().position(|place| place.file == file) {
                return Some(TrackPlace {
                    presentation: u16::try_from(presentation).ok()?,
                    track: u16::try_from(track).ok()?,
                });
            }
        }
        None
    }
}

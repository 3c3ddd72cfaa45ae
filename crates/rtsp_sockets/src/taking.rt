//! How a pacer gets the octets of a unit, which never waits for a disk.

ghost use Rattle.std.specs.Prelude.{◌≡◌, ◌≤◌, ◌+◌, length, IsOk, IsSome, IfSome, IfErr, OnOk, OnErr};
ghost use Rattle.std.specs.Arc.{arc_value};
ghost use Rattle.rtsp_sockets.specs.Files.{StandAt};
ghost use Rattle.rtsp_sockets.specs.declared.media_file.MediaFile.{MediaFile};
ghost use Rattle.rtsp_sockets.specs.Media.{IsInMemory, IsUnitHeld, StandInFile};

use crate::cut::{Cut, Cuts};
use crate::media::{MediaOf, Place};
use crate::media_file::MediaFile;
use crate::read_at::ReadAt;
use crate::spaces::Found;
use std::sync::Wait;
use thiserror::Error;

/// Why the octets of a unit can't be had now.
#[derive(Clone, Copy, Debug, PartialEq, Eq, Error)]
pub enum NotTaken {
    /// A thread reads them, or will.
    #[error("the unit isn't read yet")]
    Later,
    /// The file can't be read there, or no file has such a unit.
    #[error("the unit can't be read")]
    Unreadable,
}

impl<F: ReadAt> MediaOf<F> {
    /// Fills `out` with the octets of a unit of a track, at a moment of the server's clock in
    /// milliseconds. Presentation and track are named by their places in the configuration. Where the file
    /// isn't held in memory, the unit was read ahead, or is `Later`; what is read at once with it is asked
    /// for, and what comes behind that. What was read is kept for two seconds at least after it was asked
    /// for last, unless there is no memory.
    pub fn take<R: Wait>(
        &self,
        rt: &R,
        presentation: usize,
        track: u16,
        unit: u32,
        now: u64,
        out: &mut [u8],
    ) -> Result<(), NotTaken>
        ensures ok { OnOk result (StandInFile (λ file. F.text (F.number (arc_value {X = MediaFile F _} file).file)) self.now.files.items
            self.now.places.items presentation track unit out.new) }
        ensures err { OnErr result (out.new ≡ out.old) }
        ensures held { IsUnitHeld (λ file. (arc_value {X = MediaFile F _} file).held) self.now.files.items self.now.places.items
            presentation track unit (length out.old) → IsOk result }
        ensures waits { IsInMemory (λ file. (arc_value {X = MediaFile F _} file).held) self.now.files.items self.now.places.items
            presentation track → IfErr result (λ e. e ≡ NotTaken.Unreadable) }
    {
        let Some(place) = self.place(presentation, track) else {
            return Err(NotTaken::Unreadable);
        };
        let Some(file) = self.file(place.file) else {
            return Err(NotTaken::Unreadable);
        };
        let at = u64::from(unit) * u64::from(place.octets);
        self.take_at(rt, file, place, at, now, out)
    }

    // Fills `out` with what stands at a place of a file, where that is in memory.
    fn take_at<R: Wait>(
        &self,
        rt: &R,
        file: &MediaFile<F>,
        place: Place,
        at: u64,
        now: u64,
        out: &mut [u8],
    ) -> Result<(), NotTaken>
        ensures ok { OnOk result (StandAt (F.text (F.number file.now.file)) at out.new) }
        ensures err { OnErr result (out.new ≡ out.old) }
        ensures held { IfSome file.now.held (λ bytes. at + length out.old ≤ length bytes.items → IsOk result) }
        ensures waits { IsSome file.now.held → IfErr result (λ e. e ≡ NotTaken.Unreadable) }
    {
        let Some(bytes) = &file.held else {
            return self.take_kept(rt, file, place, at, now, out);
        };
        match file.copy(bytes, at, out) {
            Ok(()) => Ok(()),
            Err(_) => Err(NotTaken::Unreadable),
        }
    }

    // Fills `out` with what stands at a place of a file, where that was read ahead. What can't be read as
    // a whole is read unit by unit.
    fn take_kept<R: Wait>(
        &self,
        rt: &R,
        file: &MediaFile<F>,
        place: Place,
        at: u64,
        now: u64,
        out: &mut [u8],
    ) -> Result<(), NotTaken>
        ensures ok { OnOk result (StandAt (F.text (F.number file.now.file)) at out.new) }
        ensures err { OnErr result (out.new ≡ out.old) }
    {
        let cuts = Cuts::of(place, at, file.len);
        let taken = match self.shelf.copy(rt, cuts.whole, &file.file, at, out, now) {
            Found::Copied => Ok(()),
            whole => match self.shelf.copy(rt, cuts.alone, &file.file, at, out, now) {
                Found::Copied => Ok(()),
                alone => Err(self.wait_for(rt, file, cuts, whole, alone, now)),
            },
        };
        self.want(rt, file, cuts.next, now);
        taken
    }

    // Why a unit can't be had, of which this was found; it is asked for. Whether it can be read by itself
    // is looked at first, so that whoever waits for it learns of its fault.
    fn wait_for<R: Wait>(
        &self,
        rt: &R,
        file: &MediaFile<F>,
        cuts: Cuts,
        whole: Found,
        alone: Found,
        now: u64,
    ) -> NotTaken
        ensures { alone ≡ Found.Unreadable → result ≡ NotTaken.Unreadable }
    {
        let cut = match (alone, whole) {
            (Found::Unreadable, _) => return NotTaken::Unreadable,
            (Found::Unknown, Found::Unknown) => cuts.whole,
            (Found::Unknown, Found::Unreadable) => cuts.alone,
            _ => return NotTaken::Later,
        };
        // Behind the end of the file there is none.
        if cut.len == 0 {
            return NotTaken::Unreadable;
        }
        self.want(rt, file, cut, now);
        NotTaken::Later
    }

    // Has a part of a file read, unless that is done or is to be done. Where too many wait to be read, who
    // wants it asks anew.
    fn want<R: Wait>(&self, rt: &R, file: &MediaFile<F>, cut: Cut, now: u64) {
        if cut.len == 0 || !self.shelf.ask(rt, cut, now) {
            return;
        }
        let disk = self
            .disks
            .iter()
            .find(|disk| disk.is(file.state.mark.device));
        if !disk.is_some_and(|disk| disk.ask(rt, cut)) {
            self.shelf.forget(rt, cut);
        }
    }
}

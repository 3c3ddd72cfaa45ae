//! Reading tracks and presentations from a configuration.

ghost use Rattle.std.specs.Prelude.{◌≡◌, ◌≤◌, ℕ, List, [], Option, false, length, map, IfOk, IfSome};
ghost use Rattle.toml.specs.Data.{Members, get_member};
ghost use Rattle.toml.specs.View.{view, table_view, array_view};
ghost use Rattle.rtsp_content.specs.Distinct.{AreDistinct};
ghost use Rattle.rtsp_text.specs.Results.{Gives, GivesBy};
ghost use Rattle.rtsp_text.specs.Slices.{held};
ghost use Rattle.rtsp_content.specs.declared.fault.TableFault.TheVariants.{OutOfMemory};
ghost use Rattle.rtsp_content.specs.Fault.{Read};
ghost use Rattle.rtsp_content.specs.Keys.{item_count, optional_number_at};
ghost use Rattle.rtsp_content.specs.Tables.{each_from, in_table, has_name};
ghost use Rattle.rtsp_content.specs.Track as track;
ghost use Rattle.rtsp_content.specs.Track.{as_media, media_in, track_of};
ghost use Rattle.rtsp_content.specs.Presentation as presentation;
ghost use Rattle.rtsp_content.specs.Presentation.{presentation_of, presentations_from};
ghost use Rattle.rtsp_content.specs.PresentationValue.{presentation_names};

use crate::fault::{TableFault, must};
use crate::keys::{
    Form, list_at, number_at, optional_number_at, optional_text_at, text_at, value_at,
};
use crate::limits::{
    MAX_CHANNELS, MAX_CLOCK, MAX_PAYLOAD_TYPE, MAX_TICKS, MAX_TRACKS, MAX_UNIT_MS, MAX_UNITS,
};
use crate::media_path::media_path;
use crate::packing::packing_at;
use crate::presentation::Presentation;
use crate::sdp::sdp_of;
use crate::starts::starts_at;
use crate::track::{Media, Track};
use rtsp_npt::UnitLength;
use std::alloc::Global;
use toml::value::Array;
use toml::{Table, Value};

// What a table of an array states, beside what those before it do. No two have the same name.
trait Stated: Drop {
    /// Its name.
    ghost name_of: { Self → List ℕ };

    /// What a table says, with its files in the folder of the media.
    ghost said: { Option (List ℕ) → List Self → Members → Read Self };

    /// Reads a table.
    fn read(
        alloc: Global,
        table: &Table,
        folder: Option<&str>,
        before: &[Self],
    ) -> Result<Self, TableFault>
        ensures value { Gives OutOfMemory result
            (said (held folder.entry) before.now (table_view table.now)) }
        ensures fresh { IfOk result (λ t. has_name name_of (name_of t) before.now ≡ false) };
}

fn read_in<T: Stated>(
    alloc: Global,
    value: &Value,
    folder: Option<&str>,
    before: &[T],
) -> Result<T, TableFault>
    ensures value { Gives OutOfMemory result
        (in_table (T.said (held folder.entry)) before.now (view value.now)) }
    ensures fresh { IfOk result (λ t. has_name T.name_of (T.name_of t) before.now ≡ false) }
{
    match value.as_table() {
        Some(table) => T::read(alloc, table, folder, before),
        None => Err(TableFault::BadValue),
    }
}

// Reads the tables of an array, whose files are in the folder of the media.
fn read_each<T: Stated>(
    alloc: Global,
    values: &Array,
    folder: Option<&str>,
) -> Result<Vec<T>, TableFault>
    ensures value { GivesBy OutOfMemory (λ v. v.items) result
        (each_from (in_table (T.said (held folder.entry))) [] (array_view values.now)) }
    ensures distinct { IfOk result (λ v. AreDistinct (map T.name_of v.items)) }
    ensures count { IfOk result (λ v. length v.items ≡ item_count (array_view values.now)) }
{
    let mut entries = Vec::new(alloc);
    for value in values {
        let entry = read_in(alloc, value, folder, entries.as_slice())?;
        entries.push(entry)?;
    }
    Ok(entries)
}

fn media(value: &Value) -> Result<Media, TableFault>
    ensures { result ≡ as_media (view value.now) }
{
    let Some(word) = value.as_str() else {
        return Err(TableFault::BadValue);
    };
    if word == "audio" {
        Ok(Media::Audio)
    } else if word == "video" {
        Ok(Media::Video)
    } else {
        Err(TableFault::BadValue)
    }
}

fn media_at(table: &Table, key: &str) -> Result<Media, TableFault>
    ensures { result ≡ media_in (get_member key.now (table_view table.now)) }
{
    match value_at(table, key) {
        Some(value) => media(value),
        None => Err(TableFault::Missing),
    }
}

fn has_track(name: &str, tracks: &[Track]) -> bool
    ensures { result ≡ track.has_track name.now tracks.now }
{
    tracks.iter().any(|track| track.name() == name)
}

// The number of channels that a table of a track says, if it does.
fn channels_at(table: &Table, key: &str) -> Result<Option<u8>, TableFault>
    ensures value { result ≡ optional_number_at key.now 1 MAX_CHANNELS (table_view table.now) }
    ensures range { IfOk result (λ o. IfSome o (λ n. (1 ≤ n) × (n ≤ MAX_CHANNELS))) }
{
    match optional_number_at(table, key, 1, MAX_CHANNELS)? {
        Some(channels) => Ok(Some(channels as u8)),
        None => Ok(None),
    }
}

impl Stated for Track {
    ghost name_of = { λ x. x.name };

    ghost said = { track_of };

    fn read(
        alloc: Global,
        table: &Table,
        folder: Option<&str>,
        before: &[Track],
    ) -> Result<Track, TableFault> {
        let name = text_at(alloc, table, "name", Form::Name)?;
        must(!has_track(name.as_str(), before), TableFault::Duplicate)?;
        let media = media_at(table, "media")?;
        let payload_type = number_at(table, "pt", 0, MAX_PAYLOAD_TYPE)?;
        let encoding = text_at(alloc, table, "encoding", Form::Encoding)?;
        let clock = number_at(table, "clock", 1, MAX_CLOCK)?;
        let packing = packing_at(table)?;
        let octets = number_at(table, "octets", 1, packing.most_octets())?;
        must(packing.is_shared(octets), TableFault::BadValue)?;
        let ticks = number_at(table, "ticks", 1, MAX_TICKS)?;
        let file = text_at(alloc, table, "file", Form::Path)?;
        let format_parameters = optional_text_at(alloc, table, "fmtp", Form::FormatParameters)?;
        let channels = channels_at(table, "channels")?;
        let file = media_path(alloc, folder, file)?;
        Ok(Track {
            name,
            media,
            payload_type: payload_type as u8,
            encoding,
            clock: clock as u32,
            packing,
            octets: octets as u32,
            ticks: ticks as u32,
            file,
            format_parameters,
            channels,
        })
    }
}

fn has_presentation(name: &str, presentations: &[Presentation]) -> bool
    ensures { result ≡ presentation.has_presentation name.now presentations.now }
{
    presentations
        .iter()
        .any(|presentation| presentation.name() == name)
}

impl Stated for Presentation {
    ghost name_of = { λ x. x.name };

    ghost said = { presentation_of };

    fn read(
        alloc: Global,
        table: &Table,
        folder: Option<&str>,
        before: &[Presentation],
    ) -> Result<Presentation, TableFault> {
        let name = text_at(alloc, table, "name", Form::Name)?;
        must(
            !has_presentation(name.as_str(), before),
            TableFault::Duplicate,
        )?;
        let units = number_at(table, "units", 1, MAX_UNITS)? as u32;
        let unit_ms = UnitLength::new(number_at(table, "unit_ms", 1, MAX_UNIT_MS)? as u32);
        let starts = starts_at(alloc, table, units)?;
        let tracks: Vec<Track> = read_each(alloc, list_at(table, "track", MAX_TRACKS)?, folder)?;
        let length_ms = u64::from(units) * u64::from(unit_ms.ms());
        let sdp = sdp_of(alloc, name.as_str(), length_ms, &tracks)?;
        Ok(Presentation {
            name,
            units,
            unit_ms,
            gap: starts.longest_gap(units),
            starts,
            tracks,
            sdp,
        })
    }
}

/// Reads the tables `[[presentation]]`, whose files are in the folder of the media.
pub(crate) fn read_presentations(
    alloc: Global,
    values: &Array,
    folder: Option<&str>,
) -> Result<Vec<Presentation>, TableFault>
    ensures value { GivesBy OutOfMemory (λ v. v.items) result
        (presentations_from (held folder.entry) [] (array_view values.now)) }
    ensures distinct { IfOk result (λ v. AreDistinct (presentation_names v.items)) }
    ensures count { IfOk result (λ v. length v.items ≡ item_count (array_view values.now)) }
{
    read_each(alloc, values, folder)
}

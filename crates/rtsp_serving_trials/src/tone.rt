//! A presentation of two tracks, both of one file with eight units of two bytes.

use rtsp_content::Table;
use rtsp_sockets::{Media, MediaFault, NotTaken};
use std::alloc::Global;
use std::fs::{self, File};
use std::rt::Files;
use std::sync::Wait;

/// The units' bytes.
pub const UNITS: &[u8; 16] = b"aabbccddeeffgghh";

/// The configuration, in which the file has this name. Units are long, so that a busy host has time
/// to leave a play between two.
pub fn tone(alloc: Global, file: &str) -> Option<Table> {
    let text = format!(in alloc;
        "[server]\nfirst_port = 5000\npairs = 1\nuplink = 160000\nsessions = 4\n\
        [[presentation]]\nname = \"tone\"\nunits = 8\nunit_ms = 200\n\
        [[presentation.track]]\nname = \"a\"\nmedia = \"audio\"\npt = 0\nencoding = \"PCMU\"\n\
        clock = 8000\noctets = 2\nticks = 1600\nfile = \"{file}\"\n\
        [[presentation.track]]\nname = \"b\"\nmedia = \"audio\"\npt = 8\nencoding = \"PCMA\"\n\
        clock = 8000\noctets = 2\nticks = 1600\nfile = \"{file}\"\n"
    );
    Table::read(alloc, text.ok()?.as_bytes()).ok()
}

// How opening the files ends where this is the file's text.
fn opened<R: Files<File = File> + AllocGlobal>(
    rt: &R,
    table: &Table,
    path: &str,
    text: &[u8],
) -> Option<Result<Media, MediaFault>> {
    fs::write(rt, path, text).ok()?;
    Some(Media::open(rt, rt.alloc(), table))
}

/// The media, whose file is there while it is opened.
pub fn media_of<R: Files<File = File> + AllocGlobal>(
    rt: &R,
    table: &Table,
    path: &str,
) -> Option<Media> {
    let media = opened(rt, table, path, UNITS)?.ok();
    fs::remove_file(rt, path).ok()?;
    media
}

// Whether a file that is missing is told, and one that is too short.
fn tells_of_faults<R: Files<File = File> + AllocGlobal>(
    rt: &R,
    table: &Table,
    path: &str,
) -> Option<bool> {
    let _left = fs::remove_file(rt, path);
    let missing = Media::open(rt, rt.alloc(), table).err();
    let short = opened(rt, table, path, b"aabbccddeeffggh")?.err();
    Some([missing, short] == [Some(MediaFault::Unreadable), Some(MediaFault::WrongLength)])
}

fn unit_of<R: Wait>(rt: &R, media: &Media, track: u16, number: u32) -> Result<[u8; 2], NotTaken> {
    let mut unit = [0; 2];
    media.take(rt, 0, track, number, 0, &mut unit)?;
    Ok(unit)
}

// Whether units of both tracks are found, and none behind the last one and of no track.
fn has_its_units<R: Wait>(rt: &R, media: &Media) -> bool {
    unit_of(rt, media, 1, 7) == Ok(*b"hh")
        && unit_of(rt, media, 0, 0) == Ok(*b"aa")
        && unit_of(rt, media, 0, 8) == Err(NotTaken::Unreadable)
        && unit_of(rt, media, 2, 0) == Err(NotTaken::Unreadable)
}

fn media_is_read<R: Files<File = File> + AllocGlobal + Wait>(rt: &R, path: &str) -> Option<bool> {
    let table = tone(rt.alloc(), path)?;
    Some(tells_of_faults(rt, &table, path)? && has_its_units(rt, &media_of(rt, &table, path)?))
}

#[test]
fn media_of_files(rt: HostRuntime) {
    assert!(rt; media_is_read(&rt, "rtsp_serving_media.raw") == Some(true));
}

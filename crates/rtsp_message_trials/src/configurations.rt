//! What a configuration says, how its media is described, and where that lies.

use crate::rows::{Lines, cut, hold_lines};
use rtsp_content::*;
use std::alloc::Global;

const TONE_SDP: &str = "\
v=0\r
o=- 1 1 IN IP4 127.0.0.1\r
s=tone\r
c=IN IP4 0.0.0.0\r
t=0 0\r
a=control:*\r
a=range:npt=0.000-10.000\r
m=audio 0 RTP/AVP 0\r
a=rtpmap:0 PCMU/8000\r
a=control:a\r
m=audio 0 RTP/AVP 8\r
a=rtpmap:8 PCMA/8000\r
a=control:b\r
";

const SERVER: Server = Server {
    first_port: 5000,
    pairs: 2,
    uplink: 160_000,
    sessions: 4,
    timeout: 60,
    renewal_step: 1,
    journal: 1_000_000,
    workers: 4,
    sessions_per_address: None,
    connections_per_address: None,
    players: Players::Strict,
};

fn shows_the_presentation(presentation: &Presentation) -> bool {
    let numbers = [
        u64::from(presentation.units()),
        u64::from(presentation.unit_ms().ms()),
        presentation.length_ms(),
        presentation.tracks().len() as u64,
    ];
    numbers == [500, 20, 10_000, 2]
        && presentation.name() == "tone"
        && presentation.track(2).is_none()
        && presentation.sdp() == TONE_SDP.as_bytes()
}

fn has_the_rate(presentation: &Presentation) -> bool {
    match presentation.track(1) {
        Some(track) => presentation.rate(track) == 80_000,
        None => false,
    }
}

// Whether the presentation is the only one, and shows what the example says of it.
fn shows_the_media(table: &Table) -> bool {
    match table.presentations() {
        [presentation] => {
            shows_the_presentation(presentation)
                && has_the_rate(presentation)
                && table.presentation(1).is_none()
        }
        _ => false,
    }
}

fn is_the_example(alloc: Global) -> bool {
    match Table::read(alloc, EXAMPLE.as_bytes()) {
        Ok(table) => table.server() == SERVER && shows_the_media(&table),
        Err(_) => false,
    }
}

// What is found at a path.
fn found(table: &Table, path: &str) -> &'static str {
    match table.find(path.as_bytes()) {
        Found::Presentation(0) => "the presentation",
        Found::Track(0, 0) => "its first track",
        Found::Track(0, 1) => "its second track",
        Found::Nothing => "nothing",
        _ => "something else",
    }
}

const PATHS: &str = "\
/tone    | the presentation
/tone/   | the presentation
/tone/a  | its first track
/tone/b  | its second track
/none    | nothing
/tone/c  | nothing
/tone/a/ | nothing
//tone   | nothing
/tone//  | nothing
/%74one  | nothing
tone     | nothing
/        | nothing
         | nothing
";

struct PathLines;

impl Lines for PathLines {
    fn holds(alloc: Global, line: &str) -> bool {
        let (path, expected) = cut(line);
        match Table::read(alloc, EXAMPLE.as_bytes()) {
            Ok(table) => found(&table, path) == expected,
            Err(_) => false,
        }
    }
}

#[test]
fn reads_the_example(rt: HostRuntime) {
    assert!(rt; is_the_example(rt.alloc()));
    hold_lines::<PathLines>(&rt, rt.alloc(), PATHS);
}

// A configuration of stereo sound, whose addresses have shares, whose players are GStreamer and whose
// media has a folder.
const STEREO: &str = "\
[server]
first_port = 5000
pairs = 2
uplink = 2000000
sessions = 4
sessions_per_address = 2
connections_per_address = 8
players = \"gstreamer\"
media = \"films\"
[[presentation]]
name = \"disc\"
units = 1000
unit_ms = 5
[[presentation.track]]
name = \"s\"
media = \"audio\"
pt = 96
encoding = \"L16\"
clock = 48000
octets = 960
ticks = 240
file = \"disc.raw\"
fmtp = \"emphasis=50-15\"
channels = 2
";

const STEREO_SDP: &str = "\
v=0\r
o=- 1 1 IN IP4 127.0.0.1\r
s=disc\r
c=IN IP4 0.0.0.0\r
t=0 0\r
a=control:*\r
a=range:npt=0.000-5.000\r
m=audio 0 RTP/AVP 96\r
a=rtpmap:96 L16/48000/2\r
a=fmtp:96 emphasis=50-15\r
a=control:s\r
";

// Whether the optional keys of a track say what they do above, and its presentation is described so.
fn shows_the_track(presentation: &Presentation) -> bool {
    match presentation.tracks() {
        [track] => {
            track.channels() == Some(2)
                && track.format_parameters() == Some("emphasis=50-15")
                && presentation.sdp() == STEREO_SDP.as_bytes()
        }
        _ => false,
    }
}

// Whether the optional keys of the server say what they do above, and those of its track.
fn shows_the_optional_keys(table: &Table) -> bool {
    let server = table.server();
    let shares = [server.sessions_per_address, server.connections_per_address];
    let is_shown = match table.presentations() {
        [presentation] => shows_the_track(presentation),
        _ => false,
    };
    is_shown && shares == [Some(2), Some(8)] && server.players == Players::Gstreamer
}

fn reads_stereo(alloc: Global) -> bool {
    match Table::read(alloc, STEREO.as_bytes()) {
        Ok(table) => shows_the_optional_keys(&table),
        Err(_) => false,
    }
}

#[test]
fn reads_the_optional_keys(rt: HostRuntime) {
    assert!(rt; reads_stereo(rt.alloc()));
}

// Where the configuration is, its folder of the media, the file of its track, and where that is.
const PLACES: &str = "\
                | films      | disc.raw      | films/disc.raw
rtspd.toml      | films      | disc.raw      | films/disc.raw
etc/rtspd.toml  | films      | disc.raw      | etc/films/disc.raw
/etc/rtspd.toml | films/     | disc.raw      | /etc/films/disc.raw
/rtspd.toml     | films      | disc.raw      | /films/disc.raw
./rtspd.toml    | .          | a/disc.raw    | ././a/disc.raw
etc/rtspd.toml  | /srv/films | disc.raw      | /srv/films/disc.raw
etc/rtspd.toml  | films      | /srv/disc.raw | /srv/disc.raw
";

// The configuration of stereo sound at this place, with another folder and another file.
fn placed(alloc: Global, place: &str, folder: &str, file: &str) -> Option<Table> {
    let text = STEREO.replacen(alloc, "films", folder, 1).ok()?;
    let text = text.as_str().replacen(alloc, "disc.raw", file, 1).ok()?;
    Table::read_at(alloc, text.as_bytes(), place).ok()
}

fn has_its_file_at(table: Option<Table>, path: &str) -> bool {
    match table {
        Some(table) => match table.presentations()[0].track(0) {
            Some(track) => track.file() == path,
            None => false,
        },
        None => false,
    }
}

struct PlaceLines;

impl Lines for PlaceLines {
    fn holds(alloc: Global, line: &str) -> bool {
        let (place, values) = cut(line);
        let (folder, values) = cut(values);
        let (file, path) = cut(values);
        has_its_file_at(placed(alloc, place, folder, file), path)
    }
}

// Without a folder the file is taken as it is written.
fn takes_the_file_as_written(alloc: Global) -> bool {
    let table = Table::read_at(alloc, EXAMPLE.as_bytes(), "/etc/rtspd.toml");
    has_its_file_at(table.ok(), "tone-a.raw")
}

#[test]
fn finds_the_media(rt: HostRuntime) {
    hold_lines::<PlaceLines>(&rt, rt.alloc(), PLACES);
    assert!(rt; takes_the_file_as_written(rt.alloc()));
}

//! The threads that read media ahead: their start, and what becomes of them at the end.

use crate::end_lines::EndTeller;
use crate::shared::{Shared, since};
use rtsp_log::Event;
use rtsp_sockets::{Contents, READERS, Reader, TrackPlace};
use std::alloc::Global;
use std::sync::{Arc, Wait};
use std::thread::Threads;
use std::time::Duration;
use std::{rt, thread};

// How long a server that stops waits for the reads that are under way, in milliseconds. With that a stop
// is over within 3 s.
const LEFT_AFTER: u64 = 250;

// Starts a thread that reads ahead. Whether it could be made. Nobody joins it, since a disk may hold it
// up for longer than the server lives, so it has its own share of what it needs.
fn start_reader<R: Threads + Wait + rt::Clock + Copy + Send + 'static>(
    rt: &R,
    shared: &Arc<Shared>,
    reader: Reader,
) -> bool {
    let Ok(shared) = Arc::try_clone(shared) else {
        return false;
    };
    let own = *rt;
    thread::spawn(rt, move || {
        reader.run(&own, &shared.contents, shared.begun)
    })
    .is_ok()
}

/// Starts the threads that read ahead. Whether all could be made.
pub(crate) fn start_readers<R: Threads + Wait + rt::Clock + Copy + Send + 'static>(
    rt: &R,
    shared: &Arc<Shared>,
    readers: Vec<Reader>,
) -> bool {
    for reader in readers {
        if !start_reader(rt, shared, reader) {
            return false;
        }
    }
    true
}

/// Ends the threads that read ahead.
pub(crate) fn stop_readers<R: Wait>(rt: &R, contents: &Contents) {
    if let Some(content) = contents.current(rt) {
        content.media.stop_readers(rt);
    }
}

// The tracks whose files are being read.
fn read_now<R: Wait>(rt: &R, alloc: Global, contents: &Contents) -> Vec<TrackPlace> {
    let mut tracks = Vec::new(alloc);
    let Some(content) = contents.current(rt) else {
        return tracks;
    };
    for disk in 0..content.media.disk_count() {
        for reader in 0..READERS {
            if let Some(place) = content.media.read_by(disk, reader) {
                let _ = tracks.push(place);
            }
        }
    }
    tracks
}

/// Waits a moment for the reads that are under way, and tells which are left behind.
pub(crate) fn leave_readers<R: Wait + rt::Clock>(rt: &R, alloc: Global, teller: EndTeller<'_>) {
    let EndTeller {
        contents,
        lanes,
        log,
        begun,
        ..
    } = teller;
    for _ in 0..LEFT_AFTER {
        if read_now(rt, alloc, contents).is_empty() {
            return;
        }
        if lanes.leaves_disks(since(rt, begun)) {
            break;
        }
        thread::sleep(rt, Duration::from_millis(1));
    }
    for place in read_now(rt, alloc, contents) {
        let event = Event::StopLeavesMedia {
            presentation: place.presentation,
            track: place.track,
        };
        log.event(rt, event);
    }
}

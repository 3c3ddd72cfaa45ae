//! Files of a history in a real folder.

use crate::history::{History, entries};
use crate::steps::{Scene, Step, play};
use rtsp_chronicle::{FileSink, InFolder, Pause, Plan, Progress, Turned};
use rtsp_lock::Then;
use std::fs::{self, File};
use std::net::{Net, TcpListener, TcpStream};
use std::os::unix::fs::PermissionsExt;
use std::process::Abort;
use std::rt::{Clock, Files};
use std::sync::Wait;

// Some turns, and then the end.
#[derive(Drop)]
struct Turns {
    left: u32,
    told: u32,
}

impl Pause for Turns {
    fn wait<R: Wait>(&mut self, _rt: &R) -> bool {
        let is_over = self.left == 0;
        self.left = self.left.saturating_sub(1);
        is_over
    }

    fn tell(&mut self, turned: Turned) {
        if turned == Turned::Written {
            self.told = self.told.saturating_add(1);
        }
    }
}

// The number of a new file in the folder.
fn next_number<R: Files<File = File> + AllocGlobal>(rt: &R, folder: &str) -> Option<u64> {
    let progress = Progress::new(true);
    let sink = FileSink::open(rt, rt.alloc(), folder, &progress).ok()?;
    Some(sink.number())
}

// Whether the file is as `make` has made it.
fn is_as_made<R: Files<File = File> + AllocGlobal>(rt: &R, path: &str) -> Option<bool> {
    let bytes = fs::read(rt, path).ok()?;
    Some(bytes.as_slice() == MADE.as_bytes())
}

// How many entries a file has.
fn count<R: Files<File = File> + AllocGlobal>(rt: &R, path: &str) -> Option<u64> {
    let all = entries(rt.alloc(), &fs::read(rt, path).ok()?)?;
    Some(all.len() as u64)
}

// Whether whoever runs the server alone can read the file.
fn is_private<R: Files<File = File> + AllocGlobal>(rt: &R, path: &str) -> Option<bool> {
    let permissions = fs::metadata(rt, path).ok()?.permissions();
    Some(permissions.mode() & 0o777 == 0o600)
}

const MADE: &str = "another's";

// Folders and files, of which a step names the path.
#[derive(Drop)]
struct Disk;

impl Scene for Disk {
    fn does<
        R: Wait
            + Clock
            + Files<File = File>
            + Net<Listener = TcpListener, Stream = TcpStream>
            + AllocGlobal,
    >(&mut self, rt: &R, step: Step<'_>) -> bool {
        let path = step.rest;
        match step.word {
            "begin" => {
                // What a run that failed left.
                let _left = fs::remove_dir_all(rt, path);
                fs::create_dir(rt, path).is_ok()
            }
            "end" => fs::remove_dir_all(rt, path).is_ok(),
            "make" => fs::write(rt, path, MADE).is_ok(),
            "remove" => fs::remove_file(rt, path).is_ok(),
            "is-there" => fs::metadata(rt, path).is_ok(),
            "is-as-made" => is_as_made(rt, path) == Some(true),
            "is-private" => is_private(rt, path) == Some(true),
            "next" => next_number(rt, path).is_some_and(|number| step.wants(number)),
            "entries" => count(rt, path).is_some_and(|count| step.wants(count)),
            _ => false,
        }
    }
}

// Runs a scribe for three turns, each of which fills a file. The number of the file after them.
fn run_three<R: Files<File = File> + Wait>(
    rt: &R,
    history: &mut History,
    sink: &mut FileSink<'_, InFolder<'_, R>>,
) -> Option<u64> {
    let plan = Plan {
        after: Then::Forget,
        long: 1,
        sync: true,
    };
    let mut pause = Turns { left: 2, told: 0 };
    let last = history.run_scribe(rt, sink, &mut pause, plan);
    (last == Turned::Written && pause.told == 3).then_some(sink.number())
}

// Writes three files, of which the last one goes on.
fn write_files<
    R: Wait
        + Clock
        + Files<File = File>
        + Net<Listener = TcpListener, Stream = TcpStream>
        + AllocGlobal
        + Abort,
>(rt: &R) -> Option<Turned> {
    let mut history = History::open(rt, rt.alloc(), 1_000)?;
    let progress = Progress::new(true);
    let mut sink = FileSink::open(rt, rt.alloc(), "journals", &progress).ok()?;
    play(rt, &mut history, "one opens 10, one opens 11");
    assert!(rt; run_three(rt, &mut history, &mut sink) == Some(4));
    play(rt, &mut history, "one ends 10");
    Some(history.write_to(rt, &mut sink))
}

#[test]
fn files_follow_each_other(rt: HostRuntime) {
    play(
        &rt,
        &mut Disk,
        "begin journals, make journals/journal-000002.txt",
    );
    assert!(rt; write_files(&rt) == Some(Turned::Written));
    play(
        &rt,
        &mut Disk,
        "entries journals/journal-000003.txt = 2, entries journals/journal-000004.txt = 3, \
        is-as-made journals/journal-000002.txt, is-private journals/journal-000004.txt, \
        end journals",
    );
}

// Some names are of nothing that a run writes.
#[test]
fn numbers_go_on_above_all(rt: HostRuntime) {
    play(
        &rt,
        &mut Disk,
        "begin numbers, next numbers = 1, \
        make numbers/journal-1.txt, make numbers/journal-0000005.txt, \
        make numbers/journal-000007.txt.gz, make numbers/journal-+00009.txt, \
        make numbers/journal-99999999999999999999.txt, make numbers/notes, next numbers = 2, \
        remove numbers/journal-000001.txt, next numbers = 3, \
        make numbers/journal-999999.txt, next numbers = 1000000, next numbers = 1000001, \
        is-there numbers/journal-1000001.txt, end numbers",
    );
}

#[test]
fn no_folder_is_told(rt: HostRuntime) {
    assert!(rt; next_number(&rt, "nowhere").is_none());
}

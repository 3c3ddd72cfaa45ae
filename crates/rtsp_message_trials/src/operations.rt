//! What `serve` keeps and shows: what a configuration says of it.

use crate::rows::{Row, hold_rows};
use rtsp_content::{JournalFiles, Operation, TableFault, WhenFull};
use std::alloc::Global;

fn read(alloc: Global, text: &str) -> Result<Operation, TableFault> {
    Operation::read_at(alloc, text.as_bytes(), "/etc/rtspd/films.toml")
}

// The folder of a journal's files, its period, whether they are synced, and what is done where
// they are full.
type Files = (&'static str, u32, bool, WhenFull);

// Where the figures are shown, whether players' addresses are shown there to all, and for how many seconds
// plays go on where the server is drained.
type Status = (Option<&'static str>, bool, u64, bool);

// A configuration, what it says of the journal's files, whether there is a log, what it says of the
// status listener, and which connections begin with a header.
type Said = (&'static str, Option<Files>, bool, Status, &'static [u32]);

// What isn't said.
const NO_STATUS: Status = (None, false, 300, true);

const SAID: [Said; 4] = [
    ("[server]\n", None, false, NO_STATUS, &[]),
    (
        "[server]\nproxy = [\"10.77.0.1\", \"127.0.0.1\"]\n",
        None,
        false,
        NO_STATUS,
        &[0x0a4d_0001, 0x7f00_0001],
    ),
    (
        "[server]\njournal_files = \"/var/lib/rtspd\"\n",
        Some(("/var/lib/rtspd", 1000, false, WhenFull::Keep)),
        false,
        NO_STATUS,
        &[],
    ),
    (
        "[server]\njournal_files = \"history\"\njournal_period = 250\njournal_sync = true\n\
        journal_when_full = \"lose\"\naccess_log = true\nstatus = \"127.0.0.1:9554\"\n\
        status_open = true\ndrain = 7\nwatch = false\n",
        Some(("/etc/rtspd/history", 250, true, WhenFull::Lose)),
        true,
        (Some("127.0.0.1:9554"), true, 7, false),
        &[],
    ),
];

fn are_said(files: Option<&JournalFiles>, said: Option<Files>) -> bool {
    match (files, said) {
        (Some(files), Some((folder, period, sync, when_full))) => {
            files.folder() == folder
                && files.period() == period
                && files.sync() == sync
                && files.when_full() == when_full
        }
        (None, None) => true,
        _ => false,
    }
}

fn shown_by(operation: &Operation) -> (Option<&str>, bool, u64, bool) {
    (
        operation.status(),
        operation.status_open(),
        operation.drain(),
        operation.watch(),
    )
}

impl Row for Said {
    fn holds(&self, alloc: Global) -> bool {
        let (text, files, log, status, proxy) = *self;
        match read(alloc, text) {
            Ok(operation) => {
                are_said(operation.journal(), files)
                    && operation.access_log() == log
                    && shown_by(&operation) == status
                    && operation.proxy() == proxy
            }
            Err(_) => false,
        }
    }
}

#[test]
fn says_what_is_kept_and_shown(rt: HostRuntime) {
    hold_rows(&rt, rt.alloc(), &SAID);
}

// Seventeen.
const MANY_BALANCERS: &str =
    "[server]\nproxy = [\"1.1.1.1\", \"1.1.1.1\", \"1.1.1.1\", \"1.1.1.1\", \
    \"1.1.1.1\", \"1.1.1.1\", \"1.1.1.1\", \"1.1.1.1\", \"1.1.1.1\", \"1.1.1.1\", \"1.1.1.1\", \"1.1.1.1\", \
    \"1.1.1.1\", \"1.1.1.1\", \"1.1.1.1\", \"1.1.1.1\", \"1.1.1.1\"]\n";

// No configuration, and why not.
type Refused = (&'static str, TableFault);

const REFUSED: [Refused; 9] = [
    ("status = 1\n", TableFault::Missing),
    ("[server]\nproxy = []\n", TableFault::BadValue),
    ("[server]\nproxy = \"10.77.0.1\"\n", TableFault::BadValue),
    ("[server]\nproxy = [\"::1\"]\n", TableFault::BadValue),
    (MANY_BALANCERS, TableFault::BadValue),
    ("[server]\nusers = \"\"\n", TableFault::BadValue),
    ("[server]\nusers = 1\n", TableFault::BadValue),
    ("server = 1\n", TableFault::BadValue),
    ("[server\n", TableFault::NotToml),
];

impl Row for Refused {
    fn holds(&self, alloc: Global) -> bool {
        read(alloc, self.0).err() == Some(self.1)
    }
}

// Where the file of users is.
const USERS: [(&str, Option<&str>); 3] = [
    ("[server]\n", None),
    ("[server]\nusers = \"users\"\n", Some("/etc/rtspd/users")),
    ("[server]\nusers = \"/srv/users\"\n", Some("/srv/users")),
];

impl Row for (&'static str, Option<&'static str>) {
    fn holds(&self, alloc: Global) -> bool {
        let (text, path) = *self;
        match read(alloc, text) {
            Ok(operation) => operation.users() == path,
            Err(_) => false,
        }
    }
}

#[test]
fn says_where_the_users_are(rt: HostRuntime) {
    hold_rows(&rt, rt.alloc(), &USERS);
}

#[test]
fn refuses_what_is_no_configuration(rt: HostRuntime) {
    hold_rows(&rt, rt.alloc(), &REFUSED);
}

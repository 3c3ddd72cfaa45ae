//! What a configuration may say, and what not, which is told by its first fault; and that whoever wrote it
//! is told of faults just where it is refused.

use crate::rows::{Lines, cut, hold_lines};
use rtsp_content::{Allowed, EXAMPLE, Operation, Table, TableFault};
use rtsp_explain::explain;
use std::alloc::{AllocError, Global};

// The first fault: of what is served, of what is kept and shown, or of who is allowed what.
fn fault_of(alloc: Global, text: &[u8]) -> Option<TableFault> {
    if let Err(fault) = Table::read(alloc, text) {
        return Some(fault);
    }
    if let Err(fault) = Operation::read_at(alloc, text, "") {
        return Some(fault);
    }
    Allowed::read(alloc, text).err()
}

// What comes of a configuration.
fn fate(alloc: Global, text: &str) -> &'static str {
    let fault = fault_of(alloc, text.as_bytes());
    let has_told = match explain(alloc, "", text.as_bytes()) {
        Ok(findings) => !findings.faults.is_empty(),
        Err(_) => return "out of memory",
    };
    if has_told != fault.is_some() {
        return "told otherwise";
    }
    match fault {
        None => "taken",
        Some(TableFault::NotToml) => "not TOML",
        Some(TableFault::Missing) => "missing",
        Some(TableFault::BadValue) => "bad value",
        Some(TableFault::Duplicate) => "duplicate",
        Some(TableFault::Fixed) => "fixed",
        Some(TableFault::TooMany) => "too many",
        Some(TableFault::OutOfMemory) => "out of memory",
    }
}

// What comes of the example with a part of it replaced. A sign `&` stands for the end of a line.
fn fate_with(alloc: Global, old: &str, new: &str) -> Result<&'static str, AllocError> {
    let new = new.replace(alloc, " & ", "\n")?;
    let text = EXAMPLE.replacen(alloc, old, new.as_str(), 1)?;
    Ok(fate(alloc, text.as_str()))
}

// A part of the example, what stands in its place, and what comes of that: what is just within each
// limit, and just beyond; and then faults that are told before others, and keys that have no default.
const REPLACED: &str = "\
first_port = 5000 | first_port = 1024 | taken
first_port = 5000 | first_port = 1022 | bad value
first_port = 5000 | first_port = 5002 | taken
first_port = 5000 | first_port = 5001 | bad value
first_port = 5000 | first_port = 65532 | taken
first_port = 5000 | first_port = 65534 | bad value
pairs = 2 | pairs = 0 | taken
pairs = 2 | pairs = -1 | bad value
pairs = 2 | pairs = 4096 | taken
pairs = 2 | pairs = 4097 | bad value
uplink = 160000 | uplink = 0 | taken
uplink = 160000 | uplink = -1 | bad value
uplink = 160000 | uplink = 1000000000000 | taken
uplink = 160000 | uplink = 1000000000001 | bad value
sessions = 4 | sessions = 1 | taken
sessions = 4 | sessions = 0 | bad value
sessions = 4 | sessions = 4096 | taken
sessions = 4 | sessions = 4097 | bad value
timeout = 60 | timeout = 1 | taken
timeout = 60 | timeout = 0 | bad value
timeout = 60 | timeout = 86400 | taken
timeout = 60 | timeout = 86401 | bad value
timeout = 60 | renewal_step = 59999 | taken
timeout = 60 | renewal_step = 60000 | bad value
timeout = 60 | timeout = 1 & renewal_step = 999 | taken
timeout = 60 | timeout = 1 & renewal_step = 1000 | bad value
timeout = 60 | renewal_step = 1 | taken
timeout = 60 | renewal_step = 0 | bad value
timeout = 60 | journal = 1 | taken
timeout = 60 | journal = 0 | bad value
timeout = 60 | journal = 1000000 | taken
timeout = 60 | journal = 1000001 | bad value
timeout = 60 | workers = 1 | taken
timeout = 60 | workers = 0 | bad value
timeout = 60 | workers = 64 | taken
timeout = 60 | workers = 65 | bad value
timeout = 60 | colour = \"red\" | taken
timeout = 60 | timeout = \"60\" | bad value
timeout = 60 | players = \"strict\" | taken
timeout = 60 | players = \"Strict\" | bad value
timeout = 60 | players = \"gstreamer\" | taken
timeout = 60 | players = \"\" | bad value
timeout = 60 | media = \"films\" | taken
timeout = 60 | media = \"\" | bad value
timeout = 60 | media = \"/srv/ä ö\" | taken
timeout = 60 | media = 1 | bad value
timeout = 60 | media = \".. /~\" | taken
timeout = 60 | media = \"a\\u007Fb\" | bad value
timeout = 60 | media = \"a\" | taken
timeout = 60 | media = \"a\\nb\" | bad value
ticks = 160 | ticks = 1 & channels = 1 | taken
ticks = 160 | ticks = 1 & channels = 0 | bad value
ticks = 160 | ticks = 1 & channels = 8 | taken
ticks = 160 | ticks = 1 & channels = 9 | bad value
ticks = 160 | ticks = 1 & fmtp = \" a=~\" | taken
ticks = 160 | ticks = 1 & fmtp = \"\" | bad value
ticks = 160 | ticks = 1 & fmtp = \"mode=20\" | taken
ticks = 160 | ticks = 1 & fmtp = \"mode\\r\\n=20\" | bad value
ticks = 160 | ticks = 1 & fmtp = \"x\" | taken
ticks = 160 | ticks = 1 & fmtp = \"\\u007F\" | bad value
ticks = 160 | ticks = 1 & fmtp = \"\\u00E4\" | bad value
units = 500 | units = 1 | taken
units = 500 | units = 0 | bad value
units = 500 | units = 10000000 | taken
units = 500 | units = 10000001 | bad value
unit_ms = 20 | unit_ms = 1 | taken
unit_ms = 20 | unit_ms = 0 | bad value
unit_ms = 20 | unit_ms = 1000 | taken
unit_ms = 20 | unit_ms = 1001 | bad value
unit_ms = 20 | unit_ms = 20 & starts = [0] | taken
unit_ms = 20 | unit_ms = 20 & starts = [0, 1, 499] | taken
unit_ms = 20 | unit_ms = 20 & starts = [0, 500] | bad value
unit_ms = 20 | unit_ms = 20 & starts = [1] | bad value
unit_ms = 20 | unit_ms = 20 & starts = [0, 7, 7] | bad value
unit_ms = 20 | unit_ms = 20 & starts = [] | bad value
unit_ms = 20 | unit_ms = 20 & starts = 0 | bad value
unit_ms = 20 | unit_ms = 20 & starts = [0, 1.0] | bad value
unit_ms = 20 | unit_ms = 20 & allow = [\"ann\"] | missing
unit_ms = 20 | unit_ms = 20 & allow = [] | missing
unit_ms = 20 | unit_ms = 20 & allow = \"ann\" | bad value
unit_ms = 20 | unit_ms = 20 & allow = [\"ann\", 7] | bad value
media = \"audio\" | media = \"video\" | taken
media = \"audio\" | media = \"Audio\" | bad value
pt = 0 | pt = 127 | taken
pt = 0 | pt = 128 | bad value
pt = 0 | pt = 0x7f | taken
pt = 0 | pt = 0.0 | bad value
\"PCMU\" | \"L16-44\" | taken
\"PCMU\" | \"L16/44\" | bad value
\"PCMU\" | \"ABCDEFGHIJKLMNOPQRSTUVWXYZ123456\" | taken
\"PCMU\" | \"ABCDEFGHIJKLMNOPQRSTUVWXYZ1234567\" | bad value
clock = 8000 | clock = 1 | taken
clock = 8000 | clock = 0 | bad value
clock = 8000 | clock = 1000000 | taken
clock = 8000 | clock = 1000001 | bad value
octets = 160 | octets = 1 | taken
octets = 160 | octets = 0 | bad value
octets = 160 | octets = 1400 | taken
octets = 160 | octets = 1401 | bad value
octets = 160 | packets = 1 & octets = 120000 | taken
octets = 160 | packets = 0 & octets = 160 | bad value
octets = 160 | packets = 256 & octets = 1 | taken
octets = 160 | packets = 257 & octets = 1 | bad value
octets = 160 | packets = 2 & octets = 120001 | bad value
octets = 160 | packets = 2 & packing = \"slots\" & octets = 160 | taken
octets = 160 | packets = 2 & packing = \"equal\" & octets = 160 | taken
octets = 160 | packets = 2 & packing = \"equal\" & octets = 161 | bad value
octets = 160 | packets = 2 & packing = \"equal\" & octets = 2800 | taken
octets = 160 | packets = 2 & packing = \"equal\" & octets = 2802 | bad value
octets = 160 | packets = 2 & packing = \"Equal\" & octets = 160 | bad value
octets = 160 | packing = \"other\" & octets = 160 | taken
ticks = 160 | ticks = 1 | taken
ticks = 160 | ticks = 0 | bad value
ticks = 160 | ticks = 1000000 | taken
ticks = 160 | ticks = 1000001 | bad value
\"tone-a.raw\" | \"\" | taken
\"tone-a.raw\" | [] | bad value
\"tone\" | \"b\" | taken
\"tone\" | \"\" | bad value
\"tone\" | \"to_n-3\" | taken
\"tone\" | \"to.ne\" | bad value
\"a\" | \"tone\" | taken
\"a\" | \"A\" | bad value
tone | abcdefghijklmnopqrstuvwxyz0123456789-_abcdefghijklmnopqrstuvwxyz | taken
tone | abcdefghijklmnopqrstuvwxyz0123456789-_abcdefghijklmnopqrstuvwxyza | bad value
timeout = 60 | sessions_per_address = 1 | taken
timeout = 60 | sessions_per_address = 0 | bad value
timeout = 60 | sessions_per_address = 4 | taken
timeout = 60 | sessions_per_address = 5 | bad value
timeout = 60 | connections_per_address = 1 | taken
timeout = 60 | connections_per_address = 0 | bad value
timeout = 60 | connections_per_address = 16384 | taken
timeout = 60 | connections_per_address = 16385 | bad value
timeout = 60 | journal_period = 10 | taken
timeout = 60 | journal_period = 9 | bad value
timeout = 60 | journal_period = 60000 | taken
timeout = 60 | journal_period = 60001 | bad value
timeout = 60 | journal_files = \"a\" | taken
timeout = 60 | journal_files = \"\" | bad value
timeout = 60 | journal_sync = false | taken
timeout = 60 | journal_sync = 0 | bad value
timeout = 60 | journal_when_full = \"keep\" | taken
timeout = 60 | journal_when_full = \"Keep\" | bad value
timeout = 60 | access_log = true | taken
timeout = 60 | access_log = \"yes\" | bad value
timeout = 60 | status_open = true | taken
timeout = 60 | status_open = 1 | bad value
timeout = 60 | watch = false | taken
timeout = 60 | watch = 1 | bad value
timeout = 60 | drain = 1 | taken
timeout = 60 | drain = 0 | bad value
timeout = 60 | drain = 86400 | taken
timeout = 60 | drain = 86401 | bad value
timeout = 60 | status = \"127.0.0.1:9554\" | taken
timeout = 60 | status = \"localhost:9554\" | bad value
timeout = 60 | status = \"255.255.255.255:65535\" | taken
timeout = 60 | status = \"255.255.255.255:655350\" | bad value
timeout = 60 | other = 1 | taken
timeout = 60 | status = 9554 | bad value
sessions = 4 | workers = 0 | missing
first_port = 5000 | first_port = 1 & [x] | bad value
[[presentation]] | [presentation] | bad value
[server] | server = 1 & [x] | bad value
name = \"b\" | name = \"a\" | duplicate
[server] | presentation = 1 & [server] | not TOML
[server] | [server | not TOML
server | x | missing
first_port | x | missing
pairs | x | missing
uplink | x | missing
sessions | x | missing
name | x | missing
units | x | missing
unit_ms | x | missing
media | x | missing
pt | x | missing
encoding | x | missing
clock | x | missing
octets | x | missing
ticks | x | missing
file | x | missing
";

struct ReplacedLines;

impl Lines for ReplacedLines {
    fn holds(alloc: Global, line: &str) -> bool {
        let (old, values) = cut(line);
        let (new, expected) = cut(values);
        fate_with(alloc, old, new) == Ok(expected)
    }
}

#[test]
fn what_is_taken_and_what_is_refused(rt: HostRuntime) {
    hold_lines::<ReplacedLines>(&rt, rt.alloc(), REPLACED);
}

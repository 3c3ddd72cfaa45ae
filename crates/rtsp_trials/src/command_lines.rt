//! What the command line takes and refuses, and how programs end.

use rtspd::{CommandLine, Exit, Help, read_help, read_words};
use std::alloc::{AllocError, Global};

// What each line asks for, with what it names: the configuration; the journal, or the address to listen
// at; and numbers, or whether something is to be left out.
const LINES: &str = "\
stdio -> stdio None None false
stdio --journal=b --config a=c -> stdio Some(\"a=c\") Some(\"b\") false
stdio --forget --journal=b -> stdio None Some(\"b\") true
stdio --journal=b --forget -> stdio None Some(\"b\") true
audit --journal= -> audit None \"\" 0 None None false
audit --back=3 --without-admission 18446744073709551615 --without-session 0 --journal - --config a \
-> audit Some(\"a\") \"-\" 3 Some(0) Some(18446744073709551615) false
audit --without-ended --back=1 --without-session=2 --without-admission=3 --journal=a \
-> audit None \"a\" 1 Some(2) Some(3) true
audit --journal=a --without-admission=3 --without-session=2 --back=1 --without-ended \
-> audit None \"a\" 1 Some(2) Some(3) true
serve --config a -> serve \"a\" None None
serve --connections=7 --config=a --listen b -> serve \"a\" Some(\"b\") Some(7)
check --config a -> check \"a\" None
check --listen=b --config=a -> check \"a\" Some(\"b\")
 -> refused
Stdio -> refused
--config a stdio -> refused
help -> refused
-h -> refused
stdio --help -> refused
audit --journal a -h -> refused
stdio --version -> refused
stdio -- -> refused
-- stdio -> refused
stdio a -> refused
stdio --config -> refused
stdio --conf a -> refused
stdio --config a --config=a -> refused
stdio --back 1 -> refused
stdio --forget --forget -> refused
stdio --forget=true -> refused
stdio --forget true -> refused
stdio --without-ended -> refused
audit -> refused
audit --journal --back 1 -> refused
audit --journal a --without-session b -> refused
audit --journal a --without-admission= -> refused
audit --journal a --forget -> refused
audit --journal a --without-ended --without-ended -> refused
serve -> refused
serve --config a --journal b -> refused
serve --config a --connections -1 -> refused
serve --config a --forget -> refused
check -> refused
check --config a --connections 1 -> refused
check --config a --config a -> refused
";

// What words ask for, as text.
fn told(alloc: Global, words: &[&str]) -> Result<String, AllocError> {
    match read_words(alloc, words)? {
        None => String::from_str(alloc, "refused"),
        Some(
            CommandLine::Stdio {
                config,
                journal,
                forget,
            },
        ) => format!(in alloc; "stdio {config:?} {journal:?} {forget}"),
        Some(
            CommandLine::Audit {
                config,
                journal,
                back,
                without_session,
                without_admission,
                without_ended,
            },
        ) => format!(in alloc;
            "audit {config:?} {journal:?} {back} {without_session:?} {without_admission:?} {without_ended}"
        ),
        Some(
            CommandLine::Serve {
                config,
                listen,
                connections,
            },
        ) => format!(in alloc; "serve {config:?} {listen:?} {connections:?}"),
        Some(CommandLine::Check { config, listen }) => format!(in alloc;
            "check {config:?} {listen:?}"
        ),
    }
}

// Whether a line, whose words are parted by spaces, is read so.
fn is_read(alloc: Global, line: &str, wanted: &str) -> Result<bool, AllocError> {
    let mut words = Vec::new(alloc);
    for word in line.split_whitespace() {
        words.push(word)?;
    }
    Ok(told(alloc, &words)?.as_str() == wanted)
}

#[test]
fn lines(rt: HostRuntime) {
    for row in LINES.lines() {
        let (line, wanted) = row.split_once(" -> ").unwrap_or((row, ""));
        assert!(rt; is_read(rt.alloc(), line, wanted) == Ok(true), "{row}");
    }
}

// The entries that `audit --journal a --back N` undoes.
fn back_of(alloc: Global, number: &str) -> Result<Option<u64>, AllocError> {
    let words = ["audit", "--journal", "a", "--back", number];
    match read_words(alloc, &words)? {
        Some(CommandLine::Audit { back, .. }) => Ok(Some(back)),
        _ => Ok(None),
    }
}

const NUMBERS: [(&str, Option<u64>); 8] = [
    ("+5", Some(5)),
    ("007", Some(7)),
    ("18446744073709551616", None),
    ("-5", None),
    ("++5", None),
    ("", None),
    (" 5", None),
    ("0x5", None),
];

#[test]
fn numbers(rt: HostRuntime) {
    for (number, wanted) in NUMBERS {
        assert!(rt; back_of(rt.alloc(), number) == Ok(wanted), "{number}");
    }
}

const EXITS: [Exit; 11] = [
    Exit::Done,
    Exit::BadCommandLine,
    Exit::BadConfiguration,
    Exit::NotARecord(1),
    Exit::NotAllowed(65536),
    Exit::JournalTooLong,
    Exit::FewDescriptors {
        wanted: 94,
        ports: 80,
        others: 13,
        limit: 64,
    },
    Exit::JournalLeft {
        file: 7,
        entries: 12,
    },
    Exit::DeviceFailed,
    Exit::BadMessage,
    Exit::OutOfMemory,
];

// Their statuses and lines.
const WRITTEN: &str = "\
0 
1 rtspd: bad command line
1 rtspd: bad configuration
2 rtspd: entry 1: not a record
3 rtspd: entry 65536: not allowed
3 rtspd: journal too long
4 rtspd: 94 descriptors are wanted at least, 80 for pairs of ports, 13 for files, lanes and listeners, and 1 for a connection; the limit is 64
4 rtspd: a disk holds up journal-000007.txt, which was left behind: 12 entries that it was handed may not be there, and none that came later is
4 rtspd: read or write failed
5 rtspd: bad message
6 rtspd: out of memory
";

#[test]
fn exits(rt: HostRuntime) -> Result<(), AllocError> {
    let mut written = String::new(rt.alloc());
    for exit in EXITS {
        let line = format!(in rt.alloc(); "{} {exit}\n", exit.status())?;
        written.push_str(line.as_str())?;
    }
    assert!(rt; written.as_str() == WRITTEN, "{written}");
    Ok(())
}

// What each line asks of the program itself.
const CALLS: &str = "\
--help -> usage
-h -> usage
serve --help -> usage
check -h -> usage
stdio --help -> usage
audit -h -> usage
--version -> version
 -> nothing
help -> nothing
serve -> nothing
serve --version -> nothing
play --help -> nothing
--help --help -> nothing
--help serve -> nothing
serve --config a --help -> nothing
--Help -> nothing
";

#[test]
fn calls_for_help(rt: HostRuntime) -> Result<(), AllocError> {
    for row in CALLS.lines() {
        let (line, wanted) = row.split_once(" -> ").unwrap_or((row, ""));
        let mut words = Vec::new(rt.alloc());
        for word in line.split_whitespace() {
            words.push(word)?;
        }
        let told = match read_help(&words) {
            Some(Help::Usage) => "usage",
            Some(Help::Version) => "version",
            None => "nothing",
        };
        assert!(rt; told == wanted, "{row}: {told}");
    }
    Ok(())
}

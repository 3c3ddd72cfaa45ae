//! For whom presentations are there: what a configuration says of it.

use crate::rows::{Row, hold_rows};
use rtsp_content::{Allowed, EXAMPLE, Found, Table, TableFault};
use std::alloc::{AllocError, Global};

const USERS: &str = "[server]\nusers = \"users\"\n";

const FILMS: &str = "\
[server]
users = \"users\"
[[presentation]]
name = \"everybodys\"
[[presentation]]
name = \"hers\"
allow = [\"ann\"]
[[presentation]]
name = \"theirs\"
allow = [\"bob\", \"\", \"\u{dc}nal\", \"ann\"]
[[presentation]]
name = \"nobodys\"
allow = []
";

// A presentation, a user, and whether it is there for him.
type Said = (&'static str, &'static str, bool);

const SAID: [Said; 18] = [
    ("everybodys", "ann", true),
    ("everybodys", "", true),
    ("hers", "ann", true),
    ("hers", "bob", false),
    ("hers", "", false),
    ("hers", "an", false),
    ("hers", "annn", false),
    ("hers", "Ann", false),
    ("theirs", "ann", true),
    ("theirs", "bob", true),
    ("theirs", "", true),
    ("theirs", "\u{dc}nal", true),
    ("theirs", "eve", false),
    ("nobodys", "ann", false),
    ("nobodys", "", false),
    ("elsewhere", "ann", true),
    ("her", "bob", true),
    ("hers/", "bob", true),
];

impl Row for Said {
    fn holds(&self, alloc: Global) -> bool {
        let (name, user, is_there) = *self;
        match Allowed::read(alloc, FILMS.as_bytes()) {
            Ok(Some(allowed)) => allowed.lets(name.as_bytes(), user.as_bytes()) == is_there,
            _ => false,
        }
    }
}

#[test]
fn a_presentation_is_there_for_those_whom_it_names(rt: HostRuntime) {
    hold_rows(&rt, rt.alloc(), &SAID);
}

// How many users each presentation names, where it names some.
const COUNTS: [Option<usize>; 4] = [None, Some(1), Some(4), Some(0)];

#[test]
fn it_tells_whom_they_name(rt: HostRuntime) {
    let Ok(Some(allowed)) = Allowed::read(rt.alloc(), FILMS.as_bytes()) else {
        assert!(rt; false);
        return;
    };
    assert!(rt; allowed.rows().len() == COUNTS.len());
    for (row, count) in allowed.rows().iter().zip(COUNTS.iter()) {
        assert!(rt;
            row.users().map(|users| users.len()) == *count,
            "{row}",
            row = row.name()
        );
    }
}

// What a configuration is refused for, if it is, behind a file of users.
type Refused = (&'static str, Option<TableFault>);

const REFUSED: [Refused; 7] = [
    ("", Some(TableFault::Missing)),
    ("[[presentation]]\nname = \"a\"\n", None),
    ("[[presentation]]\nname = \"a\"\nallow = [\"ann\"]\n", None),
    (
        "[[presentation]]\nname = \"a\"\nallow = 1\n",
        Some(TableFault::BadValue),
    ),
    (
        "[[presentation]]\nname = \"a\"\nallow = [1]\n",
        Some(TableFault::BadValue),
    ),
    (
        "[[presentation]]\nallow = [\"ann\"]\n",
        Some(TableFault::Missing),
    ),
    ("[[presentation]\n", Some(TableFault::NotToml)),
];

impl Row for Refused {
    fn holds(&self, alloc: Global) -> bool {
        let (text, fault) = *self;
        match format!(in alloc; "{USERS}{text}") {
            Ok(text) => Allowed::read(alloc, text.as_bytes()).err() == fault,
            Err(_) => false,
        }
    }
}

#[test]
fn it_is_refused_as_other_keys_are(rt: HostRuntime) {
    hold_rows(&rt, rt.alloc(), &REFUSED);
}

// So many users for whom a presentation is there.
fn with_users(alloc: Global, count: usize) -> Result<String, AllocError> {
    let mut text = format!(in alloc; "{USERS}[[presentation]]\nname = \"a\"\nallow = [")?;
    for number in 0..count {
        text.push_str(format!(in alloc; "\"{number}\", ")?.as_str())?;
    }
    text.push_str("]\n")?;
    Ok(text)
}

#[test]
fn a_thousand_are_named_at_most(rt: HostRuntime) -> Result<(), AllocError> {
    let text = with_users(rt.alloc(), 1000)?;
    assert!(rt; Allowed::read(rt.alloc(), text.as_bytes()).is_ok());
    let text = with_users(rt.alloc(), 1001)?;
    assert!(rt; Allowed::read(rt.alloc(), text.as_bytes()).err() == Some(TableFault::BadValue));
    Ok(())
}

#[test]
fn where_nobody_is_named_there_is_nothing_to_ask(rt: HostRuntime) {
    let read = Allowed::read(rt.alloc(), EXAMPLE.as_bytes());
    assert!(rt; matches!(read, Ok(None)));
}

// That is what a URI without a path comes to.
#[test]
fn no_path_names_nothing(rt: HostRuntime) {
    match Table::read(rt.alloc(), EXAMPLE.as_bytes()) {
        Ok(table) => assert!(rt; table.find(b"") == Found::Nothing),
        Err(_) => assert!(rt; false),
    }
}

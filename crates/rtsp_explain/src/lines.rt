//! The lines of a configuration's keys.

use std::fmt;

/// A table of a configuration. Presentations, and the tracks of each, are counted from 1.
#[derive(Clone, Copy, PartialEq, Eq)]
pub enum Place {
    /// What stands before all heads.
    Document,
    /// `[server]`.
    Server,
    /// `[[presentation]]`.
    Presentation(usize),
    /// `[[presentation.track]]`, by its presentation and its own number.
    Track(usize, usize),
    /// A table that the program doesn't know.
    Unknown,
}

impl fmt::Display for Place {
    fn fmt<W: fmt::Write>(&self, f: &mut fmt::Formatter<W>) -> fmt::Result {
        match self {
            Place::Document | Place::Unknown => Ok(()),
            Place::Server => write!(f, "server"),
            Place::Presentation(number) => write!(f, "presentation[{number}]"),
            Place::Track(number, track) => write!(f, "presentation[{number}].track[{track}]"),
        }
    }
}

// A name without spaces and quotes around it.
fn bare(name: &str) -> &str {
    name.trim().trim_matches('"').trim_matches('\'')
}

// The name in a table's head, and whether the table is one of a list.
fn head_of(line: &str) -> Option<(&str, bool)> {
    if let Some(rest) = line.strip_prefix("[[") {
        let (name, _) = rest.split_once("]]")?;
        return Some((bare(name), true));
    }
    let rest = line.strip_prefix("[")?;
    let (name, _) = rest.split_once("]")?;
    Some((bare(name), false))
}

// What ends a text that begins here and goes on over further lines.
fn left_open(value: &str) -> Option<&'static str> {
    if is_open(value, "\"\"\"") {
        return Some("\"\"\"");
    }
    if is_open(value, "'''") {
        return Some("'''");
    }
    None
}

// Whether these quotes begin it, and don't end within it.
fn is_open(value: &str, quotes: &str) -> bool {
    match value.strip_prefix(quotes) {
        Some(rest) => rest.find(quotes).is_none(),
        None => false,
    }
}

// The table behind a head that stands behind this place.
fn place_after(place: Place, presentations: &mut usize, name: &str, is_item: bool) -> Place {
    if name == "presentation" && is_item {
        *presentations = presentations.saturating_add(1);
        return Place::Presentation(*presentations);
    }
    if name == "presentation.track" && is_item {
        return match place {
            Place::Track(_, track) => Place::Track(*presentations, track.saturating_add(1)),
            _ => Place::Track(*presentations, 1),
        };
    }
    if name == "server" && !is_item {
        return Place::Server;
    }
    Place::Unknown
}

/// The line, counted from 1, of a key in a table, or of the table's head where the key is empty or is the
/// table's name; none where it isn't written there by itself, as in a table within one line.
pub fn line_of(text: &str, wanted: Place, key: &str) -> Option<usize> {
    // What may stand before a text to say that it is UTF-8.
    let text = text.strip_prefix("\u{feff}").unwrap_or(text);
    let mut place = Place::Document;
    let mut presentations = 0;
    let mut open = None;
    for (index, line) in text.lines().enumerate() {
        let line = line.trim();
        if let Some(quotes) = open {
            if line.find(quotes).is_some() {
                open = None;
            }
            continue;
        }
        if let Some((name, is_item)) = head_of(line) {
            place = place_after(place, &mut presentations, name, is_item);
            let is_named = wanted == Place::Document && !is_item && name == key;
            if is_named || (key.is_empty() && place == wanted) {
                return Some(index.saturating_add(1));
            }
            continue;
        }
        let Some((name, value)) = line.split_once("=") else {
            continue;
        };
        if place == wanted && bare(name) == key {
            return Some(index.saturating_add(1));
        }
        open = left_open(value.trim());
    }
    None
}

//! A configuration, gone through in the order in which the program reads it.

use crate::findings::{Explainer, Findings};
use crate::keys::{Key, Presence, presentation_keys, server_keys, track_keys};
use crate::lines::Place;
use crate::rules::kind_of;
use crate::tracks::{explain_journal, explain_rate};
use std::alloc::{AllocError, Global};
use toml::{Table, Value};

const MOST_PRESENTATIONS: usize = 256;

const MOST_TRACKS: usize = 8;

/// Whatever can be said of a configuration that stands at this path; no file that it names is looked at.
pub fn explain<'x>(alloc: Global, path: &'x str, bytes: &'x [u8]) -> Result<Findings, AllocError> {
    let text = std::str::from_utf8(bytes).unwrap_or("");
    let mut explainer = Explainer::new(alloc, path, text);
    match toml::table_from_slice(alloc, bytes) {
        Ok(document) => explainer.document(&document)?,
        Err(error) => {
            if error.is_memory() {
                return Err(AllocError);
            }
            let before = match error.span() {
                Some(span) => bytes.get(..span.start).unwrap_or(bytes),
                None => bytes,
            };
            let line = before.iter().filter(|byte| **byte == b'\n').count();
            let (line, why) = (line.saturating_add(1), error.message());
            let fault = format!(in alloc; "{path}:{line}: not TOML: {why}")?;
            explainer.findings.faults.push(fault)?;
        }
    }
    let Explainer { findings, .. } = explainer;
    Ok(findings)
}

// Whether the program looks at a key: at `packing` only beside `packets`.
fn is_read(table: &Table, key: &str) -> bool {
    key != "packing" || table.get("packets").is_some()
}

impl Explainer<'_> {
    fn document(&mut self, document: &Table) -> Result<(), AllocError> {
        let server = self.server(document)?;
        let mut tracks = 0;
        if let Some(items) = self.items(
            document,
            "presentation",
            MOST_PRESENTATIONS,
            Place::Document,
        )? {
            for (index, item) in items.iter().enumerate() {
                let count = self.presentation(items, index, item, server)?;
                tracks = tracks.max(count);
            }
        }
        if let Some(server) = server
            && tracks > 0
        {
            explain_journal(self, server, tracks)?;
        }
        self.unknown(document, &[], "server presentation", Place::Document)
    }

    fn server<'t>(&mut self, document: &'t Table) -> Result<Option<&'t Table>, AllocError> {
        match document.get("server") {
            Some(Value::Table(server)) => {
                self.keys(server, server_keys(), Place::Server, &[])?;
                self.unknown(server, server_keys(), "", Place::Server)?;
                Ok(Some(server))
            }
            Some(value) => {
                let kind = kind_of(value);
                let why = format!(in self.alloc; "is {kind}; it has to be a table [server]")?;
                self.fault(Place::Document, "server", why.as_str())?;
                Ok(None)
            }
            None => {
                self.missing(Place::Document, "server", "it has to be a table [server]")?;
                Ok(None)
            }
        }
    }

    // A presentation: how many tracks it has.
    fn presentation(
        &mut self,
        items: &[Value],
        index: usize,
        item: &Value,
        server: Option<&Table>,
    ) -> Result<usize, AllocError> {
        let place = Place::Presentation(index.saturating_add(1));
        let Some(table) = item.as_table() else {
            self.no_table(place, item)?;
            return Ok(0);
        };
        self.keys(
            table,
            presentation_keys(),
            place,
            items.get(..index).unwrap_or(&[]),
        )?;
        self.allowed(server, table, place)?;
        self.unknown(table, presentation_keys(), "track", place)?;
        let Some(tracks) = self.items(table, "track", MOST_TRACKS, place)? else {
            return Ok(0);
        };
        for (number, item) in tracks.iter().enumerate() {
            let before = tracks.get(..number).unwrap_or(&[]);
            let place = Place::Track(index.saturating_add(1), number.saturating_add(1));
            self.track(server, table, item, place, before)?;
        }
        Ok(tracks.len())
    }

    // One of the tracks of a presentation, of which those before it stand in its list.
    fn track(
        &mut self,
        server: Option<&Table>,
        presentation: &Table,
        item: &Value,
        place: Place,
        before: &[Value],
    ) -> Result<(), AllocError> {
        let Some(track) = item.as_table() else {
            return self.no_table(place, item);
        };
        self.keys(track, track_keys(), place, before)?;
        self.unknown(track, track_keys(), "", place)?;
        match server {
            Some(server) => explain_rate(self, server, presentation, track, place),
            None => Ok(()),
        }
    }

    fn no_table(&mut self, place: Place, item: &Value) -> Result<(), AllocError> {
        let kind = kind_of(item);
        let why = format!(in self.alloc; "is {kind}; it has to be a table")?;
        self.fault(place, "", why.as_str())
    }

    // Each key of a table that has one, and what a right one asks of others, and of those tables of its
    // list that stand before it.
    fn keys(
        &mut self,
        table: &Table,
        keys: &[Key],
        place: Place,
        before: &[Value],
    ) -> Result<(), AllocError> {
        for key in keys {
            match table.get(key.name) {
                Some(value) => self.key(table, key, value, place, before)?,
                None => self.absent(key, place)?,
            }
        }
        Ok(())
    }

    // A key that isn't there.
    fn absent(&mut self, key: &Key, place: Place) -> Result<(), AllocError> {
        if key.presence != Presence::Required {
            return Ok(());
        }
        let wanted = key.rule.wanted(self.alloc, key.what)?;
        let why = format!(in self.alloc; "it has to be {wanted}")?;
        self.missing(place, key.name, why.as_str())
    }

    // A key that is there.
    fn key(
        &mut self,
        table: &Table,
        key: &Key,
        value: &Value,
        place: Place,
        before: &[Value],
    ) -> Result<(), AllocError> {
        if !is_read(table, key.name) {
            let why = "isn't read, since there is no packets";
            return self.note(place, key.name, why);
        }
        match key.rule.fault(self.alloc, value, key.what)? {
            Some(why) => self.fault(place, key.name, why.as_str()),
            None => self.together(table, key.name, place, before),
        }
    }

    // The tables of a list, of which there are 1 to `most`.
    fn items<'t>(
        &mut self,
        table: &'t Table,
        key: &str,
        most: usize,
        place: Place,
    ) -> Result<Option<&'t [Value]>, AllocError> {
        let head = match place {
            Place::Document => "[[presentation]]",
            _ => "[[presentation.track]]",
        };
        match table.get(key) {
            None => {
                let why = format!(in self.alloc; "there have to be 1 to {most} tables {head}")?;
                self.missing(place, key, why.as_str())?;
            }
            Some(Value::Array(items)) => {
                let count = items.len();
                if 1 <= count && count <= most {
                    return Ok(Some(items.as_slice()));
                }
                let why = format!(in self.alloc;
                    "has {count} tables; there have to be 1 to {most}"
                )?;
                self.fault(place, key, why.as_str())?;
            }
            Some(value) => {
                let kind = kind_of(value);
                let why = format!(in self.alloc;
                    "is {kind}; it has to be 1 to {most} tables {head}"
                )?;
                self.fault(place, key, why.as_str())?;
            }
        }
        Ok(None)
    }
}

//! What is found in a configuration.

use crate::lines::{Place, line_of};
use std::alloc::{AllocError, Global};

/// What is found in a configuration, a line for each, in the order in which the program looks.
#[derive(Drop)]
pub struct Findings {
    /// What it is refused for.
    pub faults: Vec<String>,
    /// What it is taken with, but what may not be meant.
    pub notes: Vec<String>,
}

/// A configuration's text that findings are written of.
#[derive(Drop)]
pub(crate) struct Explainer<'a> {
    pub(crate) alloc: Global,
    pub(crate) path: &'a str,
    pub(crate) text: &'a str,
    pub(crate) findings: Findings,
}

impl<'a> Explainer<'a> {
    pub(crate) fn new(alloc: Global, path: &'a str, text: &'a str) -> Explainer<'a> {
        Explainer {
            alloc,
            path,
            text,
            findings: Findings {
                faults: Vec::new(alloc),
                notes: Vec::new(alloc),
            },
        }
    }

    // Where a key stands, or the head of its table where it isn't there: the path, the line if it is
    // known, the key.
    fn at(&self, place: Place, key: &str, is_there: bool) -> Result<String, AllocError> {
        let (alloc, path) = (self.alloc, self.path);
        let point = if key.is_empty() || place == Place::Document {
            ""
        } else {
            "."
        };
        match line_of(self.text, place, if is_there { key } else { "" }) {
            Some(line) => format!(in alloc; "{path}:{line}: {place}{point}{key}"),
            None => format!(in alloc; "{path}: {place}{point}{key}"),
        }
    }

    /// A fault of a key that is there.
    pub(crate) fn fault(&mut self, place: Place, key: &str, why: &str) -> Result<(), AllocError> {
        let at = self.at(place, key, true)?;
        let line = format!(in self.alloc; "{at} {why}")?;
        self.findings.faults.push(line)?;
        Ok(())
    }

    /// A key that is missing.
    pub(crate) fn missing(&mut self, place: Place, key: &str, why: &str) -> Result<(), AllocError> {
        let at = self.at(place, key, false)?;
        let line = format!(in self.alloc; "{at} is missing; {why}")?;
        self.findings.faults.push(line)?;
        Ok(())
    }

    /// A note of a key.
    pub(crate) fn note(&mut self, place: Place, key: &str, why: &str) -> Result<(), AllocError> {
        let at = self.at(place, key, true)?;
        let line = format!(in self.alloc; "note: {at} {why}")?;
        self.findings.notes.push(line)?;
        Ok(())
    }
}

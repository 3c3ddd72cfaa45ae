//! The files that `serve` writes its journal to.

ghost use Rattle.std.specs.Prelude.{◌≡◌, ◌≤◌, option_map, string_bytes};
ghost use Rattle.toml.specs.Data.{get_member};
ghost use Rattle.toml.specs.View.{view, table_view};
ghost use Rattle.rtsp_text.specs.Results.{Gives};
ghost use Rattle.rtsp_content.specs.declared.fault.TableFault.TheVariants.{OutOfMemory};
ghost use Rattle.rtsp_content.specs.JournalFiles.{as_when_full, when_full_in, files_of};

use crate::fault::TableFault;
use crate::keys::{flag_at, number_at_or, value_at};
use crate::limits::{DEFAULT_PERIOD, LEAST_PERIOD, MAX_PERIOD};
use std::marker::Model;
use toml::{Table, Value};

/// What becomes of the entries of the journal that its files don't take.
#[derive(Clone, Copy, PartialEq, Eq)]
pub enum WhenFull {
    /// They wait, so that nothing is missing, and the journal fills up.
    Keep,

    /// They are left out, and the next file begins with what lives then.
    Lose,
}

/// The files that `serve` writes its journal to.
#[derive(Drop)]
pub struct JournalFiles {
    folder: String,
    period: u32,
    sync: bool,
    when_full: WhenFull,
}

impl Model for JournalFiles {
    ghost use Rattle.rtsp_content.specs.JournalFilesValue.{JournalFilesValue, IsPeriod};

    ghost Value = { JournalFilesValue };

    ghost use Rattle.rtsp_content.specs.JournalFilesView.{files_value};

    ghost view = { files_value };

    ghost invariant = { λ f. IsPeriod f.period };
}

impl JournalFiles {
    /// Whether they are written alike.
    pub(crate) fn is_same(&self, other: &JournalFiles) -> bool {
        self.folder == other.folder
            && self.period == other.period
            && self.sync == other.sync
            && self.when_full == other.when_full
    }

    /// The folder that they are in. It is not made where it isn't there.
    pub fn folder(&self) -> &str
        ensures { result.now ≡ self.now.folder }
    {
        self.folder.as_str()
    }

    /// The milliseconds from one writing to the next.
    pub fn period(&self) -> u32
        ensures value { result ≡ self.now.period }
        ensures least { LEAST_PERIOD ≤ result }
        ensures most { result ≤ MAX_PERIOD }
    {
        self.period
    }

    /// Whether what was written is on the disk before the next writing.
    pub fn sync(&self) -> bool
        ensures { result ≡ self.now.sync }
    {
        self.sync
    }

    /// What becomes of entries that the files don't take.
    pub fn when_full(&self) -> WhenFull
        ensures { result ≡ self.now.when_full }
    {
        self.when_full
    }
}

fn when_full_named(value: &Value) -> Result<WhenFull, TableFault>
    ensures { result ≡ as_when_full (view value.now) }
{
    let Some(word) = value.as_str() else {
        return Err(TableFault::BadValue);
    };
    if word == "keep" {
        Ok(WhenFull::Keep)
    } else if word == "lose" {
        Ok(WhenFull::Lose)
    } else {
        Err(TableFault::BadValue)
    }
}

fn when_full_at(table: &Table, key: &str) -> Result<WhenFull, TableFault>
    ensures { result ≡ when_full_in (get_member key.now (table_view table.now)) }
{
    match value_at(table, key) {
        Some(value) => when_full_named(value),
        None => Ok(WhenFull::Keep),
    }
}

/// What the table `[server]` says of the files in a folder, if there is one.
pub(crate) fn read_files(
    table: &Table,
    folder: Option<String>,
) -> Result<Option<JournalFiles>, TableFault>
    ensures { Gives OutOfMemory result
        (files_of (option_map (λ s. string_bytes s) folder) (table_view table.now)) }
{
    let period = number_at_or(
        table,
        "journal_period",
        LEAST_PERIOD,
        MAX_PERIOD,
        DEFAULT_PERIOD,
    )?;
    let sync = flag_at(table, "journal_sync")?;
    let when_full = when_full_at(table, "journal_when_full")?;
    match folder {
        Some(folder) => Ok(Some(JournalFiles {
            folder,
            period: period as u32,
            sync,
            when_full,
        })),
        None => Ok(None),
    }
}

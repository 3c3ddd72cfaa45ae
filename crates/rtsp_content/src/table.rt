//! The table of what is served.

ghost use Rattle.std.specs.Prelude.{◌≡◌, ◌≤◌, ◌⊎◌, [], Err, length, IsUtf8, option_copied, slice_get};
ghost use Rattle.toml.specs.Parse.{parse_document};
ghost use Rattle.toml.specs.View.{table_view};
ghost use Rattle.rtsp_content.specs.Withdrawn.{AreOfferedDistinct, is_withdrawn};
ghost use Rattle.rtsp_content.specs.PresentationValue.{presentation_names};
ghost use Rattle.rtsp_text.specs.Results.{Gives};
ghost use Rattle.rtsp_content.specs.declared.fault.TableFault.TheVariants.{OutOfMemory};
ghost use Rattle.rtsp_content.specs.declared.limits.TheConstants.{MAX_PLACES};
ghost use Rattle.rtsp_content.specs.Paths.{find_of, Names};
ghost use Rattle.rtsp_content.specs.Server.{IsWithinLimits};
ghost use Rattle.rtsp_content.specs.Table.{table_of, table_of_document};

use crate::fault::TableFault;
use crate::found::{Found, find_among};
use crate::keys::{Form, list_at, optional_text_at, table_at};
use crate::limits::MAX_PRESENTATIONS;
use crate::media_path::media_folder;
use crate::presentation::Presentation;
use crate::reading::read_presentations;
use crate::server::{Server, read_server};
use std::alloc::Global;
use std::marker::Model;

/// What the server serves, and its own numbers.
#[derive(Drop)]
pub struct Table {
    pub(crate) server: Server,
    // What stands at each place.
    pub(crate) presentations: Vec<Presentation>,
    // Of each place up to some whether what stands there is offered no more.
    pub(crate) withdrawn: Vec<bool>,
    // Of each place up to some its number, which grows each time it is given to another presentation.
    pub(crate) numbers: Vec<u64>,
}

impl Model for Table {
    ghost use Rattle.rtsp_content.specs.TableValue.{TableValue, IsTableWithin};

    ghost Value = { TableValue };

    ghost use Rattle.rtsp_content.specs.TableView.{table_value};

    ghost view = { table_value };

    ghost invariant = { λ t. IsTableWithin (table_value t) };
}

fn read_table(alloc: Global, table: &toml::Table, path: &str) -> Result<Table, TableFault>
    ensures { Gives OutOfMemory result (table_of path.now (table_view table.now)) }
{
    let numbers = table_at(table, "server")?;
    let server = read_server(numbers)?;
    let folder = optional_text_at(alloc, numbers, "media", Form::Folder)?;
    let items = list_at(table, "presentation", MAX_PRESENTATIONS)?;
    let folder = media_folder(alloc, path, folder)?;
    let presentations = read_presentations(alloc, items, folder.as_deref())?;
    Ok(Table {
        server,
        presentations,
        withdrawn: Vec::new(alloc),
        numbers: Vec::new(alloc),
    })
}

impl Table {
    /// Reads a configuration from the bytes of a TOML document. Unknown keys are ignored, and a
    /// relative folder of the media is taken from where the program was started.
    pub fn read(alloc: Global, bytes: &[u8]) -> Result<Table, TableFault>
        ensures text { IsUtf8 bytes.now
            → Gives OutOfMemory result (table_of_document [] (parse_document bytes.now)) }
        ensures other { ¬ IsUtf8 bytes.now
            → (result ≡ Err TableFault.NotToml) ⊎ (result ≡ Err TableFault.OutOfMemory) }
    {
        Table::read_at(alloc, bytes, "")
    }

    /// Reads a configuration from the bytes of a TOML document that stands at this path. Unknown
    /// keys are ignored, and a relative folder of the media is taken from the document's folder.
    pub fn read_at(alloc: Global, bytes: &[u8], path: &str) -> Result<Table, TableFault>
        ensures text { IsUtf8 bytes.now
            → Gives OutOfMemory result (table_of_document path.now (parse_document bytes.now)) }
        ensures other { ¬ IsUtf8 bytes.now
            → (result ≡ Err TableFault.NotToml) ⊎ (result ≡ Err TableFault.OutOfMemory) }
    {
        match toml::table_from_slice(alloc, bytes) {
            Ok(table) => read_table(alloc, &table, path),
            Err(error) => Err(if error.is_memory() {
                TableFault::OutOfMemory
            } else {
                TableFault::NotToml
            }),
        }
    }

    /// The server's own numbers.
    pub fn server(&self) -> Server
        ensures value { result ≡ self.now.server }
        ensures limits { IsWithinLimits result }
    {
        self.server
    }

    /// The presentations in the order of their places, which is that of the configuration where none
    /// was withdrawn. Of those that are offered no two have one name.
    pub fn presentations(&self) -> &[Presentation]
        ensures value { result.now ≡ self.now.presentations }
        ensures least { 1 ≤ length result.now }
        ensures most { length result.now ≤ MAX_PLACES }
        ensures distinct { AreOfferedDistinct self.now.withdrawn (presentation_names result.now) }
    {
        self.presentations.as_slice()
    }

    /// Whether the presentation at this place is offered no more.
    pub fn is_withdrawn(&self, place: u16) -> bool
        ensures { result ≡ is_withdrawn self.now.withdrawn place }
    {
        match self.withdrawn.get(usize::from(place)) {
            Some(gone) => *gone,
            None => false,
        }
    }

    /// The presentation with this index, counted from 0.
    pub fn presentation(&self, index: u16) -> Option<&Presentation>
        ensures { option_copied result ≡ slice_get self.now.presentations index }
    {
        self.presentations.get(usize::from(index))
    }

    /// What a path names: `/name` and `/name/` a presentation, `/name/track` a track. Names are
    /// compared byte for byte, and nothing in the path is decoded.
    pub fn find(&self, path: &[u8]) -> Found
        ensures value { result ≡ find_of self.now path.now }
        ensures names { Names self.now path.now result }
    {
        find_among(self.presentations.as_slice(), self.numbers.as_slice(), path)
    }
}

//! What `serve` keeps and shows for those who run it.

ghost use Rattle.std.specs.Prelude.{◌≡◌, ◌⊎◌, Err, IsUtf8, option_map};
ghost use Rattle.toml.specs.Parse.{parse_document};
ghost use Rattle.toml.specs.View.{table_view};
ghost use Rattle.rtsp_text.specs.Results.{Gives};
ghost use Rattle.rtsp_content.specs.declared.fault.TableFault.TheVariants.{OutOfMemory};
ghost use Rattle.rtsp_content.specs.Operation.{operation_of, operation_of_document};

use crate::balancers::read_balancers;
use crate::fault::TableFault;
use crate::journal_files::{JournalFiles, read_files};
use crate::keys::{Form, flag_at, flag_at_or, number_at_or, optional_text_at, table_at};
use crate::limits::{DEFAULT_DRAIN, MAX_DRAIN};
use crate::media_path::media_folder;
use std::alloc::Global;
use std::marker::Model;
use toml::Table;

/// What `serve` keeps and shows for those who run it.
#[derive(Drop)]
pub struct Operation {
    journal: Option<JournalFiles>,
    access_log: bool,
    status: Option<String>,
    proxy: Vec<u32>,
    status_open: bool,
    drain: u64,
    users: Option<String>,
    watch: bool,
}

impl Model for Operation {
    ghost use Rattle.rtsp_content.specs.OperationValue.{OperationValue};

    ghost Value = { OperationValue };

    ghost use Rattle.rtsp_content.specs.OperationView.{operation_value};

    ghost view = { operation_value };
}

fn read_operation(alloc: Global, table: &Table, path: &str) -> Result<Operation, TableFault>
    ensures { Gives OutOfMemory result (operation_of path.now (table_view table.now)) }
{
    let server = table_at(table, "server")?;
    let folder = optional_text_at(alloc, server, "journal_files", Form::Folder)?;
    let folder = media_folder(alloc, path, folder)?;
    let journal = read_files(server, folder)?;
    let access_log = flag_at(server, "access_log")?;
    let status = optional_text_at(alloc, server, "status", Form::Address)?;
    let proxy = read_balancers(alloc, server)?;
    let status_open = flag_at(server, "status_open")?;
    let drain = number_at_or(server, "drain", 1, MAX_DRAIN, DEFAULT_DRAIN)?;
    let users = optional_text_at(alloc, server, "users", Form::Folder)?;
    let users = media_folder(alloc, path, users)?;
    let watch = flag_at_or(server, "watch", true)?;
    Ok(Operation {
        journal,
        access_log,
        status,
        proxy,
        status_open,
        drain,
        users,
        watch,
    })
}

impl Operation {
    /// Reads what the table `[server]` of a configuration says of it, from the bytes of a TOML
    /// document that stands at this path. Other keys are not looked at, and a relative folder is
    /// taken from the document's folder.
    pub fn read_at(alloc: Global, bytes: &[u8], path: &str) -> Result<Operation, TableFault>
        ensures text { IsUtf8 bytes.now
            → Gives OutOfMemory result (operation_of_document path.now (parse_document bytes.now)) }
        ensures other { ¬ IsUtf8 bytes.now
            → (result ≡ Err TableFault.NotToml) ⊎ (result ≡ Err TableFault.OutOfMemory) }
    {
        match toml::table_from_slice(alloc, bytes) {
            Ok(table) => read_operation(alloc, &table, path),
            Err(error) => Err(if error.is_memory() {
                TableFault::OutOfMemory
            } else {
                TableFault::NotToml
            }),
        }
    }

    /// The files of the journal, where it is written to files.
    pub fn journal(&self) -> Option<&JournalFiles>
        ensures { option_map (λ f. f.now) result ≡ self.now.journal }
    {
        self.journal.as_ref()
    }

    /// Whether each answer has a line in the log.
    pub fn access_log(&self) -> bool
        ensures { result ≡ self.now.access_log }
    {
        self.access_log
    }

    /// Where the figures are shown: an address and a port, as they were written. They may be no
    /// address all the same.
    pub fn status(&self) -> Option<&str>
        ensures { option_map (λ s. s.now) result ≡ self.now.status }
    {
        self.status.as_deref()
    }

    /// The IPv4 addresses of which connections begin with a header.
    pub fn proxy(&self) -> &[u32]
        ensures { result.now ≡ self.now.proxy }
    {
        self.proxy.as_slice()
    }

    /// Whether players' addresses are shown there to all, and not to this machine alone.
    pub fn status_open(&self) -> bool
        ensures { result ≡ self.now.status_open }
    {
        self.status_open
    }

    /// For how many seconds at most plays go on where the server is drained.
    pub fn drain(&self) -> u64
        ensures { result ≡ self.now.drain }
    {
        self.drain
    }

    /// The path of the file of users, where those who ask have to be some of them.
    pub fn users(&self) -> Option<&str>
        ensures { option_map (λ s. s.now) result ≡ self.now.users }
    {
        self.users.as_deref()
    }

    /// Whether the configuration is taken up anew where its file changes.
    pub fn watch(&self) -> bool
        ensures { result ≡ self.now.watch }
    {
        self.watch
    }

    /// The key of those that stay as long as a server runs which is another in this configuration, if one is.
    pub fn changed_key(&self, wanted: &Operation) -> Option<&'static str> {
        if !are_same_files(self.journal.as_ref(), wanted.journal.as_ref()) {
            Some("journal_files")
        } else if wanted.status != self.status {
            Some("status")
        } else if wanted.proxy != self.proxy {
            Some("proxy")
        } else if !are_same_paths(self.users.as_deref(), wanted.users.as_deref()) {
            Some("users")
        } else if wanted.watch != self.watch {
            Some("watch")
        } else {
            None
        }
    }
}

// Whether both are the same path, or none.
fn are_same_paths(one: Option<&str>, other: Option<&str>) -> bool {
    match (one, other) {
        (None, None) => true,
        (Some(one), Some(other)) => one == other,
        _ => false,
    }
}

// Whether the journal is written to the same files.
fn are_same_files(one: Option<&JournalFiles>, other: Option<&JournalFiles>) -> bool {
    match (one, other) {
        (None, None) => true,
        (Some(one), Some(other)) => one.is_same(other),
        _ => false,
    }
}

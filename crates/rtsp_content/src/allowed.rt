//! For whom presentations are there, where that isn't everybody.

ghost use Rattle.std.specs.Prelude.{◌≡◌, ◌⊎◌, [], Err, IsUtf8, bytes_eq, codes, option_map};
ghost use Rattle.std.specs.List.{list_any};
ghost use Rattle.toml.specs.Data.{Data, get_member};
ghost use Rattle.toml.specs.Parse.{parse_document};
ghost use Rattle.toml.specs.View.{view, table_view, array_view};
ghost use Rattle.rtsp_text.specs.Results.{Gives, GivesBy};
ghost use Rattle.rtsp_content.specs.declared.fault.TableFault.TheVariants.{OutOfMemory};
ghost use Rattle.rtsp_content.specs.Fault.{Read};
ghost use Rattle.rtsp_content.specs.Tables.{each_from};
ghost use Rattle.rtsp_content.specs.AllowedValue.{has_user, names_users, row_lets, lets};
ghost use Rattle.rtsp_content.specs.Allowed.{as_user, alone, names_in, users_in, row_of, as_row, with_users, rows_of, where_named, allowed_of, allowed_of_document};

use crate::fault::{TableFault, must};
use crate::keys::{Form, item_count, list_at, table_at, text_at, value_at};
use crate::limits::{MAX_ALLOWED, MAX_PRESENTATIONS};
use rtsp_text::Text;
use std::alloc::Global;
use std::marker::Model;
use toml::value::Array;
use toml::{Table, Value};

/// A presentation, and the users for whom alone it is there, where it names some.
#[derive(Drop)]
pub struct AllowedRow {
    name: String,
    users: Option<Vec<Text>>,
}

impl Model for AllowedRow {
    ghost use Rattle.rtsp_content.specs.AllowedValue.{AllowedValue};

    ghost Value = { AllowedValue };

    ghost use Rattle.rtsp_content.specs.AllowedView.{row_value};

    ghost view = { row_value };
}

/// For whom presentations are there, where some of them aren't there for everybody.
#[derive(Drop)]
pub struct Allowed {
    rows: Vec<AllowedRow>,
}

impl Model for Allowed {
    ghost use Rattle.std.specs.Prelude.{List};
    ghost use Rattle.rtsp_content.specs.AllowedValue.{AllowedValue};

    ghost Value = { List AllowedValue };

    ghost view = { λ a. a.rows.items };
}

// What a value of an array states, whatever stands before it.
trait Listed: Drop {
    ghost said: { Data → Read Self };

    fn read(alloc: Global, value: &Value) -> Result<Self, TableFault>
        ensures { Gives OutOfMemory result (said (view value.now)) };
}

fn read_all<T: Listed>(alloc: Global, values: &Array) -> Result<Vec<T>, TableFault>
    ensures { GivesBy OutOfMemory (λ v. v.items) result (each_from (alone T.said) [] (array_view values.now)) }
{
    let mut entries = Vec::new(alloc);
    for value in values {
        let entry = T::read(alloc, value)?;
        entries.push(entry)?;
    }
    Ok(entries)
}

impl Listed for Text {
    ghost said = { as_user };

    fn read(alloc: Global, value: &Value) -> Result<Text, TableFault> {
        let Some(name) = value.as_str() else {
            return Err(TableFault::BadValue);
        };
        Ok(Text::from_slice(alloc, name.as_bytes())?)
    }
}

fn names_in(alloc: Global, value: &Value) -> Result<Vec<Text>, TableFault>
    ensures { GivesBy OutOfMemory (λ v. v.items) result (names_in (view value.now)) }
{
    let Some(values) = value.as_array() else {
        return Err(TableFault::BadValue);
    };
    must(item_count(values) <= MAX_ALLOWED, TableFault::BadValue)?;
    read_all(alloc, values)
}

fn users_at(alloc: Global, table: &Table) -> Result<Option<Vec<Text>>, TableFault>
    ensures { GivesBy OutOfMemory (λ o. option_map (λ v. v.items) o) result (users_in (table_view table.now)) }
{
    match value_at(table, "allow") {
        Some(value) => Ok(Some(names_in(alloc, value)?)),
        None => Ok(None),
    }
}

fn row_of(alloc: Global, table: &Table) -> Result<AllowedRow, TableFault>
    ensures { Gives OutOfMemory result (row_of (table_view table.now)) }
{
    let name = text_at(alloc, table, "name", Form::Name)?;
    let users = users_at(alloc, table)?;
    Ok(AllowedRow { name, users })
}

impl Listed for AllowedRow {
    ghost said = { as_row };

    fn read(alloc: Global, value: &Value) -> Result<AllowedRow, TableFault> {
        match value.as_table() {
            Some(table) => row_of(alloc, table),
            None => Err(TableFault::BadValue),
        }
    }
}

fn has_user(users: &[Text], user: &[u8]) -> bool
    ensures { result ≡ list_any (λ u. bytes_eq u user.now) users.now }
{
    users.iter().any(|text| text.as_bytes() == user)
}

impl AllowedRow {
    /// The presentation's name.
    pub fn name(&self) -> &str
        ensures { result.now ≡ self.now.name }
    {
        self.name.as_str()
    }

    /// The users that it names, where it names some.
    pub fn users(&self) -> Option<&[Text]>
        ensures { option_map (λ u. u.now) result ≡ self.now.users }
    {
        match &self.users {
            Some(users) => Some(users.as_slice()),
            None => None,
        }
    }

    fn has_user(&self, user: &[u8]) -> bool
        ensures { result ≡ has_user user.now self.now.users }
    {
        match &self.users {
            Some(users) => has_user(users.as_slice(), user),
            None => true,
        }
    }

    fn lets(&self, name: &[u8], user: &[u8]) -> bool
        ensures { result ≡ row_lets name.now user.now self.now }
    {
        self.name.as_bytes() != name || self.has_user(user)
    }

    fn names_users(&self) -> bool
        ensures { result ≡ names_users self.now }
    {
        self.users.is_some()
    }
}

fn are_named(rows: &[AllowedRow]) -> bool
    ensures { result ≡ list_any names_users rows.now }
{
    rows.iter().any(|row| row.names_users())
}

// Users are named only where there are some.
fn with_users(server: &Table, rows: &[AllowedRow]) -> Result<(), TableFault>
    ensures { result ≡ with_users (get_member (codes "users") (table_view server.now)) rows.now }
{
    match value_at(server, "users") {
        Some(_) => Ok(()),
        None => must(!are_named(rows), TableFault::Missing),
    }
}

fn rows_of(alloc: Global, table: &Table) -> Result<Vec<AllowedRow>, TableFault>
    ensures { GivesBy OutOfMemory (λ v. v.items) result (rows_of (table_view table.now)) }
{
    let server = table_at(table, "server")?;
    let items = list_at(table, "presentation", MAX_PRESENTATIONS)?;
    let rows: Vec<AllowedRow> = read_all(alloc, items)?;
    with_users(server, rows.as_slice())?;
    Ok(rows)
}

fn allowed_of(alloc: Global, table: &Table) -> Result<Option<Allowed>, TableFault>
    ensures { Gives OutOfMemory result (allowed_of (table_view table.now)) }
{
    let rows = rows_of(alloc, table)?;
    if are_named(rows.as_slice()) {
        Ok(Some(Allowed { rows }))
    } else {
        Ok(None)
    }
}

impl Allowed {
    /// Reads for whom the presentations of a configuration are there, from the bytes of a TOML document.
    /// None where each is there for everybody. Other keys are not looked at.
    pub fn read(alloc: Global, bytes: &[u8]) -> Result<Option<Allowed>, TableFault>
        ensures text { IsUtf8 bytes.now
            → Gives OutOfMemory result (allowed_of_document (parse_document bytes.now)) }
        ensures other { ¬ IsUtf8 bytes.now
            → (result ≡ Err TableFault.NotToml) ⊎ (result ≡ Err TableFault.OutOfMemory) }
    {
        match toml::table_from_slice(alloc, bytes) {
            Ok(table) => allowed_of(alloc, &table),
            Err(error) => Err(if error.is_memory() {
                TableFault::OutOfMemory
            } else {
                TableFault::NotToml
            }),
        }
    }

    /// The presentations in the order of the configuration.
    pub fn rows(&self) -> &[AllowedRow]
        ensures { result.now ≡ self.now }
    {
        self.rows.as_slice()
    }

    /// Whether the presentation of a name is there for a user. One that names no users is there for
    /// everybody.
    pub fn lets(&self, name: &[u8], user: &[u8]) -> bool
        ensures { result ≡ lets name.now user.now self.now }
    {
        self.rows.iter().all(|row| row.lets(name, user))
    }
}

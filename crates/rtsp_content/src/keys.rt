//! The values at the keys of a TOML table.

ghost use Rattle.std.specs.Prelude.{◌≡◌, ◌≤◌, true, Some, IfOk, IfSome, string_bytes, option_map};
ghost use Rattle.std.specs.List.{list_all};
ghost use Rattle.toml.specs.Data.{get_member};
ghost use Rattle.toml.specs.View.{view, table_view, array_view};
ghost use Rattle.rtsp_text.specs.Results.{GivesBy};
ghost use Rattle.rtsp_content.specs.declared.fault.TableFault.TheVariants.{OutOfMemory};
ghost use Rattle.rtsp_content.specs.Form as form;
ghost use Rattle.rtsp_content.specs.Form.{has_form};
ghost use Rattle.rtsp_content.specs.Keys as keys;
ghost use Rattle.rtsp_content.specs.Keys.{as_number, as_flag, as_text, table_in, list_in};
ghost use Rattle.rtsp_content.specs.Keys.{AreFew, few, item_count};

use crate::fault::TableFault;
use crate::limits::{MAX_ADDRESS, MAX_ENCODING, MAX_FOLDER, MAX_FORMAT_PARAMETERS, MAX_NAME};
use std::alloc::Global;
use toml::value::Array;
use toml::{Table, Value};

/// The form that a text has to have.
#[derive(Clone, Copy)]
pub enum Form {
    /// 1 to 64 of `a` to `z`, digits, `-` and `_`.
    Name,

    /// 1 to 32 letters, digits and `-`.
    Encoding,

    /// 1 to 1,024 printable characters of ASCII and spaces.
    FormatParameters,

    /// 1 to 1,024 bytes, none of them a control of ASCII.
    Folder,

    /// 1 to 21 digits, `.` and `:`.
    Address,

    /// Any text.
    Path,
}

fn is_name_byte(byte: u8) -> bool
    ensures { result ≡ form.is_name_byte byte }
{
    byte.is_ascii_lowercase() || byte.is_ascii_digit() || byte == b'-' || byte == b'_'
}

fn is_encoding_byte(byte: u8) -> bool
    ensures { result ≡ form.is_encoding_byte byte }
{
    byte.is_ascii_alphanumeric() || byte == b'-'
}

fn has_name_bytes(text: &str) -> bool
    ensures { result ≡ list_all form.is_name_byte text.now }
{
    text.as_bytes().iter().all(|b| is_name_byte(*b))
}

fn has_encoding_bytes(text: &str) -> bool
    ensures { result ≡ list_all form.is_encoding_byte text.now }
{
    text.as_bytes().iter().all(|b| is_encoding_byte(*b))
}

fn is_parameter_byte(byte: u8) -> bool
    ensures { result ≡ form.is_parameter_byte byte }
{
    (b' '..=b'~').contains(&byte)
}

fn is_folder_byte(byte: u8) -> bool
    ensures { result ≡ form.is_folder_byte byte }
{
    b' ' <= byte && byte != 127
}

fn is_address_byte(byte: u8) -> bool
    ensures { result ≡ form.is_address_byte byte }
{
    byte.is_ascii_digit() || byte == b'.' || byte == b':'
}

fn has_parameter_bytes(text: &str) -> bool
    ensures { result ≡ list_all form.is_parameter_byte text.now }
{
    text.as_bytes().iter().all(|b| is_parameter_byte(*b))
}

fn has_folder_bytes(text: &str) -> bool
    ensures { result ≡ list_all form.is_folder_byte text.now }
{
    text.as_bytes().iter().all(|b| is_folder_byte(*b))
}

fn has_address_bytes(text: &str) -> bool
    ensures { result ≡ list_all form.is_address_byte text.now }
{
    text.as_bytes().iter().all(|b| is_address_byte(*b))
}

fn has_form(text: &str, form: Form) -> bool
    ensures { result ≡ has_form form text.now }
{
    match form {
        Form::Name => 1 <= text.len() && text.len() <= MAX_NAME && has_name_bytes(text),
        Form::Encoding => 1 <= text.len() && text.len() <= MAX_ENCODING && has_encoding_bytes(text),
        Form::FormatParameters => {
            1 <= text.len() && text.len() <= MAX_FORMAT_PARAMETERS && has_parameter_bytes(text)
        }
        Form::Folder => 1 <= text.len() && text.len() <= MAX_FOLDER && has_folder_bytes(text),
        Form::Address => 1 <= text.len() && text.len() <= MAX_ADDRESS && has_address_bytes(text),
        Form::Path => true,
    }
}

/// The value at a key.
pub fn value_at<'a>(table: &'a Table, key: &str) -> Option<&'a Value>
    ensures { option_map (λ v. view v.now) result
        ≡ get_member key.now (table_view table.entry.now) }
{
    table.get(key)
}

/// The number, from `least` to `most`.
pub(crate) fn number(value: &Value, least: u64, most: u64) -> Result<u64, TableFault>
    ensures value { result ≡ as_number least most (view value.now) }
    ensures range { IfOk result (λ n. (least ≤ n) × (n ≤ most)) }
{
    let Some(number) = value.as_integer() else {
        return Err(TableFault::BadValue);
    };
    let Ok(number) = u64::try_from(number) else {
        return Err(TableFault::BadValue);
    };
    if least <= number && number <= most {
        Ok(number)
    } else {
        Err(TableFault::BadValue)
    }
}

/// A number from `least` to `most`.
pub fn number_at(table: &Table, key: &str, least: u64, most: u64) -> Result<u64, TableFault>
    ensures value { result ≡ keys.number_at key.now least most (table_view table.now) }
    ensures range { IfOk result (λ n. (least ≤ n) × (n ≤ most)) }
{
    match value_at(table, key) {
        Some(value) => number(value, least, most),
        None => Err(TableFault::Missing),
    }
}

/// A number from `least` to `most`, or the default where the key is missing.
pub fn number_at_or(
    table: &Table,
    key: &str,
    least: u64,
    most: u64,
    default: u64,
) -> Result<u64, TableFault>
    requires { (least ≤ default) × (default ≤ most) }
    ensures value { result ≡ keys.number_at_or key.now least most default (table_view table.now) }
    ensures range { IfOk result (λ n. (least ≤ n) × (n ≤ most)) }
{
    match value_at(table, key) {
        Some(value) => number(value, least, most),
        None => Ok(default),
    }
}

/// A number from `least` to `most`, if the key is there.
pub fn optional_number_at(
    table: &Table,
    key: &str,
    least: u64,
    most: u64,
) -> Result<Option<u64>, TableFault>
    ensures value { result ≡ keys.optional_number_at key.now least most (table_view table.now) }
    ensures range { IfOk result (λ o. IfSome o (λ n. (least ≤ n) × (n ≤ most))) }
{
    match value_at(table, key) {
        Some(value) => Ok(Some(number(value, least, most)?)),
        None => Ok(None),
    }
}

fn flag(value: &Value) -> Result<bool, TableFault>
    ensures { result ≡ as_flag (view value.now) }
{
    match value.as_bool() {
        Some(flag) => Ok(flag),
        None => Err(TableFault::BadValue),
    }
}

/// Whether it is so; not where the key is missing.
pub fn flag_at(table: &Table, key: &str) -> Result<bool, TableFault>
    ensures { result ≡ keys.flag_at key.now (table_view table.now) }
{
    match value_at(table, key) {
        Some(value) => flag(value),
        None => Ok(false),
    }
}

/// The same where the key may be missing, which means this.
pub fn flag_at_or(table: &Table, key: &str, default: bool) -> Result<bool, TableFault>
    ensures { result ≡ keys.flag_at_or key.now default (table_view table.now) }
{
    match value_at(table, key) {
        Some(value) => flag(value),
        None => Ok(default),
    }
}

fn text(alloc: Global, value: &Value, form: Form) -> Result<String, TableFault>
    ensures value { GivesBy OutOfMemory (λ s. string_bytes s) result
        (as_text form (view value.now)) }
    ensures form { IfOk result (λ s. has_form form (string_bytes s) ≡ true) }
{
    let Some(text) = value.as_str() else {
        return Err(TableFault::BadValue);
    };
    if !has_form(text, form) {
        return Err(TableFault::BadValue);
    }
    Ok(String::from_str(alloc, text)?)
}

/// A text of the form.
pub fn text_at(alloc: Global, table: &Table, key: &str, form: Form) -> Result<String, TableFault>
    ensures value { GivesBy OutOfMemory (λ s. string_bytes s) result
        (keys.text_at key.now form (table_view table.now)) }
    ensures form { IfOk result (λ s. has_form form (string_bytes s) ≡ true) }
{
    match value_at(table, key) {
        Some(value) => text(alloc, value, form),
        None => Err(TableFault::Missing),
    }
}

/// A text of the form, if the key is there.
pub fn optional_text_at(
    alloc: Global,
    table: &Table,
    key: &str,
    form: Form,
) -> Result<Option<String>, TableFault>
    ensures value { GivesBy OutOfMemory (λ o. option_map (λ s. string_bytes s) o) result
        (keys.optional_text_at key.now form (table_view table.now)) }
    ensures form { IfOk result (λ o. IfSome o (λ s. has_form form (string_bytes s) ≡ true)) }
{
    match value_at(table, key) {
        Some(value) => Ok(Some(text(alloc, value, form)?)),
        None => Ok(None),
    }
}

fn table(value: &Value) -> Result<&Table, TableFault>
    ensures { GivesBy OutOfMemory (λ t. table_view t.now) result
        (table_in (Some (view value.now))) }
{
    match value.as_table() {
        Some(table) => Ok(table),
        None => Err(TableFault::BadValue),
    }
}

/// The table at a key.
pub fn table_at<'a>(table: &'a Table, key: &str) -> Result<&'a Table, TableFault>
    ensures { GivesBy OutOfMemory (λ t. table_view t.now) result
        (table_in (get_member key.now (table_view table.entry.now))) }
{
    match value_at(table, key) {
        Some(value) => self::table(value),
        None => Err(TableFault::Missing),
    }
}

/// How many items a list has.
pub(crate) fn item_count(items: &Array) -> usize
    ensures { result ≡ item_count (array_view items.now) }
{
    items.as_slice().len()
}

fn few(items: &Array, most: usize) -> Result<&Array, TableFault>
    ensures value { GivesBy OutOfMemory (λ v. array_view v.now) result
        (few most (array_view items.entry.now)) }
    ensures count { IfOk result (λ v. AreFew most (array_view v.now)) }
{
    let count = item_count(items);
    if 1 <= count && count <= most {
        Ok(items)
    } else {
        Err(TableFault::BadValue)
    }
}

/// The items of a value, of which there are 1 to `most`.
pub(crate) fn list(value: &Value, most: usize) -> Result<&Array, TableFault>
    ensures value { GivesBy OutOfMemory (λ v. array_view v.now) result
        (list_in most (Some (view value.now))) }
    ensures count { IfOk result (λ v. AreFew most (array_view v.now)) }
{
    match value.as_array() {
        Some(items) => few(items, most),
        None => Err(TableFault::BadValue),
    }
}

/// The items at a key, of which there are 1 to `most`.
pub fn list_at<'a>(table: &'a Table, key: &str, most: usize) -> Result<&'a Array, TableFault>
    ensures value { GivesBy OutOfMemory (λ v. array_view v.now) result
        (list_in most (get_member key.now (table_view table.entry.now))) }
    ensures count { IfOk result (λ v. AreFew most (array_view v.now)) }
{
    match value_at(table, key) {
        Some(value) => list(value, most),
        None => Err(TableFault::Missing),
    }
}

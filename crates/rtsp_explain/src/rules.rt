//! What a value has to be.

use crate::lists::{addresses_fault, names_fault, starts_fault};
use crate::numbers::grouped;
use std::alloc::{AllocError, Global};
use toml::Value;

/// What a value has to be.
#[derive(Clone, Copy)]
pub(crate) enum Rule {
    /// A number from the first to the second.
    Number(i64, i64),
    /// An even number from the first to the second.
    Even(i64, i64),
    /// True or false.
    Flag,
    /// One of the two words.
    OneOf(&'static str, &'static str),
    /// A text of 1 to so many bytes, each of which the class has.
    Text(Class, usize),
    /// Any text.
    Any,
    /// A list of 1 to so many IPv4 addresses.
    Addresses(usize),
    /// A list of at most so many texts.
    Names(usize),
    /// A list of 1 to so many ascending numbers, the first 0.
    Starts(usize),
}

/// The bytes that a text may have.
#[derive(Clone, Copy)]
pub(crate) enum Class {
    /// `a` to `z`, digits, `-` and `_`.
    Name,
    /// Letters, digits and `-`.
    Encoding,
    /// Printable characters of ASCII, and spaces.
    Printable,
    /// All but the controls of ASCII.
    Path,
    /// Digits, `.` and `:`.
    Address,
}

impl Class {
    fn has(self, byte: u8) -> bool {
        match self {
            Class::Name => {
                byte.is_ascii_lowercase() || byte.is_ascii_digit() || byte == b'-' || byte == b'_'
            }
            Class::Encoding => byte.is_ascii_alphanumeric() || byte == b'-',
            Class::Printable => (b' '..=b'~').contains(&byte),
            Class::Path => b' ' <= byte && byte != 127,
            Class::Address => byte.is_ascii_digit() || byte == b'.' || byte == b':',
        }
    }
}

/// What a value is, in a word.
pub(crate) fn kind_of(value: &Value) -> &'static str {
    match value {
        Value::String(_) => "a text",
        Value::Integer(_) => "a number",
        Value::Float(_) => "a number with a point",
        Value::Boolean(_) => "true or false",
        Value::Datetime(_) => "a date or time",
        Value::Array(_) => "a list",
        Value::Table(_) => "a table",
    }
}

impl Rule {
    /// What a value has to be, in words, with what it is for.
    pub(crate) fn wanted(self, alloc: Global, what: &str) -> Result<String, AllocError> {
        match self {
            Rule::Number(least, most) | Rule::Even(least, most) => {
                let (least, most) = (grouped(alloc, least)?, grouped(alloc, most)?);
                format!(in alloc; "{least} to {most} ({what})")
            }
            Rule::Flag => format!(in alloc; "true or false: {what}"),
            Rule::OneOf(..) | Rule::Text(..) | Rule::Any => String::from_str(alloc, what),
            Rule::Addresses(most) => format!(in alloc; "1 to {most} IPv4 addresses ({what})"),
            Rule::Names(most) => up_to(alloc, "0", most, "names", what),
            Rule::Starts(most) => up_to(alloc, "1", most, "ascending numbers, the first 0", what),
        }
    }

    /// Why a value is refused, if it is.
    pub(crate) fn fault(
        self,
        alloc: Global,
        value: &Value,
        what: &str,
    ) -> Result<Option<String>, AllocError> {
        let wanted = self.wanted(alloc, what)?;
        let wanted = wanted.as_str();
        match self {
            Rule::Number(least, most) => number_fault(alloc, value, least, most, wanted),
            Rule::Even(least, most) => even_fault(alloc, value, least, most, wanted),
            Rule::Flag => flag_fault(alloc, value, wanted),
            Rule::OneOf(one, other) => one_of_fault(alloc, value, one, other, wanted),
            Rule::Text(class, most) => text_fault(alloc, value, class, most, wanted),
            Rule::Any => any_fault(alloc, value, wanted),
            Rule::Addresses(_) | Rule::Names(_) | Rule::Starts(_) => {
                self.list_fault(alloc, value, wanted)
            }
        }
    }

    // Why a list is refused, if it is.
    fn list_fault(
        self,
        alloc: Global,
        value: &Value,
        wanted: &str,
    ) -> Result<Option<String>, AllocError> {
        let Some(items) = value.as_array() else {
            return of_kind(alloc, value, "", wanted);
        };
        let items = items.as_slice();
        match self {
            Rule::Addresses(most) => addresses_fault(alloc, items, most, wanted),
            Rule::Names(most) => names_fault(alloc, items, most, wanted),
            Rule::Starts(most) => starts_fault(alloc, items, most, wanted),
            _ => Ok(None),
        }
    }
}

// Why a number is refused, if it is.
fn number_fault(
    alloc: Global,
    value: &Value,
    least: i64,
    most: i64,
    wanted: &str,
) -> Result<Option<String>, AllocError> {
    let Some(number) = value.as_integer() else {
        return of_kind(alloc, value, "a number: ", wanted);
    };
    if least <= number && number <= most {
        return Ok(None);
    }
    let number = grouped(alloc, number)?;
    let why = format!(in alloc; "is {number}; it has to be {wanted}")?;
    Ok(Some(why))
}

// Why a number that has to be even is refused, if it is.
fn even_fault(
    alloc: Global,
    value: &Value,
    least: i64,
    most: i64,
    wanted: &str,
) -> Result<Option<String>, AllocError> {
    match value.as_integer() {
        Some(number) if least <= number && number <= most && number % 2 != 0 => {
            let why = format!(in alloc; "is {number}; it has to be even")?;
            Ok(Some(why))
        }
        _ => number_fault(alloc, value, least, most, wanted),
    }
}

// Why it is neither true nor false, if it isn't.
fn flag_fault(alloc: Global, value: &Value, wanted: &str) -> Result<Option<String>, AllocError> {
    match value.as_bool() {
        Some(_) => Ok(None),
        None => of_kind(alloc, value, "", wanted),
    }
}

// Why it is no text, if it isn't.
fn any_fault(alloc: Global, value: &Value, wanted: &str) -> Result<Option<String>, AllocError> {
    match value.as_str() {
        Some(_) => Ok(None),
        None => of_kind(alloc, value, "a text: ", wanted),
    }
}

// Why it is neither of two words, if it isn't.
fn one_of_fault(
    alloc: Global,
    value: &Value,
    one: &str,
    other: &str,
    wanted: &str,
) -> Result<Option<String>, AllocError> {
    match value.as_str() {
        Some(text) if text == one || text == other => Ok(None),
        Some(text) => other_text(alloc, text, wanted),
        None => of_kind(alloc, value, "a text: ", wanted),
    }
}

// Why a text is refused, if it is.
fn text_fault(
    alloc: Global,
    value: &Value,
    class: Class,
    most: usize,
    wanted: &str,
) -> Result<Option<String>, AllocError> {
    let Some(text) = value.as_str() else {
        return of_kind(alloc, value, "a text: ", wanted);
    };
    if most < text.len() {
        let count = grouped(alloc, i64::try_from(text.len()).unwrap_or(i64::MAX))?;
        let why = format!(in alloc; "has {count} bytes; it has to be {wanted}")?;
        return Ok(Some(why));
    }
    if !text.is_empty() && text.as_bytes().iter().all(|byte| class.has(*byte)) {
        return Ok(None);
    }
    other_text(alloc, text, wanted)
}

// The fault of another text than is wanted.
fn other_text(alloc: Global, text: &str, wanted: &str) -> Result<Option<String>, AllocError> {
    let why = format!(in alloc; "is {text:?}; it has to be {wanted}")?;
    Ok(Some(why))
}

// How many of what a list has to have, and what it is for.
fn up_to(
    alloc: Global,
    least: &str,
    most: usize,
    items: &str,
    what: &str,
) -> Result<String, AllocError> {
    let most = grouped(alloc, i64::try_from(most).unwrap_or(i64::MAX))?;
    format!(in alloc; "{least} to {most} {items} ({what})")
}

// The fault of a value of another kind than is wanted.
fn of_kind(
    alloc: Global,
    value: &Value,
    kind: &str,
    wanted: &str,
) -> Result<Option<String>, AllocError> {
    let is = kind_of(value);
    let why = format!(in alloc; "is {is}; it has to be {kind}{wanted}")?;
    Ok(Some(why))
}

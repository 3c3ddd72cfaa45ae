//! Tables: texts with a row in each line and bars between its fields, and lists of rows.

use std::alloc::Global;
use std::process::Abort;

/// What the lines of a table say.
pub(crate) trait Lines {
    /// Whether what a line says is so.
    fn holds(alloc: Global, line: &str) -> bool;
}

/// Sees that what each line says is so.
pub(crate) fn hold_lines<L: Lines>(rt: &impl Abort, alloc: Global, table: &str) {
    for line in table.lines() {
        assert!(rt; L::holds(alloc, line), "{line}");
    }
}

/// A row of a list.
pub(crate) trait Row {
    /// Whether what it says is so.
    fn holds(&self, alloc: Global) -> bool;
}

/// Sees that what each row says is so.
pub(crate) fn hold_rows<T: Row>(rt: &impl Abort, alloc: Global, rows: &[T]) {
    for (number, row) in rows.iter().enumerate() {
        assert!(rt; row.holds(alloc), "row {number}");
    }
}

/// What stands in front of the first bar of a row, and behind it.
pub(crate) fn cut(row: &str) -> (&str, &str) {
    match row.split_once('|') {
        Some((first, rest)) => (first.trim(), rest.trim()),
        None => (row.trim(), ""),
    }
}

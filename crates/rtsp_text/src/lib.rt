//! Texts of bytes, read and written: classes of bytes, trimming, splitting, lines, decimal and
//! hexadecimal numbers, and what a writer that appends leaves.

#![tactic(auto)]

mod append;
mod bytes;
mod decimal;
mod hexadecimal;
mod line;
mod list;
mod split;
mod text;
mod trim;

pub use append::{all_or_nothing, append_all};
pub use bytes::{is_blank, is_number, is_token, is_token_byte};
pub use decimal::{digits_number, number_of, three_digits, write_decimal};
pub use hexadecimal::{hex_digits_u32, hex_number, write_hex_u32, write_hex_u128};
pub use line::{Line, line_at};
pub use list::List;
pub use split::split_once;
pub use text::Text;
pub use trim::{trim_end, trim_start, trimmed};

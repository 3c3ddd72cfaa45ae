//! Numbers as they are read most easily.

use std::alloc::{AllocError, Global};

/// A number with a comma before each three digits.
pub fn grouped(alloc: Global, number: i64) -> Result<String, AllocError> {
    let digits = format!(in alloc; "{}", number.unsigned_abs())?;
    let mut text = String::new(alloc);
    if number < 0 {
        text.push('-')?;
    }
    for (index, digit) in digits.as_str().chars().enumerate() {
        if index > 0 && digits.len().saturating_sub(index) % 3 == 0 {
            text.push(',')?;
        }
        text.push(digit)?;
    }
    Ok(text)
}

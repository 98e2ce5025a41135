//! Texts that are made of others. `None` stands for want of memory, and for a part that isn't there.

use std::alloc::Global;
use std::fmt::Display;

/// A text, with the first place of a part changed.
pub fn changed(alloc: Global, text: &str, part: &str, new: &str) -> Option<String> {
    let (before, after) = text.split_once(part)?;
    format!(in alloc; "{before}{new}{after}").ok()
}

/// A text with another behind it so often, each time with its number as four digits in place of `#`.
pub fn numbered(alloc: Global, start: &str, repeated: &str, count: u16) -> Option<String> {
    let mut text = String::from_str(alloc, start).ok()?;
    for number in 0..count {
        let digits = format!(in alloc; "{number:04x}").ok()?;
        let part = repeated.replace(alloc, "#", digits.as_str()).ok()?;
        text.push_str(part.as_str()).ok()?;
    }
    Some(text)
}

/// A text with another and spaces behind it, up to a length in bytes.
pub fn padded(alloc: Global, text: &str, end: &str, length: usize) -> Option<String> {
    let used = text.len().saturating_add(end.len());
    let spaces = " ".repeat(alloc, length.saturating_sub(used)).ok()?;
    format!(in alloc; "{text}{end}{spaces}").ok()
}

/// Whether a value prints so.
pub fn prints<T: Display>(alloc: Global, value: &T, wanted: &str) -> bool {
    match value.to_string(alloc) {
        Ok(text) => text.as_str() == wanted,
        Err(_) => false,
    }
}

//! Texts that are repeated, each time with another number.
use std::alloc::{AllocError, Global};

/// The text once for each number from `first` on, up to `end` without it, with the number in place of
/// each mark.
///
/// # Errors
///
/// Memory runs out.
pub fn numbered(
    alloc: Global,
    text: &str,
    mark: &str,
    first: u64,
    end: u64,
) -> Result<String, AllocError> {
    let mut all = String::new(alloc);
    for number in first..end {
        let number = format!(in alloc; "{number}")?;
        let one = text.replace(alloc, mark, number.as_str())?;
        all.push_str(one.as_str())?;
    }
    Ok(all)
}

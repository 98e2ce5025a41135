//! What stands for long texts in the bodies of conversations:
//!
//! - `$DIGEST`: the SHA-256 of the sample map's text; `$LOCKED`: that of the text in which the coding
//!   field has a read lock;
//! - `$NONE`: work in which there is none;
//! - `$MAP`: the sample map's text as JSON has it, without its quotation marks, and `$MAP~old~new~` the
//!   same with another part in place of one;
//! - `$TIMES~n~text~`: the text so often, each time with another number in place of `#`, from 100 on;
//! - `$FF` in a request: the byte 255, which is in no text;
//! - `<0.6=00000040 3.7=80000000>`: the blocks of a read-back, zeros but for these words, each after its
//!   block and its place in it; block 0 has eight words where its last is among them, and else seven.
use crate::numbered::numbered;
use crate::samples::MAP;
use std::alloc::{AllocError, Global};
use std::test::Fail;

/// What stands for texts that never differ: the SHA-256 of the sample map's text, that of its text
/// where the coding field has a read lock, and work in which there is none.
const CONSTANTS: &[(&str, &str)] = &[
    (
        "$DIGEST",
        "453e1a59aaf4956999cac589cf209d34bfa882946bada4f1aa5199c4256c4fab",
    ),
    (
        "$LOCKED",
        "e96d07bc3b7df96f50dff86c928556204aa1af88fc584d41f0698c5182763676",
    ),
    ("$NONE", r#"{"bits":[],"keys":{}}"#),
];

/// The text with the constants in place of what stands for them.
fn with_constants(alloc: Global, text: &str) -> Result<String, AllocError> {
    let mut filled = String::from_str(alloc, text)?;
    for row in CONSTANTS {
        filled = filled.as_str().replace(alloc, row.0, row.1)?;
    }
    Ok(filled)
}

/// The text with what each placeholder stands for in its place.
pub fn filled(alloc: Global, text: &str) -> Result<String, Fail> {
    let mut filled = with_constants(alloc, text)?;
    filled = with_blocks(alloc, filled.as_str())?;
    filled = with_repeated(alloc, filled.as_str())?;
    with_map(alloc, filled.as_str())
}

/// The bytes of the text with what each placeholder stands for in its place.
pub fn filled_bytes(alloc: Global, text: &str) -> Result<Vec<u8>, Fail> {
    let text = filled(alloc, text)?;
    let Some((before, after)) = text.as_str().split_once("$FF") else {
        return Ok(text.as_bytes().to_vec(alloc)?);
    };
    let mut bytes = before.as_bytes().to_vec(alloc)?;
    bytes.push(0xff)?;
    bytes.extend_from_slice(after.as_bytes())?;
    Ok(bytes)
}

/// The text with the sample map in place of its placeholder.
fn with_map(alloc: Global, text: &str) -> Result<String, Fail> {
    let Some((before, after)) = text.split_once("$MAP") else {
        return Ok(String::from_str(alloc, text)?);
    };
    let (old, new, after) = change_of_map(after).ok_or("no change of the map")?;
    let map = map_with(alloc, old, new)?;
    Ok(format!(in alloc; "{before}{map}{after}")?)
}

/// What is changed of the map by what stands behind its placeholder, and what is behind that. A line
/// feed, which isn't in the text, stands for no change.
fn change_of_map(after: &str) -> Option<(&str, &str, &str)> {
    match after.strip_prefix("~") {
        Some(change) => two_parts(change),
        None => Some(("\n", "", after)),
    }
}

/// The sample map's text as JSON has it, with another part in place of one.
fn map_with(alloc: Global, old: &str, new: &str) -> Result<String, AllocError> {
    let mut map = MAP.replace(alloc, "\"", "\\\"")?;
    map = map.as_str().replace(alloc, "\n", "\\n")?;
    map.as_str().replace(alloc, old, new)
}

/// Two parts, each with its end, and what is behind them.
fn two_parts(text: &str) -> Option<(&str, &str, &str)> {
    let (first, rest) = text.split_once("~")?;
    let (second, after) = rest.split_once("~")?;
    Some((first, second, after))
}

/// The text with what is repeated in place of its placeholders.
fn with_repeated(alloc: Global, text: &str) -> Result<String, Fail> {
    let Some((before, rest)) = text.split_once("$TIMES~") else {
        return Ok(String::from_str(alloc, text)?);
    };
    let mut filled = String::from_str(alloc, before)?;
    for part in rest.split("$TIMES~") {
        let (count, repeated, after) = two_parts(part).ok_or("no end of what is repeated")?;
        let count: u64 = count.parse().map_err(|_| "no number of times")?;
        let times = numbered(alloc, repeated, "#", 100, count.saturating_add(100))?;
        filled.push_str(times.as_str())?;
        filled.push_str(after)?;
    }
    Ok(filled)
}

/// The text with the blocks of a read-back in place of their placeholder.
fn with_blocks(alloc: Global, text: &str) -> Result<String, Fail> {
    let Some((before, rest)) = text.split_once("<") else {
        return Ok(String::from_str(alloc, text)?);
    };
    let (words, after) = rest.split_once(">").ok_or("no end of the blocks")?;
    let mut blocks = String::new(alloc);
    let first = if words.contains("0.7=") { 8u64 } else { 7 };
    for (index, length) in [("0", first), ("1", 8), ("2", 8), ("3", 8)] {
        let mark = if blocks.is_empty() { "[" } else { "," };
        let block = block(alloc, index, length, words)?;
        blocks.push_str(mark)?;
        blocks.push_str(block.as_str())?;
    }
    Ok(format!(in alloc; "{before}{blocks}]{after}")?)
}

/// A block as JSON: zeros but for the words that are its own.
fn block(alloc: Global, index: &str, length: u64, words: &str) -> Result<String, AllocError> {
    let mut block = String::new(alloc);
    for place in 0..length {
        let place = format!(in alloc; "{index}.{place}=")?;
        block.push_str(if block.is_empty() { "[\"" } else { ",\"" })?;
        block.push_str(digits_at(place.as_str(), words))?;
        block.push_str("\"")?;
    }
    block.push_str("]")?;
    Ok(block)
}

/// The digits of the word at a place, or those of zero.
fn digits_at<'a>(place: &str, words: &'a str) -> &'a str {
    for word in words.split(" ") {
        if let Some(digits) = word.strip_prefix(place) {
            return digits;
        }
    }
    "00000000"
}

// The columns of a row that a query shows, as what the tables keep. A column that isn't of its form
// is the fault of a damaged database.
ghost use Rattle.std.specs.Prelude.{◌≡◌, IfOk, option_map};
ghost use Rattle.sqlite.specs.Order.{column, bytes};
ghost use Rattle.office_sql.specs.Prelude.{number_in_cell, text_if, mac_if};

use id_ranges::{KeyDigest, Mac, NotBefore};
use sqlite::types::ValueRef;
use sqlite::{Error, ErrorCode, Row};
use std::alloc::Global;
use std::str;
use text_core::{Chip, Digest, Name, Serial, ShortBytes, Text, Time};

/// The fault of a column that isn't of its form.
pub const DAMAGED: Error = Error::SqliteFailure(ErrorCode::DatabaseCorrupt);

/// A text. `DAMAGED`, as of each function here, where the column has none of that form.
pub(crate) fn text_at(row: &Row, at: usize) -> Result<&str, Error>
    ensures { IfOk result (λ text. text.now ≡ bytes (column row.now at)) }
{
    match row.get_ref(at)? {
        ValueRef::Text(text) => str::from_utf8(text).map_err(|_| DAMAGED),
        _ => Err(DAMAGED),
    }
}

/// A text, or none where the column is NULL.
pub(crate) fn text_if_at(row: &Row, at: usize) -> Result<Option<&str>, Error>
    ensures { IfOk result (λ text. option_map (λ t. t.now) text ≡ text_if (column row.now at)) }
{
    match row.get_ref(at)? {
        ValueRef::Null => Ok(None),
        ValueRef::Text(text) => Ok(Some(str::from_utf8(text).map_err(|_| DAMAGED)?)),
        _ => Err(DAMAGED),
    }
}

fn blob_at(row: &Row, at: usize) -> Result<&[u8], Error>
    ensures { IfOk result (λ blob. blob.now ≡ bytes (column row.now at)) }
{
    match row.get_ref(at)? {
        ValueRef::Blob(blob) => Ok(blob),
        _ => Err(DAMAGED),
    }
}

/// A whole number that isn't below zero.
pub fn whole_at(row: &Row, at: usize) -> Result<u64, Error>
    ensures { IfOk result (λ number. number ≡ number_in_cell (column row.now at)) }
{
    row.get(at)
}

/// A text that is copied out of the row. Fails where memory runs out.
pub(crate) fn owned_text_at(alloc: Global, row: &Row, at: usize) -> Result<Text, Error>
    ensures { IfOk result (λ text. text ≡ bytes (column row.now at)) }
{
    let text = text_at(row, at)?;
    Text::copy_of(alloc, text).map_err(|_| Error::SqliteFailure(ErrorCode::OutOfMemory))
}

/// A name.
pub(crate) fn name_at(row: &Row, at: usize) -> Result<Name, Error>
    ensures { IfOk result (λ name. name ≡ bytes (column row.now at)) }
{
    Name::parse(text_at(row, at)?).ok_or(DAMAGED)
}

/// The identification of a chip.
pub(crate) fn chip_at(row: &Row, at: usize) -> Result<Chip, Error>
    ensures { IfOk result (λ chip. chip ≡ bytes (column row.now at)) }
{
    Chip::parse(text_at(row, at)?).ok_or(DAMAGED)
}

/// A serial number.
pub(crate) fn serial_at(row: &Row, at: usize) -> Result<Serial, Error>
    ensures { IfOk result (λ serial. serial ≡ bytes (column row.now at)) }
{
    Serial::parse(text_at(row, at)?).ok_or(DAMAGED)
}

/// A moment, as records have it.
pub(crate) fn time_at(row: &Row, at: usize) -> Result<Time, Error>
    ensures { IfOk result (λ time. time ≡ bytes (column row.now at)) }
{
    Time::parse(text_at(row, at)?).ok_or(DAMAGED)
}

fn bytes_at(row: &Row, at: usize) -> Result<[u8; 32], Error>
    ensures { IfOk result (λ array. array ≡ bytes (column row.now at)) }
{
    <[u8; 32]>::try_from(blob_at(row, at)?).map_err(|_| DAMAGED)
}

/// A digest.
pub fn digest_at(row: &Row, at: usize) -> Result<Digest, Error>
    ensures { IfOk result (λ digest. digest ≡ bytes (column row.now at)) }
{
    Ok(Digest::from_bytes(bytes_at(row, at)?))
}

/// The digest of a key.
pub(crate) fn key_at(row: &Row, at: usize) -> Result<KeyDigest, Error>
    ensures { IfOk result (λ key. key ≡ bytes (column row.now at)) }
{
    Ok(KeyDigest::from_bytes(bytes_at(row, at)?))
}

/// At most `N` bytes.
pub(crate) fn column_at<const N: usize>(row: &Row, at: usize) -> Result<ShortBytes<N>, Error>
    ensures { IfOk result (λ list. list ≡ bytes (column row.now at)) }
{
    ShortBytes::from_bytes(blob_at(row, at)?).ok_or(DAMAGED)
}

/// The identification of a chip, or none where the column is NULL.
pub(crate) fn chip_if_at(row: &Row, at: usize) -> Result<Option<Chip>, Error>
    ensures { IfOk result (λ chip. chip ≡ text_if (column row.now at)) }
{
    match text_if_at(row, at)? {
        Some(text) => Ok(Some(Chip::parse(text).ok_or(DAMAGED)?)),
        None => Ok(None),
    }
}

/// A serial number, or none where the column is NULL.
pub(crate) fn serial_if_at(row: &Row, at: usize) -> Result<Option<Serial>, Error>
    ensures { IfOk result (λ serial. serial ≡ text_if (column row.now at)) }
{
    match text_if_at(row, at)? {
        Some(text) => Ok(Some(Serial::parse(text).ok_or(DAMAGED)?)),
        None => Ok(None),
    }
}

/// An address, or none where the column is NULL.
pub(crate) fn mac_if_at(row: &Row, at: usize) -> Result<Option<Mac>, Error>
    ensures { IfOk result (λ mac. mac ≡ mac_if (column row.now at)) }
{
    match text_if_at(row, at)? {
        Some(text) => Ok(Some(Mac::parse(text).ok_or(DAMAGED)?)),
        None => Ok(None),
    }
}

/// A beginning of validity, or none where the column is NULL.
pub(crate) fn not_before_if_at(row: &Row, at: usize) -> Result<Option<NotBefore>, Error>
    ensures { IfOk result (λ not_before. not_before ≡ text_if (column row.now at)) }
{
    match text_if_at(row, at)? {
        Some(text) => match NotBefore::read(text) {
            Ok(not_before) => Ok(Some(not_before)),
            Err(_) => Err(DAMAGED),
        },
        None => Ok(None),
    }
}

// The reading of an import, row for row.
ghost use Rattle.std.specs.Prelude.{◌≡◌, IfOk, map, option_map};
ghost use Rattle.csv.specs.Records.{fields_of};
ghost use Rattle.text_core.specs.Prelude.{digest_of_text, all_of, serial_of_text};
ghost use Rattle.id_ranges.specs.Prelude.{fields_of_row, is_header, row_with_serial, import_rows_of, import_table, two_fields, found_row, with_serial};

use crate::KeyDigest;
use crate::records::first_records;
use crate::rows::{ImportRow, ImportRows};
use csv::ByteRecord;
use hex::FromHex;
use std::alloc::{AllocError, Global};
use text_core::{Serial, read_all};

/// How many rows an import may have.
pub const ROW_LIMIT: usize = 500;

/// A row as it was found: its serial number, where its first field is one, and its digest.
#[derive(Clone, Copy, Drop)]
struct FoundRow {
    serial: Option<Serial>,
    key: KeyDigest,
}

/// The rows of an import's text. `Ok(None)`: it is no import. `Ok(Some(None))`: it is one, and one
/// of its serial numbers is not of its form. Err: memory ran out.
pub fn read_rows(alloc: Global, text: &str) -> Result<Option<Option<ImportRows>>, AllocError>
    ensures { IfOk result (λ found. found ≡ import_rows_of text.now) }
{
    // The header, and one row more than there may be.
    let records = first_records(alloc, text.as_bytes(), 2 + ROW_LIMIT)?;
    read_records(alloc, records.as_slice())
}

/// The rows of an import of which these are the records.
fn read_records(
    alloc: Global,
    records: &[ByteRecord],
) -> Result<Option<Option<ImportRows>>, AllocError>
    ensures { IfOk result (λ found. found ≡ option_map (all_of row_with_serial)
        (import_table (map fields_of records.now))) }
{
    let Some((first, rows)) = records.split_first() else {
        return Ok(None);
    };
    if !is_header(first) || ROW_LIMIT < rows.len() {
        return Ok(None);
    }
    let Some(table) = read_table(alloc, rows)? else {
        return Ok(None);
    };
    Ok(Some(read_serials(alloc, table.as_slice())?))
}

/// The rows under a header, as they were found.
fn read_table(alloc: Global, rows: &[ByteRecord]) -> Result<Option<Vec<FoundRow>>, AllocError>
    ensures { IfOk result (λ table. option_map (λ found. found.items) table
        ≡ option_map (map found_row) (all_of fields_of_row (map fields_of rows.now))) }
{
    read_all(alloc, rows, read_row)
}

/// The rows with their serial numbers, where each has one.
fn read_serials(alloc: Global, table: &[FoundRow]) -> Result<Option<ImportRows>, AllocError>
    ensures { IfOk result (λ rows. rows ≡ all_of with_serial table.now) }
{
    match read_all(alloc, table, with_serial)? {
        Some(rows) => Ok(Some(ImportRows::new(rows))),
        None => Ok(None),
    }
}

/// Whether a row is the header of an import.
fn is_header(row: &ByteRecord) -> bool
    ensures { result ≡ is_header (fields_of row.now) }
{
    match two_fields(row) {
        Some((first, second)) => {
            first == "serial".as_bytes() && second == "key_sha256".as_bytes()
        }
        None => false,
    }
}

/// The two fields of a row that has two.
fn two_fields(row: &ByteRecord) -> Option<(&[u8], &[u8])>
    ensures { option_map (λ pair. (pair.0.now, pair.1.now)) result
        ≡ two_fields (fields_of row.now) }
{
    if row.len() != 2 {
        return None;
    }
    Some((row.get(0)?, row.get(1)?))
}

/// A row of two fields, of which the second is a digest.
fn read_row(row: &ByteRecord) -> Option<FoundRow>
    ensures { result ≡ option_map found_row (fields_of_row (fields_of row.now)) }
{
    let (first, second) = two_fields(row)?;
    let key = digest_of(second)?;
    Some(FoundRow {
        serial: serial_of(first),
        key,
    })
}

/// The row with its serial number, where it has one.
fn with_serial(found: &FoundRow) -> Option<ImportRow>
    ensures { result ≡ with_serial found.now }
{
    let serial = found.serial?;
    Some(ImportRow {
        serial,
        key: found.key,
    })
}

/// The digest that a field is.
fn digest_of(field: &[u8]) -> Option<KeyDigest>
    ensures { result ≡ digest_of_text field.now }
{
    let bytes = <[u8; 32] as FromHex>::from_hex(field).ok()?;
    Some(KeyDigest::from_bytes(bytes))
}

/// The serial number that a field is. A field that is no UTF-8 is none, since its bytes aren't those
/// of a serial number.
fn serial_of(field: &[u8]) -> Option<Serial>
    ensures { result ≡ serial_of_text field.now }
{
    match str::from_utf8(field) {
        Ok(text) => Serial::parse(text),
        Err(_) => None,
    }
}

//! What stands in a store: the rows of all its tables as a text, and which text of its site it tells of.
use sqlite::types::ValueRef;
use sqlite::{Alter, Connection, Row};
use std::alloc::Global;
use std::str;
use std::test::Fail;
use test_fixtures::samples::SITE;
use text_core::Digest;

/// The tables and indexes of a database, with the SQL that made them.
const SCHEMA: &str = "SELECT name, sql FROM sqlite_schema ORDER BY name";

/// The names of the tables.
const NAMES: &str = "SELECT name FROM sqlite_schema WHERE type = 'table' ORDER BY name";

/// Puts a value at the end of a text, behind a bar: a blob by its digits, and a text as it is.
fn push_value(text: &mut String, value: ValueRef<'_>) -> Result<(), Fail> {
    match value {
        ValueRef::Null => text.push_str("|NULL")?,
        ValueRef::Int(number) => write!(text, "|{number}")?,
        ValueRef::Real(_) => return Err(Fail::from("a number that isn't whole")),
        ValueRef::Text(bytes) => write!(text, "|'{}'", str::from_utf8(bytes).unwrap_or("no text"))?,
        ValueRef::Blob(bytes) => {
            text.push_str("|")?;
            for byte in bytes {
                write!(text, "{byte:02x}")?;
            }
        }
    }
    Ok(())
}

/// Puts rows at the end of a text, a line each that begins with a name.
fn push_rows(text: &mut String, name: &str, rows: &[Row]) -> Result<(), Fail> {
    for row in rows {
        text.push_str(name)?;
        for place in 0..row.column_count() {
            push_value(text, row.get_ref(place)?)?;
        }
        text.push_str("\n")?;
    }
    Ok(())
}

/// Puts the rows that a query shows of a database at the end of a text, a line each that begins with a name.
fn push_shown<S: Alter>(
    text: &mut String,
    conn: &mut Connection<S>,
    name: &str,
    query: &str,
) -> Result<(), Fail> {
    let rows = conn.query_all(query, &[])?;
    push_rows(text, name, rows.as_slice())
}

/// Puts the rows of the table that a row names at the end of a text.
fn push_table<S: Alter>(
    alloc: Global,
    text: &mut String,
    conn: &mut Connection<S>,
    row: &Row,
) -> Result<(), Fail> {
    let name: String = row.get(0)?;
    let query = format!(in alloc; "SELECT * FROM {name}")?;
    push_shown(text, conn, name.as_str(), query.as_str())
}

/// All that stands in a database, as a text: the SQL of its tables and indexes, and each row of each table.
pub fn rows_of<S: Alter>(alloc: Global, conn: &mut Connection<S>) -> Result<String, Fail> {
    let mut text = String::new(alloc);
    push_shown(&mut text, conn, "schema", SCHEMA)?;
    let tables = conn.query_all(NAMES, &[])?;
    for row in tables.as_slice() {
        push_table(alloc, &mut text, conn, row)?;
    }
    Ok(text)
}

/// Whether the rows of a store, as a text, are of schema 3 and tell of a text of its site: that one, and its
/// SHA-256.
pub fn tell_of(alloc: Global, rows: &str, text: &str) -> Result<bool, Fail> {
    let digest = Digest::of(text.as_bytes());
    let meta = format!(in alloc; "meta|1|3|{digest}\n")?;
    let body = format!(in alloc; "site_text|1|'{text}'\n")?;
    Ok(rows.contains(meta.as_str()) && rows.contains(body.as_str()))
}

/// The text that the store of the sample site tells of once it was opened for another text, by the fault.
pub fn told_then(fault: u8, text: &str) -> &str {
    if fault == 0 { text } else { SITE }
}

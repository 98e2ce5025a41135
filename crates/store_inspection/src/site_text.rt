// The table of the site's text.
ghost use Rattle.std.specs.Prelude.{◌≡◌, ◌≢◌, ◌↔◌, ℕ, pos, List, IfSome, IfNone, IsTrue, IsUtf8};
ghost use Rattle.sqlite.specs.Held.{state};
ghost use Rattle.sqlite.specs.Order.{column};
ghost use Rattle.sqlite.specs.declared.types.Value.TheVariants.{Int as TheInt, Text as Words};
ghost use Rattle.store_inspection.specs.Prelude.{IsFound, Sees, Tests, metas_in, IsMetaOf, HoldsSiteText, IsOnlyText, IsTextAt, ShowSiteTexts};
ghost use Rattle.store_inspection.specs.declared.version.Version.TheVariants.{V3};

use crate::meta::{Meta, meta_row};
use sqlite::types::ValueRef;
use sqlite::{Alter, Connection, Error, Row};
use std::str;

/// Reads the rows that may have the text of the site.
const SELECT_SITE_TEXT: &str = "SELECT id, body FROM site_text ORDER BY id";

fn text_rows<S: Alter>(conn: &mut Connection<S>) -> Result<Vec<Row>, Error>
    requires { Sees (IsFound V3) (state S.Store conn.old) }
    ensures { Tests S.Store conn.old conn.new result (λ db rows. ShowSiteTexts db rows.items) }
{
    conn.query_all(SELECT_SITE_TEXT, &[])
}

/// Whether the row has the one id.
fn is_v1(row: &Row) -> bool
    ensures { IsTrue result ↔ (column row.now 0 ≡ TheInt (pos 1)) }
{
    matches!(row.get_ref(0), Ok(ValueRef::Int(1)))
}

/// The text of a row, if it is one.
fn body_of(row: &Row) -> Option<&str>
    ensures some { IfSome result (λ text. column row.now 1 ≡ Words text.now) }
    ensures none { IfNone result ((text : List ℕ) → IsUtf8 text → column row.now 1 ≢ Words text) }
{
    match row.get_ref(1) {
        Ok(ValueRef::Text(text)) => str::from_utf8(text).ok(),
        _ => None,
    }
}

/// The text of a row with the one id, if it is one.
fn text_of(row: &Row) -> Option<&str>
    ensures some { IfSome result (λ text. IsTextAt 1 text.now row.now) }
    ensures none { IfNone result ((text : List ℕ) → IsUtf8 text → ¬ IsTextAt 1 text row.now) }
{
    if is_v1(row) { body_of(row) } else { None }
}

/// The text that the rows show, if there is one row and no other, and its columns are of their forms.
pub fn only_text(rows: &[Row]) -> Option<&str>
    ensures some { IfSome result (λ text. IsOnlyText 1 text.now rows.now) }
    ensures none { IfNone result ((text : List ℕ) → IsUtf8 text → ¬ IsOnlyText 1 text rows.now) }
{
    match rows {
        [row] => text_of(row),
        _ => None,
    }
}

/// What the store tells of itself, and the rows that show the text of its site.
pub fn told_rows<S: Alter>(conn: &mut Connection<S>) -> Result<(Option<Meta>, Vec<Row>), Error>
    requires { Sees (IsFound V3) (state S.Store conn.old) }
    ensures { Tests S.Store conn.old conn.new result
        (λ db told. IsMetaOf (metas_in db) told.0 × ShowSiteTexts db told.1.items) }
{
    let meta = meta_row(conn)?;
    let rows = text_rows(conn)?;
    Ok((meta, rows))
}

/// Whether the store holds this text.
pub fn has_site_text<S: Alter>(conn: &mut Connection<S>, text: &str) -> Result<bool, Error>
    requires { Sees (IsFound V3) (state S.Store conn.old) }
    ensures { Tests S.Store conn.old conn.new result (λ db same.
        IsTrue same ↔ HoldsSiteText text.now db) }
{
    let rows = text_rows(conn)?;
    match only_text(rows.as_slice()) {
        Some(held) => Ok(held == text),
        None => Ok(false),
    }
}

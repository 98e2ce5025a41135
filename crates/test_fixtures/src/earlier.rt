//! Stores of earlier schemas, as SQL that makes them.
use crate::conversations::filled;
use crate::samples::MAP;
use std::alloc::Global;
use std::test::Fail;

/// A store of an earlier schema for the sample site.
pub struct Earlier {
    /// The number of its schema.
    pub schema: i64,
    /// The SQL that makes it, in parts: its tables in the order in which they were made, and their rows.
    pub sql: &'static [&'static str],
    /// What its books show.
    pub shown: &'static str,
    /// What is asked for of it in turn; it is adopted anew before each.
    pub life: &'static [&'static str],
}

/// The SQL that makes a store.
///
/// # Errors
///
/// The SQL isn't whole, or memory runs out.
pub fn sql_of(alloc: Global, earlier: &Earlier) -> Result<String, Fail> {
    let mut sql = String::new(alloc);
    for part in earlier.sql {
        sql.push_str(filled(alloc, part)?.as_str())?;
    }
    Ok(sql.as_str().replace(alloc, "$TEXT", MAP)?)
}

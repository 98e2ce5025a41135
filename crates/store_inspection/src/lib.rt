//! Tests a database that was found: whether it is one of the office's, of which version, and what it
//! says of its site.
//!
//! `version_of` gives the version whose schema a database has, column by column, and none where it
//! has that of no version (exact); `is_empty_schema` whether it has none.
//!
//! Each other call asks an open connection, and answers of all rows:
//!
//! - whether no number is below zero (`has_whole_numbers`);
//! - whether each order and each record has a row with its beginning of validity
//!   (`has_validity_rows`);
//! - whether no two records have one address (`has_apart_addresses`);
//! - the one row of `meta` (`meta_row`);
//! - that row with the rows of `site_text` (`told_rows`), of which `only_text` is the text;
//! - whether the store holds a text (`has_site_text`).
//!
//! Each call changes nothing, and a crash leaves what it left before (`Tests`).
#![tactic(auto)]

mod addresses;
mod found;
mod meta;
mod schema;
mod site_text;
mod version;

pub use addresses::has_apart_addresses;
pub use found::{has_validity_rows, has_whole_numbers};
pub use meta::{META_ID, Meta, meta_row};
pub use schema::{is_empty_schema, version_of};
pub use site_text::{has_site_text, only_text, told_rows};
pub use version::Version;

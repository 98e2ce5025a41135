//! Opens a store of the office, which is made, tested, upgraded or given a new text as it needs,
//! and closes it.
//!
//! A keeper wants a connection that is ready (`SqlKeep::over`). `adopt` makes such a one of any. It
//! reads the store anew, makes the eleven tables of an empty one in one transaction, and tests those
//! of another, by what store_inspection answers of them:
//!
//! - The schema is that of a version, column by column (exact). The versions have the numbers 1, 2
//!   and 3.
//! - No number of a map or of an entry is below zero, and no two records have one address.
//! - `meta` has its one row.
//! - In schema 2 and 3 each order and each record has its validity row.
//! - In schema 3 the one row of `site_text` has a text whose SHA-256 `meta` tells.
//!
//! A store of schema 1 or 2 has to tell the SHA-256 of this text, and is brought to schema 3, in one
//! transaction. In one of schema 3 this text takes the place of the one that is held, with its
//! SHA-256, in one transaction too.
//!
//! What a keeper is that it answers is one record (`opened`, `IsOpenedFor`): on a clean disk it is
//! open, and a crash leaves nothing but what it shows (`left`). These are the clauses on what it
//! shows (`ShowsOpening`):
//!
//! - It is of schema 3 and this site (`same_site`).
//! - It tells of this site's text (`tells`), which is a growth of the one that was held (`grown`),
//!   and in schema 1 and 2 has the SHA-256 that was told (`own`).
//! - What was committed was a database with no schema and nothing in it, or had the schema of a
//!   version and the one row of `meta` that tells it (`was`).
//! - The keeper has the tables that the connection had last committed (`tables`). Those of a store
//!   of schema 1 have no beginning of validity (`without_not_before`), and no two records have one
//!   address (`apart`).
//!
//! At a fault the connection or its store comes back (`refused`) with the tables that it had
//! (`unchanged`):
//!
//! - The fault of another site comes only with a held text of which this site is no growth or, in
//!   schema 1 and 2, with one row of `meta` that tells another SHA-256.
//! - That of other tables comes only with other tables (`HasOtherTables`), and always where the
//!   connection has another schema.
//! - A store of which no connection can be had gets the fault of a failure.
//!
//! These are other tables:
//!
//! - a schema that is neither empty nor of a version,
//! - a number of a map or of an entry below zero, or one address in two records,
//! - a `meta` that hasn't one row of this version with the 32 bytes of a site,
//! - a validity row that lacks, or in schema 3 no one text in UTF-8 that `meta` names.
//!
//! At each exit a crash leaves what the connection could leave before, or a whole store of schema 3
//! and of this text with the tables of before (`crash`, `crash_left`). Such a store was made of a
//! database without a schema, was upgraded from the schema of a version, or held another text. So a
//! text which is held writes nothing.
//!
//! `open_or_hand_back` opens a file by `open_from` of the kit and tests what it found, without a
//! second audit. Where there is no file, or one of no bytes, it has that of a store made first, or
//! refuses (`prepare_file`). What names no file is a failure (`unnamed`). Its keeper is as that record says, of what the files held (`opened`). It has the
//! tables of the database that the files held, or none where they held none. They are without
//! beginnings where that was of schema 1, and with addresses that are apart. The keeper is open and
//! of this site, and holds its text, a growth of the one that the files held. They held a store of
//! a version, or none where one is to be made; one that is made has no sums on its pages.
//!
//! Where it answers a fault the files come back closed, and no files where none was opened
//! (`refused`, `IsRefusal`). What is said of them is so where their disks returned what was
//! written:
//!
//! - Where a connection was had and turned away, a crash leaves the database that the files held
//!   or, at the fault of a failure, what the one transaction makes of it. Who opens it finds the
//!   tables that they held (`IsKept`).
//! - That fault is told by what the files held (`IsToldFor`). The fault of another site comes with
//!   a store of another site alone. The fault of other tables comes with other tables alone, or
//!   with no store where none is to be made, and always then and with another schema.
//! - Where no connection was had, which is a failure, the files are as they were, or stand for the
//!   same pages. Else they held no database, and hold none or an empty one, or they read as the
//!   database that they held (`IsSpared`).
//!
//! `open` is the same call, with the same record, and drops the files. Of a refusal it says that no
//! file was opened, or that a connection was turned away, which is gone.
//!
//! Where a keeper ends by `into_store`, the files hold a store of its site that holds a text of that
//! SHA-256 (`held`), the one that the keeper told of (`told`). Who opens them finds tables that the
//! keeper could leave (`found`). A keeper tells of its text as it was opened
//! (`opened_stores_tell_their_text`), and each of its calls keeps that. So the site of a start is a
//! growth of that of the start before it (`later_sites_are_growths`).
//!
//! Not said:
//!
//! - that fault 3 comes only where the store or memory failed, nor that no file was opened where
//!   none comes back with it;
//! - that nothing is made at a path with no file, or one of no bytes, where no store is to be made.
//!
//! Keeps the tables of all customers in an SQL database.
//!
//! `SqlKeep` meets every clause of `Keep`, that on crashes included, over any store of the kit's
//! `sqlite` whose connection is ready. While it lives, whatever a crash leaves is a store of its
//! site that holds a text of that SHA-256 (`RemembersRight.left`, said by `into_connection`).
//! `set_steps` sets the limit of steps and nothing else, and no other call changes it (`stays`).
//!
//! Not said: that a keeper reads less than it might.
#![tactic(auto)]

mod adopting;
mod bring;
mod closing;
mod ending;
mod fault;
mod keep;
mod maps;
mod opening;
mod places;
mod remake;
mod reread;
mod starts;
mod steps;

pub use adopting::{Handed, adopt};
pub use closing::{Closed, close};
pub use ending::into_store;
pub use fault::OpenFault;
pub use keep::SqlKeep;
pub use opening::{Absent, Refused, open, open_or_hand_back};
pub use starts::{later_sites_are_growths, opened_stores_tell_their_text};

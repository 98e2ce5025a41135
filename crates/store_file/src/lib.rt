//! The file of a new store: an empty database, which is made whole before a store is opened.
//!
//! `make` makes it in a folder, by the calls of `Folder`, which the system's folder meets and that of a
//! test. Each call is made in its turn alone, as it says by what it requires of the `Stage`. So these
//! hold of any folder:
//!
//! - What is written is the page of an empty database (`IsPage`), into a file that this making made or
//!   found as a crash left it, that no other making has, and that has no other name.
//! - It gets the store's name once it was synced, and once nothing was found behind that at this name,
//!   or a file of no bytes with no other name, whose lock as a store this making took. Nothing else
//!   changes what lies at the store's name, and no file is made where a log lies with something in it.
//! - `make` ends well where a store is there, or where the file got its name and then the folder was
//!   synced (`ok`). Else what lay at the store's name lies there, and the file with the other name is
//!   removed or couldn't be, or was another's; or the folder alone wasn't synced (`err`).
//!
//! No clause says these, and tests over a folder in memory show them:
//!
//! - which calls are made, and that none is left out;
//! - what a cut of power leaves at each call, and each refused call;
//! - what becomes of links, of files with a second name, and of another process that makes a store.
//!
//! That the system's folder makes the calls that it tells has to be read (`host.rt`).
//!
//! `empty_database` is the page: SQLite's, and one that the kit's store can keep (`header`).
//! `may_name_file` tests whether a path may name a file at all.
#![tactic(auto)]

mod folder;
mod host;
mod making;
mod names;
mod page;

pub use folder::{Compared, FileFacts, Folder, Found, Name, Stage};
pub use host::make_store_file;
pub use making::make;
pub use names::may_name_file;
pub use page::{PAGE_BYTES, empty_database};

//! Hardware addresses, ranges of serial numbers, key digests and records of identities.
//!
//! `Mac` reads and prints twelve hexadecimal digits. A `MacPool` is 1 to 2^24 individual addresses.
//! `reserve` gives the lowest free block of the first pool that has one, and refuses only where
//! each block of each pool meets a reserved interval; it takes no memory.
//!
//! `SerialRange::new` gives the range of a prefix, a width and consecutive numbers, or the lower of
//! its two faults. `text` is the prefix with the padded number. `meets` is true exactly where two
//! ranges of one prefix and width share a number. Each number has a serial number of its own, and
//! ranges of one prefix and two widths have none in common (`serials_are_distinct`).
//!
//! `next_serial_from` gives the least number that isn't below a cursor and whose serial number
//! isn't given, by look-ups in any state that they are lent. It answers `Exhausted` where there is
//! none, and `Unread` only where a look-up had no answer. Where nothing is free below the cursor
//! that is the least of all (`cursor_skips_given`, `next_is_least`).
//!
//! An `IdevidRecord` has a serial number that is one, and no end of validity. `NotBefore::read`
//! takes exactly the texts of 14 digits and a `Z` whose day the Gregorian calendar has (written out
//! in `specs/Calendar`) and whose hour, minute and second are those of a day; it takes no memory. A
//! `KeyDigest` is SHA-256 of a key's bytes.
//!
//! The text of an import: serial numbers of an issuer, each with the digest of the key that it is
//! given with.
//!
//! `read_rows` gives the rows of an import's text as `csv` reads it: exactly the header, 0 to 500
//! rows of two fields, and digests of 64 hexadecimal digits. It gives none where the text is no
//! import, and none of the rows where one has no serial number. Want of memory aside.
#![tactic(auto)]

mod blocks;
mod fault;
mod idevid;
mod key_digest;
mod laws;
mod look_up;
mod mac;
mod next;
mod not_before;
mod pool;
mod read;
mod records;
mod rows;
mod serial_range;

pub use blocks::reserve;
pub use fault::RangeFault;
pub use idevid::IdevidRecord;
pub use key_digest::KeyDigest;
pub use laws::{cursor_skips_given, meets_is_tested, next_is_least, serials_are_distinct};
pub use look_up::{Given, Unread};
pub use mac::Mac;
pub use next::{next_serial, next_serial_from};
pub use not_before::NotBefore;
pub use pool::{LARGEST_POOL, MacPool};
pub use read::{ROW_LIMIT, read_rows};
pub use rows::{ImportRow, ImportRows};
pub use serial_range::SerialRange;

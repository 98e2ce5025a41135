//! What a store is when it is opened, and what stands in its columns.
use crate::disks::{
    FilesCase, InFiles, Store, held_over, opened_and_closed, over_files, undisturbed,
};
use std::alloc::Global;
use std::test::Fail;
use test_fixtures::conversations::beginnings::RECORD;
use test_fixtures::conversations::exchanges;
use test_fixtures::conversations::identities::SKIPPED;
use test_fixtures::conversations::plans::A_BIT_AND_ITS_LOCK;
use test_fixtures::samples::{OTHER_SITE, SITE, SITE_WITH_A_CUSTOMER, SITE_WITH_A_POOL};

/// Changes of a store that was opened for the sample site, by SQL, the text of the site for which it is
/// opened then, and the number of the fault, 0 where there is none.
const CHANGED: &[(&str, &str, u8)] = &[
    ("", SITE, 0),
    ("", SITE_WITH_A_POOL, 0),
    ("", SITE_WITH_A_CUSTOMER, 0),
    ("", OTHER_SITE, 1),
    ("", "customer = [] \n", 1),
    ("UPDATE meta SET schema = 7", SITE, 2),
    ("UPDATE meta SET schema = 7", OTHER_SITE, 2),
    ("UPDATE meta SET schema = -1", SITE, 2),
    // The number of another schema of this program, or of none.
    ("UPDATE meta SET schema = 1", SITE, 2),
    ("UPDATE meta SET schema = 2", SITE, 2),
    ("UPDATE meta SET schema = 2", OTHER_SITE, 2),
    ("UPDATE meta SET schema = 4", SITE, 2),
    ("UPDATE meta SET site = X'00'", SITE, 2),
    // 32 bytes that aren't the digest of the text that is held.
    (
        "UPDATE meta SET site = X'4afd80a9e9f71f065bdf0a550f7df08c7dce5a3f3e2ac971913906375d9fecbb'",
        SITE,
        2,
    ),
    ("UPDATE meta SET id = 2", SITE, 2),
    ("UPDATE meta SET id = 2", OTHER_SITE, 2),
    ("DELETE FROM meta", SITE, 2),
    (
        "INSERT INTO meta (id, schema, site) VALUES (2, 3, X'00')",
        SITE,
        2,
    ),
    // No text, two of them, one of another number, and one that isn't told of.
    ("DELETE FROM site_text", SITE, 2),
    (
        "INSERT INTO site_text (id, body) VALUES (2, 'customer = []')",
        SITE,
        2,
    ),
    ("UPDATE site_text SET id = 2", SITE, 2),
    ("UPDATE site_text SET id = 2", OTHER_SITE, 2),
    ("UPDATE site_text SET body = 'customer = []'", SITE, 2),
    // A text of no customer that is told of: both sites are growths of it.
    (TELLS_OF_NO_CUSTOMER, SITE, 0),
    (TELLS_OF_NO_CUSTOMER, OTHER_SITE, 0),
    // Texts that are told of and are no site's: one that is no TOML, and an empty one.
    (
        "UPDATE site_text SET body = 'customer'; UPDATE meta SET site = X'b6c45863875e34487ca3c155ed145efe12a74581e27befec5aa661b8ee8ca6dd'",
        SITE,
        1,
    ),
    (
        "UPDATE site_text SET body = ''; UPDATE meta SET site = X'e3b0c44298fc1c149afbf4c8996fb92427ae41e4649b934ca495991b7852b855'",
        SITE,
        1,
    ),
    // Bytes that are no UTF-8, with their digest.
    (
        "UPDATE site_text SET body = CAST(X'ff' AS TEXT); UPDATE meta SET site = X'a8100ae6aa1940d0b663bb31cd466142ebbdbd5187131b92d93818987832eb89'",
        SITE,
        2,
    ),
    ("DROP TABLE site_text", SITE, 2),
    ("DROP TABLE site_text; UPDATE meta SET schema = 2", SITE, 0),
    ("DROP TABLE ledger", SITE, 2),
    ("CREATE TABLE other (x INTEGER) STRICT", SITE, 2),
    ("CREATE INDEX other ON ledger (seat)", SITE, 2),
    (
        "INSERT INTO map (id, body, digest) VALUES (-1, '', X'00')",
        SITE,
        2,
    ),
    // An order and a record with their starts, and without them.
    (
        "INSERT INTO orders VALUES ('acme', 'o1', 'acme-ca', 'A', 3, 1, 1, 0, NULL, 1); INSERT INTO order_start VALUES ('acme', 'o1', NULL)",
        SITE,
        0,
    ),
    (
        "INSERT INTO orders VALUES ('acme', 'o1', 'acme-ca', 'A', 3, 1, 1, 0, NULL, 1); INSERT INTO order_start VALUES ('acme', 'o1', NULL); DELETE FROM order_start",
        SITE,
        2,
    ),
    // They are asked for before the text is.
    (
        "INSERT INTO orders VALUES ('acme', 'o1', 'acme-ca', 'A', 3, 1, 1, 0, NULL, 1)",
        OTHER_SITE,
        2,
    ),
    (
        "INSERT INTO given VALUES ('acme-ca', 'Z1', 'acme', X'00', NULL, NULL, '99991231235959Z'); INSERT INTO given_start VALUES ('acme-ca', 'Z1', NULL)",
        SITE,
        0,
    ),
    (
        "INSERT INTO given VALUES ('acme-ca', 'Z1', 'acme', X'00', NULL, NULL, '99991231235959Z')",
        SITE,
        2,
    ),
    ("DROP TABLE given_start", SITE, 2),
    // Two records with an address each, with one address, and with none.
    (
        "INSERT INTO given VALUES ('acme-ca', 'Z1', 'acme', X'00', NULL, '020000000010', '99991231235959Z'), ('acme-ca', 'Z2', 'acme', X'01', NULL, '020000000011', '99991231235959Z'); INSERT INTO given_start VALUES ('acme-ca', 'Z1', NULL), ('acme-ca', 'Z2', NULL)",
        SITE,
        0,
    ),
    (
        "INSERT INTO given VALUES ('acme-ca', 'Z1', 'acme', X'00', NULL, '020000000010', '99991231235959Z'), ('acme-ca', 'Z2', 'acme', X'01', NULL, '020000000011', '99991231235959Z'); INSERT INTO given_start VALUES ('acme-ca', 'Z1', NULL), ('acme-ca', 'Z2', NULL); UPDATE given SET mac = '020000000010'",
        SITE,
        2,
    ),
    (
        "INSERT INTO given VALUES ('acme-ca', 'Z1', 'acme', X'00', NULL, '020000000010', '99991231235959Z'), ('acme-ca', 'Z2', 'acme', X'01', NULL, '020000000011', '99991231235959Z'); INSERT INTO given_start VALUES ('acme-ca', 'Z1', NULL), ('acme-ca', 'Z2', NULL); UPDATE given SET mac = '020000000010'",
        OTHER_SITE,
        2,
    ),
    (
        "INSERT INTO given VALUES ('acme-ca', 'Z1', 'acme', X'00', NULL, '020000000010', '99991231235959Z'), ('acme-ca', 'Z2', 'acme', X'01', NULL, '020000000011', '99991231235959Z'); INSERT INTO given_start VALUES ('acme-ca', 'Z1', NULL), ('acme-ca', 'Z2', NULL); UPDATE given SET mac = NULL",
        SITE,
        0,
    ),
];

/// The store holds the text of a site of no customer, and names its digest.
const TELLS_OF_NO_CUSTOMER: &str =
    "UPDATE site_text SET body = 'customer = []'; UPDATE meta SET site = X'4afd80a9e9f71f065bdf0a550f7df08c7dce5a3f3e2ac971913906375d9fecbb'";

/// Stores that no keeper made, by the SQL that makes them: each is of other tables.
const FOREIGN: &[&str] = &[
    "CREATE TABLE meta (x INTEGER) STRICT",
    "CREATE TABLE meta (id INTEGER PRIMARY KEY, schema INTEGER NOT NULL, site BLOB NOT NULL) STRICT",
    "CREATE VIEW meta AS SELECT 1 AS id, 1 AS schema, X'00' AS site",
    "CREATE TABLE other (x)",
];

/// Conversations, and what stands in rows then: how a row begins, how it ends, and how many there are of such.
const ROWS: &[(&str, &str, &str, usize)] = &[
    // Orders and records with a beginning of validity and without one: one of the records without is of an
    // identity under the other order, and one is imported.
    (RECORD, "order_start|", "|'20240229120000Z'", 1),
    (RECORD, "order_start|", "|NULL", 1),
    (RECORD, "given_start|", "|'20240229120000Z'", 2),
    (RECORD, "given_start|", "|NULL", 2),
];

/// How the row of a settled device ends whose chip has bit 14 of block 0's word 0 and bit 6 of its word 6 burnt:
/// `bits`, 31 words with the lowest byte first; `keys`, two that aren't there; `todo`, work in which there is
/// none; and no serial number.
fn settled_columns(alloc: Global) -> Result<String, Fail> {
    let (some, rest) = ("00".repeat(alloc, 22)?, "00".repeat(alloc, 99)?);
    let (keys, todo) = ("00".repeat(alloc, 66)?, "00".repeat(alloc, 314)?);
    Ok(format!(in alloc; "|0040{some}40{rest}|{keys}|{todo}|NULL")?)
}

/// How many rows begin and end with these.
fn count_of_rows(rows: &str, start: &str, end: &str) -> usize {
    rows.lines()
        .filter(|row| row.starts_with(start) && row.ends_with(end))
        .count()
}

/// Opens a store that was changed by SQL for the site of a text: the number of the fault, or 0.
fn fault_after<K: InFiles>(
    alloc: Global,
    store: &Store,
    sql: &str,
    site: &str,
) -> Result<u8, Fail> {
    let (_, changed) = K::changed(alloc, store, sql)?;
    let (fault, _) = opened_and_closed::<K>(alloc, &changed, site)?;
    Ok(fault)
}

/// Changes the sample site's store and opens it, and opens stores that no keeper made: the first with another
/// fault.
fn first_other_fault<K: InFiles>(alloc: Global) -> Result<String, Fail> {
    let new = Store::new(alloc);
    let (_, own) = held_over::<K>(alloc, &new, SITE, &[])?;
    for row in CHANGED {
        let fault = fault_after::<K>(alloc, &own, row.0, row.1)?;
        if fault != row.2 {
            return Ok(format!(in alloc; "{}: {} -> {fault}", row.0, row.2)?);
        }
    }
    for sql in FOREIGN {
        let fault = fault_after::<K>(alloc, &new, sql, SITE)?;
        if fault != 2 {
            return Ok(format!(in alloc; "{sql}: {fault}")?);
        }
    }
    Ok(String::new(alloc))
}

/// All that stands in a new store behind a conversation.
fn rows_behind<K: InFiles>(alloc: Global, conversation: &str) -> Result<String, Fail> {
    let exchanges = exchanges(alloc, conversation)?;
    undisturbed::<K>(alloc, &Store::new(alloc), SITE, exchanges.as_slice())
}

/// Holds conversations and looks at the rows: the first that are others.
fn first_other_rows<K: InFiles>(alloc: Global) -> Result<String, Fail> {
    for row in ROWS {
        let rows = rows_behind::<K>(alloc, row.0)?;
        if count_of_rows(rows.as_str(), row.1, row.2) != row.3 {
            return Ok(format!(in alloc; "{}..{}: {rows}", row.1, row.2)?);
        }
    }
    let rows = rows_behind::<K>(alloc, A_BIT_AND_ITS_LOCK)?;
    let columns = settled_columns(alloc)?;
    if count_of_rows(rows.as_str(), "device|", columns.as_str()) != 1 {
        return Ok(rows);
    }
    Ok(String::new(alloc))
}

/// Holds the conversation on numbers that are skipped, up to each identity: each serial number that it gives, and
/// the cursor in the row of the order then.
fn cursors_behind_serials<K: InFiles>(alloc: Global) -> Result<String, Fail> {
    let all = exchanges(alloc, SKIPPED)?;
    let mut cursors = String::new(alloc);
    for (place, exchange) in all.iter().enumerate() {
        if let Some((_, serial)) = exchange.wanted.split_once("\"serial\":\"") {
            let (made, _) = all.as_slice().split_at(place + 1);
            let rows = undisturbed::<K>(alloc, &Store::new(alloc), SITE, made)?;
            let (_, row) = rows
                .as_str()
                .split_once("\norders|'acme'|'q'|")
                .ok_or("no order")?;
            let (row, _) = row.split_once("\n").ok_or("no row")?;
            let (_, cursor) = row.rsplit_once("|").ok_or("no cursor")?;
            let serial = serial.strip_suffix("\"}").unwrap_or(serial);
            write!(cursors, "{serial} {cursor};")?;
        }
    }
    Ok(cursors)
}

/// Stores that were changed, and those of others.
struct OtherStores;

impl FilesCase for OtherStores {
    fn first_difference<K: InFiles>(alloc: Global) -> Result<String, Fail> {
        first_other_fault::<K>(alloc)
    }
}

/// Rows behind conversations.
struct Rows;

impl FilesCase for Rows {
    fn first_difference<K: InFiles>(alloc: Global) -> Result<String, Fail> {
        first_other_rows::<K>(alloc)
    }
}

/// Cursors behind identities.
struct Cursors;

impl FilesCase for Cursors {
    fn first_difference<K: InFiles>(alloc: Global) -> Result<String, Fail> {
        cursors_behind_serials::<K>(alloc)
    }
}

#[test]
fn stores_of_others_are_refused(rt: HostRuntime) -> Result<(), Fail> {
    assert_eq!(rt; over_files::<OtherStores>(rt.alloc())?.as_str(), "");
    Ok(())
}

#[test]
fn columns_have_their_values(rt: HostRuntime) -> Result<(), Fail> {
    assert_eq!(rt; over_files::<Rows>(rt.alloc())?.as_str(), "");
    Ok(())
}

/// The cursor is behind the number that was given, also where numbers are skipped.
#[test]
fn cursors_stand_behind_the_numbers_given(rt: HostRuntime) -> Result<(), Fail> {
    assert_eq!(rt;
        over_files::<Cursors>(rt.alloc())?.as_str(),
        "A001 2;A003 4;"
    );
    Ok(())
}

//! A store of many rows, which the program opens, and reads for one reply.
use crate::refused::all_rows_in;
use crate::serving::done_by;
use std::alloc::Global;
use std::test::Fail;
use std::{fs, str};
use test_fixtures::conversations::exchanges;
use test_fixtures::earlier::sql_of;
use test_fixtures::numbered::numbered;
use test_fixtures::samples::SITE;
use test_fixtures::schema_one::{ONE, SHOWN};
use test_support::conversation::streams_of;

/// A record with an address, and none of an order's numbers, with a comma behind it; `#` stands for its number.
const RECORD: &str =
    "('acme-ca', 'Z#', 'acme', x'0000000000000000000000000000000000000000000000000000000000#', NULL, '020000#', '99991231235959Z'),";

/// The number of the first record, how many one statement adds, and how many statements there are: 100,500 records.
/// One that reads them all takes some steps for each, and more than 100,000.
const FIRST: u64 = 100_000;

const AT_A_TIME: u64 = 500;

const STATEMENTS: u64 = 201;

/// The jobs over the store; the first takes it to schema 3.
const JOBS: &[&str] = &[
    "serve --site many.toml --db many.db",
    "replay --site many.toml --db many.db --existing",
    "serve --site many.toml --db many.db --existing",
];

/// The SQL of the store of schema 1 with records more.
fn sql_of_many(alloc: Global) -> Result<String, Fail> {
    let mut sql = sql_of(alloc, &ONE)?;
    for place in 0..STATEMENTS {
        let first = FIRST.saturating_add(AT_A_TIME.saturating_mul(place));
        let rows = numbered(alloc, RECORD, "#", first, first.saturating_add(AT_A_TIME))?;
        let rows = rows.as_str().trim_end_matches(",");
        let insert = format!(in alloc; "INSERT INTO given VALUES {rows};\n")?;
        sql.push_str(insert.as_str())?;
    }
    Ok(sql)
}

/// What is asked of the store's books, and what the program must answer.
fn books(alloc: Global) -> Result<(String, String), Fail> {
    let exchanges = exchanges(alloc, SHOWN)?;
    let (asked, wanted) = streams_of(alloc, exchanges.as_slice())?;
    let replies = str::from_utf8(wanted.as_slice()).map_err(|_| "no text")?;
    let stream = String::from_utf8(asked).map_err(|_| "no text")?;
    Ok((stream, format!(in alloc; "0 {replies}")?))
}

/// A report reads all records, by more steps of one statement than are made for few rows, and each opening
/// compares all addresses.
#[test]
fn a_store_of_many_rows_is_served_again(rt: HostRuntime) -> Result<(), Fail> {
    fs::write(&rt, "many.toml", SITE)?;
    all_rows_in(&rt, "many.db", sql_of_many(rt.alloc())?.as_str())?;
    let (stream, wanted) = books(rt.alloc())?;
    for words in JOBS {
        let told = done_by(&rt, rt.alloc(), words, stream.as_str())?;
        assert_eq!(rt; told.as_str(), wanted.as_str(), "{words}");
    }
    Ok(())
}

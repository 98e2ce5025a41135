//! Stores in files that the program refuses, with each row as it was before, and stores that it
//! takes: one of an earlier schema, and one of a long text of the site.
use crate::jobs::written_by;
use office_store::{Absent, open};
use site_core::read_site_text;
use sqlite::{Alter, Connection};
use sqlite_disk::Unknown;
use station_cli::read_job;
use std::alloc::Global;
use std::fs;
use std::test::Fail;
use test_fixtures::conversations::exchanges;
use test_fixtures::earlier::{Earlier, sql_of};
use test_fixtures::samples::SITE;
use test_fixtures::schema_one::ONE;
use test_fixtures::streams::{ORDER, ORDERED};
use test_support::conversation::streams_of;
use test_support::stores::rows_of;

/// The name of the file with the sample site's text.
const REFUSED_SITE: &str = "refused_site.toml";

/// The name of the file with a text of more than 65,536 bytes, which describes the same site.
const LONG_SITE: &str = "refused_long_site.toml";

/// How many spaces stand in a comment behind the sample site's text.
const LONG_COMMENT: usize = 70_000;

/// Stores that the program refuses as other tables: the name of the file, whether the program made
/// it, and the SQL that makes or changes it then. One has a table of somebody else's alone, in which
/// there is a row, and the other says that it is of a later schema.
const OTHERS: &[(&str, bool, &str)] = &[
    (
        "refused_foreign.db",
        false,
        "CREATE TABLE meta (x INTEGER) STRICT; INSERT INTO meta VALUES (5)",
    ),
    ("refused_later.db", true, "UPDATE meta SET schema = 7"),
];

/// Paths that are opened where no store is to be made, and the number of the fault, 0 where there is
/// none.
const NOT_MADE: &[(&str, u8)] = &[
    ("refused_own.db", 0),
    ("refused_missing.db", 2),
    ("refused_no/missing.db", 2),
    ("refused_empty.db", 2),
    ("refused_bare.db", 2),
    ("refused_own.db/under", 3),
    ("", 3),
    (":memory:", 3),
    ("file:refused_missing.db", 3),
];

/// Changes a database by SQL: all that stands in it then, as a text.
fn all_rows<S: Alter>(alloc: Global, conn: &mut Connection<S>, sql: &str) -> Result<String, Fail> {
    conn.execute_batch(sql)?;
    rows_of(alloc, conn)
}

/// Copies the files of a database, unless there is no name for the copy.
fn copy_files(rt: &HostRuntime, name: &str, copy: &str) -> Result<(), Fail> {
    if copy.is_empty() {
        return Ok(());
    }
    let log = format!(in rt.alloc(); "{name}-wal")?;
    let log_copy = format!(in rt.alloc(); "{copy}-wal")?;
    fs::write(rt, copy, fs::read(rt, name)?.as_slice())?;
    fs::write(
        rt,
        log_copy.as_str(),
        fs::read(rt, log.as_str())?.as_slice(),
    )?;
    Ok(())
}

/// Changes a database by SQL, and copies its files while it is open: all that stands in it then.
fn all_rows_and_copy<S: Alter>(
    rt: &HostRuntime,
    conn: &mut Connection<S>,
    sql: &str,
    names: (&str, &str),
) -> Result<String, Fail> {
    let shown = all_rows(rt.alloc(), conn, sql)?;
    copy_files(rt, names.0, names.1)?;
    Ok(shown)
}

/// Changes the database in the file of a name by SQL, and closes it: all that stands in it then. Before that its
/// files are copied to another name, as a kill would leave them, unless there is none.
pub fn rows_with_copy(rt: &HostRuntime, name: &str, sql: &str, copy: &str) -> Result<String, Fail> {
    let mut conn = Connection::open(rt, name)?;
    let shown = all_rows_and_copy(rt, &mut conn, sql, (name, copy));
    let closed = conn.close();
    let shown = shown?;
    closed?;
    Ok(shown)
}

/// Changes the database in the file of a name by SQL, and closes it, without a copy: all that stands in it then.
pub fn all_rows_in(rt: &HostRuntime, name: &str, sql: &str) -> Result<String, Fail> {
    rows_with_copy(rt, name, sql, "")
}

/// What the program writes for a stream over the store in the file of a name.
fn replayed(rt: &HostRuntime, site: &str, db: &str, stream: &[u8]) -> Result<String, Fail> {
    let words = ["station", "replay", "--site", site, "--db", db];
    let job = read_job(rt.alloc(), &words).map_err(|_| "no job")?;
    written_by(rt, rt.alloc(), &job, stream)
}

/// What the program writes for such a store and whether it has other rows then, where that isn't so.
fn difference_of_other(
    rt: &HostRuntime,
    (name, is_own, sql): &(&str, bool, &str),
) -> Result<String, Fail> {
    if *is_own {
        replayed(rt, REFUSED_SITE, name, ORDER.as_bytes())?;
    }
    let before = all_rows_in(rt, name, sql)?;
    let written = replayed(rt, REFUSED_SITE, name, ORDER.as_bytes())?;
    if written.as_str() != "station: store fault 2\n" {
        return Ok(written);
    }
    let after = all_rows_in(rt, name, "")?;
    if after.as_str() == before.as_str() {
        return Ok(String::new(rt.alloc()));
    }
    Ok(format!(in rt.alloc(); "{before} -> {after}")?)
}

/// What the program writes over a store of an earlier schema that it opens, and then over the same one,
/// where it isn't what its books show.
fn difference_of_earlier(rt: &HostRuntime, earlier: &Earlier) -> Result<String, Fail> {
    let sql = sql_of(rt.alloc(), earlier)?;
    all_rows_in(rt, "refused_one.db", sql.as_str())?;
    let shown = exchanges(rt.alloc(), earlier.shown)?;
    let (asked, wanted) = streams_of(rt.alloc(), shown.as_slice())?;
    for start in 0..2 {
        let written = replayed(rt, "refused_one.toml", "refused_one.db", asked.as_slice())?;
        if written.as_bytes() != wanted.as_slice() {
            return Ok(format!(in rt.alloc(); "{start}: {written}")?);
        }
    }
    Ok(String::new(rt.alloc()))
}

/// The number of the fault where the sample site's store at a path is opened and none is made, or 0.
fn fault_of_opening(rt: &HostRuntime, path: &str) -> Result<u8, Fail> {
    let site = read_site_text(rt.alloc(), SITE)?;
    match open(rt, rt.alloc(), path, Unknown, &site, Absent::Refuse) {
        Ok(keep) => {
            keep.into_connection().close()?;
            Ok(0)
        }
        Err(fault) => Ok(fault.number()),
    }
}

/// What is at a path: the bytes of the file, and whether it has a log.
pub fn found_at(rt: &HostRuntime, path: &str) -> Result<String, Fail> {
    let log = format!(in rt.alloc(); "{path}-wal")?;
    let has_log = fs::exists(rt, log.as_str()).unwrap_or(false);
    Ok(format!(in rt.alloc(); "{:?} {has_log}", fs::read(rt, path).ok())?)
}

/// Opens a path where no store is to be made: the number of the fault, and what is at the path then,
/// where it isn't what was there before.
fn found_after_opening(rt: &HostRuntime, path: &str) -> Result<(u8, String), Fail> {
    let before = found_at(rt, path)?;
    let fault = fault_of_opening(rt, path)?;
    let after = found_at(rt, path)?;
    if after.as_str() == before.as_str() {
        return Ok((fault, String::new(rt.alloc())));
    }
    Ok((fault, after))
}

#[test]
fn other_stores_are_refused_as_they_are(rt: HostRuntime) -> Result<(), Fail> {
    fs::write(&rt, REFUSED_SITE, SITE)?;
    for row in OTHERS {
        let found = difference_of_other(&rt, row)?;
        assert_eq!(rt; found.as_str(), "", "{}", row.0);
    }
    Ok(())
}

/// A store of schema 1 is taken to schema 3 by the program.
#[test]
fn a_store_of_schema_one_is_taken(rt: HostRuntime) -> Result<(), Fail> {
    fs::write(&rt, "refused_one.toml", SITE)?;
    let found = difference_of_earlier(&rt, &ONE)?;
    assert_eq!(rt; found.as_str(), "");
    Ok(())
}

#[test]
fn a_store_of_a_long_text_is_opened_again(rt: HostRuntime) -> Result<(), Fail> {
    let text = format!(in rt.alloc(); "{SITE}#{:LONG_COMMENT$}\n", "")?;
    fs::write(&rt, LONG_SITE, text.as_str())?;
    for start in 0..2 {
        let written = replayed(&rt, LONG_SITE, "refused_long.db", ORDER.as_bytes())?;
        assert_eq!(rt; written.as_str(), ORDERED, "{start}");
    }
    Ok(())
}

/// The sample site's store and a database without tables stand beside the paths at which there is none.
#[test]
fn no_store_is_made_where_none_is_wanted(rt: HostRuntime) -> Result<(), Fail> {
    fs::write(&rt, "refused_own.toml", SITE)?;
    fs::write(&rt, "refused_empty.db", "")?;
    replayed(&rt, "refused_own.toml", "refused_own.db", ORDER.as_bytes())?;
    all_rows_in(&rt, "refused_bare.db", "")?;
    for row in NOT_MADE {
        let (fault, after) = found_after_opening(&rt, row.0)?;
        assert_eq!(rt; (fault, after.as_str()), (row.1, ""), "{}", row.0);
    }
    Ok(())
}

//! Each row of a store behind each run of the program over it: those that serve it, by either job, and those
//! that refuse it, for each fault.
use crate::refused::{all_rows_in, rows_with_copy};
use crate::serving::done_by;
use std::alloc::Global;
use std::test::Fail;
use std::{fs, str};
use test_fixtures::conversations::exchanges;
use test_fixtures::earlier::sql_of;
use test_fixtures::samples::{OTHER_SITE, SITE, SITE_WITH_A_POOL};
use test_fixtures::schema_one::{GOES_ON, ONE, REPEATED, SHOWN, SHOWN_THEN};
use test_support::conversation::streams_of;

/// A run of the program over the store, which is of schema 1 before the first: it has a row in each table of two
/// customers, and its seats have many requests.
struct Run {
    /// The words of the job, but for those of a port.
    words: &'static str,
    /// SQL that changes the store before the run.
    change: &'static str,
    /// What is asked, as a conversation.
    asked: &'static str,
    /// The line of the fault; nothing where each request gets its reply.
    fault: &'static str,
    /// The tables of the rows that aren't there any more behind the run, and of those that weren't there before.
    gone: &'static str,
    new: &'static str,
}

/// The runs, one after another.
const RUNS: &[Run] = &[
    Run {
        words: "replay --site kept.toml --db kept.db",
        change: "",
        asked: SHOWN,
        fault: "",
        gone: "meta ",
        new: "schema schema schema schema schema given_start given_start given_start given_start given_start given_start given_start given_start given_start meta order_start order_start order_start site_text ",
    },
    Run {
        words: "serve --site kept.toml --db kept.db",
        change: "",
        asked: SHOWN,
        fault: "",
        gone: "",
        new: "",
    },
    Run {
        words: "serve --site kept.toml --db kept.db --existing",
        change: "",
        asked: REPEATED,
        fault: "",
        gone: "",
        new: "",
    },
    Run {
        words: "replay --site kept.toml --db kept.db --existing",
        change: "",
        asked: REPEATED,
        fault: "",
        gone: "",
        new: "",
    },
    Run {
        words: "serve --site kept.toml --db kept.db",
        change: "",
        asked: GOES_ON,
        fault: "",
        gone: "device orders orders seat ",
        new: "device device device given given given given_start given_start given_start ledger ledger ledger ledger ledger ledger ledger order_start orders orders orders seat ",
    },
    Run {
        words: "replay --site kept_other.toml --db kept.db",
        change: "",
        asked: SHOWN,
        fault: "station: store fault 1\n",
        gone: "",
        new: "",
    },
    Run {
        words: "serve --site kept_other.toml --db kept.db --existing",
        change: "",
        asked: SHOWN,
        fault: "station: store fault 1\n",
        gone: "",
        new: "",
    },
    Run {
        words: "replay --site kept.toml --db kept.db --existing",
        change: "UPDATE meta SET schema = 7",
        asked: SHOWN,
        fault: "station: store fault 2\n",
        gone: "",
        new: "",
    },
    Run {
        words: "serve --site kept_other.toml --db kept.db",
        change: "",
        asked: SHOWN,
        fault: "station: store fault 2\n",
        gone: "",
        new: "",
    },
    Run {
        words: "replay --site kept.toml --db kept.db",
        change: "UPDATE meta SET schema = 3",
        asked: SHOWN_THEN,
        fault: "",
        gone: "",
        new: "",
    },
    Run {
        words: "serve --site kept_grown.toml --db kept.db",
        change: "",
        asked: SHOWN_THEN,
        fault: "",
        gone: "meta ",
        new: "meta ",
    },
];

/// The jobs over a store that has a rollback journal beside it, which no opening takes.
const BESIDE_JOURNAL: &[&str] = &[
    "replay --site journal.toml --db journal.db",
    "serve --site journal.toml --db journal.db --existing",
];

/// Stores, the name under which a kill leaves each, and the jobs over what is left.
const BEHIND_KILL: &[(&str, &str, &str)] = &[
    (
        "killed_replayed.db",
        "left_replayed.db",
        "replay --site killed.toml --db left_replayed.db",
    ),
    (
        "killed_served.db",
        "left_served.db",
        "serve --site killed.toml --db left_served.db --existing",
    ),
];

/// What is committed before the kill, and is in the log alone.
const IN_LOG: &str = "UPDATE seat SET last = 40 WHERE name = 'a1'";

/// A request that is refused then, by the number of the next.
const BEHIND_LOG: &str = r#"
a1 POST /v1/ship {"nr":35,"chip":"000000000005"}
409 {"error":"wrong_number","expected":41,"no":11}
"#;

/// The stream of a conversation, and how the program must end over it with what it must answer.
fn stream_and_end(alloc: Global, asked: &str, fault: &str) -> Result<(String, String), Fail> {
    let exchanges = exchanges(alloc, asked)?;
    let (asked, wanted) = streams_of(alloc, exchanges.as_slice())?;
    let stream = String::from_utf8(asked).map_err(|_| "no text")?;
    if !fault.is_empty() {
        return Ok((stream, format!(in alloc; "1 {fault}")?));
    }
    let replies = str::from_utf8(wanted.as_slice()).map_err(|_| "no text")?;
    Ok((stream, format!(in alloc; "0 {replies}")?))
}

/// The tables of the rows that aren't among others, in their order.
fn tables_of_new(alloc: Global, rows: &str, others: &str) -> Result<String, Fail> {
    let mut tables = String::new(alloc);
    for row in rows.lines() {
        if let Some((table, _)) = row.split_once("|") {
            if others.lines().filter(|other| *other == row).count() == 0 {
                write!(tables, "{table} ")?;
            }
        }
    }
    Ok(tables)
}

/// Asks for a conversation of the program by a job over the store in the file of a name, which is changed by SQL
/// before: what it answers where that isn't what it must, or else the tables of the rows that are gone, and of
/// those that are new.
fn changed_by(rt: &HostRuntime, name: &str, run: &Run) -> Result<(String, String), Fail> {
    let alloc = rt.alloc();
    let before = all_rows_in(rt, name, run.change)?;
    let (stream, wanted) = stream_and_end(alloc, run.asked, run.fault)?;
    let told = done_by(rt, alloc, run.words, stream.as_str())?;
    if told.as_str() != wanted.as_str() {
        return Ok((told, wanted));
    }
    let after = all_rows_in(rt, name, "")?;
    if after.as_str() == before.as_str() {
        return Ok((String::new(alloc), String::new(alloc)));
    }
    let gone = tables_of_new(alloc, before.as_str(), after.as_str())?;
    Ok((gone, tables_of_new(alloc, after.as_str(), before.as_str())?))
}

/// Makes the store of schema 1 in the file of a name.
fn make_store(rt: &HostRuntime, name: &str) -> Result<(), Fail> {
    let sql = sql_of(rt.alloc(), &ONE)?;
    all_rows_in(rt, name, sql.as_str())?;
    Ok(())
}

/// Makes it and opens it once, so that it is of schema 3.
fn make_taken_store(rt: &HostRuntime, site: &str, name: &str) -> Result<(), Fail> {
    fs::write(rt, site, SITE)?;
    make_store(rt, name)?;
    let words = format!(in rt.alloc(); "replay --site {site} --db {name}")?;
    done_by(rt, rt.alloc(), words.as_str(), "")?;
    Ok(())
}

/// What the program says of a store with a journal, and behind an arrow the rows where they are others then.
fn told_beside_journal(rt: &HostRuntime, words: &str) -> Result<String, Fail> {
    let before = all_rows_in(rt, "journal.db", "")?;
    fs::write(rt, "journal.db-journal", "this is none of SQLite's")?;
    let told = done_by(rt, rt.alloc(), words, "")?;
    fs::remove_file(rt, "journal.db-journal")?;
    let after = all_rows_in(rt, "journal.db", "")?;
    if after.as_str() == before.as_str() {
        return Ok(told);
    }
    Ok(format!(in rt.alloc(); "{told} -> {after}")?)
}

/// What the program answers over what a kill left, where that isn't what it must, or the rows where they
/// aren't those that were committed.
fn difference_behind_kill(rt: &HostRuntime, row: &(&str, &str, &str)) -> Result<String, Fail> {
    let alloc = rt.alloc();
    make_taken_store(rt, "killed.toml", row.0)?;
    let committed = rows_with_copy(rt, row.0, IN_LOG, row.1)?;
    let (stream, wanted) = stream_and_end(alloc, BEHIND_LOG, "")?;
    let told = done_by(rt, alloc, row.2, stream.as_str())?;
    if told.as_str() != wanted.as_str() {
        return Ok(told);
    }
    let rows = all_rows_in(rt, row.1, "")?;
    if rows.as_str() == committed.as_str() {
        return Ok(String::new(alloc));
    }
    Ok(rows)
}

/// What stands in a store stands there behind a run but for what the requests change, and behind a fault it is
/// as it was.
#[test]
fn each_row_is_kept(rt: HostRuntime) -> Result<(), Fail> {
    for file in [
        ("kept.toml", SITE),
        ("kept_other.toml", OTHER_SITE),
        ("kept_grown.toml", SITE_WITH_A_POOL),
    ] {
        fs::write(&rt, file.0, file.1)?;
    }
    make_store(&rt, "kept.db")?;
    for run in RUNS {
        let (gone, new) = changed_by(&rt, "kept.db", run)?;
        assert_eq!(rt;
            (gone.as_str(), new.as_str()),
            (run.gone, run.new),
            "{}",
            run.words
        );
    }
    Ok(())
}

#[test]
fn each_row_is_kept_where_a_store_is_not_opened(rt: HostRuntime) -> Result<(), Fail> {
    make_taken_store(&rt, "journal.toml", "journal.db")?;
    for words in BESIDE_JOURNAL {
        let told = told_beside_journal(&rt, words)?;
        assert_eq!(rt; told.as_str(), "1 station: store fault 3\n", "{words}");
    }
    Ok(())
}

/// A program that was killed leaves commits in the log, which the next one finds.
#[test]
fn commits_in_the_log_are_found(rt: HostRuntime) -> Result<(), Fail> {
    for row in BEHIND_KILL {
        let found = difference_behind_kill(&rt, row)?;
        assert_eq!(rt; found.as_str(), "", "{}", row.2);
    }
    Ok(())
}

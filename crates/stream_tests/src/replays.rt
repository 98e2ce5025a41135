//! Replays over files of the disk: what the program writes with a store and without, and the stores
//! that it refuses.
use crate::jobs::written_by;
use crate::serving::{SHOWN, UNKNOWN};
use station_cli::{Job, StoreName};
use std::alloc::Global;
use std::fs;
use std::test::Fail;
use test_fixtures::full_site::full_site;
use test_fixtures::samples::{SITE, SITE_WITH_A_CUSTOMER};
use test_fixtures::streams::{CHUNKS_REFUSED, CUT_ORDER, IN_CHUNKS, with_orders};
use text_core::Text;

/// The name of the file with the sample site's text.
const STORED_SITE: &str = "stored_site.toml";

/// The name of the file with the text of one that grew from it.
const GROWN_SITE: &str = "stored_grown.toml";

/// The name of the file with the text of one that grew from that, from three customers to four.
const FOUR_CUSTOMERS: &str = "stored_four.toml";

/// The name of the file with the text of a site in which each customer has all that it may have.
const FULL_SITE: &str = "stored_full.toml";

/// The texts of the files of these runs, by their names: three sites and one that is none, and a text
/// that is no database.
const FILES_OF_RUNS: &[(&str, &str)] = &[
    (STORED_SITE, SITE),
    (GROWN_SITE, SITE_WITH_A_CUSTOMER),
    ("stored_other.toml", "customer = []\n"),
    ("stored_none.toml", ""),
    ("bare.db", ""),
    (
        "text.db",
        "This is a text, and neither a database nor empty.\n",
    ),
];

/// How often a long stream asks for the order: it has over two million bytes.
const OFTEN: usize = 35_000;

/// Runs, one after another: the name of the site's file, that of the store's where there is one, the
/// stream, in which `$SHOWN` stands for a request that shows the order, and what is written. The
/// second run over a store finds what the first left. A fault of the site comes before one of the store.
/// One that has to be there is told so before its name; where it isn't none is made, so that it isn't
/// there for the next run either.
const RUNS: &[(&str, Option<&str>, &str, &str)] = &[
    (STORED_SITE, None, CUT_ORDER, ""),
    (STORED_SITE, None, IN_CHUNKS, CHUNKS_REFUSED),
    (STORED_SITE, Some("own.db"), "$ORDER", "$ORDERED"),
    (
        STORED_SITE,
        Some("own.db"),
        "$SHOWN$ORDER",
        "$ORDERED$ORDERED",
    ),
    (STORED_SITE, Some("own.db"), "", ""),
    (STORED_SITE, Some("existing own.db"), "$SHOWN", "$ORDERED"),
    (
        STORED_SITE,
        Some("existing none.db"),
        "$ORDER",
        "station: store fault 2\n",
    ),
    (
        STORED_SITE,
        Some("existing none.db"),
        "$ORDER",
        "station: store fault 2\n",
    ),
    (
        STORED_SITE,
        Some("existing bare.db"),
        "$ORDER",
        "station: store fault 2\n",
    ),
    (
        STORED_SITE,
        Some("existing text.db"),
        "$ORDER",
        "station: store fault 3\n",
    ),
    (
        "stored_other.toml",
        Some("own.db"),
        "$ORDER",
        "station: store fault 1\n",
    ),
    (
        "stored_other.toml",
        Some("existing own.db"),
        "$ORDER",
        "station: store fault 1\n",
    ),
    (GROWN_SITE, Some("own.db"), "$SHOWN", "$ORDERED"),
    (
        STORED_SITE,
        Some("own.db"),
        "$SHOWN",
        "station: store fault 1\n",
    ),
    (
        GROWN_SITE,
        Some("own.db"),
        "$ORDER$SHOWN",
        "$ORDERED$ORDERED",
    ),
    (FOUR_CUSTOMERS, Some("own.db"), "$SHOWN", "$ORDERED"),
    (
        GROWN_SITE,
        Some("own.db"),
        "$SHOWN",
        "station: store fault 1\n",
    ),
    (
        FOUR_CUSTOMERS,
        Some("existing own.db"),
        "$ORDER",
        "$ORDERED",
    ),
    (FULL_SITE, Some("full.db"), "$ORDER", "$ORDERED"),
    (
        FULL_SITE,
        Some("full.db"),
        "$SHOWN$ORDER",
        "$ORDERED$ORDERED",
    ),
    (
        STORED_SITE,
        Some("stored_folder"),
        "$ORDER",
        "station: store fault 3\n",
    ),
    (
        STORED_SITE,
        Some("no/such/file"),
        "$ORDER",
        "station: store fault 3\n",
    ),
    (STORED_SITE, Some(""), "$ORDER", "station: store fault 3\n"),
    (
        STORED_SITE,
        Some(":memory:"),
        "$ORDER",
        "station: store fault 3\n",
    ),
    (
        STORED_SITE,
        Some("text.db"),
        "$ORDER",
        "station: store fault 3\n",
    ),
    (
        "no_site.toml",
        Some("stored_folder"),
        "$ORDER",
        "station: cannot read no_site.toml\n",
    ),
    (
        "stored_none.toml",
        Some("stored_folder"),
        "$ORDER",
        "station: site fault 2\n",
    ),
];

/// What stands before the name of a store that has to be there.
const EXISTING: &str = "existing ";

/// The job of a run.
fn job_of(alloc: Global, site: &str, db: Option<&str>) -> Result<Job, Fail> {
    let store = match db {
        Some(db) => Some(StoreName {
            file: Text::copy_of(alloc, db.trim_start_matches(EXISTING))?,
            is_existing: db.starts_with(EXISTING),
        }),
        None => None,
    };
    Ok(Job::Replay {
        site: Text::copy_of(alloc, site)?,
        store,
    })
}

/// What is written where it isn't what a run must write: nothing where it is.
fn difference_of_run(
    rt: &HostRuntime,
    alloc: Global,
    run: &(&str, Option<&str>, &str, &str),
) -> Result<String, Fail> {
    let job = job_of(alloc, run.0, run.1)?;
    let stream = run.2.replace(alloc, "$SHOWN", SHOWN)?;
    let stream = with_orders(alloc, stream.as_str())?;
    let written = written_by(rt, alloc, &job, stream.as_bytes())?;
    let wanted = with_orders(alloc, run.3)?;
    if written.as_str() == wanted.as_str() {
        return Ok(String::new(alloc));
    }
    Ok(format!(in alloc; "{wanted} -> {written}")?)
}

/// Makes a folder, unless it is there.
pub fn make_folder(rt: &HostRuntime, name: &str) -> Result<(), Fail> {
    if !fs::exists(rt, name)? {
        fs::create_dir(rt, name)?;
    }
    Ok(())
}

/// Makes the files that the runs of [`RUNS`] find.
fn make_files_of_runs(rt: &HostRuntime) -> Result<(), Fail> {
    for file in FILES_OF_RUNS {
        fs::write(rt, file.0, file.1)?;
    }
    fs::write(rt, FULL_SITE, full_site(rt.alloc())?.as_str())?;
    let four = SITE_WITH_A_CUSTOMER.replace(
        rt.alloc(),
        "[manager]",
        "[[customer]]\nname = \"dune\"\nissuer = []\n[manager]",
    )?;
    fs::write(rt, FOUR_CUSTOMERS, four.as_str())?;
    make_folder(rt, "stored_folder")
}

#[test]
fn runs_write_what_they_must(rt: HostRuntime) -> Result<(), Fail> {
    make_files_of_runs(&rt)?;
    for row in RUNS {
        let found = difference_of_run(&rt, rt.alloc(), row)?;
        assert_eq!(rt; found.as_str(), "", "{} {:?} {}", row.0, row.1, row.2);
    }
    Ok(())
}

#[test]
fn a_long_stream_is_served_to_its_end(rt: HostRuntime) -> Result<(), Fail> {
    let alloc = rt.alloc();
    fs::write(&rt, "long_stream.toml", SITE)?;
    let job = job_of(alloc, "long_stream.toml", None)?;
    let stream = SHOWN.repeat(alloc, OFTEN)?;
    let written = written_by(&rt, alloc, &job, stream.as_bytes())?;
    let wanted = UNKNOWN.repeat(alloc, OFTEN)?;
    assert_eq!(rt; written.len(), wanted.len());
    assert_eq!(rt; written.as_str() == wanted.as_str(), true);
    Ok(())
}

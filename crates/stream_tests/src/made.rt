//! The making of a store's file: an empty database with the pages of a new store, for its owner alone, and what may
//! stand in its way.
use crate::names::make_empty_folder;
use crate::refused::all_rows_in;
use crate::serving::done_by;
use std::alloc::Global;
use std::fs::{self, Permissions};
use std::os::unix::fs::PermissionsExt;
use std::test::Fail;
use store_file::PAGE_BYTES;
use test_fixtures::samples::SITE;
use test_fixtures::streams::ORDER;

/// What is found where a store was made over no request.
const MADE: &str = "0 : pages of 1024, mode 600, 2 files";

/// What is found where none was made, for what lies beside its place.
const NOT_MADE: &str = "1 station: store fault 3\n: no store, 1 files";

/// What is found where none was wanted.
const NOT_WANTED: &str = "1 station: store fault 2\n: no store, 1 files";

/// Folders, the end of the name of a file that lies beside the place of a store, how many bytes it has, further words
/// of the run, and what is found behind it. What a crash left of a making is written anew, and what it can't have left
/// stays; so does the log of a store that was lost.
const BESIDE: &[(&str, &str, usize, &str, &str)] = &[
    ("made_left_empty", "-new", 0, "", MADE),
    ("made_left_half", "-new", 512, "", MADE),
    ("made_left_whole", "-new", PAGE_BYTES, "", MADE),
    ("made_not_left", "-new", PAGE_BYTES + 1, "", NOT_MADE),
    ("made_lost", "-wal", 41, "", NOT_MADE),
    ("made_empty_log", "-wal", 0, "", MADE),
    ("made_unwanted", "-new", 512, "--existing", NOT_WANTED),
    ("made_unwanted_log", "-wal", 41, "--existing", NOT_WANTED),
];

/// Names at which no file can be made: in no folder, in a file, and in a folder that takes none; and what names no file.
const NO_PLACES: &[&str] = &[
    "made_no/such/file",
    "made_nowhere.toml/file",
    "/proc/file",
    ":memory:",
    "file:made_by_uri.db",
];

/// How many bytes a page of a database has, by its header.
fn page_bytes(rt: &HostRuntime, name: &str) -> Result<u16, Fail> {
    let bytes = fs::read(rt, name)?;
    match bytes.as_slice().get(16..18) {
        Some([high, low]) => Ok(u16::from_be_bytes([*high, *low])),
        _ => Err(Fail::from("no header")),
    }
}

/// What is at the place of a store, and how many files its folder has.
fn found_in(rt: &HostRuntime, folder: &str, name: &str) -> Result<String, Fail> {
    let count = fs::read_dir(rt, folder)?.count();
    if !fs::exists(rt, name)? {
        return Ok(format!(in rt.alloc(); "no store, {count} files")?);
    }
    let mode = fs::metadata(rt, name)?.permissions().mode() & 0o777;
    let pages = page_bytes(rt, name)?;
    Ok(format!(in rt.alloc(); "pages of {pages}, mode {mode:o}, {count} files")?)
}

/// Runs over the place of a store beside which a file lies: how it ends, what it writes, and what is found then.
fn told_beside(rt: &HostRuntime, row: &(&str, &str, usize, &str, &str)) -> Result<String, Fail> {
    let alloc = rt.alloc();
    make_empty_folder(rt, row.0)?;
    let name = format!(in alloc; "{}/s", row.0)?;
    let beside = format!(in alloc; "{}/s{}", row.0, row.1)?;
    fs::write(rt, beside.as_str(), "x".repeat(alloc, row.2)?.as_str())?;
    let words = format!(in alloc;
        "replay --site made_beside.toml --db {} {}",
        name.as_str(),
        row.3
    )?;
    let done = done_by(rt, alloc, words.as_str(), "")?;
    let found = found_in(rt, row.0, name.as_str())?;
    Ok(format!(in alloc; "{done}: {found}")?)
}

/// Runs over the place of a store at which there is something already: how it ends, and the pages of the file then.
fn told_over(rt: &HostRuntime, alloc: Global, name: &str) -> Result<String, Fail> {
    let words = format!(in alloc; "replay --site made_kept.toml --db {name}")?;
    let done = done_by(rt, alloc, words.as_str(), "")?;
    let pages = page_bytes(rt, name)?;
    let is_left = fs::exists(rt, format!(in alloc; "{name}-new")?.as_str())?;
    Ok(format!(in alloc; "{done}: pages of {pages}, left: {is_left}")?)
}

#[test]
fn a_store_is_made_past_what_a_crash_left_alone(rt: HostRuntime) -> Result<(), Fail> {
    fs::write(&rt, "made_beside.toml", SITE)?;
    for row in BESIDE {
        let told = told_beside(&rt, row)?;
        assert_eq!(rt; told.as_str(), row.4, "{}", row.0);
    }
    Ok(())
}

/// A database that the kit made has its pages.
#[test]
fn a_file_that_is_there_keeps_its_pages(rt: HostRuntime) -> Result<(), Fail> {
    fs::write(&rt, "made_kept.toml", SITE)?;
    all_rows_in(&rt, "made_bare.db", "")?;
    let told = told_over(&rt, rt.alloc(), "made_bare.db")?;
    assert_eq!(rt; told.as_str(), "0 : pages of 4096, left: false");
    Ok(())
}

/// Has an order made over a store: its file then, and what is found in its folder.
fn ordered_in(rt: &HostRuntime, folder: &str) -> Result<(Vec<u8>, String), Fail> {
    let alloc = rt.alloc();
    let name = format!(in alloc; "{folder}/s")?;
    let words = format!(in alloc; "replay --site made_same.toml --db {}", name.as_str())?;
    drop(done_by(rt, alloc, words.as_str(), ORDER)?);
    let found = found_in(rt, folder, name.as_str())?;
    Ok((fs::read(rt, name.as_str())?, found))
}

#[test]
fn a_missing_file_and_an_empty_one_become_the_same_store(rt: HostRuntime) -> Result<(), Fail> {
    fs::write(&rt, "made_same.toml", SITE)?;
    make_empty_folder(&rt, "made_missing")?;
    make_empty_folder(&rt, "made_empty")?;
    fs::write(&rt, "made_empty/s", "")?;
    fs::set_permissions(&rt, "made_empty/s", Permissions::from_mode(0o644))?;
    let (of_missing, found_missing) = ordered_in(&rt, "made_missing")?;
    let (of_empty, found_empty) = ordered_in(&rt, "made_empty")?;
    assert_eq!(rt; of_missing.as_slice() == of_empty.as_slice(), true);
    assert_eq!(rt; found_missing.as_str(), "pages of 1024, mode 600, 2 files");
    assert_eq!(rt; found_empty.as_str(), found_missing.as_str());
    Ok(())
}

#[test]
fn where_no_file_can_be_made_the_fault_is_told(rt: HostRuntime) -> Result<(), Fail> {
    fs::write(&rt, "made_nowhere.toml", SITE)?;
    for name in NO_PLACES {
        let words = format!(in rt.alloc(); "replay --site made_nowhere.toml --db {name}")?;
        let done = done_by(&rt, rt.alloc(), words.as_str(), "")?;
        assert_eq!(rt; done.as_str(), "1 station: store fault 3\n", "{name}");
        assert!(rt; !fs::exists(&rt, *name).unwrap_or(false), "{name}");
    }
    Ok(())
}

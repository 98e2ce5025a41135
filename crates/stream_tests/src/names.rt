//! Names of stores: that from the root and that from the folder of the run, short and long. Each is the file that
//! is made for its owner alone, that is opened again, and beside which nothing but its log is made.
use crate::refused::all_rows_in;
use crate::serving::{SHOWN, done_by};
use std::alloc::Global;
use std::os::unix::fs::PermissionsExt;
use std::test::Fail;
use std::{env, fs};
use test_fixtures::samples::SITE;
use test_fixtures::streams::{ORDER, ORDERED};

/// Folders, whether the name of the store in each is from the root, and how many characters its file's name has.
const NAMES: &[(&str, bool, usize)] = &[
    ("names_short", false, 1),
    ("names_from_the_root", true, 1),
    ("names_long", false, 200),
    ("names_long_from_the_root", true, 200),
];

/// Names that could be taken for something else: for no file, and for a copy of one.
const ODD_NAMES: &[&str] = &["-", "names_odd.db.bak"];

/// What the rows of a store begin with that stand for the order.
const ORDER_ROW: &str = "\norders|'acme'|'o1'|";

/// Makes a folder in which there is nothing.
pub fn make_empty_folder(rt: &HostRuntime, name: &str) -> Result<(), Fail> {
    if fs::exists(rt, name)? {
        fs::remove_dir_all(rt, name)?;
    }
    Ok(fs::create_dir(rt, name)?)
}

/// The name of a store by which the program is told of it, where this is its name from the folder of the run.
fn told_name(rt: &HostRuntime, name: &str, is_from_root: bool) -> Result<String, Fail> {
    if !is_from_root {
        return Ok(String::from_str(rt.alloc(), name)?);
    }
    let folder = env::current_dir(rt)?;
    Ok(format!(in rt.alloc(); "{}/{name}", folder.as_str())?)
}

/// Has an order made over a store that isn't there yet, and shown by two further runs, of which the second makes
/// none: what they answer.
fn answered_over(rt: &HostRuntime, alloc: Global, store: &str) -> Result<String, Fail> {
    let mut answers = String::new(alloc);
    for (job, existing, stream) in [
        ("replay", "", ORDER),
        ("serve", "", SHOWN),
        ("replay", "--existing", SHOWN),
    ] {
        let words = format!(in alloc; "{job} --site names.toml --db={store} {existing}")?;
        answers.push_str(done_by(rt, alloc, words.as_str(), stream)?.as_str())?;
    }
    Ok(answers)
}

/// The mode of the file of a name, how many files its folder has, and whether the order stands in it.
fn found_in(rt: &HostRuntime, folder: &str, name: &str) -> Result<(u32, usize, bool), Fail> {
    let mode = fs::metadata(rt, name)?.permissions().mode() & 0o777;
    let count = fs::read_dir(rt, folder)?.count();
    let rows = all_rows_in(rt, name, "")?;
    Ok((mode, count, rows.contains(ORDER_ROW)))
}

/// Runs over a store of a name: what they answer, where that isn't what they must, or what is found then.
fn told_of_name(rt: &HostRuntime, row: &(&str, bool, usize)) -> Result<String, Fail> {
    let alloc = rt.alloc();
    make_empty_folder(rt, row.0)?;
    let file = "n".repeat(alloc, row.2)?;
    let name = format!(in alloc; "{}/{file}", row.0)?;
    let store = told_name(rt, name.as_str(), row.1)?;
    let answers = answered_over(rt, alloc, store.as_str())?;
    let wanted = format!(in alloc; "0 {ORDERED}0 {ORDERED}0 {ORDERED}")?;
    if answers.as_str() != wanted.as_str() {
        return Ok(answers);
    }
    let (mode, count, is_there) = found_in(rt, row.0, name.as_str())?;
    Ok(format!(in alloc; "mode {mode:o}, {count} files, the order is there: {is_there}")?)
}

#[test]
fn each_name_is_that_of_the_store(rt: HostRuntime) -> Result<(), Fail> {
    fs::write(&rt, "names.toml", SITE)?;
    for row in NAMES {
        let told = told_of_name(&rt, row)?;
        assert_eq!(rt;
            told.as_str(),
            "mode 600, 2 files, the order is there: true",
            "{}",
            row.0
        );
    }
    Ok(())
}

#[test]
fn an_odd_name_is_that_of_the_store(rt: HostRuntime) -> Result<(), Fail> {
    fs::write(&rt, "names.toml", SITE)?;
    let wanted = format!(in rt.alloc(); "0 {ORDERED}0 {ORDERED}0 {ORDERED}")?;
    for name in ODD_NAMES {
        let answers = answered_over(&rt, rt.alloc(), name)?;
        assert_eq!(rt; answers.as_str(), wanted.as_str(), "{name}");
        assert!(rt; fs::exists(&rt, *name)?, "{name}");
    }
    Ok(())
}

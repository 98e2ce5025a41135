//! The making of a store's file by the calls of the system.
use os::RangeLock;
use std::fs::{self, File, Permissions};
use std::os::fd::AsRawFd;
use std::os::unix::fs::{PermissionsExt, symlink};
use std::test::Fail;
use store_file::{empty_database, make_store_file, may_name_file};

/// Makes a folder with nothing in it.
fn make_empty_folder(rt: &HostRuntime, name: &str) -> Result<(), Fail> {
    let _ = fs::remove_dir_all(rt, name);
    Ok(fs::create_dir(rt, name)?)
}

/// A missing file and one of no bytes that others may read become the same one.
#[test]
fn the_file_is_the_page_of_an_empty_database(rt: HostRuntime) -> Result<(), Fail> {
    make_empty_folder(&rt, "made")?;
    fs::write(&rt, "made/empty", "")?;
    fs::set_permissions(&rt, "made/empty", Permissions::from_mode(0o644))?;
    for name in ["made/missing", "made/empty"] {
        make_store_file(&rt, rt.alloc(), name)?;
        let bytes = fs::read(&rt, name)?;
        assert!(rt; bytes.as_slice() == empty_database().as_slice(), "{name}");
        assert_eq!(rt;
            fs::metadata(&rt, name)?.permissions().mode() & 0o777,
            0o600,
            "{name}"
        );
    }
    assert_eq!(rt; fs::read_dir(&rt, "made")?.count(), 2);
    Ok(())
}

/// Whether a store is made over what lies in a folder, and how many files there are then.
fn made_over(rt: &HostRuntime, store: &str, folder: &str) -> Result<(bool, usize), Fail> {
    let is_made = may_name_file(store) && make_store_file(rt, rt.alloc(), store).is_ok();
    Ok((is_made, fs::read_dir(rt, folder)?.count()))
}

#[test]
fn no_link_is_followed_and_no_second_name_is_left(rt: HostRuntime) -> Result<(), Fail> {
    make_empty_folder(&rt, "links")?;
    fs::write(&rt, "links/empty", "")?;
    fs::write(&rt, "links/kept", "kept")?;
    symlink(&rt, "empty", "links/to_empty")?;
    symlink(&rt, "missing", "links/to_missing")?;
    symlink(&rt, "kept", "links/a-new")?;
    fs::hard_link(&rt, "links/kept", "links/b-new")?;
    fs::hard_link(&rt, "links/empty", "links/c")?;
    symlink(&rt, "missing", "links/d-wal")?;
    for store in [
        "links/to_empty",
        "links/to_missing",
        "links/a",
        "links/b",
        "links/c",
        "links/d",
    ] {
        assert_eq!(rt; made_over(&rt, store, "links")?, (false, 8), "{store}");
    }
    assert_eq!(rt; fs::metadata(&rt, "links/empty")?.len(), 0);
    assert_eq!(rt; fs::read_to_string(&rt, "links/kept")?.as_str(), "kept");
    Ok(())
}

#[test]
fn nothing_is_made_for_what_is_opened_as_no_file(rt: HostRuntime) -> Result<(), Fail> {
    make_empty_folder(&rt, "none")?;
    for path in [
        "",
        ":memory:",
        "file:none/a",
        "file:",
        "none/no/folder",
        "none/",
    ] {
        assert_eq!(rt; made_over(&rt, path, "none")?, (false, 0), "{path}");
    }
    assert_eq!(rt; made_over(&rt, "none/file:", "none")?, (true, 1));
    // Its name begins with the word, without a colon.
    assert_eq!(rt; made_over(&rt, "filed.db", "none")?, (true, 1));
    Ok(())
}

/// A file of no bytes that a server has, a restore or `sqlite3`, by SQLite's lock, isn't replaced.
#[test]
fn a_file_of_no_bytes_that_another_has_stays(rt: HostRuntime) -> Result<(), Fail> {
    make_empty_folder(&rt, "had")?;
    let file = File::create(&rt, "had/s")?;
    let locked = os::try_lock_range(file.as_raw_fd(), RangeLock::Exclusive, 1 << 30, 512);
    assert_eq!(rt; locked, 0);
    assert_eq!(rt; made_over(&rt, "had/s", "had")?, (false, 1));
    drop(file);
    assert_eq!(rt; made_over(&rt, "had/s", "had")?, (true, 1));
    assert_eq!(rt; fs::metadata(&rt, "had/s")?.len(), 1024);
    Ok(())
}

/// Nor is one that another only reads: it has SQLite's shared bytes, the last 510 of those that are locked.
#[test]
fn a_file_of_no_bytes_that_another_reads_stays(rt: HostRuntime) -> Result<(), Fail> {
    make_empty_folder(&rt, "read")?;
    fs::write(&rt, "read/s", "")?;
    let file = File::open(&rt, "read/s")?;
    let locked = os::try_lock_range(file.as_raw_fd(), RangeLock::Shared, (1 << 30) + 2, 510);
    assert_eq!(rt; locked, 0);
    assert_eq!(rt; made_over(&rt, "read/s", "read")?, (false, 1));
    drop(file);
    assert_eq!(rt; made_over(&rt, "read/s", "read")?, (true, 1));
    Ok(())
}

/// Nor is a file with the other name that another making has.
#[test]
fn a_file_that_another_making_has_stays(rt: HostRuntime) -> Result<(), Fail> {
    make_empty_folder(&rt, "making")?;
    let file = File::create(&rt, "making/s-new")?;
    assert!(rt; file.try_lock().is_ok());
    assert_eq!(rt; made_over(&rt, "making/s", "making")?, (false, 1));
    drop(file);
    assert_eq!(rt; made_over(&rt, "making/s", "making")?, (true, 1));
    Ok(())
}

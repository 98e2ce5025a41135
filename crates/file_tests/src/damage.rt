//! A store's files with their bytes changed, and what is served over them.
use crate::disks::{Ending, FilesCase, InFiles, NO_STOP, Store, held_over, over_files};
use crate::stops::killed_behind;
use std::alloc::Global;
use std::str;
use std::test::Fail;
use test_fixtures::conversations::exchanges;
use test_fixtures::samples::SITE;
use test_support::conversation::{serve, streams_of};

/// What makes the store: an order, a map and a device.
const MADE_BY: &str = r#"
@ chip
"#;

/// What is asked over a damaged store, one request that reads the device's ledger and one that
/// writes, and the replies over the store as it was made.
const ASKED: &str = r#"
a1 GET /v1/ledger?chip=00000000000a
200 {"chip":"00000000000a",
  "entries":[{"bits":[],"event":"registered","keys":{},"n":1,"note":"","seat":"a1"}]}
a1 POST /v1/plan {"nr":4,"chip":"00000000000a","wishes":[]}
200 {"batch1":$NONE,"batch2":$NONE,"state":"settled"}
"#;

/// The number of bytes of a page.
const PAGE: usize = 4096;

/// What is done to the files of a store.
#[derive(Clone, Copy, Debug)]
enum Damage {
    /// A byte of the file changes.
    FileByte,
    /// The bytes of a page of the file are zeros.
    FilePage,
    /// The file ends where a page began.
    FileEnd,
    /// A byte of the log changes.
    LogByte,
    /// The log loses its end.
    LogEnd,
}

/// Each kind of damage, whether it is done to a store that was closed or to one that was killed, and at how
/// many places.
const DAMAGES: &[(Damage, bool, usize)] = &[
    (Damage::FileByte, true, 1000),
    (Damage::FilePage, true, 64),
    (Damage::FileEnd, true, 64),
    (Damage::FileByte, false, 200),
    (Damage::LogByte, false, 200),
    (Damage::LogEnd, false, 64),
];

/// The stream of the requests of a conversation, and that of the replies that they must get.
fn streams_of_conversation(alloc: Global, conversation: &str) -> Result<(Vec<u8>, Vec<u8>), Fail> {
    let exchanges = exchanges(alloc, conversation)?;
    streams_of(alloc, exchanges.as_slice())
}

/// Makes a store of a device, which is closed or killed at the end.
fn made_store<K: InFiles>(alloc: Global, is_closed: bool) -> Result<Store, Fail> {
    let making = exchanges(alloc, MADE_BY)?;
    let new = Store::new(alloc);
    if is_closed {
        let (_, store) = held_over::<K>(alloc, &new, SITE, making.as_slice())?;
        return Ok(store);
    }
    killed_behind::<K>(alloc, &new, SITE, making.as_slice())
}

/// What is written over a store for the requests of [`ASKED`], or nothing where it isn't opened.
fn written_over<K: InFiles>(alloc: Global, store: &Store) -> Result<Option<Vec<u8>>, Fail> {
    let (stream, _) = streams_of_conversation(alloc, ASKED)?;
    match K::opened(alloc, store, SITE, NO_STOP)? {
        Ok(mut keep) => {
            let served = serve(alloc, &mut keep, stream.as_slice(), 4096);
            let _ = keep.ended(alloc, Ending::Closed);
            let (_, writer) = served?;
            Ok(Some(writer.bytes().to_vec(alloc)?))
        }
        Err(_) => Ok(None),
    }
}

/// Whether a store isn't opened, or gets two replies and nothing else.
fn is_served_or_refused<K: InFiles>(alloc: Global, store: &Store) -> Result<bool, Fail> {
    match written_over::<K>(alloc, store)? {
        Some(bytes) => Ok(are_two_replies(bytes.as_slice())),
        None => Ok(true),
    }
}

/// Whether bytes are two replies and nothing else.
fn are_two_replies(bytes: &[u8]) -> bool {
    let Ok(text) = str::from_utf8(bytes) else {
        return false;
    };
    match behind_reply(text) {
        Some(rest) => behind_reply(rest) == Some(""),
        None => false,
    }
}

/// What is behind a reply of success, of a refusal or of unavailability.
fn behind_reply(text: &str) -> Option<&str> {
    let (head, rest) = text.split_once("\r\n\r\n")?;
    let (start, length) = head.split_once("\r\nContent-Length: ")?;
    let (length, _) = length.split_once("\r\n").unwrap_or((length, ""));
    let status = start.strip_prefix("HTTP/1.1 ")?;
    if !status.starts_with("200 ") && !status.starts_with("4") && !status.starts_with("503 ") {
        return None;
    }
    let length: usize = length.parse().ok()?;
    rest.get(length..)
}

/// What a store gets where it isn't what it gets as it was made: nothing where it is.
fn difference_of_whole<K: InFiles>(alloc: Global, store: &Store) -> Result<String, Fail> {
    let (_, wanted) = streams_of_conversation(alloc, ASKED)?;
    let Some(bytes) = written_over::<K>(alloc, store)? else {
        return Ok(String::from_str(alloc, "the store isn't opened")?);
    };
    if bytes.as_slice() == wanted.as_slice() {
        return Ok(String::new(alloc));
    }
    let wanted = str::from_utf8(wanted.as_slice()).unwrap_or("no text");
    let written = str::from_utf8(bytes.as_slice()).unwrap_or("no text");
    Ok(format!(in alloc; "{wanted} -> {written}")?)
}

/// Changes one byte, that at a place of a fixed stride: wholly where its number is even, else by one bit.
fn change_byte(bytes: &mut Vec<u8>, number: usize, count: usize) {
    let stride = bytes.len() / count.max(1) | 1;
    let place = number.saturating_mul(stride) % bytes.len().max(1);
    let change = if number % 2 == 0 {
        0xff
    } else {
        1u8 << (number / 2 % 8)
    };
    if let Some(byte) = bytes.get_mut(place) {
        *byte ^= change;
    }
}

/// Has the bytes from `start` on be zeros, at most those of a page.
fn clear_page(bytes: &mut Vec<u8>, start: usize) {
    for place in start..start.saturating_add(PAGE) {
        if let Some(byte) = bytes.get_mut(place) {
            *byte = 0;
        }
    }
}

/// Does one kind of damage to a store at a place of so many.
fn do_damage(store: &mut Store, damage: Damage, number: usize, count: usize) {
    let page = number.saturating_mul(PAGE);
    let end = (store.log.len() / count.max(1)).saturating_mul(number);
    match damage {
        Damage::FileByte => change_byte(&mut store.file, number, count),
        Damage::FilePage => clear_page(&mut store.file, page),
        Damage::FileEnd => store.file.truncate(page),
        Damage::LogByte => change_byte(&mut store.log, number, count),
        Damage::LogEnd => store.log.truncate(end),
    }
}

/// Does one kind of damage to a store at each of so many places: the first place where the store is
/// neither refused nor served.
fn first_lost<K: InFiles>(
    alloc: Global,
    store: &Store,
    damage: Damage,
    count: usize,
) -> Result<String, Fail> {
    for number in 0..count {
        let mut damaged = Store {
            file: store.file.to_vec(alloc)?,
            log: store.log.to_vec(alloc)?,
        };
        do_damage(&mut damaged, damage, number, count);
        if !is_served_or_refused::<K>(alloc, &damaged)? {
            return Ok(format!(in alloc; "{damage:?} at place {number} of {count}")?);
        }
    }
    Ok(String::new(alloc))
}

/// Makes a store and does the damage of a row to it: the first place where the store is neither
/// refused nor served.
fn first_lost_of<K: InFiles>(alloc: Global, row: &(Damage, bool, usize)) -> Result<String, Fail> {
    let store = made_store::<K>(alloc, row.1)?;
    let found = difference_of_whole::<K>(alloc, &store)?;
    if !found.is_empty() {
        return Ok(found);
    }
    first_lost::<K>(alloc, &store, row.0, row.2)
}

/// Whether a store is refused whose file's first byte is another.
fn refuses_another_head<K: InFiles>(alloc: Global) -> Result<bool, Fail> {
    let mut store = made_store::<K>(alloc, true)?;
    change_byte(&mut store.file, 0, 1);
    Ok(written_over::<K>(alloc, &store)?.is_none())
}

/// Each kind of damage.
struct Damages;

impl FilesCase for Damages {
    fn first_difference<K: InFiles>(alloc: Global) -> Result<String, Fail> {
        if !refuses_another_head::<K>(alloc)? {
            return Ok(String::from_str(alloc, "another head is opened")?);
        }
        for row in DAMAGES {
            let found = first_lost_of::<K>(alloc, row)?;
            if !found.is_empty() {
                return Ok(found);
            }
        }
        Ok(String::new(alloc))
    }
}

/// Whatever a store's files hold, it is refused or each request gets a reply.
#[test]
fn damaged_stores_are_refused_or_served(rt: HostRuntime) -> Result<(), Fail> {
    assert_eq!(rt; over_files::<Damages>(rt.alloc())?.as_str(), "");
    Ok(())
}

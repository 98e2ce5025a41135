//! The files that the program reads, and their texts.
ghost use Rattle.std.specs.Prelude.{◌≡◌, ◌+◌, ◌-◌, ◌^◌, min, IfOk, IfSome, take};
ghost use Rattle.text_core.specs.Prelude.{result_map};
ghost use Rattle.station_cli.specs.Prelude.{IsUnread, text_of_file};

use crate::failure::Failure;
use std::alloc::Global;
use std::io::Read;
use std::rt::Files;
use std::{fs, io, str};

/// The bytes of the file with this name. One that is longer than this limit isn't read whole, but as far
/// as one byte past it, which shows that it is too long.
///
/// # Errors
///
/// The file can't be opened or read, or memory runs out.
pub fn read_file(rt: &impl Files, alloc: Global, name: &str, limit: usize) -> io::Result<Vec<u8>> {
    let file = fs::open(rt, name)?;
    first_bytes(alloc, file, limit)
}

/// The bytes that a reader gives up to its end, or the first of them, as far as one past this limit.
fn first_bytes<R: Read + Drop>(alloc: Global, reader: R, limit: usize) -> io::Result<Vec<u8>>
    ensures { IfOk result (λ bytes. IfSome (R.remaining reader) (λ all.
        bytes.items ≡ take (min (limit + 1) (2 ^ 64 - 1)) all)) }
{
    let mut bytes = Vec::new(alloc);
    reader
        .take((limit as u64).saturating_add(1))
        .read_to_end(&mut bytes)?;
    Ok(bytes)
}

/// The failure of a file that an error kept from being read.
pub fn unread<'a>(name: &'a str, error: &io::Error) -> Failure<'a>
    ensures { IsUnread name.entry error.now result }
{
    if error.kind() == io::ErrorKind::OutOfMemory {
        Failure::NoMemory
    } else {
        Failure::CannotRead(name)
    }
}

/// The text that the bytes of the file with this name are, which may have so many bytes.
///
/// # Errors
///
/// `too_long` where there are more bytes, whatever they are; `CannotRead` where they are no UTF-8.
pub fn text_of_file<'a, 'b>(
    name: &'a str,
    bytes: &'b [u8],
    limit: usize,
    too_long: Failure<'a>,
) -> Result<&'b str, Failure<'a>>
    ensures { result_map (λ text. text.now) result
        ≡ text_of_file name.entry bytes.now limit too_long.entry }
{
    if bytes.len() > limit {
        return Err(too_long);
    }
    match str::from_utf8(bytes) {
        Ok(text) => Ok(text),
        Err(_) => Err(Failure::CannotRead(name)),
    }
}

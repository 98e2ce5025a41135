//! The file of a fuse map, the map that it describes, and the line of that map.
ghost use Rattle.std.specs.Prelude.{◌≡◌, ◌∷◌, ◌++◌, [], IfOk, IfErr, IsErrAnd, OnOk};
ghost use Rattle.std.specs.Io.KnownBytes.{Appends};
ghost use Rattle.text_core.specs.Prelude.{GivesUnless};
ghost use Rattle.station_cli.specs.Prelude.{IsUnread, map_failure, map_of_file, map_line};

use crate::failure::Failure;
use crate::file_text::{read_file, text_of_file, unread};
use fusemap_core::{FuseMap, MapFault, TEXT_LIMIT, read_map};
use std::alloc::Global;
use std::io;
use std::io::Write;
use std::rt::Files;

/// The bytes of the map's file with this name, or the first of them, which show that it is longer than a
/// map's text may be.
///
/// # Errors
///
/// The file can't be opened or read, or memory runs out.
pub fn read_map_file(rt: &impl Files, alloc: Global, name: &str) -> io::Result<Vec<u8>> {
    read_file(rt, alloc, name, TEXT_LIMIT)
}

/// The fuse map that a file describes, by what reading the file with this name gave.
///
/// # Errors
///
/// `CannotRead` where the file wasn't read or is no UTF-8; `MapFault` with the number of its text's
/// fault; `NoMemory`. A file over the limit of a map's text has the fault of that, 2, and no other,
/// whatever its bytes are.
pub fn map_of_file<'a>(
    alloc: Global,
    name: &'a str,
    file: io::Result<Vec<u8>>,
) -> Result<FuseMap, Failure<'a>>
    ensures unread { IfErr file (λ error. IsErrAnd result (IsUnread name.entry error)) }
    ensures read { IfOk file (λ bytes.
        GivesUnless Failure.NoMemory result (map_of_file name.entry bytes.items)) }
{
    match file {
        Ok(bytes) => map_from(alloc, name, bytes.as_slice()),
        Err(error) => Err(unread(name, &error)),
    }
}

/// The map that the bytes of the file with this name describe.
fn map_from<'a>(alloc: Global, name: &'a str, bytes: &[u8]) -> Result<FuseMap, Failure<'a>>
    ensures { GivesUnless Failure.NoMemory result (map_of_file name.entry bytes.now) }
{
    let too_long = map_failure(MapFault::BadMember);
    let text = text_of_file(name, bytes, TEXT_LIMIT, too_long)?;
    read_map(alloc, text).map_err(map_failure)
}

/// The failure that a fault of a map's text is.
fn map_failure(fault: MapFault) -> Failure<'static>
    ensures { result ≡ map_failure fault }
{
    match fault {
        MapFault::OutOfMemory => Failure::NoMemory,
        _ => Failure::MapFault(fault.number()),
    }
}

/// Writes the line of a map, and flushes: `ok`, its name, how many blocks it has and how many
/// fields.
pub fn write_map_line<W: Write>(map: &FuseMap, output: &mut W) -> io::Result<()>
    ensures { OnOk result (Appends (W.contents output.old) (W.contents output.new)
        (map_line map.now ++ 10 ∷ [])) }
{
    let blocks = map.blocks().len();
    let fields = map.fields().len();
    writeln!(output, "ok {} {blocks} {fields}", map.name())?;
    output.flush()
}

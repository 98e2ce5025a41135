//! What a site's file comes to where it is checked: the site, or why it isn't accepted.
ghost use Rattle.std.specs.Prelude.{◌≡◌, ◌⊎◌, ◌∷◌, ◌++◌, [], Err, Ok, IfOk, IfErr, IsErrAnd, OnOk};
ghost use Rattle.std.specs.Io.KnownBytes.{Appends};
ghost use Rattle.station_cli.specs.Prelude.{ChecksTo, IsCheckedFrom, IsUnread, checked_in, site_in, site_line};

use crate::failure::Failure;
use crate::file_text::{text_of_file, unread};
use crate::site_file::{bytes_of_file, site_text_of_bytes};
use site_core::{Site, TEXT_LIMIT};
use site_faults::{ToldFault, grown_site, read_told_site, too_long};
use std::alloc::Global;
use std::io;
use std::io::Write;

/// The site that a file describes, or its fault with the place, by what reading the file with this
/// name gave.
///
/// # Errors
///
/// `CannotRead` where the file wasn't read or is no UTF-8; `NoMemory`. A file over the limit of a
/// site's text has the fault of that, 6, and no other, whatever its bytes are.
pub fn check_file<'a>(
    alloc: Global,
    name: &'a str,
    file: io::Result<Vec<u8>>,
) -> Result<Result<Site, ToldFault>, Failure<'a>>
    ensures unread { IfErr file (λ error. IsErrAnd result (IsUnread name.entry error)) }
    ensures read { IfOk file (λ bytes. ChecksTo (checked_in name.entry bytes.items) result) }
{
    let bytes = bytes_of_file(name, file)?;
    check_bytes(alloc, name, bytes.as_slice())
}

/// The site that a file describes, where it grew from the one of an old file, by what reading the
/// files with these names gave; else why it isn't accepted.
///
/// # Errors
///
/// Those of `check_file`; those of the old file, of whose text no place is told.
pub fn check_files<'a>(
    alloc: Global,
    name: &'a str,
    file: io::Result<Vec<u8>>,
    old_name: &'a str,
    old_file: io::Result<Vec<u8>>,
) -> Result<Result<Site, ToldFault>, Failure<'a>>
    ensures unread { IfErr file (λ error. IsErrAnd result (IsUnread name.entry error)) }
    ensures unread_old { IfOk file (λ _.
        IfErr old_file (λ error. IsErrAnd result (IsUnread old_name.entry error))) }
    ensures read { IfOk file (λ bytes. IfOk old_file (λ old_bytes.
        (result ≡ Ok (Err ToldFault.NoMemory)) ⊎ (result ≡ Err Failure.NoMemory)
        ⊎ IsCheckedFrom (site_in old_name.entry old_bytes.items)
        (checked_in name.entry bytes.items) result)) }
{
    match file {
        Ok(bytes) => check_from(alloc, name, bytes.as_slice(), old_name, old_file),
        Err(error) => Err(unread(name, &error)),
    }
}

/// The site that bytes describe, where it grew from the one of the old file.
fn check_from<'a>(
    alloc: Global,
    name: &'a str,
    bytes: &[u8],
    old_name: &'a str,
    old_file: io::Result<Vec<u8>>,
) -> Result<Result<Site, ToldFault>, Failure<'a>>
    ensures unread { IfErr old_file (λ error. IsErrAnd result (IsUnread old_name.entry error)) }
    ensures read { IfOk old_file (λ old_bytes. (result ≡ Ok (Err ToldFault.NoMemory))
        ⊎ (result ≡ Err Failure.NoMemory)
        ⊎ IsCheckedFrom (site_in old_name.entry old_bytes.items) (checked_in name.entry bytes.now)
        result) }
{
    match old_file {
        Ok(old_bytes) => check_growth(alloc, name, bytes, old_name, old_bytes.as_slice()),
        Err(error) => Err(unread(old_name, &error)),
    }
}

/// The site that the bytes of the file with this name describe.
fn check_bytes<'a>(
    alloc: Global,
    name: &'a str,
    bytes: &[u8],
) -> Result<Result<Site, ToldFault>, Failure<'a>>
    ensures { ChecksTo (checked_in name.entry bytes.now) result }
{
    if bytes.len() > TEXT_LIMIT {
        return Ok(Err(too_long()));
    }
    let text = text_of_file(name, bytes, TEXT_LIMIT, Failure::NoMemory)?;
    Ok(read_told_site(alloc, text))
}

/// The site that bytes describe, where it grew from the one of the old bytes.
fn check_growth<'a>(
    alloc: Global,
    name: &'a str,
    bytes: &[u8],
    old_name: &'a str,
    old_bytes: &[u8],
) -> Result<Result<Site, ToldFault>, Failure<'a>>
    ensures { (result ≡ Ok (Err ToldFault.NoMemory)) ⊎ (result ≡ Err Failure.NoMemory)
        ⊎ IsCheckedFrom (site_in old_name.entry old_bytes.now)
        (checked_in name.entry bytes.now) result }
{
    match check_bytes(alloc, name, bytes)? {
        Ok(site) => {
            let old = site_text_of_bytes(alloc, old_name, old_bytes)?;
            Ok(grown_site(old.site(), site))
        }
        Err(fault) => Ok(Err(fault)),
    }
}

/// Writes the line of a site, and flushes: `ok`, and how many customers it has.
pub fn write_site_line<W: Write>(site: &Site, output: &mut W) -> io::Result<()>
    ensures { OnOk result (Appends (W.contents output.old) (W.contents output.new)
        (site_line site.now ++ 10 ∷ [])) }
{
    let customers = site.customers().len();
    writeln!(output, "ok {customers}")?;
    output.flush()
}

//! The file of a site, and the site that it describes.
ghost use Rattle.std.specs.Prelude.{◌≡◌, Ok, IfOk, IfErr, IsErrAnd};
ghost use Rattle.text_core.specs.Prelude.{GivesUnless, result_map};
ghost use Rattle.station_cli.specs.Prelude.{IsSiteOfFile, IsUnread, site_failure, site_in};

use crate::failure::Failure;
use crate::file_text::{read_file, text_of_file, unread};
use site_core::{SiteFault, SiteText, TEXT_LIMIT, read_site_text};
use std::alloc::Global;
use std::io;
use std::rt::Files;

/// The bytes of the site's file with this name, or the first of them, which show that it is longer than a
/// site's text may be.
///
/// # Errors
///
/// The file can't be opened or read, or memory runs out.
pub fn read_site_file(rt: &impl Files, alloc: Global, name: &str) -> io::Result<Vec<u8>> {
    read_file(rt, alloc, name, TEXT_LIMIT)
}

/// The bytes of a file, by what reading the file with this name gave.
///
/// # Errors
///
/// `CannotRead` where the file wasn't read, or `NoMemory`.
pub fn bytes_of_file<'a>(name: &'a str, file: io::Result<Vec<u8>>) -> Result<Vec<u8>, Failure<'a>>
    ensures unread { IfErr file (λ error. IsErrAnd result (IsUnread name.entry error)) }
    ensures read { IfOk file (λ bytes. result ≡ Ok bytes) }
{
    match file {
        Ok(bytes) => Ok(bytes),
        Err(error) => Err(unread(name, &error)),
    }
}

/// The text that the bytes of the file with this name are, and the site that it describes.
///
/// # Errors
///
/// `CannotRead` where the bytes are no UTF-8; `SiteFault` with the number of their text's fault;
/// `NoMemory`. Bytes over the limit of a site's text have that fault and no other, whatever they are.
pub fn site_text_of_bytes<'a>(
    alloc: Global,
    name: &'a str,
    bytes: &[u8],
) -> Result<SiteText, Failure<'a>>
    ensures site { GivesUnless Failure.NoMemory (result_map (λ t. t.site) result)
        (site_in name.entry bytes.now) }
    ensures text { IfOk result (λ t. t.text ≡ bytes.now) }
{
    let too_long = site_failure(SiteFault::OverLimit);
    let text = text_of_file(name, bytes, TEXT_LIMIT, too_long)?;
    read_site_text(alloc, text).map_err(site_failure)
}

/// The site that the file with this name describes, by what reading it gave.
///
/// # Errors
///
/// Those of `bytes_of_file`, then those of `site_text_of_bytes`.
pub fn site_of_file<'a>(
    alloc: Global,
    name: &'a str,
    file: io::Result<Vec<u8>>,
) -> Result<SiteText, Failure<'a>>
    ensures unread { IfErr file (λ error. IsErrAnd result (IsUnread name.entry error)) }
    ensures read { IfOk file (λ bytes. IsSiteOfFile name.entry bytes.items result) }
{
    let bytes = bytes_of_file(name, file)?;
    let site = site_text_of_bytes(alloc, name, bytes.as_slice())?;
    site.fact_digest();
    Ok(site)
}

/// The failure that a fault of a site's text is.
fn site_failure(fault: SiteFault) -> Failure<'static>
    ensures { result ≡ site_failure fault }
{
    match fault {
        SiteFault::OutOfMemory => Failure::NoMemory,
        _ => Failure::SiteFault(fault.number()),
    }
}

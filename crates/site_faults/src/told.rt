// The site of a text, or its fault with the place that has it.
ghost use Rattle.std.specs.Prelude.{◌≡◌, ◌⊎◌, IfOk, Some};
ghost use Rattle.text_core.specs.Prelude.{GivesUnless};
ghost use Rattle.toml.specs.View.{view};
ghost use Rattle.site_core.specs.Prelude.{site_fault_number};
ghost use Rattle.site_faults.specs.declared.told.ToldFault.TheVariants.{At};
ghost use Rattle.site_faults.specs.Prelude.{document_breach, fault_words, of_whole, site_told, text_breach, told_of, too_long};

use crate::breach::{SiteBreach, ToldBreach};
use crate::entries::read_entries;
use crate::judged::site_breach;
use crate::place::SitePlace;
use crate::reading::member_breach;
use crate::rule::SiteRule;
use members::DocumentFault;
use members::in_toml::read_document;
use site_core::{Site, SiteFault, TEXT_LIMIT, read_site};
use std::alloc::{AllocError, Global};
use std::fmt;
use toml::Value;

/// Why a site isn't accepted. It shows in words.
#[derive(Clone, Copy)]
pub enum ToldFault {
    /// Its text has the fault with this number, 1 to 6, first of all at this place.
    At(u8, ToldBreach),
    /// It is no growth of another one, of which this part comes first: the store's fault 1.
    NoGrowth(ToldBreach),
    /// Memory ran out.
    NoMemory,
}

impl fmt::Display for ToldFault {
    ghost output = { λ fault. Some (fault_words fault) };

    fn fmt<W: fmt::Write>(&self, f: &mut fmt::Formatter<W>) -> fmt::Result {
        match self {
            ToldFault::At(number, breach) => write!(f, "site fault {number}: {breach}"),
            ToldFault::NoGrowth(breach) => write!(f, "store fault 1: {breach}"),
            ToldFault::NoMemory => f.write_str("no memory"),
        }
    }
}

/// The site that a text is, as `read_site` reads it.
///
/// # Errors
///
/// The lowest fault of the text with the first place that has it, or want of memory.
pub fn read_told_site(alloc: Global, text: &str) -> Result<Site, ToldFault>
    ensures { GivesUnless ToldFault.NoMemory result (site_told text.now) }
{
    match read_site(alloc, text) {
        Ok(site) => Ok(site),
        Err(fault) => Err(told_fault(alloc, text, fault)),
    }
}

/// The fault of a text over its limit.
pub fn too_long() -> ToldFault
    ensures { result ≡ too_long }
{
    ToldFault::At(6, ToldBreach::of(of_whole(SiteRule::Length)))
}

/// A fault of a text with its place, or want of memory.
fn told_fault(alloc: Global, text: &str, fault: SiteFault) -> ToldFault
    ensures { (result ≡ told_of text.now fault) ⊎ (result ≡ ToldFault.NoMemory) }
{
    match fault {
        SiteFault::OutOfMemory => ToldFault::NoMemory,
        _ => placed_fault(alloc, text, fault),
    }
}

/// A fault of a text other than want of memory with its place, or want of memory.
fn placed_fault(alloc: Global, text: &str, fault: SiteFault) -> ToldFault
    ensures { (result ≡ At (site_fault_number fault) (text_breach fault text.now))
        ⊎ (result ≡ ToldFault.NoMemory) }
{
    match text_breach(alloc, text, fault) {
        Ok(breach) => ToldFault::At(fault.number(), ToldBreach::of(breach)),
        Err(_) => ToldFault::NoMemory,
    }
}

/// The first place of a text that has a fault.
fn text_breach(alloc: Global, text: &str, fault: SiteFault) -> Result<SiteBreach, AllocError>
    ensures { IfOk result (λ breach. breach ≡ text_breach fault text.now) }
{
    if TEXT_LIMIT < text.len() {
        return Ok(of_whole(SiteRule::Length));
    }
    match read_document(alloc, text) {
        Ok(document) => document_breach(alloc, &document, fault),
        Err(DocumentFault::NotDocument) => Ok(of_whole(SiteRule::Document)),
        Err(DocumentFault::OutOfMemory) => Err(AllocError),
    }
}

/// The first place of a document that has a fault: of its parts where all its members are there, else
/// of its members.
fn document_breach(
    alloc: Global,
    document: &Value,
    fault: SiteFault,
) -> Result<SiteBreach, AllocError>
    ensures { IfOk result (λ breach. breach ≡ document_breach fault (view document.now)) }
{
    match read_entries(alloc, document) {
        Ok(site) => match site_breach(alloc, fault, &site)? {
            Some(breach) => Ok(breach),
            None => Ok(of_whole(SiteRule::Kept)),
        },
        Err(SiteFault::BadMember) => Ok(member_breach(document)),
        Err(_) => Err(AllocError),
    }
}

/// The whole text breaks a rule.
fn of_whole(rule: SiteRule) -> SiteBreach
    ensures { result ≡ of_whole rule }
{
    SiteBreach {
        place: SitePlace::Whole,
        rule,
    }
}

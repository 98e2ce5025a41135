// A site with its text.
ghost use Rattle.std.specs.Prelude.{◌≡◌, ◌<◌, IfOk, length};
ghost use Rattle.sha2.specs.Sha256.{sha256};
ghost use Rattle.text_core.specs.Prelude.{GivesUnless, result_map};
ghost use Rattle.site_core.specs.SiteText.{IsSiteText, site_read};
ghost use Rattle.site_core.specs.Prelude.{site_text_limit};

use crate::fault::SiteFault;
use crate::site::Site;
use crate::text::read_site;
use std::alloc::Global;
use std::marker::Model;
use text_core::{Digest, Text};

/// A text, the site that it is, and the SHA-256 of its bytes.
#[derive(Drop)]
pub struct SiteText {
    text: Text,
    site: Site,
    digest: Digest,
}

impl Model for SiteText {
    ghost use Rattle.std.specs.Prelude.{◌≡◌};
    ghost use Rattle.sha2.specs.Sha256.{sha256};
    ghost use Rattle.site_core.specs.SiteText.{IsSiteText, TextOfSite};

    ghost Value = { TextOfSite };

    ghost view = { λ t. record { text = t.text; site = t.site; digest = t.digest } };

    ghost invariant = { λ t. IsSiteText t.text t.site × (t.digest ≡ sha256 t.text) };
}

impl SiteText {
    /// The text.
    pub fn text(&self) -> &str
        ensures same { result.now ≡ self.now.text }
        ensures is_text { IsSiteText self.now.text self.now.site }
    {
        self.text.as_str()
    }

    /// The site that the text is.
    pub fn site(&self) -> &Site
        ensures same { result.now ≡ self.now.site }
        ensures is_text { IsSiteText self.now.text self.now.site }
    {
        &self.site
    }

    /// The SHA-256 of the text.
    pub fn digest(&self) -> Digest
        ensures same { result ≡ self.now.digest }
        ensures of_text { result ≡ sha256 self.now.text }
    {
        self.digest
    }

    /// A fact: the digest is that of the text. Nothing happens.
    pub fn fact_digest(&self)
        ensures { self.now.digest ≡ sha256 self.now.text }
    {
        let _digest = &self.digest;
    }
}

/// Reads a text as `read_site` does, with the same faults, and keeps a copy of it beside its site.
pub fn read_site_text(alloc: Global, text: &str) -> Result<SiteText, SiteFault>
    ensures text { IfOk result (λ t. t.text ≡ text.now) }
    ensures site { GivesUnless SiteFault.OutOfMemory (result_map (λ t. t.site) result)
        (site_read text.now) }

    // A text over its limit is told its fault, and never want of memory.
    ensures too_long { site_text_limit < length text.now → result ≡ Err SiteFault.OverLimit }
{
    let site = read_site(alloc, text)?;
    let digest = Digest::of(text.as_bytes());
    let text = Text::copy_of(alloc, text)?;
    Ok(SiteText { text, site, digest })
}

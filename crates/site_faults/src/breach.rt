// A place of a site's text with the rule that it breaks, and how that is told.
ghost use Rattle.std.specs.Prelude.{◌≡◌, Some};
ghost use Rattle.site_faults.specs.Prelude.{breach_words};

use crate::place::SitePlace;
use crate::rule::SiteRule;
use std::fmt;
use std::marker::Model;

/// A place of a site's text, and the rule that it breaks. It shows in words.
#[derive(Clone, Copy)]
pub struct SiteBreach {
    /// The place.
    pub place: SitePlace,
    /// The rule.
    pub rule: SiteRule,
}

impl fmt::Display for SiteBreach {
    ghost output = { λ breach. Some (breach_words breach) };

    fn fmt<W: fmt::Write>(&self, f: &mut fmt::Formatter<W>) -> fmt::Result {
        write!(f, "{}{}", self.place, self.rule)
    }
}

/// A breach as callers see it. It shows in its words.
#[derive(Clone, Copy)]
pub struct ToldBreach {
    breach: SiteBreach,
}

impl Model for ToldBreach {
    ghost use Rattle.site_faults.specs.declared.breach.SiteBreach.{SiteBreach};

    ghost Value = { SiteBreach };

    ghost view = { λ t. t.breach };

    ghost inverse = { λ breach. record { breach = breach } };
}

impl ToldBreach {
    /// What is told of a breach.
    pub(crate) fn of(breach: SiteBreach) -> ToldBreach
        ensures { result ≡ breach }
    {
        ToldBreach { breach }
    }
}

impl fmt::Display for ToldBreach {
    ghost output = { λ breach. Some (breach_words breach) };

    fn fmt<W: fmt::Write>(&self, f: &mut fmt::Formatter<W>) -> fmt::Result {
        write!(f, "{}", self.breach)
    }
}

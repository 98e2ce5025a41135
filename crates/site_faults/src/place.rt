// The places of a site's text.
ghost use Rattle.std.specs.Prelude.{Some};
ghost use Rattle.site_faults.specs.Prelude.{place_words, title_words};

use crate::item::Item;
use std::fmt;
use text_core::Name;

/// A customer of a text. It shows as its name, or as its number where it has no name.
#[derive(Clone, Copy)]
pub enum Title {
    /// The customer of this name.
    Named(Name),
    /// The customer with this number in the text, from 1 on.
    Numbered(usize),
}

/// A place of a site's text. It shows as the words in front of a rule.
#[derive(Clone, Copy)]
pub enum SitePlace {
    /// The text, which shows as nothing.
    Whole,
    /// The array of the customers.
    Customers,
    /// The manager.
    Manager,
    /// A customer.
    Customer(Title),
    /// The part of a customer with this number among those of its kind, from 1 on.
    Part(Title, Item, usize),
}

impl fmt::Display for Title {
    ghost output = { λ title. Some (title_words title) };

    fn fmt<W: fmt::Write>(&self, f: &mut fmt::Formatter<W>) -> fmt::Result {
        match self {
            Title::Named(name) => write!(f, "{name}"),
            Title::Numbered(number) => write!(f, "{number}"),
        }
    }
}

impl fmt::Display for SitePlace {
    ghost output = { λ place. Some (place_words place) };

    fn fmt<W: fmt::Write>(&self, f: &mut fmt::Formatter<W>) -> fmt::Result {
        match self {
            SitePlace::Whole => Ok(()),
            SitePlace::Customers => f.write_str("customer: "),
            SitePlace::Manager => f.write_str("manager: "),
            SitePlace::Customer(title) => write!(f, "customer {title}: "),
            SitePlace::Part(title, item, number) => write!(
                f,
                "customer {title}, {item} {number}: "
            ),
        }
    }
}

// The rules of a site's text.
ghost use Rattle.std.specs.Prelude.{Some};
ghost use Rattle.site_faults.specs.Prelude.{rule_words};

use crate::item::Item;
use std::fmt;

/// A rule of a site's text that a place breaks. It shows as a sentence without its full stop.
#[derive(Clone, Copy)]
pub enum SiteRule {
    /// The text is TOML.
    Document,
    /// The text has at most 1,048,576 bytes.
    Length,
    /// There is an array of customers.
    CustomerArray,
    /// A name is one.
    Name,
    /// The parts of a kind are an array.
    ItemArray(Item),
    /// A pool has a first address.
    First,
    /// A pool has a count.
    Count,
    /// A token is given by its digest.
    Token,
    /// A name comes once.
    OnceNamed,
    /// A token comes once.
    OnceHeld,
    /// No address lies in two pools.
    Apart,
    /// Each address of a pool is one that a device can have.
    Individual,
    /// There are at most 64 customers.
    CustomerLimit,
    /// A customer has only so many parts of a kind.
    ItemLimit(Item),
    /// What was there is there as it was.
    Kept,
}

impl fmt::Display for SiteRule {
    ghost output = { λ rule. Some (rule_words rule) };

    fn fmt<W: fmt::Write>(&self, f: &mut fmt::Formatter<W>) -> fmt::Result {
        match self {
            SiteRule::Document => f.write_str("the text is no TOML document"),
            SiteRule::Length => f.write_str("the text has more than 1048576 bytes"),
            SiteRule::CustomerArray => f.write_str("it has to be an array of tables"),
            SiteRule::Name => f.write_str("a name has to be 1 to 32 of A-Z a-z 0-9 . _ -"),
            SiteRule::ItemArray(item) => write!(f, "{item} has to be an array"),
            SiteRule::First => f.write_str("first has to be twelve digits 0-9 a-f"),
            SiteRule::Count => f.write_str("count has to be 1 to 16777216"),
            SiteRule::Token => f.write_str("token has to be a SHA-256, 64 hexadecimal digits"),
            SiteRule::OnceNamed => f.write_str("the name is there already"),
            SiteRule::OnceHeld => f.write_str("the token is there already"),
            SiteRule::Apart => f.write_str("an address lies in a pool before it too"),
            SiteRule::Individual => {
                f.write_str("an address is a group address, or has more than 48 bits")
            }
            SiteRule::CustomerLimit => f.write_str("there are more than 64"),
            SiteRule::ItemLimit(item) => write!(f, "it has more than {} of {item}", item.limit()),
            SiteRule::Kept => f.write_str("it is gone, or has changed"),
        }
    }
}

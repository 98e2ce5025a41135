//! A site that is cut by its customers: one store for all of it, and a store for each part.
ghost use Rattle.std.specs.Prelude.{◌<◌};

use crate::isolation::TURNS;
use station_api::Served;
use std::alloc::{AllocError, Global};
use std::str;
use std::test::Fail;
use test_fixtures::conversations::Exchange;
use test_fixtures::conversations::devices::{ACME, BOLT};
use test_fixtures::samples::SITE;
use test_support::conversation::{in_turns, serve_for, streams_of};
use test_support::keepers::{Fresh, KeeperCase, over_each};
use test_support::lists::first_difference_in_list;

/// The parts of the sample site: the beginning of the lines that a customer's seat asks by, and the
/// text of a site that is the customer's section alone.
const PARTS: &[(&str, &str)] = &[("a1 ", ACME_SITE), ("b1 ", BOLT_SITE)];

/// The section of acme, whose seat is `a1`.
const ACME_SITE: &str = r#"[[customer]]
name = "acme"
issuer = ["acme-ca"]
[[customer.pool]]
first = "020000000010"
count = 4
[[customer.pool]]
first = "020000000020"
count = 4
[[customer.seat]]
name = "a1"
token = "ba7816bf8f01cfea414140de5dae2223b00361a396177a9cb410ff61f20015ad"
"#;

/// The section of bolt, whose seat is `b1`.
const BOLT_SITE: &str = r#"[[customer]]
name = "bolt"
issuer = ["bolt-ca"]
[[customer.seat]]
name = "b1"
token = "2cf24dba5fb0a30e26e83b2ac5b9e29e1b161e5c1fa7425e73043362938b9824"
"#;

/// The first section that isn't in the sample site as it stands in its part.
fn first_strange_part(alloc: Global) -> Result<String, AllocError> {
    for part in PARTS {
        if !SITE.contains(part.1) {
            return String::from_str(alloc, part.1);
        }
    }
    Ok(String::new(alloc))
}

/// The exchanges that begin so, in the order in which they come.
fn part_of<'a>(
    alloc: Global,
    exchanges: &[Exchange<'a>],
    beginning: &str,
) -> Result<Vec<Exchange<'a>>, AllocError> {
    let mut part = Vec::new(alloc);
    for exchange in exchanges {
        if exchange.asked.starts_with(beginning) {
            part.push(*exchange)?;
        }
    }
    Ok(part)
}

/// Makes exchanges in one stream over a keeper without rows, for the site of a text: nothing, where
/// what is written is their replies, and else what was wanted and what is written.
fn difference_in_stream<K: Fresh>(
    alloc: Global,
    site: &str,
    exchanges: &[Exchange<'_>],
) -> Result<String, Fail> {
    let mut keep = K::of_site(alloc, site)?;
    let (asked, wanted) = streams_of(alloc, exchanges)?;
    let (served, writer) = serve_for(alloc, &mut keep, site, asked.as_slice(), 4096)?;
    if served == Served::Ended && writer.bytes() == wanted.as_slice() {
        return Ok(String::new(alloc));
    }
    let wanted = str::from_utf8(wanted.as_slice()).unwrap_or("no text");
    let written = str::from_utf8(writer.bytes()).unwrap_or("no text");
    Ok(format!(in alloc; "one stream: Ended {wanted} -> {served:?} {written}")?)
}

/// Makes exchanges for the site of a text, in one stream over a keeper without rows and by one list
/// over another: what differs first.
fn first_for_site<K: Fresh>(
    alloc: Global,
    site: &str,
    exchanges: &[Exchange<'_>],
) -> Result<String, Fail> {
    let found = difference_in_stream::<K>(alloc, site, exchanges)?;
    if !found.is_empty() {
        return Ok(found);
    }
    first_difference_in_list(alloc, &mut K::of_site(alloc, site)?, site, exchanges)
}

/// The two seats' conversations in turns over one store with the whole site, and then over two stores,
/// each with the requests and the section of one customer.
#[derive(Drop)]
struct WholeAndParts {
    turns: &'static str,
}

impl KeeperCase for WholeAndParts {
    fn first_difference<K: Fresh>(&self, alloc: Global) -> Result<String, Fail> {
        let exchanges = in_turns(alloc, ACME, BOLT, self.turns)?;
        let found = first_for_site::<K>(alloc, SITE, exchanges.as_slice())?;
        if !found.is_empty() {
            return Ok(found);
        }
        for part in PARTS {
            let own = part_of(alloc, exchanges.as_slice(), part.0)?;
            let found = first_for_site::<K>(alloc, part.1, own.as_slice())?;
            if !found.is_empty() {
                return Ok(format!(in alloc; "alone: {found}")?);
            }
        }
        Ok(String::new(alloc))
    }
}

/// Each customer gets the same replies, byte for byte, where one store serves the whole site and where
/// a store of its own serves its section alone.
#[test]
fn parts_of_a_site_are_served_as_the_whole(rt: HostRuntime) -> Result<(), Fail> {
    assert_eq!(rt; first_strange_part(rt.alloc())?.as_str(), "");
    for turns in TURNS {
        let found = over_each(rt.alloc(), &WholeAndParts { turns: *turns })?;
        assert_eq!(rt; found.as_str(), "", "{turns}");
    }
    Ok(())
}

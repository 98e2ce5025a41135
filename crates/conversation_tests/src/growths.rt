//! Sites that grow in the middle of a list of requests.

use office_core::{Keep, MemKeep, Part, replay_parts};
use site_core::read_site;
use std::alloc::Global;
use std::test::Fail;
use test_fixtures::conversations::exchanges;
use test_fixtures::conversations::growths::{GROWTHS, Growth};
use test_fixtures::samples::SITE;
use test_support::lists::{first_difference_among, seat_requests};

/// Asks what is said before the sample site grew, and what is said after it, by one list of two parts:
/// the first request that doesn't get its reply, and what it got.
fn first_difference_in_parts<K: Keep>(
    alloc: Global,
    keep: &mut K,
    growth: &Growth,
) -> Result<String, Fail> {
    let (old, grown) = (read_site(alloc, SITE)?, read_site(alloc, growth.site)?);
    let mut all = exchanges(alloc, growth.before)?;
    let others = exchanges(alloc, growth.after)?;
    let first = seat_requests(alloc, &old, all.as_slice())?;
    let second = seat_requests(alloc, &grown, others.as_slice())?;
    if !old.is_growth(&grown) {
        return Err(Fail::from("no growth"));
    }
    let parts = [
        Part {
            site: &old,
            requests: first.as_slice(),
        },
        Part {
            site: &grown,
            requests: second.as_slice(),
        },
    ];
    let replies = replay_parts(alloc, keep, &parts)?;
    all.extend_from_slice(others.as_slice())?;
    first_difference_among(alloc, all.as_slice(), replies.as_slice())
}

/// The first difference among the growths of the sample site, behind the name of its growth.
fn first_difference_of_growths(alloc: Global) -> Result<String, Fail> {
    for growth in GROWTHS {
        let mut keep = MemKeep::new(alloc);
        let found = first_difference_in_parts(alloc, &mut keep, growth)?;
        if !found.is_empty() {
            return Ok(format!(in alloc; "{}: {found}", growth.name)?);
        }
    }
    Ok(String::new(alloc))
}

/// How many replies no parts get.
fn replies_to_no_parts(alloc: Global) -> Result<usize, Fail> {
    let mut keep = MemKeep::new(alloc);
    let replies = replay_parts(alloc, &mut keep, &[])?;
    Ok(replies.len())
}

/// One list in two parts, where the site grew in between; and no parts, which get no replies.
#[test]
fn sites_grow_between_requests(rt: HostRuntime) -> Result<(), Fail> {
    let found = first_difference_of_growths(rt.alloc())?;
    assert_eq!(rt; found.as_str(), "");
    assert_eq!(rt; replies_to_no_parts(rt.alloc())?, 0);
    Ok(())
}

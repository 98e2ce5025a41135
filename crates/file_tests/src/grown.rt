//! Stores in files of a site whose text is another when they are next opened: which texts are
//! taken, what is served then, and what a stop in between leaves.
use crate::disks::{
    FilesCase, InFiles, Store, held_over, is_told, opened_and_closed, over_files, undisturbed,
};
use crate::stops::first_lost;
use std::alloc::{AllocError, Global};
use std::test::Fail;
use test_fixtures::conversations::growths::{GROWTHS, Growth};
use test_fixtures::conversations::runs::{BOOKS, RUN};
use test_fixtures::conversations::{Exchange, exchanges};
use test_fixtures::samples::{GROWING, NEXT_TEXTS, SITE, SITE_WITH_A_CUSTOMER, SITE_WITH_A_POOL};
use test_support::stores::{tell_of, told_then};

/// The texts of the sites that grew from the sample.
const GROWN_SITES: &[&str] = &[SITE_WITH_A_POOL, SITE_WITH_A_CUSTOMER];

/// The texts of the sample site in which one of what may grow did, and those in which two did.
pub fn grown_texts(alloc: Global) -> Result<Vec<String>, AllocError> {
    let mut texts = Vec::new(alloc);
    for (place, one) in GROWING.iter().enumerate() {
        let grown = SITE.replace(alloc, one.0, one.1)?;
        for other in GROWING.iter().skip(place.saturating_add(1)) {
            texts.push(grown.as_str().replace(alloc, other.0, other.1)?)?;
        }
        texts.push(grown)?;
    }
    Ok(texts)
}

/// Opens a store, in which something stands, for a text: what differs, the number of the fault, the
/// text that the store tells of then, or what it shows.
pub fn difference_of_text<K: InFiles>(
    alloc: Global,
    store: &Store,
    text: &str,
    wanted: u8,
    shown: &[Exchange<'_>],
) -> Result<String, Fail> {
    let (fault, left) = opened_and_closed::<K>(alloc, store, text)?;
    if fault != wanted {
        return Ok(format!(in alloc; "fault {wanted} -> {fault}")?);
    }
    let told = told_then(fault, text);
    if !is_told::<K>(alloc, &left, told)? {
        return Ok(format!(in alloc; "another text after fault {fault}")?);
    }
    let (found, _) = held_over::<K>(alloc, &left, told, shown)?;
    Ok(found)
}

/// Opens a store of the sample site for each text that grew from it: what differs first, behind the
/// text.
pub fn first_difference_grown<K: InFiles>(
    alloc: Global,
    store: &Store,
    shown: &[Exchange<'_>],
) -> Result<String, Fail> {
    for text in grown_texts(alloc)? {
        let found = difference_of_text::<K>(alloc, store, text.as_str(), 0, shown)?;
        if !found.is_empty() {
            return Ok(format!(in alloc; "{text}: {found}")?);
        }
    }
    Ok(String::new(alloc))
}

/// The store of the sample site behind the run.
fn store_of_run<K: InFiles>(alloc: Global) -> Result<Store, Fail> {
    let run = exchanges(alloc, RUN)?;
    let (found, store) = held_over::<K>(alloc, &Store::new(alloc), SITE, run.as_slice())?;
    if !found.is_empty() {
        return Err(Fail::from(found));
    }
    Ok(store)
}

/// Opens the store of the sample site behind a run for the text of each row, and for those that grew:
/// what differs first, behind what stands in the text.
fn first_difference_opened<K: InFiles>(
    alloc: Global,
    rows: &[(&str, &str, u8)],
) -> Result<String, Fail> {
    let store = store_of_run::<K>(alloc)?;
    let books = exchanges(alloc, BOOKS)?;
    for row in rows {
        let text = SITE.replace(alloc, row.0, row.1)?;
        let found = difference_of_text::<K>(alloc, &store, text.as_str(), row.2, books.as_slice())?;
        if !found.is_empty() {
            return Ok(format!(in alloc; "{}: {found}", row.1)?);
        }
    }
    first_difference_grown::<K>(alloc, &store, books.as_slice())
}

/// Those of exchanges that only show something, and show it to a seat.
pub fn shown_of<'a>(
    alloc: Global,
    exchanges: &[Exchange<'a>],
) -> Result<Vec<Exchange<'a>>, AllocError> {
    let mut shown = Vec::new(alloc);
    for exchange in exchanges {
        if exchange.asked.contains(" GET ") && !exchange.asked.starts_with("manager ") {
            shown.push(*exchange)?;
        }
    }
    Ok(shown)
}

/// Opens a store for the site of a text, and then for the sample's: what differs of what is shown before and
/// of the books after it, or that the old text is taken back.
fn difference_over_grown<K: InFiles>(
    alloc: Global,
    store: &Store,
    site: &str,
) -> Result<String, Fail> {
    let books = exchanges(alloc, BOOKS)?;
    let shown = shown_of(alloc, books.as_slice())?;
    let (found, _) = held_over::<K>(alloc, store, SITE, shown.as_slice())?;
    if !found.is_empty() {
        return Ok(format!(in alloc; "before it: {found}")?);
    }
    let (found, grown) = held_over::<K>(alloc, store, site, books.as_slice())?;
    if !found.is_empty() {
        return Ok(found);
    }
    let (fault, left) = opened_and_closed::<K>(alloc, &grown, SITE)?;
    if fault != 1 || !is_told::<K>(alloc, &left, site)? {
        return Ok(format!(in alloc; "fault {fault} with the old text")?);
    }
    Ok(String::new(alloc))
}

/// Shows the books under each text that grew, after they were shown under the sample's: what differs first.
/// The old text is refused then.
fn first_difference_over_grown<K: InFiles>(alloc: Global) -> Result<String, Fail> {
    let store = store_of_run::<K>(alloc)?;
    for site in GROWN_SITES {
        let found = difference_over_grown::<K>(alloc, &store, site)?;
        if !found.is_empty() {
            return Ok(found);
        }
    }
    Ok(String::new(alloc))
}

/// Holds what is said before the site grew over files, and what is said after that over the same files, which
/// are closed in between and opened for the text that grew: what differs first, and what is left.
pub fn held_over_growth<K: InFiles>(
    alloc: Global,
    growth: &Growth,
) -> Result<(String, Store), Fail> {
    let before = exchanges(alloc, growth.before)?;
    let after = exchanges(alloc, growth.after)?;
    let new = Store::new(alloc);
    let (found, store) = held_over::<K>(alloc, &new, SITE, before.as_slice())?;
    if !found.is_empty() {
        return Ok((found, store));
    }
    held_over::<K>(alloc, &store, growth.site, after.as_slice())
}

/// The first difference among the growths of the sample site, behind the name of its growth.
fn first_difference_of_stores<K: InFiles>(alloc: Global) -> Result<String, Fail> {
    for growth in GROWTHS {
        let (found, _) = held_over_growth::<K>(alloc, growth)?;
        if !found.is_empty() {
            return Ok(format!(in alloc; "{}: {found}", growth.name)?);
        }
    }
    Ok(String::new(alloc))
}

/// Stops the growth at each call of either file, and shows the books behind each stop: what differs first, or
/// that the store doesn't tell of the text that grew then.
fn first_lost_in_growth<K: InFiles>(alloc: Global, loses_unsynced: bool) -> Result<String, Fail> {
    let (store, books) = (store_of_run::<K>(alloc)?, exchanges(alloc, BOOKS)?);
    let site = SITE_WITH_A_POOL;
    let rows = undisturbed::<K>(alloc, &store, site, &[])?;
    if !tell_of(alloc, rows.as_str(), site)? {
        return Ok(String::from_str(alloc, "the old text is told of")?);
    }
    first_lost::<K>(alloc, &store, site, books.as_slice(), 0, loses_unsynced)
}

/// Texts for which a store is next opened.
struct NextTexts;

impl FilesCase for NextTexts {
    fn first_difference<K: InFiles>(alloc: Global) -> Result<String, Fail> {
        first_difference_opened::<K>(alloc, NEXT_TEXTS)
    }
}

/// What is shown before and after a site grew.
struct BooksOverGrown;

impl FilesCase for BooksOverGrown {
    fn first_difference<K: InFiles>(alloc: Global) -> Result<String, Fail> {
        first_difference_over_grown::<K>(alloc)
    }
}

/// Requests before and after a site grew.
struct GrowthsBetween;

impl FilesCase for GrowthsBetween {
    fn first_difference<K: InFiles>(alloc: Global) -> Result<String, Fail> {
        first_difference_of_stores::<K>(alloc)
    }
}

/// A growth that is killed.
struct KilledGrowth;

impl FilesCase for KilledGrowth {
    fn first_difference<K: InFiles>(alloc: Global) -> Result<String, Fail> {
        first_lost_in_growth::<K>(alloc, false)
    }
}

/// A growth whose power fails.
struct GrowthWithoutPower;

impl FilesCase for GrowthWithoutPower {
    fn first_difference<K: InFiles>(alloc: Global) -> Result<String, Fail> {
        first_lost_in_growth::<K>(alloc, true)
    }
}

/// Files are opened for the text that they hold and for those that grew from it, which they hold
/// then; for another they aren't, and nothing is changed.
#[test]
fn stores_in_files_take_texts_that_grew(rt: HostRuntime) -> Result<(), Fail> {
    assert_eq!(rt; over_files::<NextTexts>(rt.alloc())?.as_str(), "");
    Ok(())
}

/// What was shown before the site grew is shown after it, and the old text is refused then.
#[test]
fn books_stay_where_sites_grow(rt: HostRuntime) -> Result<(), Fail> {
    assert_eq!(rt; over_files::<BooksOverGrown>(rt.alloc())?.as_str(), "");
    Ok(())
}

#[test]
fn sites_grow_between_openings(rt: HostRuntime) -> Result<(), Fail> {
    assert_eq!(rt; over_files::<GrowthsBetween>(rt.alloc())?.as_str(), "");
    Ok(())
}

/// A growth is stopped at each call of either file: the store is as it was or as the growth leaves it, and the
/// next opening takes the new text, with the same books.
#[test]
fn a_killed_growth_goes_on(rt: HostRuntime) -> Result<(), Fail> {
    assert_eq!(rt; over_files::<KilledGrowth>(rt.alloc())?.as_str(), "");
    Ok(())
}

/// A growth is stopped at each call of either file, and what wasn't synced is lost: the store is as it was or as
/// the growth leaves it, and the next opening takes the new text, with the same books.
#[test]
fn a_growth_goes_on_after_a_power_cut(rt: HostRuntime) -> Result<(), Fail> {
    assert_eq!(rt; over_files::<GrowthWithoutPower>(rt.alloc())?.as_str(), "");
    Ok(())
}

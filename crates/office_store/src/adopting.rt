// How a connection becomes a keeper.
ghost use Rattle.std.specs.Prelude.{◌≡◌, ◌≢◌, ◌↔◌, ℕ, length, List, Some, false, IsTrue, IfOk, IfErr, OnOk, IsUtf8};
ghost use Rattle.sqlite.specs.State.{HasCleanDisk};
ghost use Rattle.sqlite.specs.Held.{state};
ghost use Rattle.office_store.specs.Prelude.{CanBring, CanPrepareTables, CanTake, Examines, HandedKeeps, HandedLeaves, IsFoundAt, IsGrowable, IsApartAt};
ghost use Rattle.office_store.specs.Prelude.{IsFoundApart, IsHandedFor, IsOpenedFor, IsShownText, LeavesAtMost, PreparesTables};
ghost use Rattle.office_store.specs.Prelude.{new_meta, result_of_test, IsGrownFrom, IsOtherSchema, IsTestedFor};
ghost use Rattle.store_inspection.specs.Prelude.{meta_of_version, HasMeta, schema_of};
ghost use Rattle.office_store.specs.declared.fault.OpenFault.TheVariants.{OtherSite as TheSite, OtherTables as TheTables};
ghost use Rattle.store_inspection.specs.declared.version.Version.TheVariants.{V3};
ghost use Rattle.sha2.specs.Sha256.{sha256};
ghost use Rattle.site_core.specs.Prelude.{TextOfSite};

use crate::SqlKeep;
use crate::bring::{Found, bring};
use crate::fault::OpenFault;
use crate::opening::{Absent, prepare_or_hand_back};
use crate::reread::reread;
use site_core::{Site, SiteFault, SiteText, read_site};
use sqlite::{Alter, Connection, Error, Row};
use std::alloc::Global;
use store_inspection::{
    META_ID, Meta, Version, has_apart_addresses, has_site_text, has_validity_rows,
    has_whole_numbers, is_empty_schema, meta_row, only_text, told_rows, version_of,
};
use text_core::Digest;

/// What is handed back with a fault.
#[derive(Drop)]
pub enum Handed<S: Alter> {
    /// A connection to the store.
    Connection(Connection<S>),
    /// The store, to which no connection could be had.
    Store(S),
}

/// Whether what a store tells of itself is this version.
fn is_of_version(meta: &Meta, version: Version) -> bool
    ensures { IsTrue result ↔ (meta.now ≡ meta_of_version version meta.now.site) }
{
    meta.id == META_ID && meta.schema == u64::from(version.number())
}

/// Whether what a store tells of itself is this version and this site.
fn judge_meta(meta: Option<Meta>, site: &Digest, version: Version) -> Result<(), OpenFault>
    ensures same_site { OnOk result (meta ≡ Some (meta_of_version version site.now)) }
    ensures other_site { IfErr result (λ fault. fault ≡ TheSite
        → (other : List ℕ) × (length other ≡ 32)
        × (meta ≡ Some (meta_of_version version other)) × (other ≢ site.now)) }
    ensures other_tables { IfErr result (λ fault. fault ≡ TheTables
        → (other : List ℕ) → meta ≢ Some (meta_of_version version other)) }
{
    let Some(meta) = meta else {
        return Err(OpenFault::OtherTables);
    };
    if !is_of_version(&meta, version) {
        return Err(OpenFault::OtherTables);
    }
    if meta.site != *site {
        return Err(OpenFault::OtherSite);
    }
    Ok(())
}

/// What a test's answer comes to: it is passed, or the tables are other ones, or the store failed.
fn judge_answer(answer: Result<bool, Error>) -> Result<(), OpenFault>
    ensures { result ≡ result_of_test answer }
{
    match answer {
        Ok(true) => Ok(()),
        Ok(false) => Err(OpenFault::OtherTables),
        Err(_) => Err(OpenFault::Failed),
    }
}

/// Tests the rows of a store that has the tables of a version: its numbers and its addresses.
fn test_rows<S: Alter>(conn: &mut Connection<S>, version: Version) -> Result<(), OpenFault>
    requires can { CanPrepareTables (state S.Store conn.old) }
    requires has { (state S.Store conn.old).now.schema ≡ schema_of version }
    ensures { (site : TextOfSite)
        → Examines S.Store site conn.old conn.new result (IsFoundApart version) }
{
    judge_answer(has_whole_numbers(conn))?;
    judge_answer(has_apart_addresses(conn))
}

/// Whether the store tells of a text: it is of the third version, and names the text's SHA-256.
fn tells_text(meta: Option<Meta>, text: &str) -> bool
    ensures { IsTrue result ↔ (meta ≡ Some (new_meta (sha256 text.now))) }
{
    match meta {
        Some(meta) => {
            is_of_version(&meta, Version::V3) && meta.site == Digest::of(text.as_bytes())
        }
        None => false,
    }
}

/// Whether the site is a growth of the one that a text is.
fn judge_growth(alloc: Global, held: &str, site: &Site) -> Result<(), OpenFault>
    ensures grown { OnOk result (IsGrownFrom held.now site.now) }
    ensures other_site { IfErr result (λ fault. fault ≡ TheSite → ¬ IsGrownFrom held.now site.now) }
    ensures other_tables { IfErr result (λ fault. fault ≢ TheTables) }
{
    match read_site(alloc, held) {
        Ok(older) if older.is_growth(site) => Ok(()),
        Err(SiteFault::OutOfMemory) => Err(OpenFault::Failed),
        _ => Err(OpenFault::OtherSite),
    }
}

/// Whether the store tells of a text, and the site is a growth of the one that it is.
fn judge_text(alloc: Global, meta: Option<Meta>, rows: &[Row], site: &Site) -> Result<(), OpenFault>
    ensures grown { OnOk result ((text : List ℕ) × IsShownText text rows.now meta
        × IsGrownFrom text site.now) }
    ensures other_site { IfErr result (λ fault. fault ≡ TheSite
        → (text : List ℕ) × IsShownText text rows.now meta × ¬ IsGrownFrom text site.now) }
    ensures other_tables { IfErr result (λ fault. fault ≡ TheTables
        → (text : List ℕ) → IsUtf8 text → ¬ IsShownText text rows.now meta) }
{
    let Some(text) = only_text(rows) else {
        return Err(OpenFault::OtherTables);
    };
    if !tells_text(meta, text) {
        return Err(OpenFault::OtherTables);
    }
    judge_growth(alloc, text, site)
}

/// Tests that a store of the third version tells of a text, and that the site is a growth of the one
/// that it is.
fn test_growth<S: Alter>(
    alloc: Global,
    conn: &mut Connection<S>,
    site: &SiteText,
) -> Result<(), OpenFault>
    requires { IsFoundAt V3 (state S.Store conn.old) }
    ensures { Examines S.Store site.now conn.old conn.new result (λ db.
        CanTake site.now.site db.trees) }
{
    match told_rows(conn) {
        Ok((meta, rows)) => judge_text(alloc, meta, rows.as_slice(), site.site()),
        Err(_) => Err(OpenFault::Failed),
    }
}

/// Brings a database to the third version and the text of the site.
fn settle<S: Alter>(
    conn: &mut Connection<S>,
    site: &SiteText,
    found: Found,
) -> Result<(), OpenFault>
    requires mode { conn.old.in_transaction ≡ false }
    requires shows_committed { HasCleanDisk (state S.Store conn.old)
        → (state S.Store conn.old).now ≡ (state S.Store conn.old).committed }
    requires can { HasCleanDisk (state S.Store conn.old)
        → CanBring found site.now (state S.Store conn.old).now }
    ensures { PreparesTables S.Store site.now conn.old conn.new result }
{
    bring(conn, site, found)?;
    Ok(())
}

/// Tests a store that has the tables of an earlier version: its rows, and whose site it is of.
fn test_tables<S: Alter>(
    conn: &mut Connection<S>,
    site: &SiteText,
    version: Version,
) -> Result<(), OpenFault>
    requires earlier { version ≢ V3 }
    requires can { CanPrepareTables (state S.Store conn.old) }
    requires has { (state S.Store conn.old).now.schema ≡ schema_of version }
    ensures { Examines S.Store site.now conn.old conn.new result
        (λ db. IsFoundApart version db × HasMeta version (sha256 site.now.text) db.trees) }
{
    test_rows(conn, version)?;
    let meta = meta_row(conn)?;
    judge_meta(meta, &site.digest(), version)
}

/// Tests a store that has the tables of an earlier version: its rows, whose site it is of, and its
/// beginnings of validity, if it tells any.
fn test_earlier<S: Alter>(
    conn: &mut Connection<S>,
    site: &SiteText,
    version: Version,
) -> Result<(), OpenFault>
    requires earlier { version ≢ V3 }
    requires can { CanPrepareTables (state S.Store conn.old) }
    requires has { (state S.Store conn.old).now.schema ≡ schema_of version }
    ensures { Examines S.Store site.now conn.old conn.new result
        (IsTestedFor (sha256 site.now.text) version) }
{
    test_tables(conn, site, version)?;
    if version.has_no_validity_row() {
        return Ok(());
    }
    judge_answer(has_validity_rows(conn))
}

/// Tests and upgrades a store of an earlier version.
fn find_earlier<S: Alter>(
    conn: &mut Connection<S>,
    site: &SiteText,
    version: Version,
) -> Result<(), OpenFault>
    requires earlier { version ≢ V3 }
    requires can { CanPrepareTables (state S.Store conn.old) }
    requires has { (state S.Store conn.old).now.schema ≡ schema_of version }
    ensures { PreparesTables S.Store site.now conn.old conn.new result }
{
    test_earlier(conn, site, version)?;
    settle(conn, site, Found::Earlier(version))
}

/// Tests a store of the third version: its rows, its beginnings of validity, and that the site is
/// a growth of the one whose text it holds.
fn test_v3<S: Alter>(
    alloc: Global,
    conn: &mut Connection<S>,
    site: &SiteText,
) -> Result<(), OpenFault>
    requires can { CanPrepareTables (state S.Store conn.old) }
    requires has { (state S.Store conn.old).now.schema ≡ schema_of V3 }
    ensures { Examines S.Store site.now conn.old conn.new result
        (λ db. IsFoundApart V3 db × IsGrowable site.now.site db) }
{
    test_rows(conn, Version::V3)?;
    judge_answer(has_validity_rows(conn))?;
    test_growth(alloc, conn, site)
}

/// Holds the text of the site, where it isn't held.
fn hold_text<S: Alter>(conn: &mut Connection<S>, site: &SiteText) -> Result<(), OpenFault>
    requires found { IsFoundAt V3 (state S.Store conn.old) }
    requires apart { IsApartAt (state S.Store conn.old) }
    requires can { HasCleanDisk (state S.Store conn.old)
        → IsGrowable site.now.site (state S.Store conn.old).now }
    ensures { PreparesTables S.Store site.now conn.old conn.new result }
{
    match has_site_text(conn, site.text()) {
        Ok(true) => Ok(()),
        Ok(false) => settle(conn, site, Found::Today),
        Err(_) => Err(OpenFault::Failed),
    }
}

/// Tests a store of the third version, and holds the text of the site.
fn find_v3<S: Alter>(
    alloc: Global,
    conn: &mut Connection<S>,
    site: &SiteText,
) -> Result<(), OpenFault>
    requires can { CanPrepareTables (state S.Store conn.old) }
    requires has { (state S.Store conn.old).now.schema ≡ schema_of V3 }
    ensures { PreparesTables S.Store site.now conn.old conn.new result }
{
    test_v3(alloc, conn, site)?;
    hold_text(conn, site)
}

/// Tests a store that has the tables of a version, upgrades one of an earlier version, and holds the
/// text of a site that grew.
fn find<S: Alter>(
    alloc: Global,
    conn: &mut Connection<S>,
    site: &SiteText,
    version: Version,
) -> Result<(), OpenFault>
    requires can { CanPrepareTables (state S.Store conn.old) }
    requires has { (state S.Store conn.old).now.schema ≡ schema_of version }
    ensures { PreparesTables S.Store site.now conn.old conn.new result }
{
    match version {
        Version::V3 => find_v3(alloc, conn, site),
        _ => find_earlier(conn, site, version),
    }
}

/// Makes the tables of a store that has none, or tests those that are there, upgrades those of an
/// earlier version, and holds the text of a site that grew.
pub(crate) fn prepare_tables<S: Alter>(
    alloc: Global,
    conn: &mut Connection<S>,
    site: &SiteText,
) -> Result<(), OpenFault>
    requires { CanPrepareTables (state S.Store conn.old) }
    ensures prepares { PreparesTables S.Store site.now conn.old conn.new result }
    ensures other_schema { IsOtherSchema (state S.Store conn.old).now.schema
        → result ≡ Err OpenFault.OtherTables }
{
    if is_empty_schema(conn.schema()) {
        return settle(conn, site, Found::Nothing);
    }
    match version_of(conn.schema()) {
        Some(version) => find(alloc, conn, site, version),
        None => Err(OpenFault::OtherTables),
    }
}

/// Makes a keeper of a connection to the store of a site: it makes the tables of an empty store, in
/// one transaction, and tests those of another. To those of an earlier version, which must be of this
/// text, it adds what they lack, in one transaction too. One of this version holds the text of a
/// site of which this one must be a growth, and then holds this text. What isn't committed is lost.
///
/// # Errors
///
/// The fault, with the connection or its store. No row that was committed is changed then.
pub fn adopt<S: Alter + Drop>(
    alloc: Global,
    conn: Connection<S>,
    site: &SiteText,
) -> Result<SqlKeep<S>, (OpenFault, Handed<S>)>
    ensures opened { IfOk result (IsOpenedFor S.Store site.now Absent.Make
        (λ Says. Says (state S.Store conn).committed.trees)) }
    ensures clean { IfOk result (λ keep. HasCleanDisk (state S.Store keep.conn)
        → HasCleanDisk (state S.Store conn)) }
    ensures crash { IfOk result (λ keep. HasCleanDisk (state S.Store keep.conn)
        → LeavesAtMost site.now (state S.Store conn) (state S.Store keep.conn)) }
    ensures refused { IfErr result (λ e. IsHandedFor S.Store site.now e.0 e.1) }
    ensures unchanged { IfErr result (λ e. HandedKeeps S.Store (state S.Store conn) e.1) }
    ensures crash_left { IfErr result (λ e.
        HandedLeaves S.Store site.now (state S.Store conn) e.1) }
{
    let conn = match reread(alloc, conn) {
        Ok(conn) => conn,
        Err((_, store)) => return Err((OpenFault::Failed, Handed::Store(store))),
    };
    match prepare_or_hand_back(alloc, conn, site, Absent::Make) {
        Ok(keep) => Ok(keep),
        Err((fault, conn)) => Err((fault, Handed::Connection(conn))),
    }
}

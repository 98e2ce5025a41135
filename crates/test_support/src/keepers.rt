//! The keepers over which tests are run, and cases that are held over each.
use office_core::MemKeep;
use office_store::{SqlKeep, adopt};
use site_core::read_site_text;
use sqlite::{Alter, Connection, MemStore};
use std::alloc::Global;
use std::test::Fail;
use test_fixtures::samples::SITE;
use yield_counts::{Count, Counted};

/// The keeper over a database in memory.
pub type SqlMemory = SqlKeep<MemStore>;

/// A keeper that a test can begin with.
pub trait Fresh: Count + Drop {
    /// A keeper of no rows for the site of a text.
    fn of_site(alloc: Global, site: &str) -> Result<Self, Fail>;

    /// A keeper of no rows for the sample site.
    fn fresh(alloc: Global) -> Result<Self, Fail> {
        Self::of_site(alloc, SITE)
    }

    /// The keeper that is had where its store is opened again for the site of a text.
    fn reopened(self, alloc: Global, site: &str) -> Result<Self, Fail>;
}

impl Fresh for Counted<MemKeep> {
    fn of_site(alloc: Global, _site: &str) -> Result<Counted<MemKeep>, Fail> {
        Ok(Counted::over(alloc, MemKeep::new(alloc)))
    }

    fn reopened(self, _alloc: Global, _site: &str) -> Result<Counted<MemKeep>, Fail> {
        Ok(self)
    }
}

impl Fresh for Counted<SqlMemory> {
    fn of_site(alloc: Global, site: &str) -> Result<Counted<SqlMemory>, Fail> {
        let conn = Connection::open_in_memory(alloc)?;
        Ok(Counted::over(alloc, adopted(alloc, conn, site)?))
    }

    fn reopened(self, alloc: Global, site: &str) -> Result<Counted<SqlMemory>, Fail> {
        let conn = self.into_keep().into_connection();
        Ok(Counted::over(alloc, adopted(alloc, conn, site)?))
    }
}

/// A case that is held over keepers of any kind.
pub trait KeeperCase {
    /// What differs first over keepers of one kind, as a text that is empty where nothing does.
    fn first_difference<K: Fresh>(&self, alloc: Global) -> Result<String, Fail>;
}

/// What differs first in a case, over the keeper in memory.
pub fn over_memory<C: KeeperCase>(alloc: Global, case: &C) -> Result<String, Fail> {
    case.first_difference::<Counted<MemKeep>>(alloc)
}

/// What differs first in a case, over a database in memory. It alone names that keeper for a case: each
/// call that does costs the prover a quarter of a minute.
pub fn over_database<C: KeeperCase>(alloc: Global, case: &C) -> Result<String, Fail> {
    let found = case.first_difference::<Counted<SqlMemory>>(alloc)?;
    if found.is_empty() {
        return Ok(found);
    }
    Ok(format!(in alloc; "over SQL: {found}")?)
}

/// What differs first in a case, over the one and then over the other.
pub fn over_each<C: KeeperCase>(alloc: Global, case: &C) -> Result<String, Fail> {
    let found = over_memory(alloc, case)?;
    if !found.is_empty() {
        return Ok(found);
    }
    over_database(alloc, case)
}

/// The keeper over a database for the site of a text.
pub fn adopted<S: Alter + Drop>(
    alloc: Global,
    conn: Connection<S>,
    site: &str,
) -> Result<SqlKeep<S>, Fail> {
    let site = read_site_text(alloc, site)?;
    match adopt(alloc, conn, &site) {
        Ok(keep) => Ok(keep),
        Err((fault, _)) => Err(Fail::from(fault)),
    }
}

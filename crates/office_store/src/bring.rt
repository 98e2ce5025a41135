// How a database comes to be a store of the third version that holds a site's text: by the steps that
// lack, in one transaction.
ghost use Rattle.std.specs.Prelude.{◌≡◌, ◌↔◌, ◌≤◌, drop, false, IsTrue, OnOk, OnErr};
ghost use Rattle.sqlite.specs.State.{HasCleanDisk, Survives};
ghost use Rattle.sqlite.specs.Held.{state};
ghost use Rattle.office_sql.specs.Prelude.{SqlWrites, IsUndone, office_over};
ghost use Rattle.office_store.specs.Prelude.{all_steps, first_step_of, Brings, CanBring, HaveRun, IsBrought, IsEarly};
ghost use Rattle.store_inspection.specs.Prelude.{Sees};

use crate::remake::remake_tables;
use crate::steps::{STEPS, run_steps};
use site_core::SiteText;
use sqlite::{Alter, Connection, Error, Transaction};
use store_inspection::Version;

/// What a database is that is brought to the third version and a site's text.
#[derive(Clone, Copy)]
pub enum Found {
    /// There is no table yet.
    Nothing,
    /// It is a store of an earlier version, which tells of this text.
    Earlier(Version),
    /// It is one of the third version, with another text.
    Today,
}

/// Whether it is a store of before the first version.
fn is_early(found: Found) -> bool
    ensures { IsTrue result ↔ IsEarly found }
{
    match found {
        Found::Earlier(version) => matches!(version, Version::V1a | Version::V1b),
        _ => false,
    }
}

/// The place of the first step that lacks.
fn first_step(found: Found) -> usize
    ensures is { result ≡ first_step_of found }
    ensures within { result ≤ 15 }
{
    match found {
        Found::Nothing => 0,
        Found::Earlier(Version::V2) => 13,
        Found::Earlier(_) => 9,
        Found::Today => 15,
    }
}

/// Takes the steps that lack.
fn take_steps<S: Alter>(
    tx: &mut Transaction<'_, S>,
    site: &SiteText,
    found: Found,
) -> Result<(), Error>
    ensures same_reference { tx.new.conn.ghost_name ≡ tx.old.conn.ghost_name }
    ensures changes { SqlWrites S.Store tx.old.conn.now tx.new.conn.now result
        (λ old new _. HaveRun S.Store (drop (first_step_of found) all_steps)
        site.now.text old new) }
{
    run_steps(tx, &STEPS[first_step(found)..], site)
}

/// Makes `given` and the ledger of an early store anew, and takes the steps that lack then.
fn remake_first<S: Alter>(
    tx: &mut Transaction<'_, S>,
    site: &SiteText,
    found: Found,
) -> Result<(), Error>
    requires early { IsEarly found }
    requires can { Sees (CanBring found site.now) (state S.Store tx.old.conn.now) }
    ensures same_reference { tx.new.conn.ghost_name ≡ tx.old.conn.ghost_name }
    ensures changes { SqlWrites S.Store tx.old.conn.now tx.new.conn.now result
        (λ old new _. Brings found site.now.text old.trees new) }
{
    remake_tables(tx, site)?;
    take_steps(tx, site, found)
}

fn change_all<S: Alter>(
    tx: &mut Transaction<'_, S>,
    site: &SiteText,
    found: Found,
) -> Result<(), Error>
    requires { Sees (CanBring found site.now) (state S.Store tx.old.conn.now) }
    ensures same_reference { tx.new.conn.ghost_name ≡ tx.old.conn.ghost_name }
    ensures changes { SqlWrites S.Store tx.old.conn.now tx.new.conn.now result
        (λ old new _. Brings found site.now.text old.trees new) }
{
    if is_early(found) {
        return remake_first(tx, site, found);
    }
    take_steps(tx, site, found)
}

/// Brings a database to the third version and the text of the site, all in one transaction. It
/// makes the tables that lack, and tells of each order and record of the first version that it has no
/// beginning of validity.
pub fn bring<S: Alter>(conn: &mut Connection<S>, site: &SiteText, found: Found) -> Result<(), Error>
    requires can { Sees (CanBring found site.now) (state S.Store conn.old) }
    requires mode { conn.old.in_transaction ≡ false }
    requires shows_committed { IsTrue (state S.Store conn.old).is_open
        → (state S.Store conn.old).now ≡ (state S.Store conn.old).committed }
    ensures mode { conn.new.in_transaction ≡ false }
    ensures ok { HasCleanDisk (state S.Store conn.new) → OnOk result
        (IsBrought found site.now.text (state S.Store conn.old) (state S.Store conn.new)) }
    ensures err { HasCleanDisk (state S.Store conn.new)
        → OnErr result (IsUndone (state S.Store conn.old) (state S.Store conn.new)) }
    ensures crash { Survives (state S.Store conn.old) (state S.Store conn.new)
        (λ trees. IsTrue (state S.Store conn.old).is_open
        × Brings found site.now.text (state S.Store conn.old).now.trees (office_over trees)) }
{
    let mut tx = conn.transaction();
    change_all(&mut tx, site, found)?;
    tx.commit()
}

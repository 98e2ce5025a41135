// Lists of writes, each list in one transaction.
ghost use Rattle.std.specs.Prelude.{◌≡◌, ◌<◌, false, length, IsTrue, OnOk, OnErr};
ghost use Rattle.sqlite.specs.State.{HasCleanDisk, Survives};
ghost use Rattle.sqlite.specs.Held.{state};
ghost use Rattle.office_tables.specs.Prelude.{CanWrite, IsFree};
ghost use Rattle.office_sql.specs.Prelude.{tables_in, IsMade, IsUndone, LeavesMade, Wrote, SqlWrites, HasOffice, IsReady};

use crate::ask::ask_open;
use crate::devices::{add_device, put_device};
use crate::given::add_given;
use crate::ledger::add_entry;
use crate::links::add_link;
use crate::maps::add_map;
use crate::orders::{add_order, set_cursor};
use crate::seats::put_seat;
use office_tables::Write;
use sqlite::{Alter, Connection, Error, Transaction};
use std::alloc::Global;

/// Makes one write.
fn write_one<S: Alter>(
    alloc: Global,
    tx: &mut Transaction<'_, S>,
    write: &Write,
) -> Result<(), Error>
    requires office { HasOffice (state S.Store tx.old.conn.now) }
    requires free { IsTrue (state S.Store tx.old.conn.now).is_open
        → IsFree write.now (tables_in (state S.Store tx.old.conn.now).now.trees) }
    ensures same_reference { tx.new.conn.ghost_name ≡ tx.old.conn.ghost_name }
    ensures changes { SqlWrites S.Store tx.old.conn.now tx.new.conn.now result (λ old new _.
        Wrote write.now old new) }
{
    match write {
        Write::PutSeat(seat) => put_seat(tx, seat),
        Write::AddOrder(order) => add_order(alloc, tx, order),
        Write::SetCursor(cursor) => set_cursor(tx, cursor),
        Write::AddMap(map) => add_map(tx, map),
        Write::AddLink(link) => add_link(tx, link),
        Write::AddDevice(device) => add_device(tx, device.get()),
        Write::PutDevice(device) => put_device(tx, device.get()),
        Write::AddGiven(given) => add_given(alloc, tx, given),
        Write::AddEntry(entry) => add_entry(tx, entry.get()),
    }
}

/// Makes the writes in one transaction, all of them or none.
fn write_all<S: Alter>(
    alloc: Global,
    conn: &mut Connection<S>,
    writes: &[Write],
) -> Result<(), Error>
    requires mode { conn.old.in_transaction ≡ false }
    requires office { HasOffice (state S.Store conn.old) }
    requires free { IsTrue (state S.Store conn.old).is_open
        → CanWrite writes.now (tables_in (state S.Store conn.old).now.trees) }
    requires some { 0 < length writes.now }
    ensures mode { conn.new.in_transaction ≡ false }
    ensures ok { HasCleanDisk (state S.Store conn.new)
        → OnOk result (IsMade writes.now (state S.Store conn.old) (state S.Store conn.new)) }
    ensures err { HasCleanDisk (state S.Store conn.new)
        → OnErr result (IsUndone (state S.Store conn.old) (state S.Store conn.new)) }
    ensures crash { Survives (state S.Store conn.old) (state S.Store conn.new)
        (LeavesMade writes.now (state S.Store conn.old)) }
{
    let mut tx = conn.transaction();
    for write in writes {
        write_one(alloc, &mut tx, write)?;
    }
    tx.commit()
}

/// Makes the writes in one transaction, all of them or none. For none it only asks whether the store
/// is open.
pub fn commit<S: Alter>(
    alloc: Global,
    conn: &mut Connection<S>,
    writes: &[Write],
) -> Result<(), Error>
    requires ready { IsReady (state S.Store conn.old) }
    requires free { IsTrue (state S.Store conn.old).is_open
        → CanWrite writes.now (tables_in (state S.Store conn.old).now.trees) }
    ensures mode { conn.new.in_transaction ≡ false }
    ensures ok { HasCleanDisk (state S.Store conn.new)
        → OnOk result (IsMade writes.now (state S.Store conn.old) (state S.Store conn.new)) }
    ensures err { HasCleanDisk (state S.Store conn.new)
        → OnErr result (IsUndone (state S.Store conn.old) (state S.Store conn.new)) }
    ensures crash { Survives (state S.Store conn.old) (state S.Store conn.new)
        (LeavesMade writes.now (state S.Store conn.old)) }
{
    if writes.is_empty() {
        ask_open(conn)?;
        return Ok(());
    }
    write_all(alloc, conn, writes)
}

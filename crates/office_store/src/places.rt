// How many devices take a place of an order.
ghost use Rattle.std.specs.Prelude.{◌≡◌, filter, length};
ghost use Rattle.sqlite.specs.Held.{state};
ghost use Rattle.office_tables.specs.Prelude.{places_taken, rows_of};
ghost use Rattle.office_sql.specs.Prelude.{SqlReads, HasOffice};
ghost use Rattle.office_store.specs.Prelude.{takes};

use office_sql as sql;
use office_sql::OrderState;
use sqlite::{Alter, Connection, Error};
use std::alloc::Global;
use text_core::Name;

/// How many devices take a place of one order, by their orders and states.
fn places_in(states: &[OrderState], order: &Name) -> u64
    ensures { result ≡ length (filter (takes order.now) states.now) }
{
    let mut count = 0;
    for one in states {
        if *order == one.order && !one.state.is_given_up() {
            count += 1;
        }
    }
    count
}

/// How many places of a customer's order are taken, by the states of all its devices.
pub(crate) fn count_places<S: Alter>(
    alloc: Global,
    conn: &mut Connection<S>,
    customer: &Name,
    order: &Name,
) -> Result<u64, Error>
    requires { HasOffice (state S.Store conn.old) }
    ensures { SqlReads S.Store conn.old conn.new result (λ t count. count
        ≡ places_taken order.now (rows_of customer.now t.devices)) }
{
    match sql::order_states(alloc, conn, customer) {
        Ok(states) => Ok(places_in(states.as_slice(), order)),
        Err(error) => Err(error),
    }
}

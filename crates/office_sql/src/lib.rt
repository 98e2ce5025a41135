//! The tables of all customers in SQL: one function for each fixed statement.
//!
//! Over any store of the kit's `sqlite` each read answers the rows of the tables that it is for, or
//! a fault, and changes nothing; a visit hands them on one at a time. `commit` makes all of its
//! writes in one transaction, exactly, or none: the tables, the columns of each row to the byte
//! (`WritesRows`), `meta` as it was, and a database that obeys its schema. Of what a crash leaves
//! it says the same (`LeavesMade`). Texts of requests come into statements as parameters alone. The
//! meaning of a database as tables is `specs/Rows` and `specs/Tables`.
#![tactic(auto)]

mod address;
mod ask;
mod devices;
mod given;
mod ledger;
mod links;
mod maps;
mod not_before;
mod number;
mod orders;
mod read;
mod seats;
mod visit;
mod write;

pub use ask::ask_open;
pub use devices::{OrderState, device_row, order_states, visit_devices, visit_devices_behind};
pub use given::{given_by_key, given_row, visit_given, visit_serials_behind};
pub use ledger::{last_entry, visit_ledger};
pub use links::{link_row, visit_links};
pub use maps::{map_id, map_row};
pub use orders::{order_row, visit_claims, visit_orders};
pub use read::{DAMAGED, digest_at, whole_at};
pub use seats::seat_row;
pub use write::commit;

//! What is counted of orders: how many of an order's devices are in each column of states, and how many of
//! its serial numbers aren't given.
//!
//! `Counted` is a keeper over another one. Its call `count_order` answers what a walk over the tables as they
//! stand would give (`AreCountsOf`), whatever was committed since, refused or failed. What was counted once
//! it keeps in memory, about 200 bytes an order, and follows each commit: nothing of it is in the store. Where
//! there is no memory to follow one, the customer, or the issuer's ranges, are counted anew.
//!
//! How many places of an order are taken (`places_taken`) is the sum of its columns but the last two, of the
//! quarantined and of the scrapped devices.
//!
//! No clause says what a walk costs, nor that one is spared: a test counts the walks of requests.
#![tactic(auto)]

mod columns;
mod count;
mod counted;
mod devices;
mod left;
mod serials;
mod walks;
mod written;

pub use count::{COLUMNS, Columns, Count, OrderCounts};
pub use counted::Counted;

//! Yield reports: what has become of the devices of each order, and of each customer's orders, as
//! comma-separated text.
//!
//! `order_report` and `site_report` give the text of the definition, with each count exact and none
//! past 9223372036854775807, or Unkept. They read only, over any keeper that counts, and ask nothing
//! of the tables. They walk over a customer's orders, and over no device or record.
//!
//! No clause of theirs says when Unkept comes: for want of memory, a keeper's fault, or a number past
//! that limit.
#![tactic(auto)]

mod lines;
mod names;
mod orders;
mod rows;
mod sites;
mod yields;

pub use orders::order_report;
pub use sites::site_report;

//! Where the fault of a site's text is: the customer, the member and the broken rule.
//!
//! `read_told_site` answers the site of a text as `read_site` does, or tells its lowest fault with
//! the first place that has it (`site_told`). `grown_site` answers a site that grew from another
//! one, or tells the first part of that one that it hasn't (`first_lost`). A `ToldBreach` shows in
//! words (`breach_words`), of which none is a token or its digest.
#![tactic(auto)]

mod breach;
mod double;
mod entries;
mod growth;
mod item;
mod judged;
mod place;
mod reading;
mod rule;
mod told;

pub use breach::ToldBreach;
pub use growth::grown_site;
pub use told::{ToldFault, read_told_site, too_long};

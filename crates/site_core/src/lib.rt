//! The customers that one server serves: their issuers, pools and seats, as a text gives them.
//!
//! `read_site` gives the site of a text, or the lowest of the faults 1 to 6, or says that memory
//! ran out. It accepts exactly the texts of valid sites (`exact`, `valid`, `refused`). A text over
//! its limit gets its fault, and never want of memory (`too_long`). The fault of a text with all
//! its members is that of a broken rule, and no rule with a lower number is broken (`lowest`). A
//! `SiteText` is a text with its site and its SHA-256; `read_site_text` answers as `read_site`
//! does.
//!
//! In a `Site` no customer, issuer, seat or token comes twice, no address lies in two pools, and no
//! limit is passed. The issuers, seats and pools of a customer are that customer's alone
//! (`sections_are_the_customers_own`). `Site::who` names the caller whose token has the same
//! SHA-256, a seat or the manager, and none else, without memory.
//!
//! `Site::is_growth` is true exactly where the new site grew from the old one (`IsGrowth`), and
//! takes no memory. The new site keeps each customer's name, issuers and seats with their tokens,
//! the customer's pools in front of any others, and the manager's token. Whose a customer, an
//! issuer, a seat and a block of addresses are stays so in a growth (`owners_grow_with_a_site`). A
//! site is a growth of itself, and a growth of a growth is one of the first
//! (`growth_is_a_preorder`).
#![tactic(auto)]

mod customer;
mod draft;
mod fault;
mod growth;
mod judge;
mod ownership;
mod site;
mod site_text;
mod text;

pub use customer::{Customer, ISSUER_LIMIT, POOL_LIMIT, SEAT_LIMIT, Seat};
pub use fault::SiteFault;
pub use ownership::{
    growth_is_a_preorder, owners_grow_with_a_site, sections_are_the_customers_own,
};
pub use site::{CUSTOMER_LIMIT, Caller, SeatCaller, Site};
pub use site_text::{SiteText, read_site_text};
pub use text::{TEXT_LIMIT, read_site};

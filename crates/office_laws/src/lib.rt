//! The laws that hold of the office, of one request and of whole runs, with what they speak of: a
//! customer's own machine, and sound tables. Each customer sees that customer's own machine alone,
//! nothing that was burnt or given goes, and no identity gives what another gave. A request that
//! comes again acts once, however often the server was stopped and whoever came in between.
//!
//! All are laws over the definitions alone. These are of one request:
//!
//! - `steps_are_the_customers_own`: from sound tables, a step of a customer's seat (`SeatStep`)
//!   gives the reply and the view of the customer's own machine (`own`). That is the same machine
//!   over the customer's rows alone, and knows of nobody else; what the two share isn't tried by
//!   it. The step leaves each other customer's view, and keeps the tables sound. Nothing goes that
//!   must stay (`Grows`). Each device is still there, in its order and with its fuse map, and each
//!   position and key digest that was known to be burnt is known still. Each order is still there,
//!   and but for its cursor as it was. Each record of a serial number stands unchanged, and so does
//!   each entry of a ledger. No order gets more devices than it is for, and no record an end of its
//!   validity, where none had any. An identity that isn't a repeat and is answered 200 shows a
//!   record of its key, which stands then (`fresh`). The record's serial number was given to nobody
//!   in its issuer, and none of its addresses is that of another record (`IssuesFresh`).
//! - `a_batch_matches_where_it_is_seen`: a read-back of a device of sound tables, whose words fit
//!   its map, matches exactly where the chip shows what it would with the whole batch burnt that is
//!   burnt next (`verdict`). The reply to one that isn't a repeat and is answered 200 tells a match
//!   exactly there (`reply`).
//! - `identities_are_shown`: over sound tables the identity of each device that has a record is
//!   shown as that record, to the seats of its customer. So what an identity was answered is shown
//!   for as long as its record stands (`IssuesFresh`, `Grows`).
//! - `only_the_redaction_is_kept`: registrations that show the same have the same steps, whatever
//!   their words, and so have read-backs.
//! - `always_a_step`: from sound tables each request has a step, so no key of a stranger's row
//!   stands in its way.
//! - `lowest_number_is_answered`: of the refusals of a command that hold, the one that is answered
//!   has the lowest number, above those of the retry rule.
//! - `pages_show_each_device_once`: pages of the same devices of a customer, each behind the end of
//!   the one before, show each device once, in the order of the chips, and no other. That is so in
//!   tables that are in the order of their keys, sound or not.
//! - `no_rows_are_sound`: no rows are sound tables.
//!
//! A run is a list of calls of seats, each with its reply. Each call is a step of the office, the
//! report of the seat's customer, a refusal of what came, or 503, of which the last three change
//! nothing. That the tables which it begins with are sound is a premise, and the site may grow on
//! the way (`SeatRun`). These are the laws of runs:
//!
//! - `runs_are_the_customers_own`: the tables stay sound, and nothing goes that must stay
//!   (`Grows`). A customer's replies and view are those of the customer's own machine, run on the
//!   customer's own calls that were not answered 503 (`IsIsolated`).
//! - `other_calls_make_no_difference`: from equal views, equal own calls (`StartAlike`) get equal
//!   replies and leave equal views (`EndAlike`), whatever the others are.
//! - `repeats_act_once`: the view is that after each accepted command once, and one that comes
//!   again gets the reply of the first.
//! - `identities_give_once`: accepted identities that are no repeats show records of which no two
//!   have a serial number of one issuer or an address in common. Their numbers were given to nobody
//!   before, and no import has recorded them at any moment. The addresses of a record never change.
//! - `runs_exist`: any list of calls of seats has a run, in which none is answered 503, but what
//!   was refused with it as it came. So no law of runs is empty.
//! - `runs_keep_the_promises`: all of it under one word (`Promises`).
//! - `stopped_runs_are_runs`: a run with stops is one run. After each stop the tables may be those
//!   after one step more, of a request that was cut off or answered 503, and the one run has that
//!   step in it. So all that is promised of a run is promised of it. What a crash may leave after a
//!   run is what a stop may leave.
//! - `sites_may_grow`: tables that are sound for a site are sound for each that grew from it.
#![tactic(auto)]

mod isolation;
mod pages;
mod refusals;
mod runs;

pub use isolation::{
    a_batch_matches_where_it_is_seen, always_a_step, identities_are_shown, no_rows_are_sound,
    only_the_redaction_is_kept, steps_are_the_customers_own,
};
pub use pages::pages_show_each_device_once;
pub use refusals::lowest_number_is_answered;
pub use runs::{
    identities_give_once, other_calls_make_no_difference, repeats_act_once,
    runs_are_the_customers_own, runs_exist, runs_keep_the_promises, sites_may_grow,
    stopped_runs_are_runs,
};

//! What a station of a seat may conclude, over a server by its number's rule and any network.
//!
//! A station is the machine of `seat_core`. A server is any that keeps to the rule of the page on
//! the API, "The protocol of a seat" (`Answers` in `specs/`): the next number is judged, the newest
//! comes again and gets its reply again, any other is refused as 11 or 12, and anything as 1 to 10
//! or 50. A run (`IsRun`) is a list of what happens: something befalls the station, which does all
//! that the machine says or is stopped in between; a copy of a request that was sent comes to the
//! server, at any time and any number of times; somebody else has a request done.
//!
//! Laws over the definitions alone:
//!
//! - `a_station_concludes_what_was_done`: where nobody else has the seat's token (`IsAlone`), no
//!   person has the station go on (`IsUnaided`), and none of those that are kept aside is forgotten
//!   (`KeepsAll`), the station's log is what was done, but for at most one request, which it has
//!   under way or aside. Each reply that it told is that of an execution of its own, and it hasn't
//!   stopped (`Concludes`).
//! - `a_wanted_request_is_done_once`: over any run, what the station sent of a request was done at
//!   most as often as the request was wanted (`IsDoneOnce`).
//! - `what_is_sent_is_logged`: whatever anybody answers, where no person has the station go on, what
//!   it sent has its line in the log (`IsLogged`).
//! - `a_logged_refusal_was_answered`: over any run, each refusal in the log is an answer to the
//!   request of the newest line before it (`WereRefused`).
#![tactic(auto)]

mod laws;

pub use laws::{
    a_logged_refusal_was_answered, a_station_concludes_what_was_done,
    a_wanted_request_is_done_once, what_is_sent_is_logged,
};
